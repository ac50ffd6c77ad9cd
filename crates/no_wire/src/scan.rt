ghost use Rattle.std.specs.Prelude.{◌≡◌, ◌↔◌, ◌+◌, ◌<◌, ◌≤◌, IsTrue, Some, get_or, length};
ghost use Rattle.no_wire.specs.Kinds.{HasLength, kind_at};
ghost use Rattle.no_wire.specs.Fronts.{BodyGood, EpochGood, FinishGood, IsSeen, LengthGood, NoEpochGood, SomeEpochGood, StartGood, length_in};

use crate::fault::WireFault;
use crate::kind::Kind;
use crate::numbers::u32_at;

/// What bytes are that have no whole frame at their front.
#[derive(Clone, Copy, Debug, PartialEq, Eq)]
pub(crate) enum Tail {
    /// Less than a frame, and they stay so below so many bytes.
    Open(usize),
    /// They begin no frame.
    Broken(WireFault),
}

/// What a look at the bytes since the last whole frame says.
#[derive(Clone, Copy, Debug, PartialEq, Eq)]
pub(crate) enum Seen {
    /// A frame of this kind and of so many bytes stands at their front.
    Whole(Kind, usize),
    /// None does.
    Not(Tail),
}

/// From so many bytes on nothing that is asked of a frame is open but its length.
const FRONT: usize = 30;

/// Whether a length can begin so.
pub(crate) fn length_begins(bytes: &[u8]) -> bool
    ensures { IsTrue result ↔ LengthGood bytes.now }
{
    let len = bytes.len();
    if len > 3 {
        let n = u32_at(bytes, 0);
        return 5 <= n && n <= 65536;
    }
    (len < 1 || bytes[0] == 0)
        && (len < 2 || bytes[1] <= 1)
        && (len < 3 || bytes[1] == 0 || bytes[2] == 0)
}

/// Whether the epoch is 0, as far as it is there.
fn no_epoch_begins(bytes: &[u8]) -> bool
    ensures { IsTrue result ↔ NoEpochGood bytes.now }
{
    let len = bytes.len();
    (len < 6 || bytes[5] == 0)
        && (len < 7 || bytes[6] == 0)
        && (len < 8 || bytes[7] == 0)
        && (len < 9 || bytes[8] == 0)
}

/// Whether the epoch is not 0, where it is there.
fn some_epoch_begins(bytes: &[u8]) -> bool
    ensures { IsTrue result ↔ SomeEpochGood bytes.now }
{
    bytes.len() < 9 || bytes[5] != 0 || bytes[6] != 0 || bytes[7] != 0 || bytes[8] != 0
}

fn epoch_begins(kind: Kind, bytes: &[u8]) -> bool
    ensures { IsTrue result ↔ EpochGood kind bytes.now }
{
    if kind.is_of_no_epoch() {
        no_epoch_begins(bytes)
    } else {
        some_epoch_begins(bytes)
    }
}

/// Whether a call says as many arguments as its length leaves room for.
fn start_begins(bytes: &[u8]) -> bool
    ensures { IsTrue result ↔ StartGood bytes.now }
{
    bytes.len() < 30 || 26 + 8 * u32::from(bytes[29]) == u32_at(bytes, 0)
}

/// Whether the byte at a place is 0, where it is there.
fn is_zero_at(bytes: &[u8], at: usize) -> bool
    ensures { IsTrue result ↔ (at < length bytes.now → get_or bytes.now at 0 ≡ 0) }
{
    bytes.len() <= at || bytes[at] == 0
}

fn finish_begins(bytes: &[u8]) -> bool
    ensures { IsTrue result ↔ FinishGood bytes.now }
{
    if bytes.len() < 10 || bytes[9] == 0 {
        return true;
    }
    if bytes[9] > 3 {
        return false;
    }
    if !(is_zero_at(bytes, 10)
        && is_zero_at(bytes, 11)
        && is_zero_at(bytes, 12)
        && is_zero_at(bytes, 13)
        && is_zero_at(bytes, 14)
        && is_zero_at(bytes, 15)
        && is_zero_at(bytes, 16))
    {
        return false;
    }
    if bytes.len() < 18 {
        return true;
    }
    match bytes[9] {
        1 => true,
        2 => 1 <= bytes[17] && bytes[17] <= 9,
        _ => bytes[17] == 0,
    }
}

/// Whether what stands behind the epoch is right, as far as it is there.
fn body_begins(kind: Kind, bytes: &[u8]) -> bool
    ensures { IsTrue result ↔ BodyGood kind bytes.now }
{
    match kind {
        Kind::Start => start_begins(bytes),
        Kind::Finish => finish_begins(bytes),
        _ => true,
    }
}

/// Whether length, epoch and body are right for the kind, as far as they are there.
pub(crate) fn frame_begins(kind: Kind, bytes: &[u8]) -> bool
    requires { 4 < length bytes.now }
    ensures { IsTrue result ↔ (HasLength kind (length_in bytes.now) × EpochGood kind bytes.now × BodyGood kind bytes.now) }
{
    kind.has_length(u32_at(bytes, 0)) && epoch_begins(kind, bytes) && body_begins(kind, bytes)
}

/// Looks at bytes whose front says its length, in 4 bytes or more.
fn see_frame(kind: Kind, bytes: &[u8]) -> Seen
    requires more { 4 < length bytes.now }
    requires counted { LengthGood bytes.now }
    requires known { kind_at (get_or bytes.now 4 0) ≡ Some kind }
    ensures { IsSeen result bytes.now }
{
    if !frame_begins(kind, bytes) {
        return Seen::Not(Tail::Broken(WireFault::Body));
    }
    let whole = u32_at(bytes, 0) as usize + 4;
    let len = bytes.len();
    if whole <= len {
        return Seen::Whole(kind, whole);
    }
    if len < FRONT {
        Seen::Not(Tail::Open(len + 1))
    } else {
        Seen::Not(Tail::Open(whole))
    }
}

/// Looks at the bytes since the last whole frame. It reads at most 30 of them.
pub(crate) fn see(bytes: &[u8]) -> Seen
    ensures { IsSeen result bytes.now }
{
    if !length_begins(bytes) {
        return Seen::Not(Tail::Broken(WireFault::Length));
    }
    if bytes.len() < 5 {
        return Seen::Not(Tail::Open(bytes.len() + 1));
    }
    match Kind::of(bytes[4]) {
        Some(kind) => see_frame(kind, bytes),
        None => Seen::Not(Tail::Broken(WireFault::Kind)),
    }
}
