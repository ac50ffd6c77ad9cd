ghost use Rattle.std.specs.Prelude.{◌≡◌, ℕ, ◌+◌, ◌<◌, ◌≤◌, ◌++◌, IfOk, length};
ghost use Rattle.no_wire.specs.Fronts.{IsOpen, length_in};
ghost use Rattle.no_wire.specs.Fed.{IsFilled, IsMissing, IsRead};
ghost use Rattle.no_wire.specs.Spelled.{Keeps};

use crate::msg::Msg;
use crate::numbers::u32_at;
use crate::reading::read;
use crate::scan::{Seen, Tail, see};
use no_ir::{List, NoMemory};
use std::alloc::Global;

/// How many bytes are missing to the length, or to the whole frame where the length is there.
fn missing(rest: &[u8]) -> usize
    requires { IsOpen rest.now }
    ensures { IsMissing rest.now result }
{
    let len = rest.len();
    if len < 4 {
        4 - len
    } else {
        u32_at(rest, 0) as usize + 4 - len
    }
}

/// Moves bytes of a piece behind the rest of a frame until the frame is whole, the piece is used up, or no frame goes on so.
pub(crate) fn fill<'a>(rest: &mut Vec<u8>, piece: &'a [u8]) -> Result<(&'a [u8], Seen), NoMemory>
    requires { IsOpen rest.old.items }
    ensures filled { IfOk result (λ r. (rest.new.items ++ r.0.now ≡ rest.old.items ++ piece.now) × IsFilled r.1 rest.new.items r.0.now) }
    ensures keeps { Keeps rest.old.items rest.new.items }
{
    let mut left = piece;
    loop {
        let count = missing(rest.as_slice()).min(left.len());
        let (front, behind) = left.split_at(count);
        rest.extend_from_slice(front)?;
        left = behind;
        match see(rest.as_slice()) {
            Seen::Whole(kind, len) => return Ok((left, Seen::Whole(kind, len))),
            Seen::Not(Tail::Broken(fault)) => return Ok((left, Seen::Not(Tail::Broken(fault)))),
            Seen::Not(Tail::Open(until)) => {
                if left.is_empty() {
                    return Ok((left, Seen::Not(Tail::Open(until))));
                }
            }
        }
    }
}

/// Reads the whole frames at the front of bytes, and gives what stands behind them.
pub(crate) fn read_frames<'a>(
    alloc: Global,
    bytes: &'a [u8],
    out: &mut List<Msg>,
) -> Result<(&'a [u8], Tail), NoMemory>
    ensures { IfOk result (λ r. IsRead out.old bytes.now out.new r.0.now r.1) }
{
    let mut rest = bytes;
    loop {
        match see(rest) {
            Seen::Whole(kind, len) => {
                let (frame, behind) = rest.split_at(len);
                out.push(read(alloc, kind, frame)?)?;
                rest = behind;
            }
            Seen::Not(tail) => return Ok((rest, tail)),
        }
    }
}
