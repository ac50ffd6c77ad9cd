ghost use Rattle.std.specs.Prelude.{◌≡◌, ◌+◌, ◌<◌, ◌≤◌, drop, length, IfOk};
ghost use Rattle.no_wire.specs.Fronts.{IsWhole, length_in};
ghost use Rattle.no_wire.specs.Kinds.{HasLength};
ghost use Rattle.no_wire.specs.Messages.{Spells};
ghost use Rattle.no_wire.specs.Reading.{message_in};

use crate::kind::Kind;
use crate::msg::Msg;
use crate::numbers::{behind, numbers, pairs, u32_at, u64_at};
use no_ir::{Bytes, List, NoMemory};
use std::alloc::Global;

/// The bytes from a place on.
fn bytes_from(alloc: Global, frame: &[u8], at: usize) -> Result<Bytes, NoMemory>
    requires { at ≤ length frame.now }
    ensures { IfOk result (λ b. b ≡ drop at frame.now) }
{
    Ok(List::from_slice(alloc, behind(frame, at))?)
}

fn start(alloc: Global, frame: &[u8]) -> Result<Msg, NoMemory>
    requires { 30 ≤ length frame.now }
    ensures { IfOk result (λ m. m ≡ message_in Kind.Start frame.now) }
{
    Ok(Msg::Start {
        epoch: u32_at(frame, 5),
        function: u32_at(frame, 9),
        budget: u64_at(frame, 13),
        sp: u32_at(frame, 21),
        blocks: u32_at(frame, 25),
        args: numbers(alloc, behind(frame, 30))?,
    })
}

fn finish(frame: &[u8]) -> Msg
    requires { 42 ≤ length frame.now }
    ensures { result ≡ message_in Kind.Finish frame.now }
{
    Msg::Finish {
        epoch: u32_at(frame, 5),
        end: frame[9],
        value: u64_at(frame, 10),
        counted: u64_at(frame, 18),
        dirty: u32_at(frame, 26),
        entries: u32_at(frame, 30),
        output: u64_at(frame, 34),
    }
}

/// The message of a whole frame of a kind.
fn message(alloc: Global, kind: Kind, frame: &[u8]) -> Result<Msg, NoMemory>
    requires whole { length frame.now ≡ length_in frame.now + 4 }
    requires room { HasLength kind (length_in frame.now) }
    ensures { IfOk result (λ m. m ≡ message_in kind frame.now) }
{
    let epoch = u32_at(frame, 5);
    Ok(match kind {
        Kind::Load => Msg::Load {
            text: bytes_from(alloc, frame, 9)?,
        },
        Kind::LoadEnd => Msg::LoadEnd {
            constants_end: u32_at(frame, 9),
            globals_end: u32_at(frame, 13),
        },
        Kind::Start => start(alloc, frame)?,
        Kind::Blocks => Msg::Blocks {
            epoch,
            pairs: pairs(alloc, behind(frame, 9))?,
        },
        Kind::Page => Msg::Page {
            epoch,
            page: u32_at(frame, 9),
            bytes: bytes_from(alloc, frame, 13)?,
        },
        Kind::Zero => Msg::Zero {
            epoch,
            page: u32_at(frame, 9),
        },
        Kind::Bye => Msg::Bye,
        Kind::Abandon => Msg::Abandon { epoch },
        Kind::Want => Msg::Want {
            epoch,
            page: u32_at(frame, 9),
        },
        Kind::Output => Msg::Output {
            epoch,
            bytes: bytes_from(alloc, frame, 9)?,
        },
        Kind::Dirty => Msg::Dirty {
            epoch,
            page: u32_at(frame, 9),
            bytes: bytes_from(alloc, frame, 13)?,
        },
        Kind::Heap => Msg::Heap {
            epoch,
            pairs: pairs(alloc, behind(frame, 9))?,
        },
        Kind::Finish => finish(frame),
        Kind::Declined => Msg::Declined { epoch },
    })
}

/// The message that a whole frame spells.
pub(crate) fn read(alloc: Global, kind: Kind, bytes: &[u8]) -> Result<Msg, NoMemory>
    requires { IsWhole kind bytes.now }
    ensures { IfOk result (λ m. Spells bytes.now m) }
{
    let m = message(alloc, kind, bytes)?;
    Ok(m)
}
