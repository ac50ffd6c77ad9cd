ghost use Rattle.std.specs.Prelude.{◌≡◌, ◌++◌, IfOk, OnErr, OnOk, [], None};
ghost use Rattle.no_wire.specs.Fed.{IsAbsorbed, IsFed, IsFedWhole, IsRead, IsReady};
ghost use Rattle.no_wire.specs.Fronts.{IsOpen};
ghost use Rattle.no_wire.specs.Messages.{AreBytes};
ghost use Rattle.no_wire.specs.Spelled.{Keeps};
ghost use Rattle.no_wire.specs.Streams.{Decoding};

use crate::fault::WireFault;
use crate::filling::{fill, read_frames};
use crate::msg::Msg;
use crate::reading::read;
use crate::scan::{Seen, Tail};
use no_ir::{List, NoMemory};
use std::alloc::Global;
use std::marker::Model;
use std::mem::swap;

/// The most bytes that a frame has, with its length.
const LONGEST: usize = 65540;

/// What a piece of the stream brought.
#[derive(Debug, Drop)]
pub enum FeedAnswer {
    /// The messages whose frames became whole.
    Frames(List<Msg>),
    /// The messages before bytes that begin no frame, and what is wrong there. Each later piece is answered with the same
    /// fault and no messages.
    Fault { before: List<Msg>, fault: WireFault },
    /// Nothing changed.
    NoMemory,
}

/// What pieces brought: messages, and what follows them.
#[derive(Drop)]
struct Fed {
    out: List<Msg>,
    tail: Tail,
}

/// Makes a buffer these bytes.
fn hold(kept: &mut Vec<u8>, bytes: &[u8]) -> Result<(), NoMemory>
    ensures ok { OnOk result (kept.new.items ≡ bytes.now) }
    ensures bytes { AreBytes kept.new.items }
{
    kept.clear();
    match kept.extend_from_slice(bytes) {
        Ok(()) => Ok(()),
        Err(_) => Err(NoMemory),
    }
}

/// Reads the whole frames of bytes, and keeps what stands behind them.
fn begin(alloc: Global, kept: &mut Vec<u8>, out: List<Msg>, bytes: &[u8]) -> Result<Fed, NoMemory>
    ensures read { IfOk result (λ f. IsRead out bytes.now f.out kept.new.items f.tail) }
    ensures bytes { OnOk result (AreBytes kept.new.items) }
{
    let mut out = out;
    let (behind, tail) = read_frames(alloc, bytes, &mut out)?;
    hold(kept, behind)?;
    Ok(Fed { out, tail })
}

/// Reads a piece behind the rest of a frame.
fn go_on(
    alloc: Global,
    rest: &mut Vec<u8>,
    spare: &mut Vec<u8>,
    piece: &[u8],
) -> Result<Fed, NoMemory>
    requires { IsOpen rest.old.items }
    ensures ok { IfOk result (λ f. IsAbsorbed rest.old.items piece.now f.out rest.new.items f.tail) }
    ensures err { OnErr result (Keeps rest.old.items rest.new.items) }
{
    let (left, seen) = fill(rest, piece)?;
    match seen {
        Seen::Not(tail) => Ok(Fed {
            out: List::new(alloc),
            tail,
        }),
        Seen::Whole(kind, _) => {
            let mut out = List::new(alloc);
            out.push(read(alloc, kind, rest.as_slice())?)?;
            let fed = begin(alloc, spare, out, left)?;
            swap(rest, spare);
            Ok(fed)
        }
    }
}

/// Reads a piece where no frame is under way.
fn start(
    alloc: Global,
    rest: &mut Vec<u8>,
    spare: &mut Vec<u8>,
    piece: &[u8],
) -> Result<Fed, NoMemory>
    requires { rest.old.items ≡ [] }
    ensures ok { IfOk result (λ f. IsAbsorbed rest.old.items piece.now f.out rest.new.items f.tail) }
    ensures err { OnErr result (rest.new.items ≡ rest.old.items) }
    ensures bytes { OnOk result (AreBytes rest.new.items) }
{
    let fed = begin(alloc, spare, List::new(alloc), piece)?;
    swap(rest, spare);
    Ok(fed)
}

/// Reads a piece. Out of memory the rest is as it was.
fn absorb(
    alloc: Global,
    rest: &mut Vec<u8>,
    spare: &mut Vec<u8>,
    piece: &[u8],
) -> Result<Fed, NoMemory>
    requires { IsOpen rest.old.items }
    ensures ok { IfOk result (λ f. IsAbsorbed rest.old.items piece.now f.out rest.new.items f.tail) }
    ensures err { OnErr result (rest.new.items ≡ rest.old.items) }
    ensures bytes { AreBytes rest.new.items }
{
    let before = rest.len();
    if before == 0 {
        return start(alloc, rest, spare, piece);
    }
    match go_on(alloc, rest, spare, piece) {
        Ok(fed) => Ok(fed),
        Err(e) => {
            rest.truncate(before);
            Err(e)
        }
    }
}

/// Keeps a piece behind the rest, with which it is less than a frame.
fn keep(rest: &mut Vec<u8>, piece: &[u8]) -> Result<(), NoMemory>
    ensures ok { OnOk result (rest.new.items ≡ rest.old.items ++ piece.now) }
    ensures err { OnErr result (rest.new.items ≡ rest.old.items) }
    ensures bytes { AreBytes rest.new.items }
{
    match rest.extend_from_slice(piece) {
        Ok(()) => Ok(()),
        Err(_) => Err(NoMemory),
    }
}

/// Reads the messages of a stream that comes in pieces of any size.
#[derive(Drop)]
pub struct Decoder {
    alloc: Global,
    rest: Vec<u8>,
    spare: Vec<u8>,
    until: usize,
    fault: Option<WireFault>,
}

impl Model for Decoder {
    ghost use Rattle.no_wire.specs.Fed.{IsReady};
    ghost use Rattle.no_wire.specs.Streams.{Decoding};

    ghost Value = { Decoding };

    ghost view = { λ d. record { rest = d.rest.items; fault = d.fault } };

    ghost invariant = { λ d. IsReady d.fault d.until d.rest.items };
}

impl Decoder {
    /// A decoder at the beginning of a stream. It takes room for one frame.
    pub fn new(alloc: Global) -> Result<Decoder, NoMemory>
        ensures { IfOk result (λ d. d ≡ record { rest = []; fault = None }) }
    {
        Ok(Decoder {
            alloc,
            rest: Vec::with_capacity(alloc, LONGEST)?,
            spare: Vec::with_capacity(alloc, LONGEST)?,
            until: 1,
            fault: None,
        })
    }

    /// Reads the next piece of the stream: the messages whose frames are whole now, in order, or the first bytes that begin
    /// no frame. However the stream is cut into pieces, the messages and the fault are the same.
    pub fn feed(&mut self, piece: &[u8]) -> FeedAnswer
        ensures { IsFed self.old piece.now result self.new }
    {
        match self.fault {
            Some(fault) => FeedAnswer::Fault {
                before: List::new(self.alloc),
                fault,
            },
            None => self.read_on(piece),
        }
    }

    fn read_on(&mut self, piece: &[u8]) -> FeedAnswer
        requires { self.old.fault ≡ None }
        ensures { IsFedWhole self.old piece.now result self.new }
    {
        if self.rest.len() < self.until && piece.len() < self.until - self.rest.len() {
            match keep(&mut self.rest, piece) {
                Err(_) => FeedAnswer::NoMemory,
                Ok(()) => {
                    let none = List::new(self.alloc);
                    FeedAnswer::Frames(none)
                }
            }
        } else {
            match absorb(self.alloc, &mut self.rest, &mut self.spare, piece) {
                Err(_) => FeedAnswer::NoMemory,
                Ok(Fed { out, tail }) => match tail {
                    Tail::Open(until) => {
                        self.until = until;
                        FeedAnswer::Frames(out)
                    }
                    Tail::Broken(fault) => {
                        self.fault = Some(fault);
                        FeedAnswer::Fault { before: out, fault }
                    }
                },
            }
        }
    }
}
