ghost use Rattle.std.specs.Prelude.{◌≡◌, ◌^◌, ◌<◌, ◌≤◌, [], Some, false, length};
ghost use Rattle.no_ports.specs.Meanings.{Rose, Gives};
ghost use Rattle.no_ports.specs.Memory.{no_calls, is_due, after_call, Stores};

use crate::sink::{Gave, Sink};
use crate::turns::Turns;
use std::alloc::Global;
use std::marker::Model;

/// A sink that keeps what it is given, and of which some calls fail.
#[derive(Debug, Drop)]
pub struct MemSink {
    bytes: Vec<u8>,
    turns: Turns,
}

impl Model for MemSink {
    ghost use Rattle.no_ports.specs.Memory.{Store};

    ghost Value = { Store };

    ghost view = { λ s. record { held = s.bytes.items; calls = s.turns } };
}

impl MemSink {
    /// A sink that holds nothing, and the numbers of the calls that are to fail, counted from 1.
    pub fn new(alloc: Global, failing: Vec<u32>) -> MemSink
        ensures { result ≡ record { held = []; calls = no_calls failing.items } }
    {
        MemSink {
            bytes: Vec::new(alloc),
            turns: Turns::new(failing),
        }
    }

    /// All bytes given so far.
    pub fn held(&self) -> &[u8]
        ensures { result.now ≡ self.now.held }
    {
        &self.bytes
    }
}

impl Sink for MemSink {
    ghost held = { λ s. Some s.held };

    ghost faults = { λ s. s.calls.failed };

    fn give(&mut self, piece: &[u8]) -> Gave
        requires some { 0 < length piece.now }
        requires short { length piece.now < 2 ^ 32 }
        ensures gave { Gives result piece.now (Some self.old.held) (Some self.new.held) }
        ensures later { self.old.calls.failed ≤ self.new.calls.failed }
        ensures failed { result ≡ Gave.Failed → Rose self.old.calls.failed self.new.calls.failed }
        ensures starved { result ≡ Gave.NoMemory → self.new.calls.failed ≡ self.old.calls.failed }
        ensures stores { Stores result (is_due self.old.calls) piece.now self.old.held self.new.held }
        ensures counted { self.new.calls ≡ after_call self.old.calls }
    {
        if self.turns.next_fails() {
            return Gave::Failed;
        }
        store(&mut self.bytes, piece)
    }
}

/// Adds a whole piece, or nothing where there is no memory for it.
pub(crate) fn store(bytes: &mut Vec<u8>, piece: &[u8]) -> Gave
    requires short { length piece.now < 2 ^ 32 }
    ensures { Stores result false piece.now bytes.old.items bytes.new.items }
{
    match bytes.extend_from_slice(piece) {
        Ok(()) => Gave::Gave(piece.len() as u32),
        Err(_) => Gave::NoMemory,
    }
}
