ghost use Rattle.std.specs.Prelude.{◌≡◌, ℕ, ◌≤◌, length, take};
ghost use Rattle.no_ports.specs.Meanings.{Rose, Adds, AddsPrefix};

use crate::sink::{Gave, Sink};

/// The longest piece that a sink is handed, in bytes.
const PIECE: usize = 4096;

/// What became of a list of bytes that was to be written whole.
#[derive(Clone, Copy, Debug, PartialEq, Eq)]
pub enum GaveAll {
    Done,
    Failed,
    NoMemory,
}

/// Writes all bytes to a sink, in pieces of at most 4,096. Whatever the answer, a prefix of them was
/// written.
pub fn give_all<O: Sink>(out: &mut O, bytes: &[u8]) -> GaveAll
    ensures done { result ≡ GaveAll.Done → Adds (O.held out.old) (O.held out.new) bytes.now }
    ensures prefix { AddsPrefix (O.held out.old) (O.held out.new) bytes.now }
    ensures empty { length bytes.now ≡ 0 → result ≡ GaveAll.Done }
    ensures later { O.faults out.old ≤ O.faults out.new }
    ensures failed { result ≡ GaveAll.Failed → Rose (O.faults out.old) (O.faults out.new) }
{
    let mut at = 0;
    while at < bytes.len() {
        let end = at + (bytes.len() - at).min(PIECE);
        match out.give(&bytes[at..end]) {
            Gave::Gave(n) => at += n as usize,
            Gave::Failed => return GaveAll::Failed,
            Gave::NoMemory => return GaveAll::NoMemory,
        }
    }
    GaveAll::Done
}
