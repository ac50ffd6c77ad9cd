ghost use Rattle.std.specs.Prelude.{◌≡◌, ℕ, ◌^◌, ◌<◌, ◌≤◌, List, Option, length};
ghost use Rattle.no_ports.specs.Meanings.{Rose, Gives};

/// What a sink did with a piece.
#[derive(Clone, Copy, Debug, PartialEq, Eq)]
pub enum Gave {
    /// So many of the piece's first bytes were taken, at least one.
    Gave(u32),
    Failed,
    NoMemory,
}

/// Where bytes are written in order. It tells what it holds, where it can, and counts its failures.
pub trait Sink {
    // All bytes given so far, where they are told.
    ghost held: { Self → Option (List ℕ) };

    // How many calls failed, at least.
    ghost faults: { Self → ℕ };

    /// Adds the first bytes of a piece, as many as the sink likes.
    fn give(&mut self, piece: &[u8]) -> Gave
        requires some { 0 < length piece.now }
        requires short { length piece.now < 2 ^ 32 }
        ensures gave { Gives result piece.now (held self.old) (held self.new) }
        ensures later { faults self.old ≤ faults self.new }
        ensures failed { result ≡ Gave.Failed → Rose (faults self.old) (faults self.new) }
        ensures starved { result ≡ Gave.NoMemory → faults self.new ≡ faults self.old };
}
