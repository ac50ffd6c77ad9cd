ghost use Rattle.std.specs.Prelude.{◌≡◌, ℕ, ◌^◌, ◌<◌, ◌≤◌, List, Option, length};
ghost use Rattle.no_ports.specs.Meanings.{Rose, Takes};

/// What a take from a source did.
#[derive(Clone, Copy, Debug, PartialEq, Eq)]
pub enum Took {
    /// So many bytes were moved to the beginning of the buffer, at least one.
    Took(u32),
    /// The source gives no more.
    End,
    Failed,
}

/// Bytes that are read in order. It tells what is left, where it can, and counts its failures.
pub trait Source {
    // The bytes not yet taken, where they are told.
    ghost left: { Self → Option (List ℕ) };

    // How many calls failed, at least.
    ghost faults: { Self → ℕ };

    /// Moves the next bytes to the beginning of the buffer, as many as the source likes.
    fn take(&mut self, buf: &mut [u8]) -> Took
        requires some { 0 < length buf.old }
        requires short { length buf.old < 2 ^ 32 }
        ensures took { Takes result buf.new (left self.old) (left self.new) }
        ensures later { faults self.old ≤ faults self.new }
        ensures failed { result ≡ Took.Failed → Rose (faults self.old) (faults self.new) };
}
