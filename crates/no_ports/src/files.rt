ghost use Rattle.std.specs.Prelude.{◌≡◌, ◌≢◌, ℕ, ◌≤◌, List, Option};
ghost use Rattle.no_ports.specs.Meanings.{Rose, Reads, Writes};

/// What a read or a write of a whole file did.
#[derive(Clone, Copy, Debug, PartialEq, Eq)]
pub enum FileAnswer {
    Done,
    Failed,
    NoMemory,
}

/// Files by name. It tells what each holds, where it can, and counts its failures by name.
pub trait Files {
    // What the file of a name holds, where it is told.
    ghost contents: { Self → List ℕ → Option (List ℕ) };

    // How many calls on a name failed, at least.
    ghost faults: { Self → List ℕ → ℕ };

    /// Makes `into` the file's first `limit` bytes, or all of it where it is shorter. After a fault
    /// `into` is empty.
    fn read(&mut self, name: &str, limit: u32, into: &mut Vec<u8>) -> FileAnswer
        ensures read { Reads result limit into.new.items (contents self.old name.now) }
        ensures same { (q : List ℕ) → contents self.new q ≡ contents self.old q }
        ensures later { faults self.old name.now ≤ faults self.new name.now }
        ensures failed { result ≡ FileAnswer.Failed → Rose (faults self.old name.now) (faults self.new name.now) }
        ensures alone { (q : List ℕ) → q ≢ name.now → faults self.new q ≡ faults self.old q };

    /// Replaces the file by these bytes. After a fault it may hold anything.
    fn write(&mut self, name: &str, bytes: &[u8]) -> FileAnswer
        ensures written { Writes result bytes.now (contents self.old name.now)
            (contents self.new name.now) }
        ensures others { (q : List ℕ) → q ≢ name.now → contents self.new q ≡ contents self.old q }
        ensures later { faults self.old name.now ≤ faults self.new name.now }
        ensures failed { result ≡ FileAnswer.Failed → Rose (faults self.old name.now) (faults self.new name.now) }
        ensures alone { (q : List ℕ) → q ≢ name.now → faults self.new q ≡ faults self.old q };
}
