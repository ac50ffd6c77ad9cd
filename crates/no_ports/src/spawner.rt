ghost use Rattle.std.specs.Prelude.{◌≡◌, ℕ, ◌≤◌};
ghost use Rattle.no_ports.specs.Meanings.{Rose};

/// What the start of a program did.
#[derive(Clone, Copy, Debug, PartialEq, Eq)]
pub enum Started {
    /// The child runs, and has printed `ready` and a line feed.
    Started,
    Failed,
}

/// What starts a server as a program of its own. It counts its failures.
pub trait Spawner {
    // How many calls failed, at least.
    ghost faults: { Self → ℕ };

    /// Starts `program` with the words `server`, `--listen` and `address`.
    fn start(&mut self, program: &str, address: &str) -> Started
        ensures later { faults self.old ≤ faults self.new }
        ensures failed { result ≡ Started.Failed → Rose (faults self.old) (faults self.new) };
}
