ghost use Rattle.std.specs.Prelude.{◌≡◌, ℕ, ◌^◌, ◌<◌, ◌≤◌, Bool, true, false, List, Option, length};
ghost use Rattle.no_ports.specs.Meanings.{Rose};
ghost use Rattle.no_ports.specs.Link.{Session, Judgement, IsBlank, live_opened, fresh_opened, live_sent, live_taken, Begins, Retires, Sends, Gets, StaysTold, StaysSame, NeverMends, BreaksOrder, KeepsOrder};

/// What a call that opens a session, or prepares for one, did.
#[derive(Clone, Copy, Debug, PartialEq, Eq)]
pub enum Opened {
    Open,
    Failed,
    NoMemory,
}

/// What a wire did with a piece.
#[derive(Clone, Copy, Debug, PartialEq, Eq)]
pub enum WireGave {
    /// So many of the piece's first bytes were sent, at least one.
    Gave(u32),
    Failed,
    NoMemory,
}

/// What a take from a wire did.
#[derive(Clone, Copy, Debug, PartialEq, Eq)]
pub enum WireTook {
    /// So many bytes were moved to the beginning of the buffer, at least one.
    Took(u32),
    /// The session gives no more.
    End,
    Failed,
    NoMemory,
}

/// A way to a peer, with one session at a time. It tells what went over it, where it can, and counts
/// its failures.
pub trait Wire {
    // Whether a session has begun and not ended.
    ghost live: { Self → Bool };

    // Whether no session has begun so far.
    ghost fresh: { Self → Bool };

    // The bytes sent in the present or last session, where they are told.
    ghost sent: { Self → Option (List ℕ) };

    // The bytes got in the present or last session, where they are told.
    ghost got: { Self → Option (List ℕ) };

    // The sessions before the present or last one, where they are told.
    ghost past: { Self → Option (List Session) };

    // For the module of a canonical text: whether all results that were got in the sessions so far are
    // what that module's functions give. It may be untold.
    ghost right: { Self → Judgement };

    // For the module of a canonical text: whether no take so far broke the order. It may be untold.
    ghost orderly: { Self → Judgement };

    // For a canonical text: whether a take that was called on these bytes sent and got, and after which
    // the third list was got, breaks the order.
    ghost breaks: { List ℕ → List ℕ → List ℕ → List ℕ → Type 0 };

    // How many calls failed, at least.
    ghost faults: { Self → ℕ };

    // How many takes met the end of a session, at least.
    ghost ends: { Self → ℕ };

    // How many calls that open or prepare a session failed, at least.
    ghost refused: { Self → ℕ };

    /// Prepares to accept sessions at an address.
    fn listen(&mut self, address: &str) -> Opened
        ensures live { live self.new ≡ live self.old }
        ensures fresh { fresh self.new ≡ fresh self.old }
        ensures sent { sent self.new ≡ sent self.old }
        ensures got { got self.new ≡ got self.old }
        ensures past { past self.new ≡ past self.old }
        ensures right { StaysTold (right self.old) (right self.new) }
        ensures orderly { NeverMends (orderly self.old) (orderly self.new) }
        ensures later { faults self.old ≤ faults self.new }
        ensures ends_later { ends self.old ≤ ends self.new }
        ensures refused_later { refused self.old ≤ refused self.new }
        ensures failed { result ≡ Opened.Failed → Rose (faults self.old) (faults self.new) }
        ensures refused { result ≡ Opened.Failed → Rose (refused self.old) (refused self.new) }
        ensures starved_right { result ≡ Opened.NoMemory → StaysSame (right self.old) (right self.new) }
        ensures starved_orderly { result ≡ Opened.NoMemory → StaysSame (orderly self.old) (orderly self.new) }
        ensures uncounted { result ≡ Opened.NoMemory →
            ((faults self.new ≡ faults self.old) × (ends self.new ≡ ends self.old)
            × (refused self.new ≡ refused self.old)) };

    /// Takes the session of a peer that connected. The wire must not be live.
    fn accept(&mut self) -> Opened
        requires idle { live self.old ≡ false }
        ensures live { live self.new ≡ live_opened result }
        ensures fresh { fresh self.new ≡ fresh_opened result (fresh self.old) }
        ensures sent { Begins result (sent self.old) (sent self.new) }
        ensures got { Begins result (got self.old) (got self.new) }
        ensures past { Retires result (fresh self.old) (past self.old)
            (sent self.old) (got self.old) (past self.new) }
        ensures right { StaysTold (right self.old) (right self.new) }
        ensures orderly { NeverMends (orderly self.old) (orderly self.new) }
        ensures later { faults self.old ≤ faults self.new }
        ensures ends_later { ends self.old ≤ ends self.new }
        ensures refused_later { refused self.old ≤ refused self.new }
        ensures failed { result ≡ Opened.Failed → Rose (faults self.old) (faults self.new) }
        ensures refused { result ≡ Opened.Failed → Rose (refused self.old) (refused self.new) }
        ensures starved_right { result ≡ Opened.NoMemory → StaysSame (right self.old) (right self.new) }
        ensures starved_orderly { result ≡ Opened.NoMemory → StaysSame (orderly self.old) (orderly self.new) }
        ensures uncounted { result ≡ Opened.NoMemory →
            ((faults self.new ≡ faults self.old) × (ends self.new ≡ ends self.old)
            × (refused self.new ≡ refused self.old)) };

    /// Begins a session with the peer at an address. The wire must not be live.
    fn connect(&mut self, address: &str) -> Opened
        requires idle { live self.old ≡ false }
        ensures live { live self.new ≡ live_opened result }
        ensures fresh { fresh self.new ≡ fresh_opened result (fresh self.old) }
        ensures sent { Begins result (sent self.old) (sent self.new) }
        ensures got { Begins result (got self.old) (got self.new) }
        ensures past { Retires result (fresh self.old) (past self.old)
            (sent self.old) (got self.old) (past self.new) }
        ensures right { StaysTold (right self.old) (right self.new) }
        ensures orderly { NeverMends (orderly self.old) (orderly self.new) }
        ensures later { faults self.old ≤ faults self.new }
        ensures ends_later { ends self.old ≤ ends self.new }
        ensures refused_later { refused self.old ≤ refused self.new }
        ensures failed { result ≡ Opened.Failed → Rose (faults self.old) (faults self.new) }
        ensures refused { result ≡ Opened.Failed → Rose (refused self.old) (refused self.new) }
        ensures starved_right { result ≡ Opened.NoMemory → StaysSame (right self.old) (right self.new) }
        ensures starved_orderly { result ≡ Opened.NoMemory → StaysSame (orderly self.old) (orderly self.new) }
        ensures uncounted { result ≡ Opened.NoMemory →
            ((faults self.new ≡ faults self.old) × (ends self.new ≡ ends self.old)
            × (refused self.new ≡ refused self.old)) };

    /// Sends the first bytes of a piece, as many as the wire likes. A failure ends the session.
    fn send(&mut self, piece: &[u8]) -> WireGave
        requires live { live self.old ≡ true }
        requires some { 0 < length piece.now }
        requires short { length piece.now < 2 ^ 32 }
        ensures live { live self.new ≡ live_sent result }
        ensures fresh { fresh self.new ≡ fresh self.old }
        ensures sent { Sends result piece.now (sent self.old) (sent self.new) }
        ensures got { got self.new ≡ got self.old }
        ensures past { past self.new ≡ past self.old }
        ensures right { StaysTold (right self.old) (right self.new) }
        ensures orderly { NeverMends (orderly self.old) (orderly self.new) }
        ensures later { faults self.old ≤ faults self.new }
        ensures ends_later { ends self.old ≤ ends self.new }
        ensures refused_later { refused self.old ≤ refused self.new }
        ensures failed { result ≡ WireGave.Failed → Rose (faults self.old) (faults self.new) }
        ensures starved_right { result ≡ WireGave.NoMemory → StaysSame (right self.old) (right self.new) }
        ensures starved_orderly { result ≡ WireGave.NoMemory → StaysSame (orderly self.old) (orderly self.new) }
        ensures uncounted { result ≡ WireGave.NoMemory →
            ((faults self.new ≡ faults self.old) × (ends self.new ≡ ends self.old)
            × (refused self.new ≡ refused self.old)) };

    /// Moves the next bytes to the beginning of the buffer, as many as the wire likes. The end and a
    /// failure end the session.
    fn take(&mut self, buf: &mut [u8]) -> WireTook
        requires live { live self.old ≡ true }
        requires some { 0 < length buf.old }
        requires short { length buf.old < 2 ^ 32 }
        ensures live { live self.new ≡ live_taken result }
        ensures fresh { fresh self.new ≡ fresh self.old }
        ensures sent { sent self.new ≡ sent self.old }
        ensures got { Gets result buf.new (got self.old) (got self.new) }
        ensures past { past self.new ≡ past self.old }
        ensures right { StaysTold (right self.old) (right self.new) }
        ensures orderly { KeepsOrder (orderly self.old) (orderly self.new)
            (BreaksOrder breaks (sent self.old) (got self.old) (got self.new)) }
        ensures later { faults self.old ≤ faults self.new }
        ensures ends_later { ends self.old ≤ ends self.new }
        ensures refused_later { refused self.old ≤ refused self.new }
        ensures failed { result ≡ WireTook.Failed → Rose (faults self.old) (faults self.new) }
        ensures ended { result ≡ WireTook.End → Rose (ends self.old) (ends self.new) }
        ensures starved_right { result ≡ WireTook.NoMemory → StaysSame (right self.old) (right self.new) }
        ensures starved_orderly { result ≡ WireTook.NoMemory → StaysSame (orderly self.old) (orderly self.new) }
        ensures uncounted { result ≡ WireTook.NoMemory →
            ((faults self.new ≡ faults self.old) × (ends self.new ≡ ends self.old)
            × (refused self.new ≡ refused self.old)) };

    /// Ends the session. With no session it does nothing.
    fn close(&mut self)
        ensures live { live self.new ≡ false }
        ensures fresh { fresh self.new ≡ fresh self.old }
        ensures sent { sent self.new ≡ sent self.old }
        ensures got { got self.new ≡ got self.old }
        ensures past { past self.new ≡ past self.old }
        ensures right { StaysTold (right self.old) (right self.new) }
        ensures orderly { NeverMends (orderly self.old) (orderly self.new) }
        ensures later { faults self.old ≤ faults self.new }
        ensures ends_later { ends self.old ≤ ends self.new }
        ensures refused_later { refused self.old ≤ refused self.new }
        ensures idle_right { live self.old ≡ false → StaysSame (right self.old) (right self.new) }
        ensures idle_orderly { live self.old ≡ false → StaysSame (orderly self.old) (orderly self.new) }
        ensures uncounted { live self.old ≡ false →
            ((faults self.new ≡ faults self.old) × (ends self.new ≡ ends self.old)
            × (refused self.new ≡ refused self.old)) };

    // A fresh wire has nothing sent or got, and no past session.
    ghost blank: { (w : Self) → fresh w ≡ true → IsBlank (sent w) (got w) (past w) };
}
