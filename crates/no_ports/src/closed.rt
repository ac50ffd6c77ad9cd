ghost use Rattle.std.specs.Prelude.{◌≡◌, ℕ, ◌≤◌, true, false, Some, [], refl};
ghost use Rattle.no_ports.specs.Memory.{one_more};
ghost use Rattle.no_ports.specs.Link.{Told};

use crate::spawner::{Spawner, Started};
use crate::wire::{Opened, Wire, WireGave, WireTook};
use std::marker::Model;

/// A wire on which no session begins: each call but `close` fails, and is counted. Contracts see that
/// count.
#[derive(Debug, Drop)]
pub struct ClosedWire {
    failed: u64,
}

impl Model for ClosedWire {
    ghost use Rattle.std.specs.Prelude.{ℕ};

    ghost Value = { ℕ };

    ghost view = { λ w. w.failed };
}

impl ClosedWire {
    /// No call failed yet.
    pub fn new() -> ClosedWire
        ensures { result ≡ 0 }
    {
        ClosedWire { failed: 0 }
    }

    /// Counts a failure.
    fn fail(&mut self)
        ensures counted { self.new ≡ one_more self.old }
        ensures later { self.old ≤ self.new }
    {
        self.failed = self.failed.saturating_add(1);
    }
}

impl Wire for ClosedWire {
    ghost live = { λ _. false };

    ghost fresh = { λ _. true };

    ghost sent = { λ _. Some [] };

    ghost got = { λ _. Some [] };

    ghost past = { λ _. Some [] };

    // Where no session began, each of these holds for every module.
    ghost right = { λ _. Told (λ _. Unit {0}) };

    ghost orderly = { λ _. Told (λ _. Unit {0}) };

    ghost breaks = { λ _ _ _ _. Unit {0} };

    ghost faults = { λ w. w };

    ghost ends = { λ _. 0 };

    ghost refused = { λ w. w };

    fn listen(&mut self, _address: &str) -> Opened
        ensures fails { result ≡ Opened.Failed }
        ensures counted { self.new ≡ one_more self.old }
        ensures later { self.old ≤ self.new }
    {
        self.fail();
        Opened::Failed
    }

    fn accept(&mut self) -> Opened
        ensures fails { result ≡ Opened.Failed }
        ensures counted { self.new ≡ one_more self.old }
        ensures later { self.old ≤ self.new }
    {
        self.fail();
        Opened::Failed
    }

    fn connect(&mut self, _address: &str) -> Opened
        ensures fails { result ≡ Opened.Failed }
        ensures counted { self.new ≡ one_more self.old }
        ensures later { self.old ≤ self.new }
    {
        self.fail();
        Opened::Failed
    }

    fn send(&mut self, _piece: &[u8]) -> WireGave
        ensures fails { result ≡ WireGave.Failed }
        ensures counted { self.new ≡ one_more self.old }
        ensures later { self.old ≤ self.new }
    {
        self.fail();
        WireGave::Failed
    }

    fn take(&mut self, _buf: &mut [u8]) -> WireTook
        ensures fails { result ≡ WireTook.Failed }
        ensures counted { self.new ≡ one_more self.old }
        ensures later { self.old ≤ self.new }
    {
        self.fail();
        WireTook::Failed
    }

    fn close(&mut self)
        ensures { self.new ≡ self.old }
    {}

    ghost blank = { λ _ _. record { nothing_sent = refl; nothing_got = refl; none_past = refl } };
}

/// A spawner that starts nothing: each call fails, and is counted. Contracts see that count.
#[derive(Debug, Drop)]
pub struct ClosedSpawner {
    failed: u64,
}

impl Model for ClosedSpawner {
    ghost use Rattle.std.specs.Prelude.{ℕ};

    ghost Value = { ℕ };

    ghost view = { λ s. s.failed };
}

impl ClosedSpawner {
    /// No call failed yet.
    pub fn new() -> ClosedSpawner
        ensures { result ≡ 0 }
    {
        ClosedSpawner { failed: 0 }
    }
}

impl Spawner for ClosedSpawner {
    ghost faults = { λ s. s };

    fn start(&mut self, _program: &str, _address: &str) -> Started
        ensures fails { result ≡ Started.Failed }
        ensures counted { self.new ≡ one_more self.old }
        ensures later { self.old ≤ self.new }
    {
        self.failed = self.failed.saturating_add(1);
        Started::Failed
    }
}
