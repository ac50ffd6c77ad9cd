ghost use Rattle.std.specs.Prelude.{◌≡◌, ◌≤◌, ◌==◌};
ghost use Rattle.std.specs.List.{list_any};
ghost use Rattle.no_ports.specs.Memory.{no_calls, is_due, after_call};

use std::marker::Model;

/// The calls on a form in memory: which are to fail, counted from 1; how many were made, and failed.
#[derive(Debug, Drop)]
pub(crate) struct Turns {
    failing: Vec<u32>,
    made: u64,
    failed: u64,
}

impl Model for Turns {
    ghost use Rattle.no_ports.specs.Memory.{Calls};

    ghost Value = { Calls };

    ghost view = { λ t. record { failing = t.failing.items; made = t.made; failed = t.failed } };
}

impl Turns {
    /// No call was made yet.
    pub(crate) fn new(failing: Vec<u32>) -> Turns
        ensures { result ≡ no_calls failing.items }
    {
        Turns {
            failing,
            made: 0,
            failed: 0,
        }
    }

    /// Counts a call, and says whether it is to fail.
    pub(crate) fn next_fails(&mut self) -> bool
        ensures due { result ≡ is_due self.old }
        ensures after { self.new ≡ after_call self.old }
        ensures later { self.old.failed ≤ self.new.failed }
    {
        self.made = self.made.saturating_add(1);
        let due = is_listed(&self.failing, self.made);
        if due {
            self.failed = self.failed.saturating_add(1);
        }
        due
    }
}

/// Whether a call's number is among those that are to fail.
fn is_listed(failing: &[u32], number: u64) -> bool
    ensures { result ≡ list_any (λ n. n == number) failing.now }
{
    failing.iter().any(|n| u64::from(*n) == number)
}
