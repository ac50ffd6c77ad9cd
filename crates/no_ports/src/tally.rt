ghost use Rattle.std.specs.Prelude.{◌≡◌, ◌≤◌, [], true, OnOk, OnErr};
ghost use Rattle.no_ports.specs.Memory.{Answers};
ghost use Rattle.no_ports.specs.Tally.{counts, count_of, one_failed, after_answer};

use crate::files::FileAnswer;
use std::alloc::{AllocError, Global};
use std::marker::Model;

/// How many calls failed, by name. A failure ends what a job does with a file, so few names come.
#[derive(Debug, Drop)]
pub struct Tally {
    entries: Vec<(String, u64)>,
}

impl Model for Tally {
    ghost use Rattle.std.specs.Prelude.{List};
    ghost use Rattle.no_ports.specs.Tally.{Count, counts};

    ghost Value = { List Count };

    ghost view = { λ t. counts t.entries.items };
}

impl Tally {
    /// No call has failed.
    pub fn new(alloc: Global) -> Tally
        ensures { result ≡ [] }
    {
        Tally {
            entries: Vec::new(alloc),
        }
    }

    /// How many calls on this name failed; the number stands still at its type's end.
    pub fn of(&self, name: &str) -> u64
        ensures { result ≡ count_of self.now name.now }
    {
        number_of(&self.entries, name)
    }

    /// Counts a call on this name that failed, and gives its answer; want of memory is answered where the count finds none.
    pub fn fail(&mut self, name: &str) -> FileAnswer
        ensures fails { Answers result true }
        ensures after { self.new ≡ after_answer result name.now self.old }
        ensures later { count_of self.old name.now ≤ count_of self.new name.now }
    {
        match self.add(name) {
            Ok(()) => FileAnswer::Failed,
            Err(_) => FileAnswer::NoMemory,
        }
    }

    /// Counts a call on this name that failed. Nothing changes for want of memory.
    fn add(&mut self, name: &str) -> Result<(), AllocError>
        ensures after { OnOk result (self.new ≡ one_failed name.now self.old) }
        ensures same { OnErr result (self.new ≡ self.old) }
        ensures later { count_of self.old name.now ≤ count_of self.new name.now }
    {
        let number = self.of(name).saturating_add(1);
        let own = String::from_str(*self.entries.allocator(), name)?;
        self.entries.insert(0, (own, number))?;
        Ok(())
    }
}

/// The number of the first entry of a name, and 0 where there is none.
fn number_of(entries: &[(String, u64)], name: &str) -> u64
    ensures { result ≡ count_of (counts entries.now) name.now }
{
    for (other, number) in entries {
        if other.as_str() == name {
            return *number;
        }
    }
    0
}
