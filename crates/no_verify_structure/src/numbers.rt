ghost use Rattle.std.specs.Prelude.{◌≡◌, IfOk, OnOk, [], not};
ghost use Rattle.std.specs.List.{list_all};
ghost use Rattle.no_module.specs.Left.{labels_left};
ghost use Rattle.no_verify_structure.specs.Names.{is_in, with_number};

use indexmap::IndexSet;
use no_ir::NoMemory;
use no_module::Labels;
use std::alloc::Global;
use std::marker::Model;

/// A set of numbers. Contracts see them as a list, in the order in which they were first put in.
#[derive(Drop)]
pub(crate) struct Numbers {
    set: IndexSet<u32>,
}

impl Model for Numbers {
    ghost use Rattle.std.specs.Prelude.{ℕ, List};

    ghost Value = { List ℕ };

    ghost view = { λ n. n.set.keys };
}

impl Numbers {
    pub(crate) fn new(alloc: Global) -> Numbers
        ensures { result ≡ [] }
    {
        Numbers {
            set: IndexSet::new(alloc),
        }
    }

    pub(crate) fn has(&self, number: u32) -> bool
        ensures { result ≡ is_in self.now number }
    {
        self.set.contains(&number)
    }

    /// Puts a number in, and says whether it was not there yet.
    pub(crate) fn put(&mut self, number: u32) -> Result<bool, NoMemory>
        ensures all { OnOk result (self.new ≡ with_number self.old number) }
        ensures new { IfOk result (λ new. new ≡ not (is_in self.old number)) }
    {
        let (_, new) = self.set.insert_full(number)?;
        Ok(new)
    }

    /// Whether each label that is left is a number of the set.
    pub(crate) fn has_each(&self, labels: Labels<'_>) -> bool
        ensures { result ≡ list_all (is_in self.now) (labels_left labels.entry) }
    {
        let mut left = labels;
        while let Some((label, more)) = left.split_first() {
            if !self.has(label) {
                return false;
            }
            left = more;
        }
        true
    }

    /// Whether all are numbers of another set.
    pub(crate) fn are_in(&self, others: &Numbers) -> bool
        ensures { result ≡ list_all (is_in others.now) self.now }
    {
        for number in self.set.as_slice() {
            if !others.has(*number) {
                return false;
            }
        }
        true
    }
}
