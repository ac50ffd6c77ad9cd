ghost use Rattle.std.specs.Prelude.{◌≡◌, ◌+◌, ◌^◌, ◌<◌, [], length, slice_get, Some, position, bytes_eq, true, IfOk, OnOk, OnErr, IsOk};
ghost use Rattle.no_ir.specs.Naming.{is_known, place_of, with_name, IsDistinct};

use crate::{Bytes, NoMemory};
use indexmap::IndexSet;
use sqlite_items::Items as List;
use std::alloc::Global;
use std::marker::Model;

/// Names that are numbered in the order in which they first appear. Contracts see the list of these names.
#[derive(Drop)]
pub struct Names {
    alloc: Global,
    set: IndexSet<Vec<u8>>,
}

impl Model for Names {
    ghost use Rattle.std.specs.Prelude.{ℕ, List, map};
    ghost use Rattle.no_ir.specs.Naming.{IsDistinct};

    ghost Value = { List (List ℕ) };

    ghost view = { λ n. map (λ v. v.items) n.set.keys };

    ghost invariant = { λ n. IsDistinct (map (λ v. v.items) n.set.keys) };
}

impl Names {
    /// No names.
    pub fn new(alloc: Global) -> Result<Names, NoMemory>
        ensures { IfOk result (λ n. n ≡ []) }
    {
        Ok(Names {
            alloc,
            set: IndexSet::new(alloc),
        })
    }

    /// How many names there are.
    pub fn len(&self) -> usize
        ensures { result ≡ length self.now }
    {
        self.set.len()
    }

    /// The number of a name, if it has appeared.
    pub fn find(&self, name: &[u8]) -> Option<usize>
        ensures { result ≡ position (bytes_eq name.now) self.now }
    {
        self.set.get_index_of(name)
    }

    /// The number of a name, which is its place. A name that is new goes to the end.
    pub fn number(&mut self, name: &[u8]) -> Result<u32, NoMemory>
        requires room { length self.old + 1 < 2 ^ 32 }
        // The answered place holds the name.
        ensures place { IfOk result (λ k. k ≡ place_of self.old name.now) }
        ensures holds { IfOk result (λ k. slice_get self.new k ≡ Some name.now) }

        // A known name changes nothing, and takes no memory.
        ensures names { OnOk result (self.new ≡ with_name self.old name.now) }
        ensures known { is_known self.old name.now ≡ true → IsOk result }
        ensures unchanged { OnErr result (self.new ≡ self.old) }
    {
        if let Some(at) = self.set.get_index_of(name) {
            return Ok(at as u32);
        }
        let own = Vec::from_slice(self.alloc, name)?;
        let (at, _) = self.set.insert_full(own)?;
        Ok(at as u32)
    }

    /// The names in order.
    pub fn into_list(self) -> Result<List<Bytes>, NoMemory>
        ensures same { IfOk result (λ all. all ≡ self) }
        ensures distinct { IfOk result (λ all. IsDistinct all) }
    {
        let Names { alloc, set } = self;
        let mut all = List::new(alloc);
        for name in set {
            all.push(List::from_vec(name))?;
        }
        Ok(all)
    }
}
