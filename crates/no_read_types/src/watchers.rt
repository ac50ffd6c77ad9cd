ghost use Rattle.std.specs.Prelude.{◌≡◌, ◌<◌, ◌∷◌, ◌++◌, [], length, replicate, set, IfOk};
ghost use Rattle.no_read_types.specs.Graph.{references_at};

use std::alloc::{AllocError, Global};
use std::marker::Model;
use std::mem::replace;

/// For each definition those that watch it.
#[derive(Drop)]
pub(crate) struct Watchers {
    alloc: Global,
    lists: Vec<Vec<u32>>,
}

impl Model for Watchers {
    ghost use Rattle.std.specs.Prelude.{ℕ, List, map};

    ghost Value = { List (List ℕ) };

    ghost view = { λ w. map (λ v. v.items) w.lists.items };
}

impl Watchers {
    /// So many definitions, which nothing watches.
    pub(crate) fn new(alloc: Global, count: usize) -> Result<Watchers, AllocError>
        ensures { IfOk result (λ w. w ≡ replicate count []) }
    {
        let mut lists = Vec::new(alloc);
        while lists.len() < count {
            lists.push(Vec::new(alloc))?;
        }
        Ok(Watchers { alloc, lists })
    }

    /// One more that watches this one.
    pub(crate) fn watch(&mut self, watched: usize, n: u32) -> Result<(), AllocError>
        requires { watched < length self.old }
        ensures { IfOk result (λ _. self.new ≡ set self.old watched (references_at self.old watched ++ n ∷ [])) }
    {
        self.lists[watched].push(n)?;
        Ok(())
    }

    /// Those that watch this one, which watch it no more.
    pub(crate) fn take_watchers(&mut self, watched: usize) -> Vec<u32>
        requires { watched < length self.old }
        ensures all { result.items ≡ references_at self.old watched }
        ensures none { self.new ≡ set self.old watched [] }
    {
        replace(&mut self.lists[watched], Vec::new(self.alloc))
    }
}
