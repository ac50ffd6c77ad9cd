ghost use Rattle.std.specs.Prelude.{◌≡◌, ◌<◌, ◌≤◌, [], ◌∷◌, ◌++◌, length};
ghost use Rattle.std.specs.Result.{OnOk, IfOk};
ghost use Rattle.no_verify_paths.specs.Flow.{Added, Taken};

use no_ir::NoMemory;
use std::alloc::Global;
use std::marker::Model;

/// The blocks that are still to be looked at, each at most once. The last one that was added comes first.
#[derive(Drop)]
pub(crate) struct Queue {
    blocks: Vec<u32>,
    /// For each block of the function, whether it waits.
    waits: Vec<bool>,
}

impl Model for Queue {
    ghost use Rattle.std.specs.Prelude.{◌≡◌, ℕ, ◌<◌, true, false, vec_len, slice_index_or};
    ghost use Rattle.std.specs.List.{All, Contains};
    ghost use Rattle.no_verify_paths.specs.Flow.{Waiting};

    ghost Value = { Waiting };

    ghost view = { λ q. record { blocks = q.blocks.items; room = vec_len q.waits } };

    ghost invariant = { λ q. All (λ b. b < vec_len q.waits) q.blocks.items × ((b : ℕ) → slice_index_or q.waits.items b false ≡ true → Contains q.blocks.items b) };
}

impl Queue {
    /// No block of so many waits.
    pub(crate) fn new(alloc: Global, room: usize) -> Result<Queue, NoMemory>
        ensures { IfOk result (λ q. q.room ≡ room) }
    {
        let waits = vec![in alloc; false; room]?;
        Ok(Queue {
            blocks: Vec::new(alloc),
            waits,
        })
    }

    /// The next block, which waits no more.
    pub(crate) fn take(&mut self) -> Option<u32>
        ensures { Taken result self.old self.new }
    {
        let block = self.blocks.pop()?;
        self.waits[block as usize] = false;
        Some(block)
    }

    /// A block waits from now on.
    pub(crate) fn add(&mut self, block: u32) -> Result<(), NoMemory>
        requires { block < self.old.room }
        ensures { OnOk result (Added block self.old self.new) }
    {
        if self.waits[block as usize] {
            return Ok(());
        }
        self.blocks.push(block)?;
        self.waits[block as usize] = true;
        Ok(())
    }
}
