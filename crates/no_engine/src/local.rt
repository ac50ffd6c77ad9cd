ghost use Rattle.std.specs.Prelude.{◌≡◌, ◌<◌, ◌-◌, ◌≤◌, ◌++◌, ℕ, IfOk, List, [], Some, false};
ghost use Rattle.no_ir.specs.declared.function.Role.{Role};
ghost use Rattle.no_machine.specs.Ran.{budget_of, count_of};
ghost use Rattle.no_semantics.specs.Starts.{main_from};
ghost use Rattle.no_semantics.specs.States.{HasNoMarks};
ghost use Rattle.no_engine.specs.Local.{IsOnWay};
ghost use Rattle.no_engine.specs.Parts.{IsFresh};

use crate::engine::{Engine, Slice};
use no_image::{image, load};
use no_ir::NoMemory;
use no_lib::Env;
use no_machine::{Machine, StepAnswer, Steps};
use no_pages::PageTable;
use no_semantics::Sound;
use std::alloc::Global;
use std::sync::ledger::Ledger;

/// A machine at the entry of `main`, over the program's first memory.
pub fn booted(alloc: Global, sound: &Sound, budget: u64) -> Result<Machine<PageTable>, NoMemory>
    requires role { sound.now.role ≡ Role.Source }
    requires main { (k : ℕ) × (main_from 0 sound.now.«module».functions ≡ Some k) }
    requires marks { HasNoMarks sound.now.«module» }
    ensures { IfOk result (λ m. IsFresh (IsOnWay sound.now) count_of budget_of sound.now budget m) }
{
    let image = image(alloc, sound)?;
    let memory = load(alloc, &image)?;
    Machine::boot(alloc, sound, image.addresses, memory, budget)
}

/// The machine over all its pages. It wants none of them, and of a program that has a run it never gets stuck.
impl Engine for Machine<PageTable> {
    ghost use Rattle.no_machine.specs.Ran.{budget_of, count_of};
    ghost use Rattle.no_engine.specs.Local.{HasEnded, IsOnWay, moved, way_of};

    ghost on = { IsOnWay };

    ghost over = { HasEnded };

    ghost count = { count_of };

    ghost budget = { budget_of };

    fn count(&self) -> u64 {
        Machine::count(self)
    }

    fn advance<L: Ledger>(
        &mut self,
        sound: &Sound,
        limit: u64,
        env: &mut Env,
        steps: &mut Steps<L>,
    ) -> Slice {
        match self.run(sound, limit, env, steps) {
            StepAnswer::Stepped => Slice::Stepped,
            StepAnswer::WantInput => Slice::WantInput,
            StepAnswer::Ended(end) => Slice::Ended(end),
            StepAnswer::NoMemory => Slice::NoMemory,
            StepAnswer::WantPage(_) => unreachable!(),
            StepAnswer::Stuck => unreachable!(),
        }
    }

    ghost way = { way_of };

    ghost moves = { moved };
}
