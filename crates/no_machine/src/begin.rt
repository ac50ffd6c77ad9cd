ghost use Rattle.std.specs.Prelude.{◌≡◌, ◌+◌, ◌<◌, ℕ, IfOk, List, Some, length, replicate, slice_get, true};
ghost use Rattle.no_semantics.specs.Starts.{main_number, start};
ghost use Rattle.no_semantics.specs.States.{State};
ghost use Rattle.no_semantics.specs.Values.{Program};
ghost use Rattle.no_code.specs.Whole.{IsCode};
ghost use Rattle.no_machine.specs.Standing.{Stands, source_of};
ghost use Rattle.no_machine.specs.Beginning.{Grows};

use crate::state::Core;
use no_code::{Code, Home};
use no_heap::Heap;
use no_ir::NoMemory;
use no_layout::{Memory, STACK_END};
use std::alloc::Global;

/// The most registers that a frame may have, and one more.
const MANY: u32 = 0x8000_0000;

/// As many slots of 0.
fn slots_of(alloc: Global, count: usize) -> Result<Vec<u64>, NoMemory>
    ensures { IfOk result (λ v. v.items ≡ replicate count 0) }
{
    let mut slots = Vec::new(alloc);
    for _ in 0..count {
        slots.push(0)?;
    }
    Ok(slots)
}

/// The home of a function.
fn home_at(code: &Code, k: u32) -> Home
    requires { k < length code.now.homes }
    ensures { slice_get code.now.homes k ≡ Some result }
{
    code.homes.as_slice()[k as usize]
}

impl<M: Memory> Core<M> {
    /// What runs begin with: at the entry of function k, which is `main`, with zeros for its parameters, and no live block.
    pub fn begin(
        alloc: Global,
        code: &Code,
        k: u32,
        mem: M,
        heap: Heap,
    ) -> Result<Core<M>, NoMemory>
        requires within { k < length code.now.homes }
        ensures begun { IfOk result (λ c. (p : Program) → IsCode (source_of p) code.now → main_number p ≡ Some k → (byte : ℕ → ℕ) → (input : List ℕ) → (s : State) → start p byte input ≡ Some s → Stands p c.at c.base c.sp c.slots.items c.frames.items s) }
        ensures memory { IfOk result (λ c. c.mem ≡ mem) }
        ensures heap { IfOk result (λ c. c.heap ≡ heap) }
    {
        let home = home_at(code, k);
        if home.registers >= MANY {
            return Err(NoMemory);
        }
        let slots = slots_of(alloc, home.registers as usize + 1)?;
        Ok(Core {
            slots,
            frames: Vec::new(alloc),
            scratch: Vec::new(alloc),
            numbers: Vec::new(alloc),
            at: home.start as usize,
            base: 0,
            sp: STACK_END - 16,
            mem,
            heap,
        })
    }

    /// Makes room for so many slots more. Whether there was memory for it; where the machine stands does not change.
    pub fn grow(&mut self, count: usize) -> bool
        ensures grows { Grows self.old self.new }
        ensures counts { result ≡ true → length self.new.slots.items ≡ length self.old.slots.items + count }
    {
        for _ in 0..count {
            if self.slots.push(0).is_err() {
                return false;
            }
        }
        true
    }

    /// Makes room for as many slots again, and one.
    pub(crate) fn widen(&mut self) -> bool
        ensures grows { Grows self.old self.new }
        ensures wider { result ≡ true → length self.old.slots.items < length self.new.slots.items }
    {
        let Some(count) = self.slots.len().checked_add(1) else {
            return false;
        };
        self.grow(count)
    }
}
