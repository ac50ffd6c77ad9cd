ghost use Rattle.std.specs.Prelude.{◌≡◌, ◌⊎◌, ◌<◌, ◌≤◌, ◌++◌, [], ℕ, List, length, true};
ghost use Rattle.no_semantics.specs.Acting.{row};
ghost use Rattle.no_semantics.specs.Rows.{affordable};
ghost use Rattle.no_taken.specs.Marked.{AreTaken};
ghost use Rattle.no_machine.specs.Outside.{AreExternals, Outs, Placed};
ghost use Rattle.no_semantics.specs.States.{State};
ghost use Rattle.no_machine.specs.Turning.{AreFacts, IsCalling, IsHere, program_with};
ghost use Rattle.no_machine.specs.Spun.{HasSpun};

use crate::facts::Facts;
use crate::frame::Saved;
use crate::out::Out;
use crate::outside::outside;
use crate::spin::{Stand, spin};
use crate::turn::Stop;
use no_heap::Heap;
use no_layout::Memory;
use no_lib::Env;
use no_module::External;

/// What changes while a program runs: the slots of all frames, what is kept of callers, room for moves and for arguments, where
/// the machine stands, the stack pointer, memory and heap.
#[derive(Drop)]
pub struct Core<M: Memory> {
    pub(crate) slots: Vec<u64>,
    pub(crate) frames: Vec<Saved>,
    pub(crate) scratch: Vec<(u32, u64)>,
    pub(crate) numbers: Vec<u64>,
    pub(crate) at: usize,
    pub(crate) base: usize,
    pub(crate) sp: u32,
    pub(crate) mem: M,
    pub(crate) heap: Heap,
}

impl<M: Memory> Core<M> {
    /// Does at most so many instructions, until one needs something from outside. How many were done.
    pub fn go(&mut self, facts: Facts, limit: u64) -> (Stop, u64)
        requires facts { AreFacts facts.sound.now facts.addresses.now facts.code.now facts.cells.now facts.constants.now facts.declared.now facts.big facts.pointer }
        requires here { (s : State) × IsHere (program_with facts.sound.now facts.addresses.now (M.regions self.old.mem)) self.old.at self.old.base self.old.sp self.old.slots.items self.old.frames.items (M.held self.old.mem) (M.byte self.old.mem) s }
        ensures spun { (s : State) → IsHere (program_with facts.entry.sound.now facts.entry.addresses.now (M.regions self.old.mem)) self.old.at self.old.base self.old.sp self.old.slots.items self.old.frames.items (M.held self.old.mem) (M.byte self.old.mem) s → HasSpun (program_with facts.entry.sound.now facts.entry.addresses.now (M.regions self.old.mem)) result.0 result.1 self.new.at self.new.base self.new.sp self.new.slots.items self.new.frames.items (M.held self.old.mem) (M.byte self.new.mem) s }
        ensures most { result.1 ≤ limit }
        ensures spent { result.0 ≡ Stop.Spent → result.1 ≡ limit }
        ensures halted { (result.0 ≡ Stop.Spent) ⊎ (result.1 < limit) }
        ensures heap { self.new.heap ≡ self.old.heap }
        ensures regions { M.regions self.new.mem ≡ M.regions self.old.mem }
        ensures held { M.held self.new.mem ≡ M.held self.old.mem }
        ensures long { length self.new.slots.items ≡ length self.old.slots.items }
    {
        let stand = Stand {
            at: self.at,
            base: self.base,
            left: limit,
        };
        let (why, stand) = spin(
            facts,
            self.slots.as_mut_slice(),
            &mut self.frames,
            &mut self.scratch,
            &mut self.sp,
            &mut self.mem,
            stand,
        );
        self.at = stand.at;
        self.base = stand.base;
        (why, limit - stand.left)
    }

    /// Goes to where an instruction that was done leads.
    fn place(&mut self, told: Out)
        ensures placed { Placed told self.old.at self.old.base self.new.at self.new.base }
        ensures same { self.new ≡ record self.old { at = self.new.at; base = self.new.base } }
    {
        if let Out::On(at, base, _) = told {
            self.at = at;
            self.base = base;
        }
    }

    /// Does the call of the cell at which it stands, within what is left of the budget.
    pub fn call_out(
        &mut self,
        facts: Facts,
        externals: &[Option<External>],
        taken: &[bool],
        left: u64,
        env: &mut Env,
    ) -> Out
        requires facts { AreFacts facts.sound.now facts.addresses.now facts.code.now facts.cells.now facts.constants.now facts.declared.now facts.big facts.pointer }
        requires externals { AreExternals facts.sound.now.«module» facts.sound.now.role externals.now }
        requires taken { AreTaken facts.sound.now.«module» taken.now }
        requires some { 0 < left }
        requires here { (s : State) × IsHere (program_with facts.sound.now facts.addresses.now (M.regions self.old.mem)) self.old.at self.old.base self.old.sp self.old.slots.items self.old.frames.items (M.held self.old.mem) (M.byte self.old.mem) s × IsCalling (program_with facts.sound.now facts.addresses.now (M.regions self.old.mem)) s }
        ensures outs { (s : State) → (more : List ℕ) → IsHere (program_with facts.entry.sound.now facts.entry.addresses.now (M.regions self.old.mem)) self.old.at self.old.base self.old.sp self.old.slots.items self.old.frames.items (M.held self.old.mem) (M.byte self.old.mem) s → s.heap ≡ self.old.heap → s.input ≡ env.old.input ++ more → (env.old.ended ≡ true → more ≡ []) → Outs (program_with facts.entry.sound.now facts.entry.addresses.now (M.regions self.old.mem)) result self.old.at self.old.base self.new.sp self.new.slots.items self.new.frames.items (record { held = M.held self.old.mem; byte = M.byte self.old.mem; after = M.byte self.new.mem; heap = self.old.heap; heap_after = self.new.heap; env = env.old; env_after = env.new }) more s (affordable left (row (program_with facts.entry.sound.now facts.entry.addresses.now (M.regions self.old.mem)) s)) }
        ensures placed { Placed result self.old.at self.old.base self.new.at self.new.base }
        ensures regions { M.regions self.new.mem ≡ M.regions self.old.mem }
        ensures held { M.held self.new.mem ≡ M.held self.old.mem }
        ensures ended { env.new.ended ≡ env.old.ended }
        ensures long { length self.new.slots.items ≡ length self.old.slots.items }
    {
        let told = outside(
            facts,
            externals,
            taken,
            self.slots.as_mut_slice(),
            &mut self.frames,
            &mut self.numbers,
            &mut self.sp,
            &mut self.mem,
            &mut self.heap,
            env,
            self.at,
            self.base,
            left,
        );
        self.place(told);
        told
    }
}
