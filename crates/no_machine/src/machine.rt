ghost use Rattle.std.specs.Prelude.{◌≡◌, ◌+◌, length};
ghost use Rattle.no_machine.specs.Ran.{budget_of, count_of, end_of, memory_of};

use crate::state::Core;
use no_code::Code;
use no_heap::Heap;
use no_ir::{End, List};
use no_layout::Memory;
use no_module::External;

/// What a step did.
#[derive(Clone, Copy, Debug, PartialEq, Eq)]
pub enum StepAnswer {
    Stepped,
    /// This page is absent. It is the lowest of those that the instruction needs, and has a byte in a region. Nothing
    /// changed: supply it, and take the step again.
    WantPage(u32),
    /// The instruction takes a byte of the input, and none is there. Nothing changed: give some, or end the input.
    WantInput,
    /// The run has ended so; each further step answers the same.
    Ended(End),
    /// The instruction has no meaning. No accepted module comes here.
    Stuck,
    /// Nothing changed.
    NoMemory,
}

/// A run of a module over a memory, within a budget.
#[derive(Drop)]
pub struct Machine<M: Memory> {
    pub(crate) code: Code,
    pub(crate) declared: List<bool>,
    pub(crate) externals: List<Option<External>>,
    pub(crate) taken: List<bool>,
    pub(crate) addresses: List<u32>,
    pub(crate) core: Core<M>,
    pub(crate) count: u64,
    pub(crate) budget: u64,
    pub(crate) end: Option<End>,
}

impl<M: Memory> Machine<M> {
    /// What was counted so far.
    pub fn count(&self) -> u64
        ensures { result ≡ count_of self.now }
    {
        self.count
    }

    /// How much may be counted.
    pub fn budget(&self) -> u64
        ensures { result ≡ budget_of self.now }
    {
        self.budget
    }

    /// The stack pointer.
    pub fn sp(&self) -> u32
        ensures { result ≡ self.now.core.sp }
    {
        self.core.sp
    }

    /// How many frames there are.
    pub fn depth(&self) -> usize
        ensures { result ≡ length self.now.core.frames.items + 1 }
    {
        self.core.frames.len() + 1
    }

    /// How the run ended, if it has.
    pub fn end(&self) -> Option<End>
        ensures { result ≡ end_of self.now }
    {
        self.end
    }

    pub fn memory(&self) -> &M
        ensures { result.now ≡ memory_of self.now }
    {
        &self.core.mem
    }

    pub fn heap(&self) -> &Heap
        ensures { result.now ≡ self.now.core.heap }
    {
        &self.core.heap
    }
}
