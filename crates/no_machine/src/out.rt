use no_ir::Trap;

/// What came of an instruction that needs something from outside.
#[derive(Clone, Copy, Debug, PartialEq, Eq)]
pub enum Out {
    /// It was done: the cell and the base that come then, and its cost.
    On(usize, usize, u64),
    Exited(u8),
    Trapped(Trap),
    /// Its cost is more than what is left of the budget.
    Over,
    /// It has no meaning.
    Stuck,
    WantPage(u32),
    WantInput,
    /// There are too few slots for a call.
    Grow,
    NoMemory,
}
