use no_ir::Trap;

/// What came of a call of an external function.
#[derive(Clone, Copy, Debug, PartialEq, Eq)]
pub enum LibAnswer {
    /// It was done: the value that it gives, and its cost.
    Value(u64, u64),
    /// It was done, gives no value, and had this cost.
    Nothing(u64),
    /// The program exited with this status.
    Exited(u8),
    Trapped(Trap),
    /// Its cost is more than what is left of the budget.
    Over,
    /// The external has no such arguments.
    Stuck,
    /// This page is the lowest absent one of those that it needs.
    WantPage(u32),
    /// It reads a byte of the input, of which none is there yet.
    WantInput,
    NoMemory,
}
