use no_ir::Trap;

/// Why no instruction was done. Nothing changed.
#[derive(Clone, Copy, Debug, PartialEq, Eq)]
pub enum Stop {
    /// There are too few slots for a call.
    Grow,
    NoMemory,
    /// It ends the run.
    Trapped(Trap),
    /// This page is absent.
    WantPage(u32),
    /// It is the return of the run's first frame, with this value.
    Left(Option<u64>),
    /// It is a call of an external, or one through a pointer.
    Outside,
    /// So many were done as were to be.
    Spent,
}

/// What a turn did: an instruction, and the cell and the base that come then; or none, and why.
///
/// The two numbers beside the reason tell nothing. They keep its bytes apart from the cell and the base, which then stay in
/// registers while the machine runs.
#[derive(Clone, Copy, Debug, PartialEq, Eq)]
pub(crate) enum Turn {
    On(usize, usize),
    Halt(usize, usize, Stop),
}
