use no_ir::Trap;

/// What a cell did, or which call or return it is.
#[derive(Clone, Copy, Debug, PartialEq, Eq)]
pub(crate) enum Did {
    /// The next cell comes.
    Next,
    /// The cell of this number comes.
    To(u32),
    /// It ends the run, and nothing changed.
    Trapped(Trap),
    /// This page is absent, and nothing changed.
    WantPage(u32),
    /// Nothing changed.
    NoMemory,
    /// A call: the slot of its result, the number of the function, and the range of arguments. Nothing changed.
    Calls(u32, u32, u32, u32),
    /// A call through a pointer: the slot of its result, and the range of arguments behind the callee. Nothing changed.
    CallsAt(u32, u32, u32),
    /// A return of what a slot holds. Nothing changed.
    Returns(u32),
    /// A return of nothing. Nothing changed.
    Leaves,
}
