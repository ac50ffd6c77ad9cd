use no_ir::{Bytes, List};

/// How many parameters a function that moves may have.
pub(crate) const MOST_PARAMETERS: usize = 64;

/// Why a function stays on the device. The first rule that holds counts, in this order.
#[derive(Clone, Copy, Debug, PartialEq, Eq)]
pub enum Rule {
    /// It reaches the declared `getchar`.
    Input,
    /// It reaches a function with a volatile access.
    Volatile,
    /// It reaches a function with the attribute `"machine-bound"`.
    Pinned,
    /// No defined function has its name.
    NotDefined,
    /// The server's pointers are narrower than the device's.
    Width,
    /// It has more than 64 parameters.
    Argument,
}

/// Whether a function may move to a server.
#[derive(Debug, Drop)]
pub enum Verdict {
    /// It may: its number.
    Free(u32),
    /// It may not: the rule, and the names of the functions along the path to the reason, its own first.
    Bound(Rule, List<Bytes>),
}
