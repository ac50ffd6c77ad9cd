use no_ir::{Bytes, List};

/// What was counted of one function in a run.
#[derive(Debug, Drop)]
pub struct Line {
    /// The function's name, without its sign.
    pub name: Bytes,
    /// How often it was called while no earlier call of it was going on.
    pub calls: u64,
    /// What was counted inside these calls, their returns included.
    pub steps: u64,
    /// How many different pages a call read or wrote, on the average and rounded up.
    pub pages: u64,
}

/// What was counted in a run, in all and for each defined function in the module's order.
#[derive(Debug, Drop)]
pub struct Profile {
    pub steps: u64,
    pub lines: List<Line>,
}

/// What things cost: a step on the device, a step on the server, a byte that is sent, and a call that moves.
#[derive(Clone, Copy, Debug, PartialEq, Eq)]
pub struct Rates {
    pub device: u32,
    pub server: u32,
    pub byte: u32,
    pub call: u32,
}
