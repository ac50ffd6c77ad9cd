/// Where a module breaks a rule: the numbers of the function, the block in it and the instruction in that; 0 for what has none.
#[derive(Clone, Copy, Debug, PartialEq, Eq)]
pub struct FaultPlace {
    pub function: u32,
    pub block: u32,
    pub place: u32,
}
