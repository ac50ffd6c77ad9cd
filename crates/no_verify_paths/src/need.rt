/// A register that has to be assigned at a place of a block.
#[derive(Clone, Copy)]
pub(crate) struct Need {
    pub(crate) register: u32,
    pub(crate) block: u32,
    /// Whether that is at the block's end, and not at its beginning.
    pub(crate) at_end: bool,
    /// Block and place of the instruction that uses it.
    pub(crate) user: (u32, u32),
}
