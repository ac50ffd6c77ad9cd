/// Where cells are made: how many registers the function has, the number of its first cell, and the label of the block.
#[derive(Clone, Copy)]
pub(crate) struct Frame {
    pub registers: u32,
    pub base: u32,
    pub label: u32,
}
