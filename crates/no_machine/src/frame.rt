/// What is kept of a call that has not returned: the cell behind the call, the base of its frame's window, the slot of the
/// call's result, and the stack pointer that comes back.
#[derive(Clone, Copy)]
pub(crate) struct Saved {
    pub next: usize,
    pub base: usize,
    pub into: u32,
    pub sp: u32,
}
