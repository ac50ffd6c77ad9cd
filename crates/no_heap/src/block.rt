ghost use Rattle.std.specs.Prelude.{◌≡◌};
ghost use Rattle.no_heap.specs.declared.block.HeapError.{HeapError};
ghost use Rattle.no_heap.specs.declared.block.HeapError.TheVariants as HeapError;

use no_ir::NoMemory;
use std::alloc::AllocError;

/// The first byte of the heap.
pub const HEAP_START: u32 = 0x1000_0000;

/// The byte behind the last one of the heap.
pub const HEAP_END: u32 = 0x1400_0000;

/// How many blocks may live at once.
pub const MOST_BLOCKS: usize = 65_536;

/// How many blocks make a run, of which the index keeps one number.
pub(crate) const RUN: usize = 256;

/// How many runs there are at most.
pub(crate) const RUNS: usize = MOST_BLOCKS / RUN;

/// A live block: the place of its first byte, and its size in bytes.
#[derive(Clone, Copy, Debug, PartialEq, Eq)]
pub struct Block {
    pub at: u32,
    pub size: u32,
}

/// What is told of a place: the size of the block that begins there, or 0 where it is no longer live.
#[derive(Clone, Copy, Debug, PartialEq, Eq)]
pub struct Entry {
    pub at: u32,
    pub size: u32,
}

/// Why blocks make no heap.
#[derive(Clone, Copy, Debug, PartialEq, Eq)]
pub enum HeapError {
    NoMemory,
    /// The first block that doesn't begin at or above the last one's end, isn't a multiple of 16 in place and size,
    /// has size 0 or isn't inside the heap; or 65,536 where there are more.
    Bad { index: u32 },
}

impl From<NoMemory> for HeapError {
    ghost from_gives = { λ _ error. error ≡ HeapError.NoMemory };

    fn from(_error: NoMemory) -> HeapError {
        HeapError::NoMemory
    }
}

impl From<AllocError> for HeapError {
    ghost from_gives = { λ _ error. error ≡ HeapError.NoMemory };

    fn from(_error: AllocError) -> HeapError {
        HeapError::NoMemory
    }
}
