//! Placement: the live blocks of a heap, where a new one goes, and what changed since an earlier heap.
#![tactic(auto)]

mod bad;
mod block;
mod comparison;
mod gap;
mod heap;
mod index;
mod laws;
mod leaving;
mod merge;
mod row;
mod run;
mod search;

pub use block::{Block, Entry, HEAP_END, HEAP_START, HeapError, MOST_BLOCKS};
pub use heap::Heap;
pub use laws::{changes_restore, fit_is_least, live_blocks_stay};
