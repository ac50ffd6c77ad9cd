ghost use Rattle.std.specs.Prelude.{◌↔◌, IsTrue, MatchBool, MatchOption};
ghost use Rattle.no_heap.specs.Blocks.{IsFormed, StandsAbove, AreLive, IsFirstBad};

use crate::block::{Block, HEAP_END, HEAP_START, MOST_BLOCKS};

/// The first block that may not stand behind the ones in front of it.
#[tactic(auto, using(crate::proofs::Rising::stands_none, crate::proofs::Rising::bad_full, crate::proofs::Rising::all_stand))]
pub(crate) fn first_bad(blocks: &[Block]) -> Option<u32>
    ensures { MatchOption result (AreLive blocks.now) (λ index. IsFirstBad blocks.now index) }
{
    let mut end = HEAP_START;
    for (index, block) in blocks.iter().enumerate() {
        if index == MOST_BLOCKS {
            return Some(index as u32);
        }
        if !may_stand(block, end) {
            return Some(index as u32);
        }
        end = block.at + block.size;
    }
    None
}

/// Whether a block is formed, and begins at or above the last one's end.
fn may_stand(block: &Block, end: u32) -> bool
    ensures { MatchBool result (StandsAbove end block.now) (¬ StandsAbove end block.now) }
{
    is_formed(block) && end <= block.at
}

/// Whether a block is a multiple of 16 in place and size, not empty, and inside the heap.
fn is_formed(block: &Block) -> bool
    ensures { IsTrue result ↔ IsFormed block.now }
{
    let inside = HEAP_START <= block.at && block.at < HEAP_END && block.size <= HEAP_END - block.at;
    inside && block.at % 16 == 0 && block.size % 16 == 0 && block.size != 0
}
