ghost use Rattle.std.specs.Prelude.{◌≡◌, ◌<◌, ◌≤◌, length, max, MatchResult};
ghost use Rattle.no_heap.specs.Blocks.{AreLive};
ghost use Rattle.no_heap.specs.Index.{end_before};
ghost use Rattle.no_heap.specs.Search.{HasCome, HasPassed, IsFirstGap};

use crate::block::{Block, HEAP_START, RUN};
use crate::gap::Gap;

/// The place behind the block in front of an index.
#[tactic(auto, using(crate::proofs::Indexed::end_later))]
pub(crate) fn end_before(blocks: &[Block], index: usize) -> u32
    requires live { AreLive blocks.now }
    requires within { index ≤ length blocks.now }
    ensures { result ≡ end_before blocks.now index }
{
    if index == 0 {
        return HEAP_START;
    }
    let block = blocks[index - 1];
    block.at + block.size
}

/// The larger of two numbers.
pub(crate) fn larger(a: u32, b: u32) -> u32
    ensures { result ≡ max a b }
{
    if a < b { b } else { a }
}

/// The first gap with room in front of a block of the run that begins at an index, or how large its gaps are at most.
#[tactic(auto, using(crate::proofs::Indexed::formed_at, crate::proofs::Indexed::in_order, crate::proofs::Indexed::few, crate::proofs::Indexed::passing_none))]
pub(crate) fn scan(blocks: &[Block], from: usize, need: u32) -> Result<Gap, u32>
    requires live { AreLive blocks.now }
    requires some { 0 < need }
    requires within { from < length blocks.now }
    requires come { HasCome blocks.now need from }
    ensures { MatchResult result (λ gap. IsFirstGap blocks.now need gap.index gap.at) (λ widest. HasPassed blocks.now need from widest) }
{
    let end = (from + RUN).min(blocks.len());
    let mut at = end_before(blocks, from);
    let mut widest = 0;
    for index in from..end {
        let block = blocks[index];
        let gap = block.at - at;
        if gap >= need {
            return Ok(Gap { index, at });
        }
        widest = larger(widest, gap);
        at = block.at + block.size;
    }
    Err(widest)
}
