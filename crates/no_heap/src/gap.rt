ghost use Rattle.std.specs.Prelude.{◌≡◌, ◌+◌, ◌-◌, ◌%◌, ◌<◌, ◌≤◌, None, MatchOption, length};
ghost use Rattle.no_heap.specs.Blocks.{AreLive};
ghost use Rattle.no_heap.specs.Fit.{rounded as rounded_of, first_gap};
ghost use Rattle.no_heap.specs.Index.{AreWidest};
ghost use Rattle.no_heap.specs.Search.{HasCome, IsFirstGap};

use crate::block::{Block, HEAP_END, HEAP_START, RUN};
use crate::run::{end_before, scan};

/// Where a new block goes: in front of the block of this index, at this place.
#[derive(Clone, Copy)]
pub(crate) struct Gap {
    pub(crate) index: usize,
    pub(crate) at: u32,
}

/// The size of a block for so many bytes, of at most the heap's.
pub(crate) fn rounded(size: u64) -> u32
    requires { size ≤ HEAP_END - HEAP_START }
    ensures value { result ≡ rounded_of size }
    ensures multiple { result % 16 ≡ 0 }
    ensures some { 0 < result }
    ensures most { result ≤ HEAP_END - HEAP_START }
{
    ((size.max(1) + 15) / 16 * 16) as u32
}

/// The first gap with room for a block of this size. The numbers of runs that are searched and have none become exact.
#[tactic(auto, using(crate::proofs::Indexed::few, crate::proofs::Indexed::come_none, crate::proofs::Indexed::come_all, crate::proofs::Indexed::come_start))]
pub(crate) fn find_gap(widest: &mut Vec<u32>, blocks: &[Block], need: u32) -> Option<Gap>
    requires live { AreLive blocks.now }
    requires widest { AreWidest blocks.now widest.old.items }
    requires some { 0 < need }
    requires most { need ≤ HEAP_END - HEAP_START }
    ensures gap { MatchOption result (first_gap HEAP_START need blocks.now ≡ None) (λ gap. IsFirstGap blocks.now need gap.index gap.at) }
    ensures widest { AreWidest blocks.now widest.new.items }
{
    let mut from = 0;
    while from < blocks.len() {
        let run = from / RUN;
        if widest[run] >= need {
            match scan(blocks, from, need) {
                Ok(gap) => return Some(gap),
                Err(exact) => widest[run] = exact,
            }
        }
        from += RUN;
    }
    last_gap(blocks, need)
}

/// The gap behind the last block, where it has room and no other has.
#[tactic(auto, using(crate::proofs::Indexed::last_full))]
fn last_gap(blocks: &[Block], need: u32) -> Option<Gap>
    requires live { AreLive blocks.now }
    requires some { 0 < need }
    requires most { need ≤ HEAP_END - HEAP_START }
    requires come { HasCome blocks.now need (length blocks.now) }
    ensures { MatchOption result (first_gap HEAP_START need blocks.now ≡ None) (λ gap. IsFirstGap blocks.now need gap.index gap.at) }
{
    let index = blocks.len();
    let at = end_before(blocks, index);
    if need <= HEAP_END - at {
        Some(Gap { index, at })
    } else {
        None
    }
}
