ghost use Rattle.std.specs.Prelude.{◌≡◌, ◌+◌, ◌*◌, ◌/◌, ◌<◌, ◌≤◌, length, slice_index, slice_set, max, replicate};
ghost use Rattle.no_heap.specs.Blocks.{AreLive};
ghost use Rattle.no_heap.specs.Index.{AreRaised, gap_before};

use crate::block::{Block, HEAP_END, RUN, RUNS};
use crate::run::{end_before, larger};

/// Makes the number of a block's run no smaller than the gap in front of it.
#[tactic(auto, using(crate::proofs::Indexed::formed_at, crate::proofs::Indexed::in_order))]
fn raise(widest: &mut Vec<u32>, blocks: &[Block], index: usize)
    requires live { AreLive blocks.now }
    requires runs { length widest.old.items ≡ RUNS }
    requires within { index < length blocks.now }
    ensures { widest.new.items ≡ slice_set widest.old.items (index / RUN) (max (slice_index widest.old.items (index / RUN)) (gap_before blocks.now index)) }
{
    let gap = blocks[index].at - end_before(blocks, index);
    let run = index / RUN;
    widest[run] = larger(widest[run], gap);
}

/// The same of every 256th block from an index on.
#[tactic(auto, using(crate::proofs::Indexed::few, crate::proofs::Indexed::raised_none, crate::proofs::Indexed::raised_more, crate::proofs::Indexed::raised_all))]
pub(crate) fn raise_each(widest: &mut Vec<u32>, blocks: &[Block], first: usize)
    requires live { AreLive blocks.now }
    requires runs { length widest.old.items ≡ RUNS }
    requires most { first ≤ 65_792 }
    ensures { AreRaised blocks.now widest.old.items widest.new.items first }
{
    let mut index = first;
    while index < blocks.len() {
        raise(widest, blocks, index);
        index += RUN;
    }
}

/// Makes each number one that holds of every heap: the next search makes it exact.
pub(crate) fn forget(widest: &mut Vec<u32>)
    ensures { widest.new.items ≡ replicate (length widest.old.items) HEAP_END }
{
    widest.fill(HEAP_END);
}
