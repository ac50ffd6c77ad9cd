ghost use Rattle.std.specs.Prelude.{◌≡◌, ◌≤◌, vec_capacity};
ghost use Rattle.no_heap.specs.Blocks.{AreLive};
ghost use Rattle.no_heap.specs.Changes.{rises_from, left};
ghost use Rattle.no_heap.specs.Steps.{Leaves};

use crate::bad::first_bad;
use crate::block::{Block, Entry, MOST_BLOCKS};
use crate::merge::merge;

/// Writes over `out` the blocks that entries leave, and says whether they make a heap.
#[tactic(auto, using(crate::proofs::Left::left_none, crate::proofs::Left::left_stuck, crate::proofs::Left::left_bad, crate::proofs::Left::left_live))]
pub(crate) fn leave(out: &mut Vec<Block>, blocks: &[Block], entries: &[Entry]) -> bool
    requires live { AreLive blocks.now }
    requires room { MOST_BLOCKS ≤ vec_capacity out.old }
    ensures leaves { Leaves result (left blocks.now entries.now) out.new.items }
    ensures room { MOST_BLOCKS ≤ vec_capacity out.new }
{
    if !rise(entries) {
        return false;
    }
    if !merge(out, blocks, entries) {
        return false;
    }
    if let Some(_index) = first_bad(out) {
        return false;
    }
    true
}

/// Whether entries are at rising places.
fn rise(entries: &[Entry]) -> bool
    ensures { result ≡ rises_from 0 entries.now }
{
    let mut low = 0u64;
    for entry in entries {
        if (entry.at as u64) < low {
            return false;
        }
        low = entry.at as u64 + 1;
    }
    true
}
