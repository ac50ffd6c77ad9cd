ghost use Rattle.std.specs.Prelude.{◌≡◌, ◌<◌, ◌≤◌, ◌%◌, ◌-◌, List, [], length, None, IfOk, IfSome, IfNone, vec_capacity};
ghost use Rattle.no_heap.specs.Blocks.{AreLive, set_block, Frees, SaysHeap, TakesOut};
ghost use Rattle.no_heap.specs.Changes.{AreChanges, Applies};
ghost use Rattle.no_heap.specs.Index.{AreWidest};
ghost use Rattle.no_heap.specs.Fit.{rounded as rounded_of, first_gap, fit, IsFit};

use crate::bad::first_bad;
use crate::block::{Block, Entry, HEAP_END, HEAP_START, HeapError, MOST_BLOCKS, RUN, RUNS};
use crate::comparison::compare;
use crate::gap::{find_gap, rounded};
use crate::index::{forget, raise_each};
use crate::leaving::leave;
use crate::row::Row;
use crate::search::find;
use no_ir::{List, NoMemory, Trap};
use std::alloc::Global;
use std::marker::Model;

/// The live blocks, which contracts see as a list that rises by place.
#[derive(Debug, Drop)]
pub struct Heap {
    blocks: Row,
    /// For each 256 blocks in turn a number that no gap in front of one of them exceeds.
    widest: Vec<u32>,
    /// Room in which a changed list is made.
    spare: Vec<Block>,
}

impl Model for Heap {
    ghost use Rattle.std.specs.Prelude.{List, ◌≤◌, vec_capacity};
    ghost use Rattle.no_heap.specs.declared.block.Block.{Block};
    ghost use Rattle.no_heap.specs.declared.block.TheConstants.{MOST_BLOCKS};
    ghost use Rattle.no_heap.specs.Blocks.{AreLive};
    ghost use Rattle.no_heap.specs.Index.{AreWidest};

    ghost Value = { List Block };

    ghost view = { λ h. h.blocks };

    ghost invariant = { λ h. AreLive h.blocks × AreWidest h.blocks h.widest.items × (MOST_BLOCKS ≤ vec_capacity h.spare) };
}

impl Heap {
    /// A heap without blocks, with room for 65,536 of them.
    #[tactic(auto, using(crate::proofs::Indexed::forgotten))]
    pub fn new(alloc: Global) -> Result<Heap, NoMemory>
        ensures empty { IfOk result (λ heap. heap ≡ []) }
    {
        let blocks = Row::new(alloc)?;
        let widest = vec![in alloc; HEAP_END; RUNS]?;
        let spare = Vec::with_capacity(alloc, MOST_BLOCKS)?;
        Ok(Heap {
            blocks,
            widest,
            spare,
        })
    }

    /// The heap of these live blocks, or the first one that may not stand. It takes the room that `new` takes.
    #[tactic(auto, using(crate::proofs::Indexed::forgotten))]
    pub fn from_blocks(alloc: Global, blocks: &[Block]) -> Result<Heap, HeapError>
        ensures { SaysHeap result blocks.now }
    {
        if let Some(index) = first_bad(blocks) {
            return Err(HeapError::Bad { index });
        }
        let mut heap = Heap::new(alloc)?;
        heap.blocks.copy_from(blocks);
        forget(&mut heap.widest);
        Ok(heap)
    }

    /// The live blocks, rising by place.
    pub fn blocks(&self) -> &[Block]
        ensures value { result.now ≡ self.now }
        ensures live { AreLive self.now }
    {
        self.blocks.as_slice()
    }

    /// Puts in a block for so many bytes, and gives its place: the least multiple of 16 in the heap where the size,
    /// rounded up to a multiple of 16 and at least 16, fits between the live blocks. None where it fits nowhere or
    /// 65,536 blocks are live; nothing has changed then.
    #[tactic(auto, using(crate::proofs::Gaps::fit_full, crate::proofs::Gaps::fit_large, crate::proofs::Gaps::fit_first, crate::proofs::Gaps::is_fit))]
    pub fn place(&mut self, size: u64) -> Option<u32>
        ensures least { IsFit self.old size result }
        ensures value { result ≡ fit self.old size }
        ensures placed { IfSome result (λ place. self.new ≡ set_block self.old place (rounded_of size)) }
        ensures none { IfNone result (self.new ≡ self.old) }
        ensures live { AreLive self.new }
    {
        if self.blocks.len() == MOST_BLOCKS {
            return None;
        }
        if size > (HEAP_END - HEAP_START) as u64 {
            return None;
        }
        put_first(&mut self.blocks, &mut self.widest, rounded(size))
    }

    /// The place that `place` would give a block for so many bytes. No block changes.
    #[tactic(auto, using(crate::proofs::Gaps::fit_full, crate::proofs::Gaps::fit_large, crate::proofs::Gaps::fit_first))]
    pub fn place_for(&mut self, size: u64) -> Option<u32>
        ensures value { result ≡ fit self.old size }
        ensures same { self.new ≡ self.old }
        ensures live { AreLive self.new }
    {
        if self.blocks.len() == MOST_BLOCKS {
            return None;
        }
        if size > (HEAP_END - HEAP_START) as u64 {
            return None;
        }
        first_place(&mut self.widest, self.blocks.as_slice(), rounded(size))
    }

    /// Takes out the block that begins at an address. Address 0 changes nothing; any other where no live block
    /// begins is `BadFree`, and nothing has changed then.
    pub fn free(&mut self, addr: u64) -> Result<(), Trap>
        ensures frees { Frees result self.old self.new addr }
        ensures live { AreLive self.new }
    {
        let blocks = &mut self.blocks;
        if addr == 0 {
            return Ok(());
        }
        if take_out(blocks, &mut self.widest, addr) {
            Ok(())
        } else {
            Err(Trap::BadFree)
        }
    }

    /// What changed since earlier blocks, which `from_blocks` wouldn't call bad: one entry for each place whose block
    /// differs, rising by place.
    pub fn changes(&self, since: &[Block]) -> Result<List<Entry>, NoMemory>
        requires { AreLive since.now }
        ensures changes { IfOk result (AreChanges self.now since.now) }
    {
        compare(*self.spare.allocator(), self.blocks.as_slice(), since)
    }

    /// Tells entries of the blocks. False, with nothing changed, exactly where the entries don't rise by place, take
    /// away what isn't there, or leave blocks that `from_blocks` would call bad.
    #[tactic(auto, using(crate::proofs::Indexed::forgotten))]
    pub fn apply(&mut self, entries: &[Entry]) -> bool
        ensures applies { Applies result self.old self.new entries.now }
        ensures live { AreLive self.new }
    {
        if !leave(&mut self.spare, self.blocks.as_slice(), entries) {
            return false;
        }
        self.blocks.copy_from(&self.spare);
        forget(&mut self.widest);
        true
    }
}

/// The place of the first gap with room for a block of this size.
#[tactic(auto, using(crate::proofs::Indexed::first_of_gap))]
fn first_place(widest: &mut Vec<u32>, blocks: &[Block], need: u32) -> Option<u32>
    requires live { AreLive blocks.now }
    requires widest { AreWidest blocks.now widest.old.items }
    requires some { 0 < need }
    requires most { need ≤ HEAP_END - HEAP_START }
    ensures value { result ≡ first_gap HEAP_START need blocks.now }
    ensures widest { AreWidest blocks.now widest.new.items }
{
    let Some(gap) = find_gap(widest, blocks, need) else {
        return None;
    };
    Some(gap.at)
}

/// Puts a block of this size at the first gap.
#[tactic(auto, using(crate::proofs::Indexed::live_first))]
fn put_first(blocks: &mut Row, widest: &mut Vec<u32>, need: u32) -> Option<u32>
    requires live { AreLive blocks.old }
    requires widest { AreWidest blocks.old widest.old.items }
    requires few { length blocks.old < MOST_BLOCKS }
    requires multiple { need % 16 ≡ 0 }
    requires some { 0 < need }
    requires most { need ≤ HEAP_END - HEAP_START }
    ensures value { result ≡ first_gap HEAP_START need blocks.old }
    ensures placed { IfSome result (λ place. blocks.new ≡ set_block blocks.old place need) }
    ensures none { IfNone result (blocks.new ≡ blocks.old) }
    ensures live { AreLive blocks.new }
    ensures widest { AreWidest blocks.new widest.new.items }
{
    let Some(gap) = find_gap(widest, blocks.as_slice(), need) else {
        return None;
    };
    let block = Block {
        at: gap.at,
        size: need,
    };
    blocks.insert(gap.index, block);
    raise_each(widest, blocks.as_slice(), (gap.index / RUN + 1) * RUN);
    Some(gap.at)
}

/// Takes out the block that begins at an address, and says whether there was one.
#[tactic(auto, using(crate::proofs::Placing::live_gone))]
fn take_out(blocks: &mut Row, widest: &mut Vec<u32>, addr: u64) -> bool
    requires live { AreLive blocks.old }
    requires widest { AreWidest blocks.old widest.old.items }
    ensures freed { TakesOut result blocks.old blocks.new addr }
    ensures live { AreLive blocks.new }
    ensures widest { AreWidest blocks.new widest.new.items }
{
    let Some(index) = find(blocks.as_slice(), addr) else {
        return false;
    };
    blocks.remove(index);
    raise_each(widest, blocks.as_slice(), index);
    raise_each(widest, blocks.as_slice(), (index / RUN + 1) * RUN - 1);
    true
}
