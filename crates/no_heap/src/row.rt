ghost use Rattle.std.specs.Prelude.{◌≡◌, ◌+◌, ◌-◌, ◌<◌, ◌≤◌, ◌++◌, ◌∷◌, List, [], length, take, drop, IfOk};
ghost use Rattle.std.specs.List.{insert, remove};

use crate::block::{Block, HEAP_START, MOST_BLOCKS};
use no_ir::NoMemory;
use std::alloc::Global;
use std::marker::Model;

/// How many blocks a row has room for, at both of its ends together.
const SLOTS: usize = 2 * MOST_BLOCKS;

/// A list of blocks in one piece, which contracts see as that list. It stands amid free slots, so that a block that is
/// put in or taken out moves only those in front of it or only those behind it, whichever are fewer.
#[derive(Debug, Drop)]
pub(crate) struct Row {
    slots: Vec<Block>,
    first: usize,
    count: usize,
}

impl Model for Row {
    ghost use Rattle.std.specs.Prelude.{List, ◌+◌, ◌≡◌, ◌≤◌, take, drop, vec_len};
    ghost use Rattle.no_heap.specs.declared.block.Block.{Block};
    ghost use Rattle.no_heap.specs.declared.row.TheConstants.{SLOTS};

    ghost Value = { List Block };

    ghost view = { λ r. take r.count (drop r.first r.slots.items) };

    ghost invariant = { λ r. (vec_len r.slots ≡ SLOTS) × (r.first + r.count ≤ SLOTS) };
}

impl Row {
    /// A row without blocks.
    pub(crate) fn new(alloc: Global) -> Result<Row, NoMemory>
        ensures empty { IfOk result (λ row. row ≡ []) }
    {
        let none = Block {
            at: HEAP_START,
            size: 0,
        };
        let slots = vec![in alloc; none; SLOTS]?;
        Ok(Row {
            slots,
            first: MOST_BLOCKS,
            count: 0,
        })
    }

    /// How many blocks there are.
    pub(crate) fn len(&self) -> usize
        ensures { result ≡ length self.now }
    {
        self.count
    }

    /// The blocks.
    pub(crate) fn as_slice(&self) -> &[Block]
        ensures value { result.now ≡ self.now }
    {
        &self.slots[self.first..self.first + self.count]
    }

    /// Puts a block in front of the one of an index, or at the end.
    pub(crate) fn insert(&mut self, index: usize, block: Block)
        requires within { index ≤ length self.old }
        requires few { length self.old < MOST_BLOCKS }
        ensures items { self.new ≡ insert self.old index block }
    {
        let first = with_room(&mut self.slots, self.first, self.count);
        self.first = put(&mut self.slots, first, self.count, index, block);
        self.count += 1;
    }

    /// Takes out the block of an index.
    pub(crate) fn remove(&mut self, index: usize)
        requires within { index < length self.old }
        ensures items { self.new ≡ remove self.old index }
    {
        self.first = take_out(&mut self.slots, self.first, self.count, index);
        self.count -= 1;
    }

    /// Makes the list one of these blocks, in the middle of the room.
    pub(crate) fn copy_from(&mut self, blocks: &[Block])
        requires few { length blocks.now ≤ MOST_BLOCKS }
        ensures items { self.new ≡ blocks.now }
    {
        self.count = blocks.len();
        self.first = (SLOTS - self.count) / 2;
        self.slots[self.first..self.first + self.count].copy_from_slice(blocks);
    }
}

/// Gives the slot of the first block, in front of which and behind all of which a slot is free: the blocks are moved to
/// the middle where they stand at an end.
fn with_room(slots: &mut [Block], first: usize, count: usize) -> usize
    requires size { length slots.old ≡ SLOTS }
    requires few { count < MOST_BLOCKS }
    requires within { first + count ≤ SLOTS }
    ensures same { take count (drop result slots.new) ≡ take count (drop first slots.old) }
    ensures front { 0 < result }
    ensures back { result + count < SLOTS }
    ensures size { length slots.new ≡ SLOTS }
{
    if first != 0 && first + count != SLOTS {
        return first;
    }
    let middle = (SLOTS - count) / 2;
    if middle < first {
        slots.rotate_left(first - middle);
    } else {
        slots.rotate_right(middle - first);
    }
    middle
}

/// Puts a block in front of the one of an index, and gives the slot of the first block then.
fn put(slots: &mut [Block], first: usize, count: usize, index: usize, block: Block) -> usize
    requires front { 0 < first }
    requires back { first + count < length slots.old }
    requires within { index ≤ count }
    ensures put { take (count + 1) (drop result slots.new) ≡ insert (take count (drop first slots.old)) index block }
    ensures back { result + count + 1 ≤ length slots.old }
    ensures size { length slots.new ≡ length slots.old }
{
    let at = first + index;
    if index < count - index {
        slots[first - 1] = block;
        slots[first - 1..at].rotate_left(1);
        return first - 1;
    }
    slots[first + count] = block;
    slots[at..first + count + 1].rotate_right(1);
    first
}

/// Takes out the block of an index, and gives the slot of the first block then.
fn take_out(slots: &mut [Block], first: usize, count: usize, index: usize) -> usize
    requires back { first + count ≤ length slots.old }
    requires within { index < count }
    ensures gone { take (count - 1) (drop result slots.new) ≡ remove (take count (drop first slots.old)) index }
    ensures back { result + count ≤ length slots.old + 1 }
    ensures size { length slots.new ≡ length slots.old }
{
    let at = first + index;
    if index < count - index {
        slots[first..at + 1].rotate_right(1);
        return first + 1;
    }
    slots[at..first + count].rotate_left(1);
    first
}
