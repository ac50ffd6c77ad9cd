ghost use Rattle.std.specs.Prelude.{◌≡◌, vec_len};
ghost use Rattle.no_layout.specs.Memory.{AreFormed, AreZero};
ghost use Rattle.no_pages.specs.Kinds.{AreKinds};

use crate::slot::{Bytes, Slot};
use no_layout::{Regions, Stored, Width};
use std::alloc::Global;

/// How many pages the table has.
pub const PAGES: usize = 131_328;

/// How many bytes a page has.
pub const PAGE_SIZE: usize = 4096;

/// A program's memory by pages.
#[derive(Drop)]
pub struct PageTable {
    pub(crate) alloc: Global,
    pub(crate) regions: Regions,
    pub(crate) zeros: Box<[u8; 4096]>,
    pub(crate) slots: Vec<Slot>,
    ghost formed: { AreFormed regions },
    ghost zero: { AreZero zeros.value },
    ghost kinds: { AreKinds regions slots.items },
    ghost all: { vec_len slots ≡ 131328 },
}

impl PageTable {
    ghost use Rattle.std.specs.Prelude.{◌≡◌, ◌≤◌, ◌<◌, ◌^◌, if◌then◌else◌};
    ghost use Rattle.no_layout.specs.Memory.{page_of};
    ghost use Rattle.no_layout.specs.Numbers.{IsLoaded, IsMarked, IsStored};
    ghost use Rattle.no_layout.specs.Width.{width_of};
    ghost use Rattle.no_pages.specs.Table.{TriesLoad, TriesStore, byte_of, dirty_of, held_of, own_of, regions_of};

    /// The number at an address, where all its bytes lie in one page that is present.
    #[inline(always)]
    pub fn try_load(&self, big: bool, width: Width, addr: u64) -> Option<u64>
        ensures { TriesLoad result (regions_of self.now) (held_of self.now) (byte_of self.now) big addr (width_of width) }
    {
        let page = (addr / 4096) as usize;
        let offset = (addr % 4096) as usize;
        if page < PAGES && offset + width.bytes() <= PAGE_SIZE {
            self.slots[page].number(&self.zeros, big, width, offset)
        } else {
            None
        }
    }

    /// Writes a number, where all its bytes lie in one page that has bytes of its own.
    #[inline(always)]
    pub fn try_store(&mut self, big: bool, width: Width, addr: u64, value: u64) -> bool
        requires { value < 256 ^ width_of width }
        ensures stored { TriesStore result (regions_of self.old) (held_of self.old) (byte_of self.old) (byte_of self.new) big addr (width_of width) value }
        ensures dirty { IsMarked (if result then Stored.Done else Stored.NoMemory) (dirty_of self.old) (dirty_of self.new) addr (width_of width) }
        ensures regions { regions_of self.new ≡ regions_of self.old }
        ensures held { held_of self.new ≡ held_of self.old }
        ensures own { own_of self.new ≡ own_of self.old }
    {
        let page = (addr / 4096) as usize;
        let offset = (addr % 4096) as usize;
        if page < PAGES && offset + width.bytes() <= PAGE_SIZE {
            self.slots[page].set_number(big, width, offset, value)
        } else {
            false
        }
    }
}
