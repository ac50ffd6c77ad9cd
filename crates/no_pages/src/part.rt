ghost use Rattle.std.specs.Prelude.{◌≡◌, ◌≤◌, ◌<◌, ◌^◌, if◌then◌else◌};
ghost use Rattle.no_layout.specs.Numbers.{IsMarked};
ghost use Rattle.no_layout.specs.Width.{width_of};
ghost use Rattle.no_pages.specs.Table.{TriesLoad, TriesStore, byte_of, dirty_of, held_of, own_of, regions_of};

use crate::judge::refused;
use crate::table::{PAGE_SIZE, PAGES, PageTable};
use no_layout::{Stored, Width};

impl PageTable {
    /// The number at an address, where all its bytes lie in one page that is present, of which a part may be read.
    pub fn part_load(&self, big: bool, width: Width, addr: u64) -> Option<u64>
        ensures { TriesLoad result (regions_of self.now) (held_of self.now) (byte_of self.now) big addr (width_of width) }
    {
        let page = (addr / 4096) as usize;
        let offset = (addr % 4096) as usize;
        if page >= PAGES || offset + width.bytes() > PAGE_SIZE {
            return None;
        }
        match refused(&self.regions, addr, width.bytes() as u64, false) {
            None => self.slots[page].held_number(&self.zeros, big, width, offset),
            Some(_) => None,
        }
    }

    /// Writes a number, where all its bytes lie in one page that has bytes of its own, of which a part may be written.
    pub fn part_store(&mut self, big: bool, width: Width, addr: u64, value: u64) -> bool
        requires { value < 256 ^ width_of width }
        ensures stored { TriesStore result (regions_of self.old) (held_of self.old) (byte_of self.old) (byte_of self.new) big addr (width_of width) value }
        ensures dirty { IsMarked (if result then Stored.Done else Stored.NoMemory) (dirty_of self.old) (dirty_of self.new) addr (width_of width) }
        ensures regions { regions_of self.new ≡ regions_of self.old }
        ensures held { held_of self.new ≡ held_of self.old }
        ensures own { own_of self.new ≡ own_of self.old }
    {
        let page = (addr / 4096) as usize;
        let offset = (addr % 4096) as usize;
        if page >= PAGES || offset + width.bytes() > PAGE_SIZE {
            return false;
        }
        match refused(&self.regions, addr, width.bytes() as u64, true) {
            None => self.slots[page].set_own_number(big, width, offset, value),
            Some(_) => false,
        }
    }
}
