ghost use Rattle.std.specs.Prelude.{◌≡◌, ◌≤◌, ◌<◌, ◌+◌, ◌-◌, ◌*◌, ◌/◌, ◌%◌, ℕ, length, replicate, true, false, OnOk, OnErr};
ghost use Rattle.no_layout.specs.Memory.{access, first_absent, page_of, read_bytes, written};
ghost use Rattle.no_layout.specs.Numbers.{marked};
ghost use Rattle.no_layout.specs.Memory.{AreOwn};
ghost use Rattle.no_pages.specs.Table.{byte_of, dirty_of, held_of, list_at, own_of, regions_of};

use crate::judge::refused;
use crate::slot::Bytes;
use crate::table::PageTable;
use no_ir::NoMemory;
use no_layout::Access;

impl PageTable {
    /// Whether a page is present.
    pub fn has_page(&self, page: u64) -> bool
        ensures { result ≡ held_of self.now page }
    {
        match self.slots.get(page as usize) {
            None => false,
            Some(slot) => !matches!(slot.bytes, Bytes::Absent),
        }
    }

    /// The lowest of so many pages from one on that is absent.
    fn lowest_absent(&self, first: u64, count: u64) -> Option<u32>
        requires { first + count ≤ 131328 }
        ensures { result ≡ first_absent (held_of self.now) first count }
    {
        for step in 0..count {
            if !self.has_page(first + step) {
                return Some((first + step) as u32);
            }
        }
        None
    }

    /// What an access of so many bytes would answer.
    pub fn judge(&self, addr: u64, len: u64, write: bool) -> Access
        requires { 0 < len }
        ensures { result ≡ access (regions_of self.now) (held_of self.now) write addr len }
    {
        match refused(&self.regions, addr, len, write) {
            Some(trap) => Access::Refused(trap),
            None => {
                let first = addr / 4096;
                let last = (addr + len - 1) / 4096;
                match self.lowest_absent(first, last + 1 - first) {
                    Some(page) => Access::Missing(page),
                    None => Access::Done,
                }
            }
        }
    }

    /// The bytes of a page that is present.
    pub fn bytes(&self, page: usize) -> &[u8; 4096]
        requires { held_of self.now page ≡ true }
        ensures { result.now ≡ list_at self.now page }
    {
        match &self.slots[page].bytes {
            Bytes::Own(bytes) => bytes,
            Bytes::Zeros => &self.zeros,
            Bytes::Absent => unreachable!(),
        }
    }

    /// Reads bytes of one page that is present.
    pub fn get_in_page(&self, addr: u64, into: &mut [u8])
        requires held { held_of self.now (page_of addr) ≡ true }
        requires fits { addr % 4096 + length into.old ≤ 4096 }
        ensures { into.new ≡ read_bytes (byte_of self.now) addr (length into.old) }
    {
        let offset = (addr % 4096) as usize;
        let bytes = self.bytes((addr / 4096) as usize);
        let count = into.len();
        into.copy_from_slice(&bytes[offset..offset + count]);
    }

    /// Writes bytes of one page that has bytes of its own.
    pub fn put_in_page(&mut self, addr: u64, bytes: &[u8])
        requires own { own_of self.old (page_of addr) ≡ true }
        requires some { 0 < length bytes.now }
        requires fits { addr % 4096 + length bytes.now ≤ 4096 }
        ensures bytes { byte_of self.new ≡ written (byte_of self.old) addr bytes.now }
        ensures dirty { dirty_of self.new ≡ marked (dirty_of self.old) addr (length bytes.now) }
        ensures regions { regions_of self.new ≡ regions_of self.old }
        ensures held { held_of self.new ≡ held_of self.old }
        ensures own { own_of self.new ≡ own_of self.old }
    {
        let page = (addr / 4096) as usize;
        let offset = (addr % 4096) as usize;
        self.slots[page].put(offset, bytes);
    }

    /// Makes bytes the first ones in one page that has bytes of its own, which does not mark it.
    pub fn lay_in_page(&mut self, addr: u64, bytes: &[u8])
        requires own { own_of self.old (page_of addr) ≡ true }
        requires fits { addr % 4096 + length bytes.now ≤ 4096 }
        ensures bytes { byte_of self.new ≡ written (byte_of self.old) addr bytes.now }
        ensures dirty { dirty_of self.new ≡ dirty_of self.old }
        ensures regions { regions_of self.new ≡ regions_of self.old }
        ensures held { held_of self.new ≡ held_of self.old }
        ensures own { own_of self.new ≡ own_of self.old }
    {
        let page = (addr / 4096) as usize;
        let offset = (addr % 4096) as usize;
        self.slots[page].lay(offset, bytes);
    }

    /// Writes one byte over and over in one page that has bytes of its own.
    pub fn set_in_page(&mut self, addr: u64, count: usize, byte: u8)
        requires own { own_of self.old (page_of addr) ≡ true }
        requires some { 0 < count }
        requires fits { addr % 4096 + count ≤ 4096 }
        ensures bytes { byte_of self.new ≡ written (byte_of self.old) addr (replicate count byte) }
        ensures dirty { dirty_of self.new ≡ marked (dirty_of self.old) addr count }
        ensures regions { regions_of self.new ≡ regions_of self.old }
        ensures held { held_of self.new ≡ held_of self.old }
        ensures own { own_of self.new ≡ own_of self.old }
    {
        let page = (addr / 4096) as usize;
        let offset = (addr % 4096) as usize;
        self.slots[page].set(offset, count, byte);
    }

    /// Gives a page that is present bytes of its own. No byte changes.
    pub fn take_own(&mut self, page: usize) -> Result<(), NoMemory>
        requires { held_of self.old page ≡ true }
        ensures own { OnOk result (own_of self.new page ≡ true) }
        ensures enough { OnErr result (own_of self.old page ≡ false) }
        ensures kept { (p : ℕ) → own_of self.old p ≡ true → own_of self.new p ≡ true }
        ensures bytes { byte_of self.new ≡ byte_of self.old }
        ensures dirty { dirty_of self.new ≡ dirty_of self.old }
        ensures regions { regions_of self.new ≡ regions_of self.old }
        ensures held { held_of self.new ≡ held_of self.old }
    {
        match self.slots[page].bytes {
            Bytes::Own(_) => Ok(()),
            Bytes::Absent => unreachable!(),
            Bytes::Zeros => {
                let bytes = Box::new(self.alloc, *self.zeros)?;
                self.slots[page].bytes = Bytes::Own(bytes);
                Ok(())
            }
        }
    }
}
