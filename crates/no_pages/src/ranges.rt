ghost use Rattle.std.specs.Prelude.{◌≡◌, ◌≤◌, ◌<◌, ◌+◌, ◌-◌, ◌%◌, ◌^◌, ℕ, length, replicate, true, OnOk, OnErr};
ghost use Rattle.no_layout.specs.Memory.{page_of, read_bytes, written};
ghost use Rattle.no_layout.specs.Numbers.{IsShared, marked};
ghost use Rattle.no_layout.specs.Memory.{AreOwn};
ghost use Rattle.no_pages.specs.Table.{byte_of, dirty_of, held_of, own_of, regions_of};

use crate::table::{PAGE_SIZE, PageTable};
use no_ir::NoMemory;

impl PageTable {
    /// Reads bytes of pages that are present.
    pub fn copy_out(&self, addr: u64, into: &mut [u8])
        requires held { AreOwn (held_of self.now) addr (length into.old) }
        requires end { addr + length into.old < 2 ^ 63 }
        ensures { into.new ≡ read_bytes (byte_of self.now) addr (length into.old) }
    {
        let len = into.len();
        let mut done = 0;
        while done < len {
            let at = addr + done as u64;
            let count = (PAGE_SIZE - (at % 4096) as usize).min(len - done);
            self.get_in_page(at, &mut into[done..done + count]);
            done += count;
        }
    }

    /// Writes bytes of pages that have bytes of their own.
    pub fn copy_in(&mut self, addr: u64, bytes: &[u8])
        requires own { AreOwn (own_of self.old) addr (length bytes.now) }
        requires some { 0 < length bytes.now }
        requires end { addr + length bytes.now < 2 ^ 63 }
        ensures bytes { byte_of self.new ≡ written (byte_of self.old) addr bytes.now }
        ensures dirty { dirty_of self.new ≡ marked (dirty_of self.old) addr (length bytes.now) }
        ensures regions { regions_of self.new ≡ regions_of self.old }
        ensures held { held_of self.new ≡ held_of self.old }
        ensures own { own_of self.new ≡ own_of self.old }
    {
        let len = bytes.len();
        let mut done = 0;
        while done < len {
            let at = addr + done as u64;
            let count = (PAGE_SIZE - (at % 4096) as usize).min(len - done);
            self.put_in_page(at, &bytes[done..done + count]);
            done += count;
        }
    }

    /// Writes the first bytes of a program, constants too, in pages that are present. No page is marked as written.
    pub fn fill(&mut self, addr: u32, bytes: &[u8]) -> Result<(), NoMemory>
        requires { AreOwn (held_of self.old) addr (length bytes.now) }
        ensures bytes { OnOk result (byte_of self.new ≡ written (byte_of self.old) addr bytes.now) }
        ensures kept { (p : ℕ) → own_of self.old p ≡ true → own_of self.new p ≡ true }
        ensures dirty { dirty_of self.new ≡ dirty_of self.old }
        ensures regions { regions_of self.new ≡ regions_of self.old }
        ensures held { held_of self.new ≡ held_of self.old }
    {
        let len = bytes.len();
        let mut done = 0;
        while done < len {
            let at = u64::from(addr) + done as u64;
            let count = (PAGE_SIZE - (at % 4096) as usize).min(len - done);
            self.take_own((at / 4096) as usize)?;
            self.lay_in_page(at, &bytes[done..done + count]);
            done += count;
        }
        Ok(())
    }

    /// Writes one byte over and over in pages that have bytes of their own.
    pub fn set_in(&mut self, addr: u64, len: usize, byte: u8)
        requires own { AreOwn (own_of self.old) addr len }
        requires some { 0 < len }
        requires end { addr + len < 2 ^ 63 }
        ensures bytes { byte_of self.new ≡ written (byte_of self.old) addr (replicate len byte) }
        ensures dirty { dirty_of self.new ≡ marked (dirty_of self.old) addr len }
        ensures regions { regions_of self.new ≡ regions_of self.old }
        ensures held { held_of self.new ≡ held_of self.old }
        ensures own { own_of self.new ≡ own_of self.old }
    {
        let mut done = 0;
        while done < len {
            let at = addr + done as u64;
            let count = (PAGE_SIZE - (at % 4096) as usize).min(len - done);
            self.set_in_page(at, count, byte);
            done += count;
        }
    }

    /// Gives all pages of some bytes bytes of their own. No byte changes.
    pub fn take_all(&mut self, addr: u64, len: u64) -> Result<(), NoMemory>
        requires some { 0 < len }
        requires held { AreOwn (held_of self.old) addr len }
        requires end { addr + len < 2 ^ 63 }
        ensures own { OnOk result (AreOwn (own_of self.new) addr len) }
        ensures enough { OnErr result (IsShared (own_of self.old) addr len) }
        ensures kept { (p : ℕ) → own_of self.old p ≡ true → own_of self.new p ≡ true }
        ensures bytes { byte_of self.new ≡ byte_of self.old }
        ensures dirty { dirty_of self.new ≡ dirty_of self.old }
        ensures regions { regions_of self.new ≡ regions_of self.old }
        ensures held { held_of self.new ≡ held_of self.old }
    {
        let first = addr / 4096;
        let last = (addr + len - 1) / 4096;
        for page in first..last + 1 {
            self.take_own(page as usize)?;
        }
        Ok(())
    }
}
