ghost use Rattle.std.specs.Prelude.{◌≡◌, ◌<◌, ◌^◌, ℕ, true, false, length};
ghost use Rattle.no_layout.specs.Memory.{IsGot, access};
ghost use Rattle.no_layout.specs.Numbers.{IsLoaded, IsMarked, IsShared, IsStored, IsWritten};
ghost use Rattle.no_layout.specs.Width.{width_of};
ghost use Rattle.no_pages.specs.Table.{byte_of, dirty_of, held_of, own_of, regions_of};

use crate::slot::Bytes;
use crate::table::PageTable;
use no_ir::NoMemory;
use no_layout::{Access, Loaded, Memory, Regions, Stored, Width, get_number, put_number};

impl PageTable {
    /// Reads bytes from an address on.
    fn read(&self, addr: u64, into: &mut [u8]) -> Access
        requires { 0 < length into.old }
        ensures answer { result ≡ access (regions_of self.now) (held_of self.now) false addr (length into.old) }
        ensures bytes { IsGot result (byte_of self.now) addr into.old into.new }
    {
        match self.judge(addr, into.len() as u64, false) {
            Access::Done => {
                self.copy_out(addr, into);
                Access::Done
            }
            other => other,
        }
    }

    /// Writes bytes from an address on.
    fn write(&mut self, addr: u64, bytes: &[u8]) -> Stored
        requires { 0 < length bytes.now }
        ensures stored { IsWritten result (regions_of self.old) (held_of self.old) (byte_of self.old) (byte_of self.new) addr bytes.now }
        ensures dirty { IsMarked result (dirty_of self.old) (dirty_of self.new) addr (length bytes.now) }
        ensures enough { result ≡ Stored.NoMemory → IsShared (own_of self.old) addr (length bytes.now) }
        ensures regions { regions_of self.new ≡ regions_of self.old }
        ensures held { held_of self.new ≡ held_of self.old }
        ensures own { (p : ℕ) → own_of self.old p ≡ true → own_of self.new p ≡ true }
    {
        match self.judge(addr, bytes.len() as u64, true) {
            Access::Missing(page) => Stored::Missing(page),
            Access::Refused(trap) => Stored::Refused(trap),
            Access::Done => match self.take_all(addr, bytes.len() as u64) {
                Err(NoMemory) => Stored::NoMemory,
                Ok(()) => {
                    self.copy_in(addr, bytes);
                    Stored::Done
                }
            },
        }
    }

    /// The number in bytes that are read into a buffer.
    fn number_into(&self, big: bool, width: Width, addr: u64, into: &mut [u8]) -> Loaded
        requires { length into.old ≡ width_of width }
        ensures { IsLoaded result (regions_of self.now) (held_of self.now) (byte_of self.now) big addr (width_of width) }
    {
        match self.read(addr, into) {
            Access::Done => Loaded::Value(get_number(big, width, into)),
            Access::Missing(page) => Loaded::Missing(page),
            Access::Refused(trap) => Loaded::Refused(trap),
        }
    }

    #[cold]
    #[inline(never)]
    fn load_slowly(&self, big: bool, width: Width, addr: u64) -> Loaded
        ensures { IsLoaded result (regions_of self.now) (held_of self.now) (byte_of self.now) big addr (width_of width) }
    {
        if let Some(value) = self.part_load(big, width, addr) {
            return Loaded::Value(value);
        }
        let mut buffer = [0; 8];
        self.number_into(big, width, addr, &mut buffer[..width.bytes()])
    }

    fn store_slowly(&mut self, big: bool, width: Width, addr: u64, value: u64) -> Stored
        requires { value < 256 ^ width_of width }
        ensures stored { IsStored result (regions_of self.old) (held_of self.old) (byte_of self.old) (byte_of self.new) big addr (width_of width) value }
        ensures dirty { IsMarked result (dirty_of self.old) (dirty_of self.new) addr (width_of width) }
        ensures enough { result ≡ Stored.NoMemory → IsShared (own_of self.old) addr (width_of width) }
        ensures regions { regions_of self.new ≡ regions_of self.old }
        ensures held { held_of self.new ≡ held_of self.old }
        ensures own { (p : ℕ) → own_of self.old p ≡ true → own_of self.new p ≡ true }
    {
        let mut buffer = [0; 8];
        let bytes = &mut buffer[..width.bytes()];
        put_number(big, width, value, bytes);
        self.write(addr, bytes)
    }

    #[cold]
    #[inline(never)]
    fn store_otherwise(&mut self, big: bool, width: Width, addr: u64, value: u64) -> Stored
        requires { value < 256 ^ width_of width }
        ensures stored { IsStored result (regions_of self.old) (held_of self.old) (byte_of self.old) (byte_of self.new) big addr (width_of width) value }
        ensures dirty { IsMarked result (dirty_of self.old) (dirty_of self.new) addr (width_of width) }
        ensures enough { result ≡ Stored.NoMemory → IsShared (own_of self.old) addr (width_of width) }
        ensures regions { regions_of self.new ≡ regions_of self.old }
        ensures held { held_of self.new ≡ held_of self.old }
        ensures own { (p : ℕ) → own_of self.old p ≡ true → own_of self.new p ≡ true }
    {
        if self.part_store(big, width, addr, value) {
            Stored::Done
        } else {
            self.store_slowly(big, width, addr, value)
        }
    }
}

impl Memory for PageTable {
    ghost regions = { regions_of };

    ghost byte = { byte_of };

    ghost held = { held_of };

    ghost own = { own_of };

    ghost dirty = { dirty_of };

    fn regions(&self) -> Regions {
        self.regions
    }

    fn holds(&self, page: u32) -> bool {
        self.has_page(u64::from(page))
    }

    fn ready(&self, addr: u64, len: u64, write: bool) -> Access {
        self.judge(addr, len, write)
    }

    #[inline(always)]
    fn load(&self, big: bool, width: Width, addr: u64) -> Loaded {
        match self.try_load(big, width, addr) {
            Some(value) => Loaded::Value(value),
            None => self.load_slowly(big, width, addr),
        }
    }

    #[inline(always)]
    fn store(&mut self, big: bool, width: Width, addr: u64, value: u64) -> Stored {
        if self.try_store(big, width, addr, value) {
            Stored::Done
        } else {
            self.store_otherwise(big, width, addr, value)
        }
    }

    fn get(&self, addr: u64, into: &mut [u8]) -> Access {
        self.read(addr, into)
    }

    fn put(&mut self, addr: u64, bytes: &[u8]) -> Stored {
        self.write(addr, bytes)
    }

    fn set(&mut self, addr: u64, len: u64, value: u8) -> Stored {
        match self.judge(addr, len, true) {
            Access::Missing(page) => Stored::Missing(page),
            Access::Refused(trap) => Stored::Refused(trap),
            Access::Done => match self.take_all(addr, len) {
                Err(NoMemory) => Stored::NoMemory,
                Ok(()) => {
                    self.set_in(addr, len as usize, value);
                    Stored::Done
                }
            },
        }
    }

    fn slice(&self, addr: u64, len: u64) -> &[u8] {
        let offset = (addr % 4096) as usize;
        let bytes = self.bytes((addr / 4096) as usize);
        &bytes[offset..offset + len as usize]
    }

    fn prepare(&mut self, page: u32) -> Result<(), NoMemory> {
        self.take_own(page as usize)
    }

    fn page(&self, page: u32) -> &[u8; 4096] {
        let bytes = self.bytes(page as usize);
        let _whole = &bytes[..];
        bytes
    }

    fn supply(&mut self, page: u32, bytes: &[u8; 4096]) -> Result<(), NoMemory> {
        let own = Box::new(self.alloc, *bytes)?;
        self.slots[page as usize].bytes = Bytes::Own(own);
        Ok(())
    }
}
