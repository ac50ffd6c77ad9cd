ghost use Rattle.std.specs.Prelude.{◌≡◌, ◌+◌, ◌≤◌, ◌<◌, ◌^◌, length, replicate, true};
ghost use Rattle.no_layout.specs.Memory.{splice};
ghost use Rattle.no_layout.specs.Orders.{bytes_of, number_of};
ghost use Rattle.no_layout.specs.Width.{width_of};
ghost use Rattle.no_pages.specs.Slot.{IsHeldNumber, IsLaidIn, IsNumberAt, IsPutIn, IsSetIn, IsStoredIn, is_own};

use no_layout::{Width, get_number, put_number};

/// What a page lies in.
#[derive(Clone, Copy, Debug, PartialEq, Eq)]
pub enum Kind {
    /// All of it lies in the constants.
    Constant,
    /// All of it lies in one region that may be written.
    Writable,
    /// Anything else.
    Mixed,
}

/// The bytes of a page.
#[derive(Drop)]
pub enum Bytes {
    Absent,
    /// It shares the page of zeros.
    Zeros,
    Own(Box<[u8; 4096]>),
}

/// A page of the table.
#[derive(Drop)]
pub struct Slot {
    pub kind: Kind,
    pub dirty: bool,
    pub bytes: Bytes,
}

impl Slot {
    /// The number at a place, where the page is present.
    #[inline(always)]
    pub fn held_number(
        &self,
        zeros: &[u8; 4096],
        big: bool,
        width: Width,
        offset: usize,
    ) -> Option<u64>
        requires { offset + width_of width ≤ 4096 }
        ensures { IsHeldNumber result zeros.now self.now big (width_of width) offset }
    {
        match &self.bytes {
            Bytes::Own(bytes) => Some(get_number(
                big,
                width,
                &bytes[offset..offset + width.bytes()],
            )),
            Bytes::Zeros => Some(get_number(big, width, &zeros[offset..offset + width.bytes()])),
            Bytes::Absent => None,
        }
    }

    /// The number at a place, where the page is present and all of it may be read.
    #[inline(always)]
    pub fn number(&self, zeros: &[u8; 4096], big: bool, width: Width, offset: usize) -> Option<u64>
        requires { offset + width_of width ≤ 4096 }
        ensures { IsNumberAt result zeros.now self.now big (width_of width) offset }
    {
        match self.kind {
            Kind::Mixed => None,
            Kind::Constant | Kind::Writable => self.held_number(zeros, big, width, offset),
        }
    }

    /// Writes a number at a place, where the page has bytes of its own.
    #[inline(always)]
    pub fn set_own_number(&mut self, big: bool, width: Width, offset: usize, value: u64) -> bool
        requires place { offset + width_of width ≤ 4096 }
        requires fits { value < 256 ^ width_of width }
        ensures { IsSetIn result self.old self.new offset (bytes_of big (width_of width) value) }
    {
        match &mut self.bytes {
            Bytes::Own(bytes) => {
                put_number(
                    big,
                    width,
                    value,
                    &mut bytes[offset..offset + width.bytes()],
                );
                self.dirty = true;
                true
            }
            _ => false,
        }
    }

    /// Writes a number at a place, where the page has bytes of its own and all of it may be written.
    #[inline(always)]
    pub fn set_number(&mut self, big: bool, width: Width, offset: usize, value: u64) -> bool
        requires place { offset + width_of width ≤ 4096 }
        requires fits { value < 256 ^ width_of width }
        ensures { IsStoredIn result self.old self.new offset (bytes_of big (width_of width) value) }
    {
        match self.kind {
            Kind::Writable => self.set_own_number(big, width, offset, value),
            _ => false,
        }
    }

    /// Writes bytes at a place of a page that has bytes of its own.
    pub fn put(&mut self, offset: usize, bytes: &[u8])
        requires own { is_own self.old.bytes ≡ true }
        requires place { offset + length bytes.now ≤ 4096 }
        ensures { IsPutIn self.old self.new offset bytes.now }
    {
        match &mut self.bytes {
            Bytes::Own(own) => {
                own[offset..offset + bytes.len()].copy_from_slice(bytes);
                self.dirty = true;
            }
            _ => {}
        }
    }

    /// Makes bytes the first ones at a place of a page that has bytes of its own, which does not mark it.
    pub fn lay(&mut self, offset: usize, bytes: &[u8])
        requires own { is_own self.old.bytes ≡ true }
        requires place { offset + length bytes.now ≤ 4096 }
        ensures { IsLaidIn self.old self.new offset bytes.now }
    {
        match &mut self.bytes {
            Bytes::Own(own) => own[offset..offset + bytes.len()].copy_from_slice(bytes),
            _ => {}
        }
    }

    /// Writes one byte over and over at a place of a page that has bytes of its own.
    pub fn set(&mut self, offset: usize, count: usize, byte: u8)
        requires own { is_own self.old.bytes ≡ true }
        requires place { offset + count ≤ 4096 }
        ensures { IsPutIn self.old self.new offset (replicate count byte) }
    {
        match &mut self.bytes {
            Bytes::Own(own) => {
                own[offset..offset + count].fill(byte);
                self.dirty = true;
            }
            _ => {}
        }
    }
}
