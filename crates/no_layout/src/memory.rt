use crate::Width;
use no_ir::{NoMemory, Trap};

/// Where a program's constants and its globals end. Both are addresses behind their last bytes.
///
/// Constants begin at `0x0001_0000`, globals at the least multiple of 65,536 that is not below the constants' end.
#[derive(Clone, Copy, Debug, PartialEq, Eq)]
pub struct Regions {
    pub constants_end: u32,
    pub globals_end: u32,
}

/// What an access answers.
#[derive(Clone, Copy, Debug, PartialEq, Eq)]
pub enum Access {
    Done,
    /// The access is allowed, and this is the lowest of its pages that is absent.
    Missing(u32),
    /// The bytes do not lie in one region, or they are constants that would be written.
    Refused(Trap),
}

/// What the load of a number gives.
#[derive(Clone, Copy, Debug, PartialEq, Eq)]
pub enum Loaded {
    Value(u64),
    /// The access is allowed, and this is the lowest of its pages that is absent.
    Missing(u32),
    Refused(Trap),
}

/// What a store did.
#[derive(Clone, Copy, Debug, PartialEq, Eq)]
pub enum Stored {
    Done,
    /// The access is allowed, and this is the lowest of its pages that is absent.
    Missing(u32),
    Refused(Trap),
    /// A page of the access could not be given bytes of its own. No byte has changed.
    NoMemory,
}

/// A program's memory, as its machine reads and writes it.
///
/// Of its meanings `byte` gives the byte at an address, 0 where none is; `held` says which pages are present, `own`
/// which of them have bytes of their own, so that writing there takes no memory, and `dirty` which were written since
/// the memory was made. Pages have 4,096 bytes and are numbered by address.
pub trait Memory: Drop {
    ghost use Rattle.std.specs.Prelude.{◌≡◌, ◌<◌, ◌≤◌, ◌+◌, ◌*◌, ◌%◌, ◌^◌, ℕ, Bool, true, false, length, OnOk, OnErr};
    ghost use Rattle.no_layout.specs.declared.memory.Access.TheVariants.{Done};
    ghost use Rattle.no_layout.specs.declared.memory.Regions.{Regions};
    ghost use Rattle.no_layout.specs.Memory.{access, also, AreFormed, IsGot, IsPage, read_bytes, written};
    ghost use Rattle.no_layout.specs.Numbers.{IsLoaded, IsMarked, IsSet, IsShared, IsStored, IsWritten};
    ghost use Rattle.no_layout.specs.Width.{width_of};

    ghost regions: { Self → Regions };

    ghost byte: { Self → ℕ → ℕ };

    ghost held: { Self → ℕ → Bool };

    ghost own: { Self → ℕ → Bool };

    ghost dirty: { Self → ℕ → Bool };

    /// Where constants and globals end.
    fn regions(&self) -> Regions
        ensures regions { result ≡ regions self.now }
        ensures formed { AreFormed result };

    /// Whether a page is present.
    fn holds(&self, page: u32) -> bool
        ensures { result ≡ held self.now page };

    /// What an access of so many bytes would answer. Nothing is read or written.
    fn ready(&self, addr: u64, len: u64, write: bool) -> Access
        requires { 0 < len }
        ensures { result ≡ access (regions self.now) (held self.now) write addr len };

    /// The number at an address, in the order of a layout.
    fn load(&self, big: bool, width: Width, addr: u64) -> Loaded
        ensures { IsLoaded result (regions self.now) (held self.now) (byte self.now) big addr (width_of width) };

    /// Writes a number that fits, in the order of a layout. Where it is not done, no byte changes.
    fn store(&mut self, big: bool, width: Width, addr: u64, value: u64) -> Stored
        requires { value < 256 ^ width_of width }
        ensures stored { IsStored result (regions self.old) (held self.old) (byte self.old) (byte self.new) big addr (width_of width) value }
        ensures dirty { IsMarked result (dirty self.old) (dirty self.new) addr (width_of width) }
        ensures enough { result ≡ Stored.NoMemory → IsShared (own self.old) addr (width_of width) }
        ensures own { (p : ℕ) → own self.old p ≡ true → own self.new p ≡ true }
        ensures regions { regions self.new ≡ regions self.old }
        ensures held { held self.new ≡ held self.old };

    /// Reads the bytes from an address on. Where it is not done, the buffer stays as it was.
    fn get(&self, addr: u64, into: &mut [u8]) -> Access
        requires { 0 < length into.old }
        ensures answer { result ≡ access (regions self.now) (held self.now) false addr (length into.old) }
        ensures bytes { IsGot result (byte self.now) addr into.old into.new };

    /// Writes bytes from an address on. Where it is not done, no byte changes.
    fn put(&mut self, addr: u64, bytes: &[u8]) -> Stored
        requires { 0 < length bytes.now }
        ensures stored { IsWritten result (regions self.old) (held self.old) (byte self.old) (byte self.new) addr bytes.now }
        ensures dirty { IsMarked result (dirty self.old) (dirty self.new) addr (length bytes.now) }
        ensures enough { result ≡ Stored.NoMemory → IsShared (own self.old) addr (length bytes.now) }
        ensures own { (p : ℕ) → own self.old p ≡ true → own self.new p ≡ true }
        ensures regions { regions self.new ≡ regions self.old }
        ensures held { held self.new ≡ held self.old };

    /// Writes one byte over and over from an address on. Where it is not done, no byte changes.
    fn set(&mut self, addr: u64, len: u64, value: u8) -> Stored
        requires { 0 < len }
        ensures stored { IsSet result (regions self.old) (held self.old) (byte self.old) (byte self.new) addr len value }
        ensures dirty { IsMarked result (dirty self.old) (dirty self.new) addr len }
        ensures enough { result ≡ Stored.NoMemory → IsShared (own self.old) addr len }
        ensures own { (p : ℕ) → own self.old p ≡ true → own self.new p ≡ true }
        ensures regions { regions self.new ≡ regions self.old }
        ensures held { held self.new ≡ held self.old };

    /// The bytes from an address on that lie in one page, where the read is allowed and the page is present.
    fn slice(&self, addr: u64, len: u64) -> &[u8]
        requires some { 0 < len }
        requires page { addr % 4096 + len ≤ 4096 }
        requires done { access (regions self.now) (held self.now) false addr len ≡ Done }
        ensures { result.now ≡ read_bytes (byte self.now) addr len };

    /// Gives a page that is present bytes of its own, so that writing there takes no memory. No byte changes.
    fn prepare(&mut self, page: u32) -> Result<(), NoMemory>
        requires { held self.old page ≡ true }
        ensures own { OnOk result (own self.new page ≡ true) }
        ensures enough { OnErr result (own self.old page ≡ false) }
        ensures kept { (p : ℕ) → own self.old p ≡ true → own self.new p ≡ true }
        ensures bytes { byte self.new ≡ byte self.old }
        ensures dirty { dirty self.new ≡ dirty self.old }
        ensures regions { regions self.new ≡ regions self.old }
        ensures held { held self.new ≡ held self.old };

    /// The bytes of a page that is present.
    fn page(&self, page: u32) -> &[u8; 4096]
        requires { held self.now page ≡ true }
        ensures { result.now ≡ read_bytes (byte self.now) (4096 * page) 4096 };

    /// Gives the memory a page that is absent and has a byte in a region. No byte that was known changes.
    fn supply(&mut self, page: u32, bytes: &[u8; 4096]) -> Result<(), NoMemory>
        requires absent { held self.old page ≡ false }
        requires inside { IsPage (regions self.old) page }
        ensures bytes { OnOk result (byte self.new ≡ written (byte self.old) (4096 * page) bytes.now) }
        ensures held { OnOk result (held self.new ≡ also (held self.old) page) }
        ensures own { OnOk result (own self.new page ≡ true) }
        ensures same { OnErr result (byte self.new ≡ byte self.old) }
        ensures absent { OnErr result (held self.new ≡ held self.old) }
        ensures kept { (p : ℕ) → own self.old p ≡ true → own self.new p ≡ true }
        ensures dirty { dirty self.new ≡ dirty self.old }
        ensures regions { regions self.new ≡ regions self.old };
}
