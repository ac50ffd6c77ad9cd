ghost use Rattle.std.specs.Prelude.{◌≡◌, ◌<◌};
ghost use Rattle.no_layout.specs.Memory.{AreFormed, function_address, globals_start};

use crate::Regions;

/// The address of the first constant.
pub const CONSTANTS_START: u32 = 0x0001_0000;

/// The highest address at which globals may end.
pub const GLOBALS_LIMIT: u32 = 0x0200_0000;

/// The address of the heap's first byte.
pub const HEAP_START: u32 = 0x1000_0000;

/// The address behind the heap's last byte.
pub const HEAP_END: u32 = 0x1400_0000;

/// The address of the stack's lowest byte.
pub const STACK_START: u32 = 0x2000_0000;

/// The address behind the stack's highest byte, where the stack pointer begins.
pub const STACK_END: u32 = 0x2010_0000;

/// How many bytes a page has.
pub const PAGE_SIZE: u64 = 4096;

impl Regions {
    /// Where globals begin: at the least multiple of 65,536 that is not below the constants' end.
    pub fn globals_start(&self) -> u32
        requires { AreFormed self.now }
        ensures { result ≡ globals_start self.now }
    {
        self.constants_end.next_multiple_of(65_536)
    }
}

/// The address of a function, by its number among the module's definitions and declarations. It lies in no region.
pub fn function_address(number: u32) -> u32
    requires { number < 65536 }
    ensures { result ≡ function_address number }
{
    0xF000_0000 + 16 * number
}
