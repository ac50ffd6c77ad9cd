ghost use Rattle.std.specs.Prelude.{◌≡◌, ◌<◌, length, slice_set};
ghost use Rattle.no_machine.specs.Slots.{IsSlotIn, value_in};
ghost use Rattle.no_machine.specs.Did.{Wrote};

use crate::did::Did;

/// Where the slots of constants begin.
const FIRST_CONSTANT: u32 = 0x8000_0000;

/// What a slot holds.
#[inline(always)]
pub(crate) fn read(window: &[u64], constants: &[u64], x: u32) -> u64
    requires { IsSlotIn window.now constants.now x }
    ensures { result ≡ value_in window.now constants.now x }
{
    if x < FIRST_CONSTANT {
        window[x as usize]
    } else {
        constants[(x - FIRST_CONSTANT) as usize]
    }
}

/// Writes a result.
#[inline(always)]
pub(crate) fn put(window: &mut [u64], into: u32, n: u64) -> Did
    requires { into < length window.old }
    ensures { Wrote n into window.old window.new result }
{
    window[into as usize] = n;
    Did::Next
}
