ghost use Rattle.std.specs.Prelude.{◌≡◌, ◌<◌};
ghost use Rattle.no_layout.specs.Memory.{AreFormed, in_written, refusal, within};
ghost use Rattle.no_pages.specs.Kinds.{IsKind};

use crate::slot::Kind;
use no_ir::Trap;
use no_layout::{CONSTANTS_START, HEAP_END, HEAP_START, Regions, STACK_END, STACK_START};

/// Whether all of so many bytes from an address on lie between two others.
fn has(low: u32, high: u32, addr: u64, len: u64) -> bool
    ensures { result ≡ within low high addr len }
{
    match addr.checked_add(len) {
        None => false,
        Some(end) => u64::from(low) <= addr && end <= u64::from(high),
    }
}

/// Whether all of so many bytes lie in one of the regions that may be written.
fn is_written(regions: &Regions, addr: u64, len: u64) -> bool
    requires { AreFormed regions.now }
    ensures { result ≡ in_written regions.now addr len }
{
    has(regions.globals_start(), regions.globals_end, addr, len)
        || has(HEAP_START, HEAP_END, addr, len)
        || has(STACK_START, STACK_END, addr, len)
}

/// Why an access is not allowed.
pub fn refused(regions: &Regions, addr: u64, len: u64, write: bool) -> Option<Trap>
    requires { AreFormed regions.now }
    ensures { result ≡ refusal regions.now write addr len }
{
    if has(CONSTANTS_START, regions.constants_end, addr, len) {
        if write {
            Some(Trap::ConstantWrite)
        } else {
            None
        }
    } else if is_written(regions, addr, len) {
        None
    } else {
        Some(Trap::BadAddress)
    }
}

/// What a page lies in.
pub fn kind_of(regions: &Regions, page: u64) -> Kind
    requires formed { AreFormed regions.now }
    requires page { page < 131328 }
    ensures { IsKind regions.now page result }
{
    let addr = 4096 * page;
    if has(CONSTANTS_START, regions.constants_end, addr, 4096) {
        Kind::Constant
    } else if is_written(regions, addr, 4096) {
        Kind::Writable
    } else {
        Kind::Mixed
    }
}
