ghost use Rattle.std.specs.Prelude.{◌≡◌, ℕ, ◌+◌, ◌^◌, ◌<◌, length, true};
ghost use Rattle.no_pages.specs.Table.{held_of};

use no_ir::{NoMemory, Trap};
use no_layout::{Access, Loaded, Memory, Regions, Stored, Width};
use no_pages::{HeldPages, PageTable};
use std::alloc::Global;
use std::process::Abort;
use std::test::*;

/// Constants of six bytes, and globals of 16 from 0x20000 on.
const REGIONS: Regions = Regions {
    constants_end: 0x10006,
    globals_end: 0x20010,
};

#[test]
fn accesses_keep_to_one_region(rt: HostRuntime) -> Result<(), NoMemory> {
    let memory = PageTable::zeros(rt.alloc(), REGIONS)?;
    for (addr, write, wanted) in [
        (0x10000, false, Access::Done),
        (0x10000, true, Access::Refused(Trap::ConstantWrite)),
        (0x10002, false, Access::Done),
        (0x10003, false, Access::Refused(Trap::BadAddress)),
        (0x0FFFF, false, Access::Refused(Trap::BadAddress)),
        (0x1FFFF, true, Access::Refused(Trap::BadAddress)),
        (0x20000, true, Access::Done),
        (0x2000C, true, Access::Done),
        (0x2000D, true, Access::Refused(Trap::BadAddress)),
        (0x1000_0000, true, Access::Done),
        (0x13FF_FFFC, true, Access::Done),
        (0x13FF_FFFD, true, Access::Refused(Trap::BadAddress)),
        (0x2000_0000, true, Access::Done),
        (0x200F_FFFC, false, Access::Done),
        (0x2010_0000, false, Access::Refused(Trap::BadAddress)),
        (0xF000_0000, false, Access::Refused(Trap::BadAddress)),
        (u64::MAX, false, Access::Refused(Trap::BadAddress)),
    ] {
        assert_eq!(rt; memory.ready(addr, 4, write), wanted, "{addr} {write}");
    }
    assert!(rt; memory.regions() == REGIONS);
    assert_eq!(rt; memory.dirty()?.len(), 0);
    Ok(())
}

#[test]
fn numbers_are_stored_and_loaded(rt: HostRuntime) -> Result<(), NoMemory> {
    let mut memory = PageTable::zeros(rt.alloc(), REGIONS)?;
    lay(&mut memory, 0x10000, b"hello\0".as_slice())?;
    lay(&mut memory, 0x20000, b"\x01\x02\x03\x04".as_slice())?;
    assert_eq!(rt; memory.dirty()?.len(), 0);
    for (big, width, addr, value) in [
        (true, Width::Four, 0x10000, 0x6865_6C6C),
        (false, Width::Four, 0x20000, 0x0403_0201),
        (true, Width::Eight, 0x20000, 0x0102_0304_0000_0000),
        (true, Width::Eight, 0x13FF_FFF8, 0),
    ] {
        assert_eq!(rt;
            memory.load(big, width, addr),
            Loaded::Value(value),
            "{addr}"
        );
    }
    let refused = memory.store(false, Width::Two, 0x10004, 1);
    assert_eq!(rt; refused, Stored::Refused(Trap::ConstantWrite));
    let refused = memory.store(false, Width::Two, 0x13FF_FFFF, 1);
    assert_eq!(rt; refused, Stored::Refused(Trap::BadAddress));
    let done = memory.store(true, Width::Four, 0x2000_0FFE, 0x0A0B_0C0D);
    assert_eq!(rt; done, Stored::Done);
    let swapped = memory.load(false, Width::Four, 0x2000_0FFE);
    assert_eq!(rt; swapped, Loaded::Value(0x0D0C_0B0A));
    let middle = memory.load(true, Width::Two, 0x2000_0FFF);
    assert_eq!(rt; middle, Loaded::Value(0x0B0C));
    assert_eq!(rt; memory.dirty()?.as_slice(), [0x20000, 0x20001].as_slice());
    Ok(())
}

#[test]
fn bytes_are_put_and_set(rt: HostRuntime) -> Result<(), NoMemory> {
    let mut memory = PageTable::zeros(rt.alloc(), REGIONS)?;
    assert_eq!(rt; memory.put(0x1000_0FFF, b"ab".as_slice()), Stored::Done);
    assert_eq!(rt; memory.set(0x1000_1001, 3, 7), Stored::Done);
    let mut found = [9; 6];
    assert_eq!(rt; memory.get(0x1000_0FFF, &mut found), Access::Done);
    assert!(rt; found == [97, 98, 7, 7, 7, 0]);
    let refused = Access::Refused(Trap::BadAddress);
    assert_eq!(rt; memory.get(0x13FF_FFFD, &mut found), refused);
    assert!(rt; found == [97, 98, 7, 7, 7, 0]);
    assert_eq!(rt; memory.dirty()?.as_slice(), [0x10000, 0x10001].as_slice());
    Ok(())
}

/// Writes first bytes below the heap's end, where all pages are present.
#[tactic(auto, using(crate::proofs::Kept::all_own))]
fn lay(memory: &mut PageTable, addr: u32, bytes: &[u8]) -> Result<(), NoMemory>
    requires held { (p : ℕ) → p < 131328 → held_of memory.old p ≡ true }
    requires short { addr + length bytes.now < 2 ^ 29 }
    ensures held { (p : ℕ) → p < 131328 → held_of memory.new p ≡ true }
{
    memory.fill(addr, bytes)
}

/// Gives a memory the page of an address, which is absent and has a byte there that may be read.
fn give(
    rt: &impl Abort,
    memory: &mut PageTable,
    addr: u64,
    bytes: &[u8; 4096],
) -> Result<(), NoMemory> {
    match memory.ready(addr, 1, false) {
        Access::Missing(page) => memory.supply(page, bytes),
        _ => {
            assert!(rt; false);
            Ok(())
        }
    }
}

#[test]
fn a_store_waits_for_both_its_pages(rt: HostRuntime) -> Result<(), NoMemory> {
    let mut memory = PageTable::absent(rt.alloc(), REGIONS)?;
    let store = memory.store(true, Width::Four, 0x2000_0FFE, 0x0A0B_0C0D);
    assert_eq!(rt; store, Stored::Missing(0x20000));
    give(&rt, &mut memory, 0x2000_0000, &[1; 4096])?;
    let store = memory.store(true, Width::Four, 0x2000_0FFE, 0x0A0B_0C0D);
    assert_eq!(rt; store, Stored::Missing(0x20001));
    let before = memory.load(true, Width::Two, 0x2000_0FFE);
    assert_eq!(rt; before, Loaded::Value(0x0101));
    assert_eq!(rt; memory.dirty()?.len(), 0);
    give(&rt, &mut memory, 0x2000_1000, &[2; 4096])?;
    let store = memory.store(true, Width::Four, 0x2000_0FFE, 0x0A0B_0C0D);
    assert_eq!(rt; store, Stored::Done);
    let after = memory.load(true, Width::Eight, 0x2000_0FFC);
    assert_eq!(rt; after, Loaded::Value(0x0101_0A0B_0C0D_0202));
    assert_eq!(rt; memory.dirty()?.as_slice(), [0x20000, 0x20001].as_slice());
    assert!(rt; memory.holds(0x20001) && !memory.holds(0x20002));
    Ok(())
}

#[test]
fn pages_that_were_kept_are_adopted(rt: HostRuntime) -> Result<(), NoMemory> {
    let mut memory = PageTable::zeros(rt.alloc(), REGIONS)?;
    let mut held = HeldPages::new(rt.alloc())?;
    held.keep(0x20000, &[1; 4096])?;
    held.keep(0x10000, &[2; 4096])?;
    held.keep(0x20000, &[3; 4096])?;
    memory.adopt(held);
    for (addr, value) in [
        (0x2000_0000, 0x0303),
        (0x2000_0FFF, 0x0300),
        (0x1000_0000, 0x0202),
        (0x1000_0FFF, 0x0200),
    ] {
        assert_eq!(rt;
            memory.load(true, Width::Two, addr),
            Loaded::Value(value),
            "{addr}"
        );
    }
    assert_eq!(rt; memory.dirty()?.len(), 0);
    Ok(())
}
