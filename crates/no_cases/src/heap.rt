//! Values worked out by hand from the rules of docs/FORMATS.md, "Heap".
use no_heap::{Block, Entry, HEAP_START, Heap, HeapError};
use no_ir::Trap;
use std::alloc::Global;
use std::test::*;

/// A request for so many bytes with its place, or a free of an address with whether a block begins there.
#[derive(Drop)]
enum Call {
    Place(u64, Option<u32>),
    Free(u64, bool),
}

/// Calls in order: gaps that fit exactly, are too small by one, or join; addresses where no block begins.
const CALLS: [Call; 60] = [
    Call::Place(1, Some(0x1000_0000)),
    Call::Place(16, Some(0x1000_0010)),
    Call::Place(17, Some(0x1000_0020)),
    Call::Place(0, Some(0x1000_0040)),
    Call::Place(100, Some(0x1000_0050)),
    Call::Free(0x1000_0010, true),
    Call::Place(17, Some(0x1000_00c0)),
    Call::Place(16, Some(0x1000_0010)),
    Call::Free(0x1000_0000, true),
    Call::Free(0x1000_0010, true),
    Call::Place(32, Some(0x1000_0000)),
    Call::Free(0x1000_0010, false),
    Call::Free(0x1000_0008, false),
    Call::Free(0, true),
    Call::Free(0x1000_0020, true),
    Call::Place(33, Some(0x1000_00e0)),
    Call::Place(31, Some(0x1000_0020)),
    Call::Free(0x1000_0020, true),
    Call::Free(0x1000_0020, false),
    Call::Place(8, Some(0x1000_0020)),
    Call::Place(16, Some(0x1000_0030)),
    Call::Free(0x1000_0050, true),
    Call::Place(64, Some(0x1000_0050)),
    Call::Place(64, Some(0x1000_0110)),
    Call::Place(48, Some(0x1000_0090)),
    Call::Free(0x1000_0040, true),
    Call::Free(0x1000_0050, true),
    Call::Place(80, Some(0x1000_0040)),
    Call::Free(0x1000_00c0, true),
    Call::Free(0x1000_00e0, true),
    Call::Free(0x1000_0110, true),
    Call::Place(0x0400_0000, None),
    Call::Place(0x03ff_ff40, Some(0x1000_00c0)),
    Call::Place(1, None),
    Call::Free(0x1000_0000, true),
    Call::Place(33, None),
    Call::Place(32, Some(0x1000_0000)),
    Call::Free(0x1000_00c0, true),
    Call::Place(0x03ff_ff41, None),
    Call::Place(0xffff_ffff_ffff_ffff, None),
    Call::Place(0, Some(0x1000_00c0)),
    Call::Free(0x1000_0090, true),
    Call::Place(47, Some(0x1000_0090)),
    Call::Free(0x1000_0030, true),
    Call::Free(0x1000_0020, true),
    Call::Place(16, Some(0x1000_0020)),
    Call::Place(16, Some(0x1000_0030)),
    Call::Place(16, Some(0x1000_00d0)),
    Call::Free(0x1000_0000, true),
    Call::Place(5, Some(0x1000_0000)),
    Call::Place(5, Some(0x1000_0010)),
    Call::Place(5, Some(0x1000_00e0)),
    Call::Free(0x1000_0004, false),
    Call::Free(0xffff_ffff_ffff_ffff, false),
    Call::Free(0x1000_0040, true),
    Call::Place(70, Some(0x1000_0040)),
    Call::Free(0x1000_0090, true),
    Call::Free(0x1000_0040, true),
    Call::Place(128, Some(0x1000_0040)),
    Call::Place(1, Some(0x1000_00f0)),
];

/// The place and the size of each block that the calls leave.
const LEFT: [(u32, u32); 9] = [
    (0x1000_0000, 16),
    (0x1000_0010, 16),
    (0x1000_0020, 16),
    (0x1000_0030, 16),
    (0x1000_0040, 128),
    (0x1000_00c0, 16),
    (0x1000_00d0, 16),
    (0x1000_00e0, 16),
    (0x1000_00f0, 16),
];

fn block(at: u32, size: u32) -> Block {
    Block { at, size }
}

fn entry(at: u32, size: u32) -> Entry {
    Entry { at, size }
}

/// Whether a heap has these blocks and no other.
fn holds(heap: &Heap, blocks: &[(u32, u32)]) -> bool {
    let found = heap.blocks().iter().map(|block| (block.at, block.size));
    found.eq(blocks.iter().copied())
}

#[test]
fn calls_find_the_least_place(rt: HostRuntime) -> Result<(), Fail> {
    let mut heap = Heap::new(rt.alloc())?;
    for call in CALLS {
        match call {
            Call::Place(size, place) => {
                assert_eq!(rt; heap.place_for(size), place, "{size}");
                assert_eq!(rt; heap.place(size), place, "{size}");
            }
            Call::Free(addr, true) => assert_eq!(rt; heap.free(addr), Ok(()), "{addr}"),
            Call::Free(addr, false) => {
                assert_eq!(rt; heap.free(addr), Err(Trap::BadFree), "{addr}")
            }
        }
    }
    assert!(rt; holds(&heap, &LEFT));
    Ok(())
}

/// Why three blocks make no heap, if they make none: one of 32 bytes at the heap's beginning, this one, and one of 16
/// right behind the first.
fn bad_of(alloc: Global, second: Block) -> Option<HeapError> {
    let blocks = [block(0x1000_0000, 32), second, block(0x1000_0020, 16)];
    Heap::from_blocks(alloc, &blocks).err()
}

#[test]
fn the_first_bad_block_is_named(rt: HostRuntime) -> Result<(), Fail> {
    for (at, size, index) in [
        (0x1000_0010, 16, 1),
        (0x1000_0000, 32, 1),
        (0x1000_0028, 16, 1),
        (0x1000_0030, 8, 1),
        (0x1000_0030, 0, 1),
        (0x0fff_fff0, 16, 1),
        (0x13ff_fff0, 32, 1),
        (0x13ff_fff0, 0xffff_fff0, 1),
        (0x1400_0000, 16, 1),
        (0x1000_0020, 16, 2),
    ] {
        let bad = bad_of(rt.alloc(), block(at, size));
        assert_eq!(rt; bad, Some(HeapError::Bad { index }), "{at} {size}");
    }
    let good = [block(0x1000_0000, 32), block(0x13ff_fff0, 16)];
    assert!(rt; Heap::from_blocks(rt.alloc(), &good).is_ok());
    Ok(())
}

const THEN: [Block; 3] = [
    Block {
        at: 0x1000_0000,
        size: 16,
    },
    Block {
        at: 0x1000_0020,
        size: 32,
    },
    Block {
        at: 0x1000_0060,
        size: 16,
    },
];

const NOW: [Block; 3] = [
    Block {
        at: 0x1000_0000,
        size: 32,
    },
    Block {
        at: 0x1000_0040,
        size: 16,
    },
    Block {
        at: 0x1000_0060,
        size: 16,
    },
];

const TOLD: [Entry; 3] = [
    Entry {
        at: 0x1000_0000,
        size: 32,
    },
    Entry {
        at: 0x1000_0020,
        size: 0,
    },
    Entry {
        at: 0x1000_0040,
        size: 16,
    },
];

#[test]
fn changes_are_told(rt: HostRuntime) -> Result<(), Fail> {
    let earlier = Heap::from_blocks(rt.alloc(), &THEN).ok().ok_or("earlier")?;
    let later = Heap::from_blocks(rt.alloc(), &NOW).ok().ok_or("later")?;
    let changes = later.changes(earlier.blocks())?;
    assert_eq!(rt; changes.as_slice(), TOLD.as_slice());
    let none = later.changes(later.blocks())?;
    assert_eq!(rt; none.len(), 0);
    Ok(())
}

/// Two entries that can't be told of the earlier blocks: they fall, stand twice, take away what isn't there, or leave
/// what overlaps, is no multiple of 16 or stands outside the heap.
const REFUSED: [[(u32, u32); 2]; 8] = [
    [(0x1000_0040, 16), (0x1000_0000, 16)],
    [(0x1000_0000, 16), (0x1000_0000, 16)],
    [(0x1000_0000, 0), (0x1000_0010, 0)],
    [(0x1000_0000, 16), (0x1000_0030, 16)],
    [(0x1000_0000, 48), (0x1000_0070, 16)],
    [(0x1000_0000, 17), (0x1000_0070, 16)],
    [(0x0fff_fff0, 16), (0x1000_0000, 16)],
    [(0x1000_0000, 16), (0x1400_0000, 16)],
];

#[test]
fn entries_are_applied_or_refused(rt: HostRuntime) -> Result<(), Fail> {
    let mut heap = Heap::from_blocks(rt.alloc(), &THEN).ok().ok_or("heap")?;
    for [(first, size), (second, other)] in REFUSED {
        let entries = [entry(first, size), entry(second, other)];
        assert_eq!(rt; heap.apply(&entries), false, "{entries:?}");
        assert_eq!(rt; heap.blocks(), THEN.as_slice(), "{entries:?}");
    }
    assert_eq!(rt; heap.apply(&[entry(0x1000_0000, 16)]), true);
    assert_eq!(rt; heap.blocks(), THEN.as_slice());
    assert_eq!(rt; heap.apply(&TOLD), true);
    assert_eq!(rt; heap.blocks(), NOW.as_slice());
    Ok(())
}

/// As many blocks as may live, each of 16 bytes right behind the last.
fn full(alloc: Global) -> Result<Vec<Block>, Fail> {
    let mut blocks = Vec::new(alloc);
    for index in 0..65_536u32 {
        blocks.push(block(HEAP_START + 16 * index, 16))?;
    }
    Ok(blocks)
}

#[test]
fn a_full_heap_takes_no_block(rt: HostRuntime) -> Result<(), Fail> {
    let mut blocks = full(rt.alloc())?;
    let mut heap = Heap::from_blocks(rt.alloc(), &blocks).ok().ok_or("heap")?;
    assert_eq!(rt; heap.place(1), None);
    assert_eq!(rt; heap.free(0x1008_0000), Ok(()));
    assert_eq!(rt; heap.place(17), Some(0x1010_0000));
    assert_eq!(rt; heap.place(16), None);
    assert_eq!(rt; heap.free(0x1010_0000), Ok(()));
    assert_eq!(rt; heap.place(16), Some(0x1008_0000));
    assert_eq!(rt; heap.apply(&[entry(0x1010_0000, 16)]), false);
    blocks.push(block(0x1010_0000, 16))?;
    let bad = Heap::from_blocks(rt.alloc(), &blocks).err();
    assert_eq!(rt; bad, Some(HeapError::Bad { index: 65_536 }));
    Ok(())
}
