//! Calls of the external functions by the rules of docs/LANGUAGE.md, "Externals".
use no_heap::Heap;
use no_ir::{NoMemory, Trap};
use no_layout::{Access, Loaded, Memory, Regions, Stored, Width};
use no_lib::{Env, Input, LibAnswer, external};
use no_module::External;
use no_pages::PageTable;
use std::alloc::Global;
use std::test::*;

/// Constants of six bytes, and globals of 16 from 0x20000 on.
const REGIONS: Regions = Regions {
    constants_end: 0x10006,
    globals_end: 0x20010,
};

/// What a call may read and change.
#[derive(Drop)]
struct World {
    memory: PageTable,
    heap: Heap,
    env: Env,
}

impl World {
    /// Memory of zeros, no live block, no input yet and no output.
    fn new(alloc: Global) -> Result<World, NoMemory> {
        World::over(alloc, PageTable::zeros(alloc, REGIONS)?)
    }

    /// The same over this memory.
    fn over(alloc: Global, memory: PageTable) -> Result<World, NoMemory> {
        let heap = Heap::new(alloc)?;
        let env = Env {
            input: Input::new(alloc),
            ended: false,
            output: Vec::new(alloc),
        };
        Ok(World { memory, heap, env })
    }

    fn call(&mut self, which: External, args: &[u64], left: u64) -> LibAnswer {
        let World { memory, heap, env } = self;
        external(which, args, left, memory, heap, env)
    }
}

#[test]
fn getchar_reads_or_waits(rt: HostRuntime) -> Result<(), NoMemory> {
    let mut world = World::new(rt.alloc())?;
    assert_eq!(rt; world.call(External::GetChar, &[], 9), LibAnswer::WantInput);
    world.env.input.feed(b"A\xff".as_slice())?;
    assert_eq!(rt; world.call(External::GetChar, &[], 0), LibAnswer::Over);
    assert_eq!(rt; world.call(External::GetChar, &[1], 9), LibAnswer::Stuck);
    assert_eq!(rt;
        world.call(External::GetChar, &[], 9),
        LibAnswer::Value(65, 1)
    );
    assert_eq!(rt;
        world.call(External::GetChar, &[], 1),
        LibAnswer::Value(255, 1)
    );
    assert_eq!(rt; world.call(External::GetChar, &[], 9), LibAnswer::WantInput);
    world.env.ended = true;
    let end = LibAnswer::Value(0xffff_ffff, 1);
    assert_eq!(rt; world.call(External::GetChar, &[], 9), end);
    assert_eq!(rt; world.call(External::GetChar, &[], 9), end);
    assert_eq!(rt; world.env.output.len(), 0);
    Ok(())
}

#[test]
fn putchar_writes_the_low_byte(rt: HostRuntime) -> Result<(), NoMemory> {
    let mut world = World::new(rt.alloc())?;
    assert_eq!(rt;
        world.call(External::PutChar, &[321], 9),
        LibAnswer::Value(65, 1)
    );
    let minus = world.call(External::PutChar, &[0xffff_ffff], 1);
    assert_eq!(rt; minus, LibAnswer::Value(255, 1));
    assert_eq!(rt; world.call(External::PutChar, &[65], 0), LibAnswer::Over);
    assert_eq!(rt; world.env.output.as_slice(), b"A\xff".as_slice());
    Ok(())
}

#[test]
fn puts_ends_its_line(rt: HostRuntime) -> Result<(), NoMemory> {
    let mut world = World::new(rt.alloc())?;
    assert_eq!(rt;
        world.memory.put(0x20000, b"hello\0".as_slice()),
        Stored::Done
    );
    assert_eq!(rt;
        world.call(External::Puts, &[0x20000], 1),
        LibAnswer::Value(0, 1)
    );
    assert_eq!(rt;
        world.call(External::Puts, &[0x20005], 1),
        LibAnswer::Value(0, 1)
    );
    assert_eq!(rt; world.memory.set(0x1000_0000, 64, 65), Stored::Done);
    assert_eq!(rt;
        world.call(External::Puts, &[0x1000_0000], 1),
        LibAnswer::Over
    );
    assert_eq!(rt; world.env.output.as_slice(), b"hello\n\n".as_slice());
    let long = world.call(External::Puts, &[0x1000_0000], 2);
    assert_eq!(rt; long, LibAnswer::Value(0, 2));
    assert_eq!(rt; world.env.output.len(), 72);
    Ok(())
}

#[test]
fn puts_keeps_to_one_region(rt: HostRuntime) -> Result<(), NoMemory> {
    let mut world = World::new(rt.alloc())?;
    let trapped = LibAnswer::Trapped(Trap::BadAddress);
    assert_eq!(rt; world.memory.set(0x20000, 16, 65), Stored::Done);
    assert_eq!(rt; world.call(External::Puts, &[0x20000], 9), trapped);
    assert_eq!(rt; world.call(External::Puts, &[0x2000F], 9), trapped);
    assert_eq!(rt; world.call(External::Puts, &[0x20010], 9), trapped);
    assert_eq!(rt; world.call(External::Puts, &[0], 9), trapped);
    assert_eq!(rt; world.memory.set(0x2000F, 1, 0), Stored::Done);
    assert_eq!(rt;
        world.call(External::Puts, &[0x20000], 9),
        LibAnswer::Value(0, 1)
    );
    assert_eq!(rt;
        world.env.output.as_slice(),
        b"AAAAAAAAAAAAAAA\n".as_slice()
    );
    Ok(())
}

#[test]
fn blocks_come_and_go(rt: HostRuntime) -> Result<(), NoMemory> {
    let mut world = World::new(rt.alloc())?;
    for (which, arg, wanted) in [
        (External::Malloc, 0, LibAnswer::Value(0x1000_0000, 1)),
        (External::Malloc, 17, LibAnswer::Value(0x1000_0010, 1)),
        (External::Malloc, 0x0400_0000, LibAnswer::Value(0, 1)),
        (
            External::Free,
            0x1000_0008,
            LibAnswer::Trapped(Trap::BadFree),
        ),
        (External::Free, 0x1000_0000, LibAnswer::Nothing(1)),
        (
            External::Free,
            0x1000_0000,
            LibAnswer::Trapped(Trap::BadFree),
        ),
        (External::Free, 0, LibAnswer::Nothing(1)),
        (External::Malloc, 16, LibAnswer::Value(0x1000_0000, 1)),
    ] {
        assert_eq!(rt; world.call(which, &[arg], 9), wanted, "{which:?} {arg}");
    }
    assert_eq!(rt; world.call(External::Malloc, &[16], 0), LibAnswer::Over);
    assert_eq!(rt; world.heap.blocks().len(), 2);
    Ok(())
}

#[test]
fn calloc_clears_or_gives_null(rt: HostRuntime) -> Result<(), NoMemory> {
    let mut world = World::new(rt.alloc())?;
    let null = LibAnswer::Value(0, 1);
    let half = 0x1_0000_0000;
    assert_eq!(rt; world.call(External::Calloc, &[half, half], 9), null);
    assert_eq!(rt; world.call(External::Calloc, &[half, 1], 9), null);
    assert_eq!(rt; world.call(External::Calloc, &[0x10000, 0x10000], 9), null);
    assert_eq!(rt; world.call(External::Calloc, &[u64::MAX, 2], 9), null);
    assert_eq!(rt;
        world.call(External::Calloc, &[0x0400_0000, 1], 9),
        LibAnswer::Over
    );
    assert_eq!(rt; world.heap.blocks().len(), 0);
    assert_eq!(rt; world.memory.set(0x1000_0000, 129, 7), Stored::Done);
    let cleared = world.call(External::Calloc, &[16, 8], 3);
    assert_eq!(rt; cleared, LibAnswer::Value(0x1000_0000, 3));
    let end = world.memory.load(true, Width::Eight, 0x1000_007A);
    assert_eq!(rt; end, Loaded::Value(0x0000_0000_0000_0700));
    let empty = world.call(External::Calloc, &[0, u64::MAX], 9);
    assert_eq!(rt; empty, LibAnswer::Value(0x1000_0080, 1));
    Ok(())
}

#[test]
fn a_run_ends(rt: HostRuntime) -> Result<(), NoMemory> {
    let mut world = World::new(rt.alloc())?;
    assert_eq!(rt; world.call(External::Exit, &[258], 9), LibAnswer::Exited(2));
    assert_eq!(rt;
        world.call(External::Exit, &[0xffff_ffff], 9),
        LibAnswer::Exited(255)
    );
    let aborted = LibAnswer::Trapped(Trap::Abort);
    assert_eq!(rt; world.call(External::Abort, &[], 9), aborted);
    assert_eq!(rt; world.call(External::Abort, &[], 0), LibAnswer::Over);
    Ok(())
}

/// The first seven bytes of the heap.
fn front(world: &World) -> [u8; 7] {
    let mut bytes = [0; 7];
    let _read = world.memory.get(0x1000_0000, &mut bytes);
    bytes
}

#[test]
fn bytes_move_as_through_a_buffer(rt: HostRuntime) -> Result<(), NoMemory> {
    let mut world = World::new(rt.alloc())?;
    let done = LibAnswer::Nothing(1);
    assert_eq!(rt;
        world.memory.put(0x1000_0000, b"abcd".as_slice()),
        Stored::Done
    );
    let up = world.call(External::Move, &[0x1000_0003, 0x1000_0000, 4, 0], 1);
    assert_eq!(rt; up, done);
    assert!(rt; front(&world) == *b"abcabcd");
    let down = world.call(External::Move, &[0x1000_0000, 0x1000_0003, 4, 0], 1);
    assert_eq!(rt; down, done);
    assert!(rt; front(&world) == *b"abcdbcd");
    assert_eq!(rt; world.call(External::Move, &[0, 0, 0, 0], 1), done);
    Ok(())
}

#[test]
fn long_moves_overlap_too(rt: HostRuntime) -> Result<(), NoMemory> {
    let mut world = World::new(rt.alloc())?;
    assert_eq!(rt; world.memory.put(0x1000_0000, &[1]), Stored::Done);
    assert_eq!(rt; world.memory.put(0x1000_00FE, &[2, 3, 4]), Stored::Done);
    let up = world.call(External::Move, &[0x1000_0001, 0x1000_0000, 300, 0], 5);
    assert_eq!(rt; up, LibAnswer::Nothing(5));
    let seam = world.memory.load(true, Width::Four, 0x1000_00FE);
    assert_eq!(rt; seam, Loaded::Value(0x0002_0304));
    let head = world.memory.load(true, Width::Four, 0x1000_0000);
    assert_eq!(rt; head, Loaded::Value(0x0101_0000));
    let down = world.call(External::Move, &[0x1000_0000, 0x1000_0001, 300, 0], 4);
    assert_eq!(rt; down, LibAnswer::Over);
    let down = world.call(External::Move, &[0x1000_0000, 0x1000_0001, 300, 0], 5);
    assert_eq!(rt; down, LibAnswer::Nothing(5));
    let seam = world.memory.load(true, Width::Four, 0x1000_00FE);
    assert_eq!(rt; seam, Loaded::Value(0x0203_0400));
    Ok(())
}

#[test]
fn moves_keep_to_their_regions(rt: HostRuntime) -> Result<(), NoMemory> {
    let mut world = World::new(rt.alloc())?;
    for (to, from, n, trap) in [
        (0x10000, 0x20000, 1, Trap::ConstantWrite),
        (0x20000, 0x10000, 7, Trap::BadAddress),
        (0x2000F, 0x10000, 2, Trap::BadAddress),
        (0x20000, 0x0FFFF, 1, Trap::BadAddress),
        (0x10000, 0x0FFFF, 1, Trap::BadAddress),
        (0x1000_0000, 0x1000_0000, u64::MAX, Trap::BadAddress),
    ] {
        let answer = world.call(External::Move, &[to, from, n, 0], 1);
        assert_eq!(rt; answer, LibAnswer::Trapped(trap), "{to} {from} {n}");
    }
    assert_eq!(rt; world.memory.dirty()?.len(), 0);
    Ok(())
}

#[test]
fn bytes_are_filled(rt: HostRuntime) -> Result<(), NoMemory> {
    let mut world = World::new(rt.alloc())?;
    let filled = world.call(External::Set, &[0x1000_0001, 7, 3, 0], 1);
    assert_eq!(rt; filled, LibAnswer::Nothing(1));
    assert!(rt; front(&world) == [0, 7, 7, 7, 0, 0, 0]);
    let constant = world.call(External::Set, &[0x10000, 7, 1, 0], 1);
    assert_eq!(rt; constant, LibAnswer::Trapped(Trap::ConstantWrite));
    let dear = world.call(External::Set, &[0x1000_0000, 9, 64, 0], 1);
    assert_eq!(rt; dear, LibAnswer::Over);
    assert!(rt; front(&world) == [0, 7, 7, 7, 0, 0, 0]);
    assert_eq!(rt;
        world.call(External::Set, &[0, 7, 0, 0], 1),
        LibAnswer::Nothing(1)
    );
    Ok(())
}

#[test]
fn the_lowest_absent_page_is_named(rt: HostRuntime) -> Result<(), NoMemory> {
    let absent = PageTable::absent(rt.alloc(), REGIONS)?;
    let mut world = World::over(rt.alloc(), absent)?;
    for (which, args, wanted) in [
        (
            External::Set,
            [0x1000_0FFF, 7, 2, 0],
            LibAnswer::WantPage(0x10000),
        ),
        (
            External::Move,
            [0x1000_2000, 0x1000_1000, 1, 0],
            LibAnswer::WantPage(0x10001),
        ),
        (
            External::Move,
            [0x1000_1000, 0x1000_2000, 1, 0],
            LibAnswer::WantPage(0x10001),
        ),
        (
            External::Move,
            [0x10000, 0x20000, 1, 0],
            LibAnswer::Trapped(Trap::ConstantWrite),
        ),
        (External::Set, [0x1000_0000, 7, 64, 0], LibAnswer::Over),
    ] {
        assert_eq!(rt; world.call(which, &args, 1), wanted, "{which:?} {args:?}");
    }
    let text = world.call(External::Puts, &[0x2000F], 1);
    assert_eq!(rt; text, LibAnswer::WantPage(0x20));
    let block = world.call(External::Calloc, &[1, 1], 1);
    assert_eq!(rt; block, LibAnswer::WantPage(0x10000));
    assert_eq!(rt; world.heap.blocks().len(), 0);
    assert!(rt; world.memory.ready(0x20000, 1, true) == Access::Missing(0x20));
    Ok(())
}

#[test]
fn numbers_are_turned_and_chosen(rt: HostRuntime) -> Result<(), NoMemory> {
    let mut world = World::new(rt.alloc())?;
    for (which, number, wanted) in [
        (External::Swap(16), 0x0102, 0x0201),
        (External::Swap(32), 0x0102_0304, 0x0403_0201),
        (
            External::Swap(64),
            0x0102_0304_0506_0708,
            0x0807_0605_0403_0201,
        ),
    ] {
        assert_eq!(rt;
            world.call(which, &[number], 1),
            LibAnswer::Value(wanted, 1)
        );
    }
    for (which, a, b, wanted) in [
        (External::UMin(8), 0x80, 0x7f, 0x7f),
        (External::UMax(8), 0x80, 0x7f, 0x80),
        (External::SMin(8), 0x80, 0x7f, 0x80),
        (External::SMax(8), 0x80, 0x7f, 0x7f),
        (External::SMin(64), u64::MAX, 0, u64::MAX),
        (External::SMax(64), u64::MAX, 0, 0),
    ] {
        assert_eq!(rt; world.call(which, &[a, b], 1), LibAnswer::Value(wanted, 1));
    }
    assert_eq!(rt;
        world.call(External::Hint, &[1, 2, 3], 1),
        LibAnswer::Nothing(1)
    );
    assert_eq!(rt;
        world.call(External::Alloca, &[1, 1, 1], 1),
        LibAnswer::Stuck
    );
    assert_eq!(rt; world.call(External::Map, &[1], 1), LibAnswer::Stuck);
    Ok(())
}
