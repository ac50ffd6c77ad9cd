ghost use Rattle.std.specs.Prelude.{◌≡◌, ◌==◌, ◌<◌, ◌≤◌, ℕ, Some, if◌then◌else◌, length, map, true, slice_get, slice_range};
ghost use Rattle.no_code.specs.declared.code.Move.{Move};
ghost use Rattle.no_machine.specs.Slots.{value_in};
ghost use Rattle.no_machine.specs.Did.{IsReadyCondBr, IsReadyEdge, IsReadyMove, IsReadySwitch, Moves, Takes, case_edge, moved, read_move, write_all};

use crate::did::Did;
use crate::slots::read;
use no_code::{Case, Code, Move};

/// Reads what the moves of an edge take. Whether there was memory for it.
fn read_all(
    moves: &[Move],
    window: &[u64],
    constants: &[u64],
    scratch: &mut Vec<(u32, u64)>,
) -> bool
    requires ready { (k : ℕ) → (v : Move) → slice_get moves.now k ≡ Some v → IsReadyMove window.now constants.now v }
    ensures { result ≡ true → scratch.new.items ≡ map (read_move window.now constants.now) moves.now }
{
    scratch.clear();
    for one in moves {
        if scratch
            .push((one.into, read(window, constants, one.from)))
            .is_err()
        {
            return false;
        }
    }
    true
}

/// Writes into slots what was read.
fn write_back(writes: &[(u32, u64)], window: &mut [u64])
    ensures { window.new ≡ write_all writes.now window.old }
{
    for one in writes {
        if (one.0 as usize) < window.len() {
            window[one.0 as usize] = one.1;
        }
    }
}

/// Does many moves, all at once. Whether there was memory for it; else nothing changed.
#[inline(never)]
fn move_many(
    moves: &[Move],
    window: &mut [u64],
    constants: &[u64],
    scratch: &mut Vec<(u32, u64)>,
) -> bool
    requires ready { (k : ℕ) → (v : Move) → slice_get moves.now k ≡ Some v → IsReadyMove window.old constants.now v }
    ensures { Moves result moves.now constants.now window.old window.new }
{
    if !read_all(moves, window, constants, scratch) {
        return false;
    }
    write_back(scratch.as_slice(), window);
    true
}

/// Does more than two moves, all at once. Whether there was memory for it; else nothing changed.
#[inline(always)]
fn move_more(
    moves: &[Move],
    window: &mut [u64],
    constants: &[u64],
    scratch: &mut Vec<(u32, u64)>,
) -> bool
    requires ready { (k : ℕ) → (v : Move) → slice_get moves.now k ≡ Some v → IsReadyMove window.old constants.now v }
    ensures { Moves result moves.now constants.now window.old window.new }
{
    match moves {
        [one, two, three] => {
            let first = read(window, constants, one.from);
            let second = read(window, constants, two.from);
            let third = read(window, constants, three.from);
            window[one.into as usize] = first;
            window[two.into as usize] = second;
            window[three.into as usize] = third;
            true
        }
        [one, two, three, four] => {
            let first = read(window, constants, one.from);
            let second = read(window, constants, two.from);
            let third = read(window, constants, three.from);
            let fourth = read(window, constants, four.from);
            window[one.into as usize] = first;
            window[two.into as usize] = second;
            window[three.into as usize] = third;
            window[four.into as usize] = fourth;
            true
        }
        _ => move_many(moves, window, constants, scratch),
    }
}

/// Does the moves of an edge, all at once. Whether there was memory for it; else nothing changed.
#[inline(always)]
fn move_all(
    moves: &[Move],
    window: &mut [u64],
    constants: &[u64],
    scratch: &mut Vec<(u32, u64)>,
) -> bool
    requires ready { (k : ℕ) → (v : Move) → slice_get moves.now k ≡ Some v → IsReadyMove window.old constants.now v }
    ensures { Moves result moves.now constants.now window.old window.new }
{
    match moves {
        [] => true,
        [one] => {
            window[one.into as usize] = read(window, constants, one.from);
            true
        }
        [one, two] => {
            let first = read(window, constants, one.from);
            let second = read(window, constants, two.from);
            window[one.into as usize] = first;
            window[two.into as usize] = second;
            true
        }
        _ => move_more(moves, window, constants, scratch),
    }
}

/// Goes along an edge.
#[inline(always)]
pub(crate) fn take(
    code: &Code,
    window: &mut [u64],
    constants: &[u64],
    scratch: &mut Vec<(u32, u64)>,
    e: u32,
) -> Did
    requires { IsReadyEdge window.old constants.now code.now e }
    ensures { Takes constants.now code.now e window.old window.new result }
{
    let edge = code.edges.as_slice()[e as usize];
    let moves = &code.moves.as_slice()[edge.from as usize..edge.to as usize];
    if move_all(moves, window, constants, scratch) {
        Did::To(edge.target)
    } else {
        Did::NoMemory
    }
}

/// The first edge where a number is 1, and else the second.
#[inline(always)]
fn chosen(n: u64, e: u32, f: u32) -> u32
    ensures { result ≡ (if n == 1 then e else f) }
{
    if n == 1 { e } else { f }
}

/// "br Instruction" with a condition.
#[inline(always)]
pub(crate) fn take_one(
    code: &Code,
    window: &mut [u64],
    constants: &[u64],
    scratch: &mut Vec<(u32, u64)>,
    x: u32,
    e: u32,
    f: u32,
) -> Did
    requires { IsReadyCondBr window.old constants.now code.now x e f }
    ensures { Takes constants.now code.now (if value_in window.old constants.now x == 1 then e else f) window.old window.new result }
{
    let edge = chosen(read(window, constants, x), e, f);
    take(code, window, constants, scratch, edge)
}

/// The edge of the first case that equals a number, and else the default.
fn case_edge(n: u64, default: u32, cases: &[Case]) -> u32
    ensures { result ≡ case_edge n default cases.now }
{
    for case in cases {
        if case.number == n {
            return case.edge;
        }
    }
    default
}

/// "switch Instruction"
#[inline(always)]
pub(crate) fn take_case(
    code: &Code,
    window: &mut [u64],
    constants: &[u64],
    scratch: &mut Vec<(u32, u64)>,
    x: u32,
    e: u32,
    from: u32,
    to: u32,
) -> Did
    requires { IsReadySwitch window.old constants.now code.now x e from to }
    ensures { Takes constants.now code.now (case_edge (value_in window.old constants.now x) e (slice_range code.now.cases from to)) window.old window.new result }
{
    let cases = &code.cases.as_slice()[from as usize..to as usize];
    let edge = case_edge(read(window, constants, x), e, cases);
    take(code, window, constants, scratch, edge)
}
