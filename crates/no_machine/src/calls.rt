ghost use Rattle.std.specs.Prelude.{◌≡◌, ◌+◌, ◌<◌, ◌≤◌, ◌^◌, ℕ, Some, drop, length, map, slice_get, slice_range, slice_set, take};
ghost use Rattle.no_code.specs.declared.code.Argument.{Argument};
ghost use Rattle.no_code.specs.declared.code.Home.{Home};
ghost use Rattle.no_machine.specs.Slots.{IsSlotIn};
ghost use Rattle.no_machine.specs.Calling.{Called, GoesBack, IsHomeAt, IsReadyCall, IsReadyReturn, argument_in, given_at, passed_to};

use crate::frame::Saved;
use crate::slots::read;
use crate::turn::{Stop, Turn};
use no_code::{Argument, Code, Home};
use no_ir::Trap;
use no_layout::STACK_START;

/// By how much a call lowers the stack pointer.
const CALL_ROOM: u32 = 16;

/// The most registers that a frame may have, and one more.
const MANY: u32 = 0x8000_0000;

/// Writes a number into a slot, where it is one of the window.
#[inline(always)]
fn write(free: &mut [u64], slot: u32, n: u64)
    ensures { free.new ≡ slice_set free.old slot n }
{
    if (slot as usize) < free.len() {
        free[slot as usize] = n;
    }
}

/// Gives parameters the numbers of arguments.
#[inline(always)]
fn pass(window: &[u64], constants: &[u64], free: &mut [u64], args: &[Argument], params: &[Argument])
    requires each { (k : ℕ) → (a : Argument) → slice_get args.now k ≡ Some a → IsSlotIn window.now constants.now a.slot }
    ensures { free.new ≡ passed_to params.now (map (argument_in window.now constants.now) args.now) free.old }
{
    for (k, arg) in args.iter().enumerate() {
        if k >= params.len() {
            return;
        }
        let n = read(window, constants, arg.slot);
        write(free, params[k].slot, n);
    }
}

/// Gives parameters the numbers of arguments, in a window above the caller's.
#[inline(always)]
fn enter(
    slots: &mut [u64],
    base: usize,
    above: usize,
    constants: &[u64],
    args: &[Argument],
    params: &[Argument],
)
    requires low { base ≤ above }
    requires high { above ≤ length slots.old }
    requires each { (k : ℕ) → (a : Argument) → slice_get args.now k ≡ Some a → IsSlotIn (drop base (take above slots.old)) constants.now a.slot }
    ensures below { take above slots.new ≡ take above slots.old }
    ensures passed { drop above slots.new ≡ passed_to params.now (map (argument_in (drop base (take above slots.old)) constants.now) args.now) (drop above slots.old) }
{
    let (caller, free) = slots.split_at_mut(above);
    pass(&caller[base..], constants, free, args, params);
}

/// The home of the function of a cell.
#[inline(always)]
fn own_home(code: &Code, at: usize) -> Home
    requires { (home : Home) × IsHomeAt code.now at home }
    ensures { IsHomeAt code.now at result }
{
    let place = code.places.as_slice()[at];
    code.homes.as_slice()[place.function as usize]
}

/// The home of a function.
#[inline(always)]
fn home_of(code: &Code, f: u32) -> Home
    requires { f < length code.now.homes }
    ensures { slice_get code.now.homes f ≡ Some result }
{
    code.homes.as_slice()[f as usize]
}

/// A range of the table of arguments and parameters.
#[inline(always)]
pub(crate) fn arguments(code: &Code, from: u32, to: u32) -> &[Argument]
    requires ordered { from ≤ to }
    requires within { to ≤ length code.now.arguments }
    ensures { result.now ≡ slice_range code.now.arguments from to }
{
    &code.arguments.as_slice()[from as usize..to as usize]
}

/// Begins a call of function f.
#[inline(always)]
pub(crate) fn call(
    code: &Code,
    constants: &[u64],
    declared: &[bool],
    slots: &mut [u64],
    frames: &mut Vec<Saved>,
    sp: &mut u32,
    at: usize,
    base: usize,
    into: u32,
    f: u32,
    from: u32,
    to: u32,
) -> Turn
    requires same { constants.now ≡ code.now.constants }
    requires inside { base ≤ length slots.old }
    requires next { at + 1 < 2 ^ 64 }
    requires ready { IsReadyCall code.now declared.now (drop base slots.old) at f from to }
    ensures { (r : IsReadyCall code.now declared.now (drop base slots.old) at f from to) → Called result code.now r.outside r.home r.callee at base into from to slots.old slots.new frames.old.items frames.new.items sp.old sp.new }
{
    if declared[f as usize] {
        return Turn::Halt(0, 0, Stop::Outside);
    }
    if *sp < STACK_START + CALL_ROOM {
        return Turn::Halt(0, 0, Stop::Trapped(Trap::StackOverflow));
    }
    let home = own_home(code, at);
    let callee = home_of(code, f);
    let above = base + home.registers as usize + 1;
    if callee.registers >= MANY {
        return Turn::Halt(0, 0, Stop::NoMemory);
    }
    if slots.len() - above <= callee.registers as usize {
        return Turn::Halt(0, 0, Stop::Grow);
    }
    let saved = Saved {
        next: at + 1,
        base,
        into,
        sp: *sp,
    };
    if frames.push(saved).is_err() {
        return Turn::Halt(0, 0, Stop::NoMemory);
    }
    *sp -= CALL_ROOM;
    let args = arguments(code, from, to);
    let params = arguments(code, callee.from, callee.to);
    enter(slots, base, above, constants, args, params);
    Turn::On(callee.start as usize, above)
}

/// Writes a result, if there is one.
#[inline(always)]
pub(crate) fn give(slots: &mut [u64], place: usize, value: Option<u64>)
    requires { place < length slots.old }
    ensures { slots.new ≡ given_at value place slots.old }
{
    if let Some(n) = value {
        slots[place] = n;
    }
}

/// Goes back to the newest caller with a value, or with none.
#[inline(always)]
pub(crate) fn back(
    slots: &mut [u64],
    frames: &mut Vec<Saved>,
    sp: &mut u32,
    value: Option<u64>,
) -> Turn
    requires { IsReadyReturn slots.old frames.old.items }
    ensures { GoesBack result value slots.old slots.new frames.old.items frames.new.items sp.old sp.new }
{
    let Some(w) = frames.pop() else {
        return Turn::Halt(0, 0, Stop::Left(value));
    };
    give(slots, w.base + w.into as usize, value);
    *sp = w.sp;
    Turn::On(w.next, w.base)
}
