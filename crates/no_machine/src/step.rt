ghost use Rattle.std.specs.Prelude.{◌≡◌, ◌<◌, ◌≤◌, Some, drop, length, slice_get, take};
ghost use Rattle.no_semantics.specs.States.{State};
ghost use Rattle.no_machine.specs.Did.{Acted, IsReady};
ghost use Rattle.no_machine.specs.Slots.{IsSlotIn, value_in};
ghost use Rattle.no_machine.specs.Turning.{AreFacts, IsHere, Turned, program_with};

use crate::act::act;
use crate::calls::{back, call};
use crate::did::Did;
use crate::facts::Facts;
use crate::frame::Saved;
use crate::slots::read;
use crate::turn::{Stop, Turn};
use no_code::{Cell, Code};
use no_layout::Memory;

/// The cell of a number.
#[inline(always)]
pub(crate) fn cell_at(cells: &[Cell], at: usize) -> Cell
    requires { at < length cells.now }
    ensures { slice_get cells.now at ≡ Some result }
{
    cells[at]
}

/// Does a cell in the window at a base.
#[inline(always)]
fn act_at<M: Memory>(
    code: &Code,
    constants: &[u64],
    big: bool,
    pointer: u8,
    cell: Cell,
    slots: &mut [u64],
    base: usize,
    scratch: &mut Vec<(u32, u64)>,
    sp: &mut u32,
    mem: &mut M,
) -> Did
    requires same { constants.now ≡ code.now.constants }
    requires inside { base ≤ length slots.old }
    requires ready { IsReady pointer code.now (drop base slots.old) cell }
    ensures acted { Acted big pointer code.now (record { regions = M.regions mem.old; held = M.held mem.old; byte = M.byte mem.old; after = M.byte mem.new; sp = sp.old; sp_after = sp.new }) (drop base slots.old) (drop base slots.new) result cell }
    ensures below { take base slots.new ≡ take base slots.old }
    ensures long { length slots.new ≡ length slots.old }
    ensures regions { M.regions mem.new ≡ M.regions mem.old }
    ensures held { M.held mem.new ≡ M.held mem.old }
{
    act(
        code,
        constants,
        big,
        pointer,
        cell,
        &mut slots[base..],
        scratch,
        sp,
        mem,
    )
}

/// Reads a slot of the window at a base.
#[inline(always)]
pub(crate) fn read_at(slots: &[u64], base: usize, constants: &[u64], x: u32) -> u64
    requires inside { base ≤ length slots.now }
    requires slot { IsSlotIn (drop base slots.now) constants.now x }
    ensures { result ≡ value_in (drop base slots.now) constants.now x }
{
    read(&slots[base..], constants, x)
}

/// Does the instruction of the cell at which the machine stands, unless it needs something from outside.
#[inline(always)]
pub(crate) fn turn<M: Memory>(
    facts: Facts,
    slots: &mut [u64],
    frames: &mut Vec<Saved>,
    scratch: &mut Vec<(u32, u64)>,
    sp: &mut u32,
    mem: &mut M,
    at: usize,
    base: usize,
) -> Turn
    requires facts { AreFacts facts.sound.now facts.addresses.now facts.code.now facts.cells.now facts.constants.now facts.declared.now facts.big facts.pointer }
    requires here { (s : State) × IsHere (program_with facts.sound.now facts.addresses.now (M.regions mem.old)) at base sp.old slots.old frames.old.items (M.held mem.old) (M.byte mem.old) s }
    ensures turned { (s : State) → IsHere (program_with facts.entry.sound.now facts.entry.addresses.now (M.regions mem.old)) at base sp.old slots.old frames.old.items (M.held mem.old) (M.byte mem.old) s → Turned (program_with facts.entry.sound.now facts.entry.addresses.now (M.regions mem.old)) result at base sp.new slots.new frames.new.items (M.held mem.old) (M.byte mem.old) (M.byte mem.new) s }
    ensures regions { M.regions mem.new ≡ M.regions mem.old }
    ensures held { M.held mem.new ≡ M.held mem.old }
{
    let cell = cell_at(facts.cells, at);
    match act_at(
        facts.code,
        facts.constants,
        facts.big,
        facts.pointer,
        cell,
        slots,
        base,
        scratch,
        sp,
        mem,
    ) {
        Did::Next => Turn::On(at + 1, base),
        Did::To(target) => Turn::On(target as usize, base),
        Did::Trapped(trap) => Turn::Halt(0, 0, Stop::Trapped(trap)),
        Did::WantPage(page) => Turn::Halt(0, 0, Stop::WantPage(page)),
        Did::NoMemory => Turn::Halt(0, 0, Stop::NoMemory),
        Did::Calls(into, f, from, to) => call(
            facts.code,
            facts.constants,
            facts.declared,
            slots,
            frames,
            sp,
            at,
            base,
            into,
            f,
            from,
            to,
        ),
        Did::CallsAt(_, _, _) => Turn::Halt(0, 0, Stop::Outside),
        Did::Returns(x) => {
            let v = read_at(slots, base, facts.constants, x);
            back(slots, frames, sp, Some(v))
        }
        Did::Leaves => back(slots, frames, sp, None),
    }
}
