ghost use Rattle.std.specs.Prelude.{◌≡◌, ◌+◌, ◌*◌, ◌<◌, ◌≤◌, ◌^◌, ℕ, true};
ghost use Rattle.no_layout.specs.Width.{width_of};
ghost use Rattle.no_semantics.specs.Results.{lowered};
ghost use Rattle.no_semantics.specs.Sound.{is_width};
ghost use Rattle.no_semantics.specs.Values.{bytes_of_width};
ghost use Rattle.no_machine.specs.Slots.{value_in};
ghost use Rattle.no_machine.specs.Did.{Allocates, IsReadyAlloca, IsReadyLoad, IsReadyStore, Loads, Stores};

use crate::did::Did;
use crate::slots::{put, read};
use no_ir::Trap;
use no_layout::{Loaded, Memory, STACK_START, Stored, Width};
use no_semantics::{bytes_of, narrowed};

/// The width in memory of a number of w bits.
#[inline(always)]
fn width(w: u8) -> Width
    requires { is_width w ≡ true }
    ensures bytes { width_of result ≡ bytes_of_width w }
    ensures room { 2 ^ w ≤ 256 ^ width_of result }
    ensures some { 0 < w }
    ensures most { w ≤ 64 }
{
    Width::of(bytes_of(w))
}

/// Reads a number of w bits from memory.
#[inline(always)]
pub(crate) fn load<M: Memory>(
    mem: &M,
    big: bool,
    w: u8,
    window: &mut [u64],
    constants: &[u64],
    into: u32,
    x: u32,
) -> Did
    requires { IsReadyLoad window.old constants.now w into x }
    ensures { Loads (M.regions mem.now) (M.held mem.now) (M.byte mem.now) big w (value_in window.old constants.now x) into window.old window.new result }
{
    match mem.load(big, width(w), read(window, constants, x)) {
        Loaded::Value(n) => put(window, into, narrowed(w, n)),
        Loaded::Missing(page) => Did::WantPage(page),
        Loaded::Refused(trap) => Did::Trapped(trap),
    }
}

/// Writes a number of w bits to memory.
#[inline(always)]
pub(crate) fn store<M: Memory>(
    mem: &mut M,
    big: bool,
    w: u8,
    window: &[u64],
    constants: &[u64],
    y: u32,
    x: u32,
) -> Did
    requires { IsReadyStore window.now constants.now w y x }
    ensures stores { Stores (M.regions mem.old) (M.held mem.old) (M.byte mem.old) (M.byte mem.new) big w (value_in window.now constants.now x) (value_in window.now constants.now y) result }
    ensures regions { M.regions mem.new ≡ M.regions mem.old }
    ensures held { M.held mem.new ≡ M.held mem.old }
{
    let at = read(window, constants, x);
    let n = read(window, constants, y);
    match mem.store(big, width(w), at, n) {
        Stored::Done => Did::Next,
        Stored::Missing(page) => Did::WantPage(page),
        Stored::Refused(trap) => Did::Trapped(trap),
        Stored::NoMemory => Did::NoMemory,
    }
}

/// The stack pointer less so many bytes, down to a multiple of the alignment.
fn lower(sp: u32, bytes: u64, align: u64) -> Option<u32>
    requires { 0 < align }
    ensures { result ≡ lowered sp bytes align }
{
    let sp = u64::from(sp);
    if sp < bytes {
        return None;
    }
    let place = (sp - bytes) / align * align;
    if place < u64::from(STACK_START) {
        None
    } else {
        Some(place as u32)
    }
}

/// The stack pointer below so many values of a size.
pub(crate) fn lower_by(sp: u32, count: u64, stride: u64, align: u64) -> Option<u32>
    requires { 0 < align }
    ensures { result ≡ lowered sp (count * stride) align }
{
    match count.checked_mul(stride) {
        Some(bytes) => lower(sp, bytes, align),
        None => None,
    }
}

/// Room on the stack.
#[inline(always)]
pub(crate) fn allocate(
    sp: &mut u32,
    window: &mut [u64],
    constants: &[u64],
    into: u32,
    x: u32,
    stride: u32,
    align: u32,
) -> Did
    requires { IsReadyAlloca window.old constants.now into x align }
    ensures { Allocates sp.old (value_in window.old constants.now x * stride) align into window.old window.new sp.new result }
{
    let count = read(window, constants, x);
    match lower_by(*sp, count, u64::from(stride), u64::from(align)) {
        Some(place) => {
            *sp = place;
            put(window, into, u64::from(place))
        }
        None => Did::Trapped(Trap::StackOverflow),
    }
}
