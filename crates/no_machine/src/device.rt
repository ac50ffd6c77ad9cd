ghost use Rattle.std.specs.Prelude.{◌≡◌, ◌+◌, ◌*◌, ◌<◌, ◌≤◌, ◌^◌, ℕ, List, drop, length, map, slice_get, slice_range, Some};
ghost use Rattle.std.specs.Option.{IfSome};
ghost use Rattle.no_code.specs.declared.code.Argument.{Argument};
ghost use Rattle.no_semantics.specs.Calls.{addressed_from, has_address, mapped};
ghost use Rattle.no_semantics.specs.Results.{lowered};
ghost use Rattle.no_machine.specs.Calling.{argument_in};
ghost use Rattle.no_machine.specs.Outside.{Yields, map_value, room_value};
ghost use Rattle.no_machine.specs.Slots.{IsSlotIn};
ghost use Rattle.no_machine.specs.declared.frame.Saved.{Saved};

use crate::access::lower_by;
use crate::calls::arguments;
use crate::out::Out;
use crate::serve::gather;
use no_code::Code;
use no_ir::{Function, Trap};
use no_semantics::Sound;

/// Where the first function stands.
const FUNCTIONS: u64 = 0xF000_0000;

/// The place below so many times so many bytes of an alignment, if it is one of the stack.
fn place_below(sp: u32, n: u64, size: u64, align: u64) -> Option<u32>
    ensures { result ≡ lowered sp (n * size) align }
{
    if align == 0 {
        return None;
    }
    lower_by(sp, n, size, align)
}

/// Room on the stack for a count, a size and an alignment, where these are the numbers. Its place becomes the result.
fn make_room(
    numbers: &[u64],
    sp: &mut u32,
    slots: &mut [u64],
    place: usize,
    at: usize,
    base: usize,
) -> Out
    requires next { at + 1 < 2 ^ 64 }
    requires place { place < length slots.old }
    ensures { (frames : List Saved) → Yields (room_value sp.old numbers.now) (λ n. n) at base place (record { slots = slots.old; new = slots.new; frames = frames; now = frames; sp = sp.old; after = sp.new }) result }
{
    match numbers {
        [n, size, align] => match place_below(*sp, *n, *size, *align) {
            Some(room) => {
                *sp = room;
                slots[place] = u64::from(room);
                Out::On(at + 1, base, 1)
            }
            None => Out::Trapped(Trap::StackOverflow),
        },
        _ => Out::Stuck,
    }
}

/// `no.alloca`: room on the device's stack.
pub(crate) fn call_alloca(
    code: &Code,
    constants: &[u64],
    slots: &mut [u64],
    numbers: &mut Vec<u64>,
    sp: &mut u32,
    at: usize,
    base: usize,
    into: u32,
    from: u32,
    to: u32,
) -> Out
    requires same { constants.now ≡ code.now.constants }
    requires next { at + 1 < 2 ^ 64 }
    requires inside { base ≤ length slots.old }
    requires place { base + into < length slots.old }
    requires ordered { from ≤ to }
    requires within { to ≤ length code.now.arguments }
    requires each { (k : ℕ) → (a : Argument) → slice_get (slice_range code.now.arguments from to) k ≡ Some a → IsSlotIn (drop base slots.old) code.now.constants a.slot }
    ensures { (frames : List Saved) → Yields (room_value sp.old (map (argument_in (drop base slots.old) code.now.constants) (slice_range code.now.arguments from to))) (λ n. n) at base (base + into) (record { slots = slots.old; new = slots.new; frames = frames; now = frames; sp = sp.old; after = sp.new }) result }
{
    let args = arguments(code, from, to);
    if !gather(&slots[base..], constants, args, numbers) {
        return Out::NoMemory;
    }
    make_room(
        numbers.as_slice(),
        sp,
        slots,
        base + into as usize,
        at,
        base,
    )
}

/// Whether a function has this address of the device.
fn has_address(function: &Function, at: u64) -> bool
    ensures { result ≡ has_address at function.now.device_address }
{
    match function.device_address {
        Some(a) => u64::from(a) == at,
        None => false,
    }
}

/// The number of the first function that has this address of the device.
fn addressed(functions: &[Function], at: u64) -> Option<u64>
    ensures { result ≡ addressed_from 0 functions.now at }
{
    for (index, function) in functions.iter().enumerate() {
        if has_address(function, at) {
            return Some(index as u64);
        }
    }
    None
}

/// The number to call for a function, or null. None where it has more than 64 bits, as no function that fits into
/// memory has.
fn mapped(found: Option<u64>) -> Option<u64>
    ensures { IfSome result (λ n. n ≡ mapped found) }
{
    match found {
        Some(k) => k.checked_mul(16)?.checked_add(FUNCTIONS),
        None => Some(0),
    }
}

/// The number to call here for a function's address on the device, where it is the one number. It becomes the result.
fn map_function(
    functions: &[Function],
    numbers: &[u64],
    slots: &mut [u64],
    place: usize,
    at: usize,
    base: usize,
) -> Out
    requires next { at + 1 < 2 ^ 64 }
    requires place { place < length slots.old }
    ensures { (frames : List Saved) → (sp : ℕ) → Yields (map_value functions.now numbers.now) (λ n. sp) at base place (record { slots = slots.old; new = slots.new; frames = frames; now = frames; sp = sp; after = sp }) result }
{
    match numbers {
        [address] => match mapped(addressed(functions, *address)) {
            Some(number) => {
                slots[place] = number;
                Out::On(at + 1, base, 1)
            }
            None => Out::NoMemory,
        },
        _ => Out::Stuck,
    }
}

/// `no.map`: the number to call here for a function's address on the device. It takes time with the number of functions.
pub(crate) fn call_map(
    code: &Code,
    constants: &[u64],
    sound: &Sound,
    slots: &mut [u64],
    numbers: &mut Vec<u64>,
    at: usize,
    base: usize,
    into: u32,
    from: u32,
    to: u32,
) -> Out
    requires same { constants.now ≡ code.now.constants }
    requires next { at + 1 < 2 ^ 64 }
    requires inside { base ≤ length slots.old }
    requires place { base + into < length slots.old }
    requires ordered { from ≤ to }
    requires within { to ≤ length code.now.arguments }
    requires each { (k : ℕ) → (a : Argument) → slice_get (slice_range code.now.arguments from to) k ≡ Some a → IsSlotIn (drop base slots.old) code.now.constants a.slot }
    ensures { (frames : List Saved) → (sp : ℕ) → Yields (map_value sound.now.«module».functions (map (argument_in (drop base slots.old) code.now.constants) (slice_range code.now.arguments from to))) (λ n. sp) at base (base + into) (record { slots = slots.old; new = slots.new; frames = frames; now = frames; sp = sp; after = sp }) result }
{
    let args = arguments(code, from, to);
    if !gather(&slots[base..], constants, args, numbers) {
        return Out::NoMemory;
    }
    map_function(
        sound.module().functions.as_slice(),
        numbers.as_slice(),
        slots,
        base + into as usize,
        at,
        base,
    )
}
