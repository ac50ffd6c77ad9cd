ghost use Rattle.std.specs.Prelude.{◌≡◌, ◌+◌, ◌<◌, ◌≤◌, ◌^◌, ℕ, Some, drop, length, map, slice_get, slice_range, true};
ghost use Rattle.no_code.specs.declared.code.Argument.{Argument};
ghost use Rattle.no_lib.specs.Answers.{Means, seen};
ghost use Rattle.no_lib.specs.declared.answer.LibAnswer.{LibAnswer};
ghost use Rattle.no_semantics.specs.Externals.{external_effect};
ghost use Rattle.no_machine.specs.Calling.{argument_in, given_at};
ghost use Rattle.no_machine.specs.Outside.{Serves, out_of, value_of};
ghost use Rattle.no_machine.specs.Slots.{IsSlotIn};

use crate::calls::{arguments, give};
use crate::out::Out;
use crate::slots::read;
use no_code::{Argument, Code};
use no_heap::Heap;
use no_layout::Memory;
use no_lib::{Env, LibAnswer, external};
use no_module::External;

/// The numbers of arguments. Whether there was memory for them.
pub(crate) fn gather(
    window: &[u64],
    constants: &[u64],
    args: &[Argument],
    numbers: &mut Vec<u64>,
) -> bool
    requires each { (k : ℕ) → (a : Argument) → slice_get args.now k ≡ Some a → IsSlotIn window.now constants.now a.slot }
    ensures { result ≡ true → numbers.new.items ≡ map (argument_in window.now constants.now) args.now }
{
    numbers.clear();
    for arg in args {
        if numbers.push(read(window, constants, arg.slot)).is_err() {
            return false;
        }
    }
    true
}

/// The value of an answer, if it has one.
fn value_of(told: LibAnswer) -> Option<u64>
    ensures { result ≡ value_of told }
{
    match told {
        LibAnswer::Value(v, _) => Some(v),
        _ => None,
    }
}

/// What comes behind the call of an external, by its answer.
pub(crate) fn out_of(told: LibAnswer, at: usize, base: usize) -> Out
    requires { at + 1 < 2 ^ 64 }
    ensures { result ≡ out_of told at base }
{
    match told {
        LibAnswer::Value(_, cost) => Out::On(at + 1, base, cost),
        LibAnswer::Nothing(cost) => Out::On(at + 1, base, cost),
        LibAnswer::Exited(status) => Out::Exited(status),
        LibAnswer::Trapped(trap) => Out::Trapped(trap),
        LibAnswer::Over => Out::Over,
        LibAnswer::Stuck => Out::Stuck,
        LibAnswer::WantPage(page) => Out::WantPage(page),
        LibAnswer::WantInput => Out::WantInput,
        LibAnswer::NoMemory => Out::NoMemory,
    }
}

/// Calls an external, and writes its value into the slot at a place.
pub(crate) fn serve<M: Memory>(
    which: External,
    numbers: &[u64],
    left: u64,
    slots: &mut [u64],
    place: usize,
    mem: &mut M,
    heap: &mut Heap,
    env: &mut Env,
) -> LibAnswer
    requires { place < length slots.old }
    ensures means { Means which (external_effect (M.regions mem.old) which numbers.now left) result (seen (M.regions mem.old) (M.held mem.old) (M.own mem.old) (M.byte mem.old) heap.old env.old) (seen (M.regions mem.new) (M.held mem.new) (M.own mem.new) (M.byte mem.new) heap.new env.new) }
    ensures given { slots.new ≡ given_at (value_of result) place slots.old }
    ensures regions { M.regions mem.new ≡ M.regions mem.old }
    ensures held { M.held mem.new ≡ M.held mem.old }
    ensures ended { env.new.ended ≡ env.old.ended }
{
    let told = external(which, numbers, left, mem, heap, env);
    give(slots, place, value_of(told));
    told
}

/// Calls an external with the arguments of a range.
pub(crate) fn call_library<M: Memory>(
    code: &Code,
    constants: &[u64],
    which: External,
    slots: &mut [u64],
    at: usize,
    base: usize,
    into: u32,
    from: u32,
    to: u32,
    numbers: &mut Vec<u64>,
    left: u64,
    mem: &mut M,
    heap: &mut Heap,
    env: &mut Env,
) -> Out
    requires same { constants.now ≡ code.now.constants }
    requires next { at + 1 < 2 ^ 64 }
    requires inside { base ≤ length slots.old }
    requires place { base + into < length slots.old }
    requires ordered { from ≤ to }
    requires within { to ≤ length code.now.arguments }
    requires each { (k : ℕ) → (a : Argument) → slice_get (slice_range code.now.arguments from to) k ≡ Some a → IsSlotIn (drop base slots.old) code.now.constants a.slot }
    ensures serves { Serves which (M.regions mem.old) (M.held mem.old) (M.own mem.old) (M.own mem.new) (M.held mem.new) (M.regions mem.new) (record { held = M.held mem.old; byte = M.byte mem.old; after = M.byte mem.new; heap = heap.old; heap_after = heap.new; env = env.old; env_after = env.new }) (map (argument_in (drop base slots.old) code.now.constants) (slice_range code.now.arguments from to)) left at base into slots.old slots.new result }
    ensures regions { M.regions mem.new ≡ M.regions mem.old }
    ensures held { M.held mem.new ≡ M.held mem.old }
    ensures ended { env.new.ended ≡ env.old.ended }
{
    let args = arguments(code, from, to);
    if !gather(&slots[base..], constants, args, numbers) {
        return Out::NoMemory;
    }
    let place = base + into as usize;
    let told = serve(
        which,
        numbers.as_slice(),
        left,
        slots,
        place,
        mem,
        heap,
        env,
    );
    out_of(told, at, base)
}
