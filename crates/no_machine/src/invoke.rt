ghost use Rattle.std.specs.Prelude.{◌≡◌, ◌+◌, ◌<◌, ◌≤◌, ℕ, Bool, Option, Some, drop, length, slice_get, slice_range};
ghost use Rattle.no_code.specs.declared.code.Argument.{Argument};
ghost use Rattle.no_module.specs.declared.external.External.{External};
ghost use Rattle.no_machine.specs.Slots.{IsSlotIn};
ghost use Rattle.no_machine.specs.Outside.{DoesExternal, Invoked, IsReadyInvoke, out_of_turn};

use crate::calls::call;
use crate::device::{call_alloca, call_map};
use crate::frame::Saved;
use crate::out::Out;
use crate::serve::call_library;
use crate::turn::{Stop, Turn};
use no_code::Code;
use no_heap::Heap;
use no_layout::Memory;
use no_lib::Env;
use no_module::External;
use no_semantics::Sound;

/// What comes of a call of a defined function.
fn out_of_turn(turn: Turn) -> Out
    ensures { result ≡ out_of_turn turn }
{
    match turn {
        Turn::On(at, base) => Out::On(at, base, 1),
        Turn::Halt(_, _, Stop::Grow) => Out::Grow,
        Turn::Halt(_, _, Stop::Trapped(trap)) => Out::Trapped(trap),
        Turn::Halt(_, _, _) => Out::NoMemory,
    }
}

/// Whether function f is declared.
fn is_declared(declared: &[bool], f: u32) -> bool
    requires { f < length declared.now }
    ensures { slice_get declared.now f ≡ Some result }
{
    declared[f as usize]
}

/// Which external function f is, if it is one.
pub(crate) fn external_at(externals: &[Option<External>], f: u32) -> Option<External>
    requires { f < length externals.now }
    ensures { slice_get externals.now f ≡ Some result }
{
    externals[f as usize]
}

/// Calls an external.
fn call_external<M: Memory>(
    code: &Code,
    constants: &[u64],
    declared: &[bool],
    externals: &[Option<External>],
    sound: &Sound,
    entry: Option<External>,
    slots: &mut [u64],
    frames: &mut Vec<Saved>,
    numbers: &mut Vec<u64>,
    sp: &mut u32,
    mem: &mut M,
    heap: &mut Heap,
    env: &mut Env,
    at: usize,
    base: usize,
    into: u32,
    f: u32,
    from: u32,
    to: u32,
    left: u64,
) -> Out
    requires same { constants.now ≡ code.now.constants }
    requires ready { IsReadyInvoke code.now declared.now externals.now slots.old at base into f from to }
    requires each { (k : ℕ) → (a : Argument) → slice_get (slice_range code.now.arguments from to) k ≡ Some a → IsSlotIn (drop base slots.old) code.now.constants a.slot }
    ensures does { DoesExternal entry sound.now.«module».functions (M.regions mem.old) (M.regions mem.new) (M.held mem.old) (M.held mem.new) (M.own mem.old) (M.own mem.new) code.now left at base into from to (record { slots = slots.old; new = slots.new; frames = frames.old.items; now = frames.new.items; sp = sp.old; after = sp.new }) (record { held = M.held mem.old; byte = M.byte mem.old; after = M.byte mem.new; heap = heap.old; heap_after = heap.new; env = env.old; env_after = env.new }) result }
    ensures regions { M.regions mem.new ≡ M.regions mem.old }
    ensures held { M.held mem.new ≡ M.held mem.old }
    ensures ended { env.new.ended ≡ env.old.ended }
{
    match entry {
        None => Out::Stuck,
        Some(External::Alloca) => call_alloca(
            code, constants, slots, numbers, sp, at, base, into, from, to,
        ),
        Some(External::Map) => call_map(
            code, constants, sound, slots, numbers, at, base, into, from, to,
        ),
        Some(which) => call_library(
            code, constants, which, slots, at, base, into, from, to, numbers, left, mem, heap, env,
        ),
    }
}

/// Calls function f, which is defined or declared.
pub(crate) fn invoke<M: Memory>(
    code: &Code,
    constants: &[u64],
    declared: &[bool],
    externals: &[Option<External>],
    sound: &Sound,
    slots: &mut [u64],
    frames: &mut Vec<Saved>,
    numbers: &mut Vec<u64>,
    sp: &mut u32,
    mem: &mut M,
    heap: &mut Heap,
    env: &mut Env,
    at: usize,
    base: usize,
    into: u32,
    f: u32,
    from: u32,
    to: u32,
    left: u64,
) -> Out
    requires same { constants.now ≡ code.now.constants }
    requires ready { IsReadyInvoke code.now declared.now externals.now slots.old at base into f from to }
    requires each { (k : ℕ) → (a : Argument) → slice_get (slice_range code.now.arguments from to) k ≡ Some a → IsSlotIn (drop base slots.old) code.now.constants a.slot }
    ensures invoked { (outside : Bool) → slice_get declared.now f ≡ Some outside → (entry : Option External) → slice_get externals.now f ≡ Some entry → Invoked outside entry sound.now.«module».functions (M.regions mem.old) (M.regions mem.new) (M.held mem.old) (M.held mem.new) (M.own mem.old) (M.own mem.new) code.now declared.now left at base into f from to (record { slots = slots.old; new = slots.new; frames = frames.old.items; now = frames.new.items; sp = sp.old; after = sp.new }) (record { held = M.held mem.old; byte = M.byte mem.old; after = M.byte mem.new; heap = heap.old; heap_after = heap.new; env = env.old; env_after = env.new }) result }
    ensures regions { M.regions mem.new ≡ M.regions mem.old }
    ensures held { M.held mem.new ≡ M.held mem.old }
    ensures ended { env.new.ended ≡ env.old.ended }
{
    if is_declared(declared, f) {
        let entry = external_at(externals, f);
        return call_external(
            code, constants, declared, externals, sound, entry, slots, frames, numbers, sp, mem,
            heap, env, at, base, into, f, from, to, left,
        );
    }
    let turn = call(
        code, constants, declared, slots, frames, sp, at, base, into, f, from, to,
    );
    out_of_turn(turn)
}
