ghost use Rattle.std.specs.Prelude.{◌≡◌, ◌+◌, ◌<◌, ◌++◌, [], ℕ, List, Some, length, slice_get, true};
ghost use Rattle.no_code.specs.declared.code.Argument.{Argument};
ghost use Rattle.no_semantics.specs.Acting.{row};
ghost use Rattle.no_semantics.specs.Rows.{affordable};
ghost use Rattle.no_semantics.specs.States.{State};
ghost use Rattle.no_taken.specs.Marked.{AreTaken};
ghost use Rattle.no_machine.specs.Outside.{AreExternals, Outs};
ghost use Rattle.no_machine.specs.Turning.{AreFacts, IsCalling, IsHere, program_with};

use crate::facts::Facts;
use crate::frame::Saved;
use crate::invoke::invoke;
use crate::out::Out;
use crate::pointer::reached;
use crate::step::{cell_at, read_at};
use no_code::{Cell, Code};
use no_heap::Heap;
use no_ir::Trap;
use no_layout::Memory;
use no_lib::Env;
use no_module::External;

/// The slot of an argument.
pub(crate) fn slot_at(code: &Code, k: u32) -> u32
    requires { k < length code.now.arguments }
    ensures { (a : Argument) → slice_get code.now.arguments k ≡ Some a → result ≡ a.slot }
{
    code.arguments.as_slice()[k as usize].slot
}

/// Does the call of the cell at which the machine stands: of a function by its name, or through a pointer.
pub(crate) fn outside<M: Memory>(
    facts: Facts,
    externals: &[Option<External>],
    taken: &[bool],
    slots: &mut [u64],
    frames: &mut Vec<Saved>,
    numbers: &mut Vec<u64>,
    sp: &mut u32,
    mem: &mut M,
    heap: &mut Heap,
    env: &mut Env,
    at: usize,
    base: usize,
    left: u64,
) -> Out
    requires facts { AreFacts facts.sound.now facts.addresses.now facts.code.now facts.cells.now facts.constants.now facts.declared.now facts.big facts.pointer }
    requires externals { AreExternals facts.sound.now.«module» facts.sound.now.role externals.now }
    requires taken { AreTaken facts.sound.now.«module» taken.now }
    requires some { 0 < left }
    requires here { (s : State) × IsHere (program_with facts.sound.now facts.addresses.now (M.regions mem.old)) at base sp.old slots.old frames.old.items (M.held mem.old) (M.byte mem.old) s × IsCalling (program_with facts.sound.now facts.addresses.now (M.regions mem.old)) s }
    ensures outs { (s : State) → (more : List ℕ) → IsHere (program_with facts.entry.sound.now facts.entry.addresses.now (M.regions mem.old)) at base sp.old slots.old frames.old.items (M.held mem.old) (M.byte mem.old) s → s.heap ≡ heap.old → s.input ≡ env.old.input ++ more → (env.old.ended ≡ true → more ≡ []) → Outs (program_with facts.entry.sound.now facts.entry.addresses.now (M.regions mem.old)) result at base sp.new slots.new frames.new.items (record { held = M.held mem.old; byte = M.byte mem.old; after = M.byte mem.new; heap = heap.old; heap_after = heap.new; env = env.old; env_after = env.new }) more s (affordable left (row (program_with facts.entry.sound.now facts.entry.addresses.now (M.regions mem.old)) s)) }
    ensures regions { M.regions mem.new ≡ M.regions mem.old }
    ensures held { M.held mem.new ≡ M.held mem.old }
    ensures ended { env.new.ended ≡ env.old.ended }
{
    match cell_at(facts.cells, at) {
        Cell::Call(into, f, from, to) => invoke(
            facts.code,
            facts.constants,
            facts.declared,
            externals,
            facts.sound,
            slots,
            frames,
            numbers,
            sp,
            mem,
            heap,
            env,
            at,
            base,
            into,
            f,
            from,
            to,
            left,
        ),
        Cell::CallAt(into, from, to) => {
            let slot = slot_at(facts.code, from);
            let address = read_at(slots, base, facts.constants, slot);
            let Some(k) = reached(facts.sound, facts.code, taken, at, address) else {
                return Out::Trapped(Trap::BadFunction);
            };
            let Ok(f) = u32::try_from(k) else {
                return Out::NoMemory;
            };
            let Some(rest) = from.checked_add(1) else {
                return Out::NoMemory;
            };
            invoke(
                facts.code,
                facts.constants,
                facts.declared,
                externals,
                facts.sound,
                slots,
                frames,
                numbers,
                sp,
                mem,
                heap,
                env,
                at,
                base,
                into,
                f,
                rest,
                to,
                left,
            )
        }
        _ => unreachable!(),
    }
}
