ghost use Rattle.std.specs.Prelude.{◌≡◌, ◌<◌, ◌≤◌, ℕ, Bool, List, Option, Some, drop, IfSome, length, map, slice_get, slice_range};
ghost use Rattle.no_code.specs.declared.code.Argument.{Argument};
ghost use Rattle.no_layout.specs.declared.memory.Regions.{Regions};
ghost use Rattle.no_lib.specs.declared.env.Env.{Env};
ghost use Rattle.no_module.specs.declared.external.External.{External};
ghost use Rattle.no_semantics.specs.Accepted.{Accepted};
ghost use Rattle.no_semantics.specs.Acting.{row};
ghost use Rattle.no_semantics.specs.Externals.{World, do_calloc, do_move, do_puts, do_set, with_four, with_one, with_two};
ghost use Rattle.no_semantics.specs.States.{State};
ghost use Rattle.no_semantics.specs.Values.{bytes_of_width};
ghost use Rattle.no_machine.specs.Calling.{argument_in};
ghost use Rattle.no_machine.specs.Outside.{AreExternals};
ghost use Rattle.no_machine.specs.Ran.{IsAt, IsMade, Stays, count_of, end_of, memory_of, program_of};
ghost use Rattle.no_machine.specs.Slots.{IsSlotIn};
ghost use Rattle.no_machine.specs.Turning.{AreFacts, IsHere, program_with};
ghost use Rattle.no_machine.specs.declared.frame.Saved.{Saved};
ghost use Rattle.no_taken.specs.Marked.{AreTaken};
ghost use Rattle.no_machine.specs.Watching.{IsCallTouch, IsEffectTouch, IsPlaceOf, IsTouchOf};

use crate::calls::arguments;
use crate::facts::Facts;
use crate::invoke::external_at;
use crate::machine::Machine;
use crate::outside::slot_at;
use crate::pointer::{place_at, reached};
use crate::serve::gather;
use crate::step::{cell_at, read_at};
use no_code::{Cell, Code};
use no_heap::Heap;
use no_layout::Memory;
use no_module::External;
use no_semantics::Sound;

/// Where a run stands.
#[derive(Clone, Copy, Debug, PartialEq, Eq)]
pub struct Place {
    /// The number of the function whose frame goes on.
    pub function: u32,
    /// How many frames wait for a return.
    pub callers: usize,
}

/// The bytes that an instruction touches, if the run goes on behind it. One that touches none in a range names the range
/// with no length.
#[derive(Clone, Copy, Debug, PartialEq, Eq)]
pub enum Touch {
    Nothing,
    /// From an address on so many.
    Bytes(u64, u64),
    /// From each of two addresses on so many.
    Pair(u64, u64, u64),
    /// From an address on as many as the instruction writes to the output.
    Text(u64),
}

// ---- externals

/// What `puts` touches: its text, and the 0 behind it, for which a line feed is written.
#[tactic(auto, using(crate::proofs::Touching::puts_touch))]
fn text(numbers: &[u64]) -> Touch
    ensures { (r : Regions) (w : World) → IsEffectTouch result (with_one numbers.now (do_puts r) w) }
{
    match numbers {
        [at] => Touch::Text(*at),
        _ => Touch::Nothing,
    }
}

/// What `calloc` touches: the bytes that it clears, where there is a place for them.
#[tactic(auto, using(crate::proofs::Touching::calloc_touch, crate::proofs::Touching::calloc_none))]
fn cleared(numbers: &[u64], heap: &mut Heap) -> Touch
    ensures touch { (w : World) → w.heap ≡ heap.old → IsEffectTouch result (with_two numbers.now do_calloc w) }
    ensures same { heap.new ≡ heap.old }
{
    match numbers {
        [count, size] => {
            let _blocks = heap.blocks();
            let Some(product) = count.checked_mul(*size) else {
                return Touch::Nothing;
            };
            match heap.place_for(product) {
                Some(place) => Touch::Bytes(u64::from(place), product),
                None => Touch::Nothing,
            }
        }
        _ => Touch::Nothing,
    }
}

/// What a copy of bytes touches.
#[tactic(auto, using(crate::proofs::Touching::move_touch))]
fn copied(numbers: &[u64]) -> Touch
    ensures { (r : Regions) (w : World) → IsEffectTouch result (with_four numbers.now (do_move r) w) }
{
    match numbers {
        [to, from, len, _volatile] => Touch::Pair(*from, *to, *len),
        _ => Touch::Nothing,
    }
}

/// What a fill of bytes touches.
#[tactic(auto, using(crate::proofs::Touching::set_touch))]
fn filled(numbers: &[u64]) -> Touch
    ensures { (r : Regions) (w : World) → IsEffectTouch result (with_four numbers.now (do_set r) w) }
{
    match numbers {
        [to, _value, len, _volatile] => Touch::Bytes(*to, *len),
        _ => Touch::Nothing,
    }
}

/// What an external touches with these arguments.
#[tactic(auto, using(crate::proofs::Touching::others_call))]
fn touched_by(which: External, numbers: &[u64], heap: &mut Heap) -> Touch
    ensures touch { IsCallTouch result (Some which) heap.old numbers.now }
    ensures same { heap.new ≡ heap.old }
{
    match which {
        External::Puts => text(numbers),
        External::Calloc => cleared(numbers, heap),
        External::Move => copied(numbers),
        External::Set => filled(numbers),
        _ => Touch::Nothing,
    }
}

// ---- calls

/// What a call of function f touches, with arguments in a range. None where there is no memory for them.
fn touched_in(
    code: &Code,
    constants: &[u64],
    externals: &[Option<External>],
    slots: &[u64],
    base: usize,
    numbers: &mut Vec<u64>,
    heap: &mut Heap,
    f: u32,
    from: u32,
    to: u32,
) -> Option<Touch>
    requires inside { base ≤ length slots.now }
    requires known { f < length externals.now }
    requires ordered { from ≤ to }
    requires within { to ≤ length code.now.arguments }
    requires each { (k : ℕ) → (a : Argument) → slice_get (slice_range code.now.arguments from to) k ≡ Some a → IsSlotIn (drop base slots.now) constants.now a.slot }
    ensures touch { (entry : Option External) → slice_get externals.now f ≡ Some entry → IfSome result (λ t. IsCallTouch t entry heap.old (map (argument_in (drop base slots.now) constants.now) (slice_range code.now.arguments from to))) }
    ensures same { heap.new ≡ heap.old }
{
    let Some(which) = external_at(externals, f) else {
        return Some(Touch::Nothing);
    };
    let args = arguments(code, from, to);
    if !gather(&slots[base..], constants, args, numbers) {
        return None;
    }
    Some(touched_by(which, numbers.as_slice(), heap))
}

/// How many bytes a number of w bits has in memory.
fn bytes_of(w: u8) -> u64
    ensures { result ≡ bytes_of_width w }
{
    if w == 1 { 1 } else { u64::from(w / 8) }
}

/// What the instruction of the cell at which the machine stands touches, if the run goes on behind it. None where there is
/// no memory for arguments.
fn touched_at(
    facts: Facts,
    externals: &[Option<External>],
    taken: &[bool],
    slots: &[u64],
    numbers: &mut Vec<u64>,
    heap: &mut Heap,
    at: usize,
    base: usize,
) -> Option<Touch>
    requires facts { AreFacts facts.sound.now facts.addresses.now facts.code.now facts.cells.now facts.constants.now facts.declared.now facts.big facts.pointer }
    requires externals { AreExternals facts.sound.now.«module» facts.sound.now.role externals.now }
    requires taken { AreTaken facts.sound.now.«module» taken.now }
    requires here { (regions : Regions) × (sp : ℕ) × (frames : List Saved) × (held : ℕ → Bool) × (byte : ℕ → ℕ) × (s : State) × IsHere (program_with facts.sound.now facts.addresses.now regions) at base sp slots.now frames held byte s }
    ensures touch { (regions : Regions) → (sp : ℕ) → (frames : List Saved) → (held : ℕ → Bool) → (byte : ℕ → ℕ) → (s : State) → IsHere (program_with facts.entry.sound.now facts.entry.addresses.now regions) at base sp slots.now frames held byte s → s.heap ≡ heap.old → IfSome result (λ t. IsTouchOf t (row (program_with facts.entry.sound.now facts.entry.addresses.now regions) s)) }
    ensures same { heap.new ≡ heap.old }
{
    match cell_at(facts.cells, at) {
        Cell::Load(w, _, x) => {
            let address = read_at(slots, base, facts.constants, x);
            Some(Touch::Bytes(address, bytes_of(w)))
        }
        Cell::Store(w, _, x) => {
            let address = read_at(slots, base, facts.constants, x);
            Some(Touch::Bytes(address, bytes_of(w)))
        }
        Cell::Call(_, f, from, to) => touched_in(
            facts.code,
            facts.constants,
            externals,
            slots,
            base,
            numbers,
            heap,
            f,
            from,
            to,
        ),
        Cell::CallAt(_, from, to) => {
            let slot = slot_at(facts.code, from);
            let address = read_at(slots, base, facts.constants, slot);
            let Some(k) = reached(facts.sound, facts.code, taken, at, address) else {
                return Some(Touch::Nothing);
            };
            let Ok(f) = u32::try_from(k) else {
                return None;
            };
            let Some(rest) = from.checked_add(1) else {
                return None;
            };
            touched_in(
                facts.code,
                facts.constants,
                externals,
                slots,
                base,
                numbers,
                heap,
                f,
                rest,
                to,
            )
        }
        _ => Some(Touch::Nothing),
    }
}

impl<M: Memory> Machine<M> {
    /// Where the run stands.
    pub fn place(&self) -> Place
        requires { (a : Accepted) × IsMade a self.now × (env : Env) × (more : List ℕ) × (s : State) × IsAt M.byte M.held (program_of M.regions a self.now) self.now env more s }
        ensures { (a : Accepted) → IsMade a self.now → (env : Env) → (more : List ℕ) → (s : State) → IsAt M.byte M.held (program_of M.regions a self.now) self.now env more s → IsPlaceOf result s }
    {
        Place {
            function: place_at(&self.code, self.core.at).function,
            callers: self.core.frames.len(),
        }
    }

    /// What the next instruction touches, if the run goes on behind it. None where there is no memory for the arguments of
    /// a call. Nothing changes that a run could see.
    pub fn touch(&mut self, sound: &Sound) -> Option<Touch>
        requires made { IsMade sound.now self.old }
        requires at { (env : Env) × (more : List ℕ) × (s : State) × IsAt M.byte M.held (program_of M.regions sound.now self.old) self.old env more s }
        ensures touch { (env : Env) → (more : List ℕ) → (s : State) → IsAt M.byte M.held (program_of M.regions sound.now self.old) self.old env more s → IfSome result (λ t. IsTouchOf t (row (program_of M.regions sound.now self.old) s)) }
        ensures stays { Stays M.regions M.held self.old self.new }
        ensures made { IsMade sound.now self.new }
        ensures at { (env : Env) → (more : List ℕ) → (s : State) → IsAt M.byte M.held (program_of M.regions sound.now self.old) self.old env more s → IsAt M.byte M.held (program_of M.regions sound.now self.old) self.new env more s }
        ensures memory { memory_of self.new ≡ memory_of self.old }
        ensures count { count_of self.new ≡ count_of self.old }
        ensures end { end_of self.new ≡ end_of self.old }
    {
        let layout = sound.layout();
        let code = &self.code;
        let facts = Facts {
            sound,
            addresses: self.addresses.as_slice(),
            code,
            cells: code.cells.as_slice(),
            constants: code.constants.as_slice(),
            declared: self.declared.as_slice(),
            big: layout.big,
            pointer: layout.pointer,
        };
        touched_at(
            facts,
            self.externals.as_slice(),
            self.taken.as_slice(),
            self.core.slots.as_slice(),
            &mut self.core.numbers,
            &mut self.core.heap,
            self.core.at,
            self.core.base,
        )
    }
}
