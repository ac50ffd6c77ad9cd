ghost use Rattle.std.specs.Prelude.{◌≡◌, ◌≢◌, ◌%◌, ◌^◌, ◌+◌, ◌*◌, ◌<◌, ◌≤◌, None, IsTrue, map, true};
ghost use Rattle.std.specs.Option.{option_copied};
ghost use Rattle.no_eval.specs.Numbers.{modulo};
ghost use Rattle.no_layout.specs.Text.{is_formed};
ghost use Rattle.no_semantics.specs.Indices.{index_offset, inner_leads, inner_offset, part_of, path_leads, path_offset, resolved};
ghost use Rattle.no_semantics.specs.Sound.{place_fits, table_holds, type_fits};
ghost use Rattle.no_semantics.specs.Values.{place_number, symbol_number};

use crate::{Sound, narrowed, pointer_width};
use no_ir::{Module, Place, Symbol, Ty};
use no_layout::{Layout, Sizes};
use no_module::resolved;

/// Where the first function stands.
const FUNCTIONS: u64 = 0xF000_0000;

/// The number of w bits that equals an index modulo 2^w.
#[tactic(auto, using(no_eval::proofs::Widths::congruent))]
fn wrapped(w: u8, index: &i64) -> u64
    requires some { 0 < w }
    requires most { w ≤ 64 }
    ensures { result ≡ modulo w index.now }
{
    narrowed(w, index.cast_unsigned())
}

/// The type of what stands at an index in an array or a struct.
pub fn part(t: &Ty, index: u64) -> Option<&Ty>
    ensures { option_copied result ≡ part_of t.now index }
{
    match t {
        Ty::Array(_, element) => Some(element.get()),
        Ty::Struct(_, fields) => {
            if index < 0x8000_0000 {
                fields.get(index as usize)
            } else {
                None
            }
        }
        _ => None,
    }
}

/// How far an index leads into an array or a struct, modulo 2^64.
#[tactic(auto, using(no_sound::proofs::Parts::element_fits, no_sound::proofs::Parts::has_field, no_sound::proofs::Parts::index_small))]
pub fn index_offset(layout: &Layout, sizes: &Sizes, t: &Ty, index: u64) -> u64
    requires formed { IsTrue (is_formed layout.now) }
    requires fits { type_fits layout.now sizes.now t.now ≡ true }
    requires leads { part_of t.now index ≢ None }
    ensures { result ≡ index_offset layout.now sizes.now t.now index % 2 ^ 64 }
{
    match t {
        Ty::Array(_, element) => index.wrapping_mul(layout.stride(sizes, element.get())),
        Ty::Struct(_, _) => layout.offset(sizes, t, index as u32),
        _ => 0,
    }
}

/// Whether the constant indices of a place lead somewhere.
pub(crate) fn path_leads(program: &Module, pointer: u8, base: &Ty, indices: &[i64]) -> bool
    requires some { 0 < pointer }
    requires most { pointer ≤ 64 }
    ensures { result ≡ path_leads program.now.types base.now (map (modulo pointer) indices.now) }
{
    match indices {
        [] => true,
        [_, others @ ..] => inner_leads(program, pointer, base, others),
    }
}

fn inner_leads(program: &Module, pointer: u8, base: &Ty, indices: &[i64]) -> bool
    requires some { 0 < pointer }
    requires most { pointer ≤ 64 }
    ensures { result ≡ inner_leads program.now.types base.now (map (modulo pointer) indices.now) }
{
    let mut at = base;
    for index in indices {
        match part(resolved(program, at), wrapped(pointer, index)) {
            None => return false,
            Some(next) => at = next,
        }
    }
    true
}

/// How far a first index and the others lead, modulo 2^64.
#[tactic(auto, using(no_sound::proofs::Parts::first_more))]
pub fn with_first(index: u64, stride: u64, inner: u64) -> u64
    ensures { result ≡ (index * stride + inner) % 2 ^ 64 }
{
    index.wrapping_mul(stride).wrapping_add(inner)
}

/// How far the constant indices of a place lead, modulo 2^64.
#[tactic(auto, using(no_sound::proofs::Parts::known_sum))]
fn path_offset(sound: &Sound, base: &Ty, indices: &[i64]) -> u64
    requires fits { type_fits sound.now.layout sound.now.sizes base.now ≡ true }
    requires leads { path_leads sound.now.«module».types base.now (map (modulo sound.now.layout.pointer) indices.now) ≡ true }
    ensures { result ≡ path_offset sound.now.layout sound.now.sizes sound.now.«module».types base.now (map (modulo sound.now.layout.pointer) indices.now) % 2 ^ 64 }
{
    match indices {
        [] => 0,
        [first, others @ ..] => with_first(
            wrapped(pointer_width(sound), first),
            sound.layout().stride(sound.sizes(), base),
            inner_offset(sound, base, others),
        ),
    }
}

/// How far the constant indices after the first lead, modulo 2^64.
fn inner_offset(sound: &Sound, base: &Ty, indices: &[i64]) -> u64
    requires fits { type_fits sound.now.layout sound.now.sizes base.now ≡ true }
    requires leads { inner_leads sound.now.«module».types base.now (map (modulo sound.now.layout.pointer) indices.now) ≡ true }
    ensures { result ≡ inner_offset sound.now.layout sound.now.sizes sound.now.«module».types base.now (map (modulo sound.now.layout.pointer) indices.now) % 2 ^ 64 }
{
    let program = sound.module();
    let width = pointer_width(sound);
    let mut at = base;
    let mut total: u64 = 0;
    for index in indices {
        let t = resolved(program, at);
        let i = wrapped(width, index);
        match part(t, i) {
            None => return total,
            Some(next) => {
                total = total.wrapping_add(index_offset(sound.layout(), sound.sizes(), t, i));
                at = next;
            }
        }
    }
    total
}

/// The address of a global or a function. The addresses are those of the module's globals, in their order.
pub fn symbol_address(addresses: &[u32], symbol: &Symbol) -> u64
    ensures { result ≡ symbol_number addresses.now symbol.now }
{
    match symbol {
        Symbol::Global(k) => u64::from(addresses.get(*k as usize).copied().unwrap_or(0)),
        Symbol::Function(k) => FUNCTIONS + 16 * u64::from(*k),
        Symbol::Unknown(_) => 0,
    }
}

/// The address of a place that the module has. The addresses are those of the module's globals, in their order.
#[tactic(auto, using(no_sound::proofs::Parts::place_sum))]
pub fn place_address(sound: &Sound, addresses: &[u32], place: &Place) -> u64
    requires { place_fits sound.now.«module» sound.now.layout sound.now.sizes place.now ≡ true }
    ensures value { result ≡ place_number sound.now.layout sound.now.sizes sound.now.«module».types addresses.now place.now }
    ensures within { result < 2 ^ sound.now.layout.pointer }
{
    let symbol = symbol_address(addresses, &place.symbol);
    let offset = path_offset(sound, &place.base, place.indices.as_slice());
    narrowed(pointer_width(sound), symbol.wrapping_add(offset))
}
