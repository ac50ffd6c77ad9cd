ghost use Rattle.std.specs.Prelude.{◌≡◌, ◌%◌, ◌^◌, ◌<◌, ◌≤◌, IsTrue, map, true};
ghost use Rattle.no_eval.specs.Numbers.{modulo};
ghost use Rattle.no_layout.specs.Text.{is_formed};
ghost use Rattle.no_semantics.specs.Indices.{inner_leads, inner_offset, path_leads, path_offset};
ghost use Rattle.no_semantics.specs.Sound.{place_fits, table_holds, type_fits};
ghost use Rattle.no_semantics.specs.Values.{place_number};
ghost use Rattle.no_code.specs.Source.{IsKnown, source};

use no_ir::{Const, Module, Place, Ty};
use no_layout::{Layout, Sizes};
use no_semantics::{has_place, index_offset, narrowed, part, resolved, symbol_address, with_first};

/// What code is made of: the module, its layout, the sizes of its named types, and the address of each global.
#[derive(Clone, Copy)]
pub(crate) struct From<'a> {
    pub program: &'a Module,
    pub layout: &'a Layout,
    pub sizes: &'a Sizes,
    pub addresses: &'a [u32],
}

/// The number of w bits that equals an index modulo 2^w.
#[tactic(auto, using(no_eval::proofs::Widths::congruent))]
fn wrapped(w: u8, index: &i64) -> u64
    requires some { 0 < w }
    requires most { w ≤ 64 }
    ensures { result ≡ modulo w index.now }
{
    narrowed(w, index.cast_unsigned())
}

/// How far the constant indices after the first lead, modulo 2^64.
fn inner_offset(from: From, pointer: u8, base: &Ty, indices: &[i64]) -> u64
    requires formed { IsTrue (is_formed from.layout.now) }
    requires table { table_holds from.layout.now from.sizes.now 0 from.program.now.types ≡ true }
    requires pointer { pointer ≡ from.layout.now.pointer }
    requires some { 0 < pointer }
    requires most { pointer ≤ 64 }
    requires fits { type_fits from.layout.now from.sizes.now base.now ≡ true }
    requires leads { inner_leads from.program.now.types base.now (map (modulo pointer) indices.now) ≡ true }
    ensures { result ≡ inner_offset from.entry.layout.now from.entry.sizes.now from.entry.program.now.types base.now (map (modulo pointer) indices.now) % 2 ^ 64 }
{
    let mut at = base;
    let mut total: u64 = 0;
    for index in indices {
        let t = resolved(from.program, at);
        let i = wrapped(pointer, index);
        match part(t, i) {
            None => return total,
            Some(next) => {
                total = total.wrapping_add(index_offset(from.layout, from.sizes, t, i));
                at = next;
            }
        }
    }
    total
}

/// How far the constant indices of a place lead, modulo 2^64.
#[tactic(auto, using(no_semantics::proofs::Parts::known_sum))]
fn path_offset(from: From, pointer: u8, base: &Ty, indices: &[i64]) -> u64
    requires formed { IsTrue (is_formed from.layout.now) }
    requires table { table_holds from.layout.now from.sizes.now 0 from.program.now.types ≡ true }
    requires pointer { pointer ≡ from.layout.now.pointer }
    requires some { 0 < pointer }
    requires most { pointer ≤ 64 }
    requires fits { type_fits from.layout.now from.sizes.now base.now ≡ true }
    requires leads { path_leads from.program.now.types base.now (map (modulo pointer) indices.now) ≡ true }
    ensures { result ≡ path_offset from.entry.layout.now from.entry.sizes.now from.entry.program.now.types base.now (map (modulo pointer) indices.now) % 2 ^ 64 }
{
    match indices {
        [] => 0,
        [first, others @ ..] => with_first(
            wrapped(pointer, first),
            from.layout.stride(from.sizes, base),
            inner_offset(from, pointer, base, others),
        ),
    }
}

/// The address of a place that the module has.
#[tactic(auto, using(no_semantics::proofs::Parts::place_sum, no_semantics::proofs::Facts::pointer_some, no_semantics::proofs::Facts::pointer_most))]
fn place_address(from: From, place: &Place) -> u64
    requires formed { IsTrue (is_formed from.layout.now) }
    requires table { table_holds from.layout.now from.sizes.now 0 from.program.now.types ≡ true }
    requires place { place_fits from.program.now from.layout.now from.sizes.now place.now ≡ true }
    ensures { result ≡ place_number from.entry.layout.now from.entry.sizes.now from.entry.program.now.types from.entry.addresses.now place.now }
{
    let pointer = from.layout.pointer;
    let symbol = symbol_address(from.addresses, &place.symbol);
    let offset = path_offset(from, pointer, &place.base, place.indices.as_slice());
    narrowed(pointer, symbol.wrapping_add(offset))
}

/// The low w bits of a number.
fn cut(w: u8, n: u64) -> u64
    ensures { 0 < w → w ≤ 64 → result ≡ n % 2 ^ w }
{
    if w == 0 || w > 64 {
        return 0;
    }
    narrowed(w, n)
}

/// The number of a place, where the module has it.
fn known_place(from: From, w: u8, place: &Place) -> u64
    requires formed { IsTrue (is_formed from.layout.now) }
    requires table { table_holds from.layout.now from.sizes.now 0 from.program.now.types ≡ true }
    ensures { place_fits from.entry.program.now from.entry.layout.now from.entry.sizes.now place.now ≡ true → 0 < w → w ≤ 64 → result ≡ place_number from.entry.layout.now from.entry.sizes.now from.entry.program.now.types from.entry.addresses.now place.now % 2 ^ w }
{
    if !has_place(from.program, from.layout, from.sizes, place) {
        return 0;
    }
    cut(w, place_address(from, place))
}

/// A constant at w bits.
pub(crate) fn known(from: From, w: u8, c: &Const) -> u64
    requires formed { IsTrue (is_formed from.layout.now) }
    requires table { table_holds from.layout.now from.sizes.now 0 from.program.now.types ≡ true }
    ensures { IsKnown (source from.entry.program.now from.entry.layout.now from.entry.sizes.now from.entry.addresses.now) w c.now result }
{
    match c {
        Const::Int(n) => cut(w, *n),
        Const::Address(place) => known_place(from, w, place),
        Const::AddressAsInt(place) => known_place(from, w, place),
        Const::IntAsPtr(n) => cut(w, *n),
        _ => 0,
    }
}
