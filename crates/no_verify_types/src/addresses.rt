ghost use Rattle.std.specs.Prelude.{◌≡◌, map};
ghost use Rattle.std.specs.Option.{option_copied};
ghost use Rattle.no_verify_types.specs.Addresses.{constant_field, field_below, has_address, indices_lead, inner_lead, is_helper, is_intrinsic, may_be_taken, part_of, place_fits};

use no_ir::{Function, Module, Place, Role, Symbol, Ty};
use no_module::{begins_with, is_declared, resolved};

/// Whether a name is that of one of the two functions that a server's part has for the device.
fn is_helper(role: Role, name: &[u8]) -> bool
    ensures { result ≡ is_helper role name.now }
{
    match role {
        Role::Source => false,
        Role::Part => name == b"no.alloca".as_slice() || name == b"no.map".as_slice(),
    }
}

/// Whether a function is an intrinsic, whose address cannot be taken.
pub fn is_intrinsic(role: Role, function: &Function) -> bool
    ensures { result ≡ is_intrinsic role function.now }
{
    is_declared(function)
        && (begins_with(b"llvm.", function.name.as_slice())
            || is_helper(role, function.name.as_slice()))
}

/// Whether a symbol may have its address taken.
pub fn has_address(program: &Module, role: Role, symbol: &Symbol) -> bool
    ensures { result ≡ has_address program.now role symbol.now }
{
    match symbol {
        Symbol::Function(k) => match program.functions.get(*k as usize) {
            Some(function) => !is_intrinsic(role, function),
            None => true,
        },
        _ => true,
    }
}

/// The number of a field, as a signed index of 32 bits can state it.
pub(crate) fn field_below(number: u64) -> Option<u32>
    ensures { result ≡ field_below number }
{
    if number < 0x8000_0000 {
        Some(number as u32)
    } else {
        None
    }
}

fn constant_field(index: i64) -> Option<u32>
    ensures { result ≡ constant_field index }
{
    if index < 0 {
        None
    } else {
        field_below(index.unsigned_abs())
    }
}

/// The type of what an index leads to.
pub(crate) fn part(t: &Ty, field: Option<u32>) -> Option<&Ty>
    ensures { option_copied result ≡ part_of t.now field }
{
    match t {
        Ty::Array(_, element) => Some(element.get()),
        Ty::Struct(_, fields) => match field {
            Some(number) => fields.get(number as usize),
            None => None,
        },
        _ => None,
    }
}

/// Whether the constant indices of a place lead somewhere.
fn indices_lead(program: &Module, base: &Ty, indices: &[i64]) -> bool
    ensures { result ≡ indices_lead program.now.types base.now (map constant_field indices.now) }
{
    match indices {
        [] => true,
        [_, others @ ..] => inner_lead(program, base, others),
    }
}

fn inner_lead(program: &Module, base: &Ty, indices: &[i64]) -> bool
    ensures { result ≡ inner_lead program.now.types base.now (map constant_field indices.now) }
{
    let mut at = base;
    for index in indices {
        match part(resolved(program, at), constant_field(*index)) {
            None => return false,
            Some(next) => at = next,
        }
    }
    true
}

/// Whether a constant may state an address.
pub(crate) fn place_fits(program: &Module, role: Role, place: &Place) -> bool
    ensures { result ≡ place_fits program.now role place.now }
{
    has_address(program, role, &place.symbol)
        && indices_lead(program, &place.base, place.indices.as_slice())
}
