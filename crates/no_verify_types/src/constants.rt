ghost use Rattle.std.specs.Prelude.{◌≡◌, ◌^◌, map, nat_lt};
ghost use Rattle.std.specs.List.{list_all};
ghost use Rattle.no_ir.specs.declared.types.Ty.{out-Ty};
ghost use Rattle.no_module.specs.Scalars.{each_meets};
ghost use Rattle.no_verify_types.specs.Constants.{byte_step, constant_fits, elements_fit, fields_fit, global_typed, integer_type, number_fits, text_fits, value_fits};

use crate::addresses::place_fits;
use no_ir::{Const, GlobalVar, Module, Role, Ty};
use no_module::{Scalar, is_of, is_void, resolved};

/// Whether a number has at most so many bits.
#[tactic(auto, using(crate::proofs::Numbers::shifted_away, crate::proofs::Numbers::wide_enough))]
pub(crate) fn has_bits(number: u64, width: u8) -> bool
    ensures { result ≡ nat_lt number (2 ^ width) }
{
    if width >= 64 {
        true
    } else {
        number >> width == 0
    }
}

/// Whether a type is an integer type that has a number.
fn number_fits(number: u64, scalar: Option<Scalar>) -> bool
    ensures { result ≡ number_fits number scalar }
{
    match scalar {
        Some(Scalar::Int(width)) => has_bits(number, width),
        _ => false,
    }
}

fn integer_type(scalar: Option<Scalar>) -> bool
    ensures { result ≡ integer_type scalar }
{
    match scalar {
        Some(scalar) => !scalar.is_pointer(),
        None => false,
    }
}

/// Whether a constant is of an integer type or of ptr.
pub(crate) fn value_fits(
    program: &Module,
    role: Role,
    scalar: Option<Scalar>,
    constant: &Const,
) -> bool
    ensures { result ≡ value_fits program.now role scalar constant.now }
{
    match constant {
        Const::Zero => scalar.is_some(),
        Const::Int(number) => number_fits(*number, scalar),
        Const::Address(place) => is_of(Scalar::Ptr, scalar) && place_fits(program, role, place),
        Const::AddressAsInt(place) => integer_type(scalar) && place_fits(program, role, place),
        Const::IntAsPtr(_) => is_of(Scalar::Ptr, scalar),
        Const::Str(_) | Const::Array(_) | Const::Struct(_) => false,
    }
}

fn is_byte(t: &Ty) -> bool
    ensures { result ≡ byte_step (out-Ty t.now) }
{
    matches!(t, Ty::Int(width) if *width == 8)
}

/// Whether a type is an array of so many bytes.
fn text_fits(count: usize, t: &Ty) -> bool
    ensures { result ≡ text_fits count (out-Ty t.now) }
{
    match t {
        Ty::Array(wanted, element) => count as u64 == *wanted && is_byte(element.get()),
        _ => false,
    }
}

/// Whether a constant is of a type.
#[cycle(constants)]
pub(crate) fn constant_fits(program: &Module, role: Role, constant: &Const, t: &Ty) -> bool
    ensures { result ≡ constant_fits program.now role constant.now t.now }
{
    match constant {
        Const::Zero => !is_void(t),
        Const::Str(bytes) => text_fits(bytes.len(), t),
        Const::Array(elements) => elements_fit(program, role, elements.as_slice(), t),
        Const::Struct(fields) => fields_fit(program, role, fields.as_slice(), resolved(program, t)),
        Const::Int(_) | Const::Address(_) | Const::AddressAsInt(_) | Const::IntAsPtr(_) => {
            value_fits(program, role, Scalar::of(t), constant)
        }
    }
}

/// Whether a type is an array of these elements.
#[cycle(constants)]
fn elements_fit(program: &Module, role: Role, elements: &[Const], t: &Ty) -> bool
    ensures { result ≡ elements_fit (map (constant_fits program.now role) elements.now) (out-Ty t.now) }
{
    match t {
        Ty::Array(count, element) => elements.len() as u64 == *count
            && all_fit(program, role, elements, element.get()),
        _ => false,
    }
}

#[cycle(constants)]
fn all_fit(program: &Module, role: Role, elements: &[Const], t: &Ty) -> bool
    ensures { result ≡ list_all (λ fits. fits t.now) (map (constant_fits program.now role) elements.now) }
{
    for element in elements {
        if !constant_fits(program, role, element, t) {
            return false;
        }
    }
    true
}

/// Whether a type is a struct of these fields.
#[cycle(constants)]
fn fields_fit(program: &Module, role: Role, fields: &[Const], t: &Ty) -> bool
    ensures { result ≡ fields_fit (map (constant_fits program.now role) fields.now) (out-Ty t.now) }
{
    match t {
        Ty::Struct(_, types) => each_fits(program, role, fields, types.as_slice()),
        _ => false,
    }
}

#[cycle(constants)]
#[tactic(auto, using(no_module::proofs::Meets::meets_no_more))]
fn each_fits(program: &Module, role: Role, fields: &[Const], types: &[Ty]) -> bool
    ensures { result ≡ each_meets (map (constant_fits program.now role) fields.now) types.now }
{
    let mut rest = types;
    for field in fields {
        match rest {
            [first, more @ ..] if constant_fits(program, role, field, first) => rest = more,
            _ => return false,
        }
    }
    rest.is_empty()
}

/// Whether a global's first value is of its type.
pub fn global_typed(program: &Module, role: Role, global: &GlobalVar) -> bool
    ensures { result ≡ global_typed program.now role global.now }
{
    constant_fits(program, role, &global.init, &global.ty)
}
