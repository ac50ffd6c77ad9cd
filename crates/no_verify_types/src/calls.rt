ghost use Rattle.std.specs.Prelude.{◌≡◌, Some, length, map, slice_get};
ghost use Rattle.no_module.specs.Scalars.{each_meets};
ghost use Rattle.no_verify_types.specs.Typing.{args_match, bare_function, call_typed, callee_fits, aligns, calls, direct, is_aligned, is_passed, is_stated, numbers_stated};

use crate::operands::{arguments_fit, is_number, number_of, operand_fits};
use no_ir::{Const, Function, Module, Operand, Place, Role, Symbol, Ty};
use no_module::{External, Scalar, agree, declared_external, is_alignment, is_result, same_result};

/// The function that a place names without indices.
fn bare_function(place: &Place) -> Option<u32>
    ensures { result ≡ bare_function place.now.symbol (length place.now.indices) }
{
    match &place.symbol {
        Symbol::Function(k) => {
            if place.indices.is_empty() {
                Some(*k)
            } else {
                None
            }
        }
        _ => None,
    }
}

/// The function that a callee calls directly: one that is named, and not an address that is computed.
pub fn direct(callee: &Operand) -> Option<u32>
    ensures { result ≡ direct callee.now }
{
    match callee {
        Operand::Const(Const::Address(place)) => bare_function(place),
        _ => None,
    }
}

/// Whether an argument has the type of a parameter.
#[tactic(auto, unfolding(crate::specs::Typing::is_passed))]
fn is_passed(arg: &(Ty, Operand), param: &(u32, Ty)) -> bool
    ensures { result ≡ is_passed arg.now param.now }
{
    agree(Scalar::of(&arg.0), Scalar::of(&param.1))
}

/// Whether arguments have the types of parameters.
#[tactic(auto, using(no_module::proofs::Meets::meets_no_more))]
fn args_match(args: &[(Ty, Operand)], params: &[(u32, Ty)]) -> bool
    ensures { result ≡ each_meets (map is_passed args.now) params.now }
{
    let mut rest = params;
    for arg in args {
        match rest {
            [param, more @ ..] if is_passed(arg, param) => rest = more,
            _ => return false,
        }
    }
    rest.is_empty()
}

fn is_stated_at(args: &[(Ty, Operand)], index: usize) -> bool
    ensures { result ≡ is_stated (slice_get args.now index) }
{
    match args.get(index) {
        Some(arg) => is_number(&arg.1),
        None => false,
    }
}

/// Whether there is a number, and it is an alignment.
fn aligns(number: Option<u64>) -> bool
    ensures { result ≡ aligns number }
{
    match number {
        Some(number) => is_alignment(number),
        None => false,
    }
}

fn is_aligned_at(args: &[(Ty, Operand)], index: usize) -> bool
    ensures { result ≡ is_aligned (slice_get args.now index) }
{
    match args.get(index) {
        Some(arg) => aligns(number_of(&arg.1)),
        None => false,
    }
}

/// Whether the arguments that an external takes as written numbers are such.
fn numbers_stated(external: Option<External>, args: &[(Ty, Operand)]) -> bool
    ensures { result ≡ numbers_stated external args.now }
{
    match external {
        Some(External::Move) => is_stated_at(args, args.len().saturating_sub(1)),
        Some(External::Set) => is_stated_at(args, args.len().saturating_sub(1)),
        Some(External::Alloca) => is_stated_at(args, 1) && is_aligned_at(args, 2),
        _ => true,
    }
}

/// Whether a call has the types of the function that it names.
fn calls(role: Role, t: &Ty, args: &[(Ty, Operand)], function: &Function) -> bool
    ensures { result ≡ calls role t.now args.now (Some function.now) }
{
    same_result(t, &function.result)
        && (args_match(args, function.params.as_slice())
            && numbers_stated(declared_external(role, function), args))
}

/// Whether the callee of a call is a function of its types, or a pointer.
fn callee_fits(
    program: &Module,
    role: Role,
    types: &[Option<Scalar>],
    t: &Ty,
    callee: &Operand,
    args: &[(Ty, Operand)],
) -> bool
    ensures { result ≡ callee_fits program.now role types.now t.now callee.now args.now (direct callee.now) }
{
    match direct(callee) {
        None => operand_fits(program, role, types, Some(Scalar::Ptr), callee),
        Some(k) => match program.functions.get(k as usize) {
            Some(function) => calls(role, t, args, function),
            None => false,
        },
    }
}

pub(crate) fn call_typed(
    program: &Module,
    role: Role,
    types: &[Option<Scalar>],
    t: &Ty,
    callee: &Operand,
    args: &[(Ty, Operand)],
) -> bool
    ensures { result ≡ call_typed program.now role types.now t.now callee.now args.now }
{
    is_result(t)
        && (arguments_fit(program, role, types, args)
            && callee_fits(program, role, types, t, callee, args))
}
