ghost use Rattle.std.specs.Prelude.{◌≡◌, IfOk};
ghost use Rattle.std.specs.List.{list_all};
ghost use Rattle.no_module.specs.Scalars.{is_scalar};
ghost use Rattle.no_verify_types.specs.Typing.{both_fit, cast_typed, converts, gep_typed, goes_between, head_typed, load_typed, narrows, op_typed, phi_typed, returns, select_typed, store_typed};

use crate::calls::call_typed;
use crate::operands::{argument_fits, count_fits, integers_fit, operand_fits, pairs_fit};
use crate::paths::path_leads;
use crate::switches::switch_typed;
use no_ir::{CastOp, Function, Module, NoMemory, Op, Operand, Role, Ty};
use no_module::{Scalar, agree, is_declared, is_result, is_scalar, is_void};
use std::alloc::Global;

/// Whether both are integer types, and the second is the narrower.
fn narrows(from: Scalar, into: Scalar) -> bool
    ensures { result ≡ narrows from into }
{
    match from {
        Scalar::Int(from) => match into {
            Scalar::Int(into) => into < from,
            Scalar::Ptr => false,
        },
        Scalar::Ptr => false,
    }
}

/// Whether a conversion goes between two types.
fn goes_between(op: CastOp, from: Scalar, into: Scalar) -> bool
    ensures { result ≡ goes_between op from into }
{
    match op {
        CastOp::Trunc => narrows(from, into),
        CastOp::ZExt => narrows(into, from),
        CastOp::SExt => narrows(into, from),
        CastOp::PtrToInt => from.is_pointer() && !into.is_pointer(),
        CastOp::IntToPtr => !from.is_pointer() && into.is_pointer(),
        CastOp::BitCast => from.is_pointer() && into.is_pointer(),
    }
}

fn converts(op: CastOp, from: Option<Scalar>, into: Option<Scalar>) -> bool
    ensures { result ≡ converts op from into }
{
    match from {
        Some(from) => match into {
            Some(into) => goes_between(op, from, into),
            None => false,
        },
        None => false,
    }
}

fn both_fit(
    program: &Module,
    role: Role,
    types: &[Option<Scalar>],
    scalar: Option<Scalar>,
    left: &Operand,
    right: &Operand,
) -> bool
    ensures { result ≡ both_fit program.now role types.now scalar left.now right.now }
{
    operand_fits(program, role, types, scalar, left)
        && operand_fits(program, role, types, scalar, right)
}

fn cast_typed(
    program: &Module,
    role: Role,
    types: &[Option<Scalar>],
    op: CastOp,
    from: &Ty,
    value: &Operand,
    into: &Ty,
) -> bool
    ensures { result ≡ cast_typed program.now role types.now op from.now value.now into.now }
{
    converts(op, Scalar::of(from), Scalar::of(into))
        && operand_fits(program, role, types, Scalar::of(from), value)
}

fn select_typed(
    program: &Module,
    role: Role,
    types: &[Option<Scalar>],
    condition: &Operand,
    t: &Ty,
    chosen: &Operand,
    other: &Operand,
) -> bool
    ensures { result ≡ select_typed program.now role types.now condition.now t.now chosen.now other.now }
{
    operand_fits(program, role, types, Scalar::integer(1), condition)
        && both_fit(program, role, types, Scalar::of(t), chosen, other)
}

fn phi_typed(
    program: &Module,
    role: Role,
    types: &[Option<Scalar>],
    t: &Ty,
    pairs: &[(Operand, u32)],
) -> bool
    ensures { result ≡ phi_typed program.now role types.now t.now pairs.now }
{
    is_scalar(t) && pairs_fit(program, role, types, Scalar::of(t), pairs)
}

fn load_typed(
    program: &Module,
    role: Role,
    types: &[Option<Scalar>],
    t: &Ty,
    address: &Operand,
) -> bool
    ensures { result ≡ load_typed program.now role types.now t.now address.now }
{
    is_scalar(t) && operand_fits(program, role, types, Some(Scalar::Ptr), address)
}

fn store_typed(
    program: &Module,
    role: Role,
    types: &[Option<Scalar>],
    t: &Ty,
    value: &Operand,
    address: &Operand,
) -> bool
    ensures { result ≡ store_typed program.now role types.now t.now value.now address.now }
{
    operand_fits(program, role, types, Scalar::of(t), value)
        && operand_fits(program, role, types, Some(Scalar::Ptr), address)
}

fn gep_typed(
    program: &Module,
    role: Role,
    types: &[Option<Scalar>],
    t: &Ty,
    address: &Operand,
    indices: &[(u8, Operand)],
) -> bool
    ensures { result ≡ gep_typed program.now role types.now t.now address.now indices.now }
{
    operand_fits(program, role, types, Some(Scalar::Ptr), address)
        && (integers_fit(program, role, types, indices) && path_leads(program, t, indices))
}

/// Whether what is returned is what the function gives.
fn returns(
    program: &Module,
    role: Role,
    types: &[Option<Scalar>],
    given: &Ty,
    value: &Option<(Ty, Operand)>,
) -> bool
    ensures { result ≡ returns program.now role types.now given.now value.now }
{
    match value {
        None => is_void(given),
        Some(value) => agree(Scalar::of(&value.0), Scalar::of(given))
            && argument_fits(program, role, types, value),
    }
}

/// Whether an instruction has the types that it must have, in a function that gives `given`, by the types of its registers.
#[tactic(auto, unfolding(crate::specs::Typing::op_typed))]
pub(crate) fn op_typed(
    alloc: Global,
    program: &Module,
    role: Role,
    given: &Ty,
    types: &[Option<Scalar>],
    op: &Op,
) -> Result<bool, NoMemory>
    ensures { IfOk result (λ typed. typed ≡ op_typed program.now role given.now types.now op.now) }
{
    match op {
        Op::Binary(_, w, a, b) => { Ok(both_fit(program, role, types, Scalar::integer(*w), a, b)) }
        Op::Compare(_, t, a, b) => Ok(both_fit(program, role, types, Scalar::of(t), a, b)),
        Op::Cast(o, t, a, u) => Ok(cast_typed(program, role, types, *o, t, a, u)),
        Op::Freeze(t, a) => Ok(operand_fits(program, role, types, Scalar::of(t), a)),
        Op::Select(c, t, a, b) => Ok(select_typed(program, role, types, c, t, a, b)),
        Op::Phi(t, pairs) => Ok(phi_typed(program, role, types, t, pairs.as_slice())),
        Op::Alloca(_, count, _) => Ok(count_fits(program, role, types, count)),
        Op::Load(_, t, a) => Ok(load_typed(program, role, types, t, a)),
        Op::Store(_, t, v, a) => Ok(store_typed(program, role, types, t, v, a)),
        Op::Gep(t, a, indices) => { Ok(gep_typed(program, role, types, t, a, indices.as_slice())) }
        Op::Call(t, f, args) => Ok(call_typed(program, role, types, t, f, args.as_slice())),
        Op::CondBr(c, _, _) => { Ok(operand_fits(program, role, types, Scalar::integer(1), c)) }
        Op::Switch(w, a, _, cases) => {
            switch_typed(alloc, program, role, types, *w, a, cases.as_slice())
        }
        Op::Ret(value) => Ok(returns(program, role, types, given, value)),
        Op::Br(_) | Op::Unreachable => Ok(true),
    }
}

fn are_scalars(params: &[(u32, Ty)]) -> bool
    ensures { result ≡ list_all (λ p. is_scalar p.1) params.now }
{
    for param in params {
        if !is_scalar(&param.1) {
            return false;
        }
    }
    true
}

/// Whether a function that is defined takes values, and gives a value or nothing.
pub(crate) fn head_typed(function: &Function) -> bool
    ensures { result ≡ head_typed function.now }
{
    is_declared(function)
        || (is_result(&function.result) && are_scalars(function.params.as_slice()))
}
