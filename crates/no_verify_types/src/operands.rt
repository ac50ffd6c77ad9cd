ghost use Rattle.std.specs.Prelude.{◌≡◌};
ghost use Rattle.std.specs.List.{list_all};
ghost use Rattle.no_module.specs.Scalars.{scalar_of};
ghost use Rattle.no_verify_types.specs.Typing.{argument_fits, count_fits, integer_fits, is_number, number_of, operand_fits};

use crate::constants::value_fits;
use crate::registers::type_at;
use no_ir::{Const, Module, Operand, Role, Ty};
use no_module::{Scalar, agree};

/// Whether an operand is of a type, by the types of its function's registers; nothing is of no type.
pub(crate) fn operand_fits(
    program: &Module,
    role: Role,
    types: &[Option<Scalar>],
    scalar: Option<Scalar>,
    operand: &Operand,
) -> bool
    ensures { result ≡ operand_fits program.now role types.now scalar operand.now }
{
    match operand {
        Operand::Reg(register) => agree(scalar, type_at(types, *register)),
        Operand::Const(constant) => value_fits(program, role, scalar, constant),
    }
}

/// Whether an operand is of the type beside it.
pub(crate) fn argument_fits(
    program: &Module,
    role: Role,
    types: &[Option<Scalar>],
    argument: &(Ty, Operand),
) -> bool
    ensures { result ≡ argument_fits program.now role types.now argument.now }
{
    operand_fits(program, role, types, Scalar::of(&argument.0), &argument.1)
}

/// Whether an operand is an integer of the width beside it.
pub(crate) fn integer_fits(
    program: &Module,
    role: Role,
    types: &[Option<Scalar>],
    integer: &(u8, Operand),
) -> bool
    ensures { result ≡ integer_fits program.now role types.now integer.now }
{
    operand_fits(program, role, types, Scalar::integer(integer.0), &integer.1)
}

pub(crate) fn arguments_fit(
    program: &Module,
    role: Role,
    types: &[Option<Scalar>],
    arguments: &[(Ty, Operand)],
) -> bool
    ensures { result ≡ list_all (argument_fits program.now role types.now) arguments.now }
{
    for argument in arguments {
        if !argument_fits(program, role, types, argument) {
            return false;
        }
    }
    true
}

pub(crate) fn integers_fit(
    program: &Module,
    role: Role,
    types: &[Option<Scalar>],
    integers: &[(u8, Operand)],
) -> bool
    ensures { result ≡ list_all (integer_fits program.now role types.now) integers.now }
{
    for integer in integers {
        if !integer_fits(program, role, types, integer) {
            return false;
        }
    }
    true
}

/// Whether the operands of a phi are of its type.
pub(crate) fn pairs_fit(
    program: &Module,
    role: Role,
    types: &[Option<Scalar>],
    scalar: Option<Scalar>,
    pairs: &[(Operand, u32)],
) -> bool
    ensures { result ≡ list_all (λ pair. operand_fits program.now role types.now scalar pair.0) pairs.now }
{
    for pair in pairs {
        if !operand_fits(program, role, types, scalar, &pair.0) {
            return false;
        }
    }
    true
}

/// Whether a count, where one is stated, is an integer of its width.
pub(crate) fn count_fits(
    program: &Module,
    role: Role,
    types: &[Option<Scalar>],
    count: &Option<(u8, Operand)>,
) -> bool
    ensures { result ≡ count_fits program.now role types.now count.now }
{
    match count {
        Some(count) => integer_fits(program, role, types, count),
        None => true,
    }
}

/// The number that is written as an operand.
pub(crate) fn number_of(operand: &Operand) -> Option<u64>
    ensures { result ≡ number_of operand.now }
{
    match operand {
        Operand::Const(Const::Int(number)) => Some(*number),
        _ => None,
    }
}

pub(crate) fn is_number(operand: &Operand) -> bool
    ensures { result ≡ is_number operand.now }
{
    number_of(operand).is_some()
}
