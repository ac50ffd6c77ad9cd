ghost use Rattle.std.specs.Prelude.{◌≡◌, map};
ghost use Rattle.std.specs.Ordering.{int_eq};
ghost use Rattle.no_ir.specs.declared.constant.Const.{out-Const};
ghost use Rattle.no_module.specs.SameOperands.{each_in, same_constant, same_indices, same_operand, same_place, same_symbol};

use crate::same_types::same_type;
use no_ir::{Const, Operand, Place, Symbol};

fn same_symbol(a: &Symbol, b: &Symbol) -> bool
    ensures { result ≡ same_symbol a.now b.now }
{
    match a {
        Symbol::Global(k) => matches!(b, Symbol::Global(other) if k == other),
        Symbol::Function(k) => matches!(b, Symbol::Function(other) if k == other),
        Symbol::Unknown(name) => match b {
            Symbol::Unknown(other) => name.as_slice() == other.as_slice(),
            _ => false,
        },
    }
}

fn same_index(a: &i64, b: &i64) -> bool
    ensures { result ≡ int_eq a.now b.now }
{
    *a == *b
}

#[tactic(auto, using(crate::proofs::Indices::indices_no_more))]
fn same_indices(a: &[i64], b: &[i64]) -> bool
    ensures { result ≡ same_indices a.now b.now }
{
    let mut rest = b;
    for index in a {
        match rest {
            [first, more @ ..] if same_index(index, first) => rest = more,
            _ => return false,
        }
    }
    rest.is_empty()
}

fn same_place(a: &Place, b: &Place) -> bool
    ensures { result ≡ same_place a.now b.now }
{
    same_symbol(&a.symbol, &b.symbol)
        && (same_type(&a.base, &b.base) && same_indices(a.indices.as_slice(), b.indices.as_slice()))
}

/// Whether two constants are the same.
#[cycle(same)]
pub fn same_constant(a: &Const, b: &Const) -> bool
    ensures { result ≡ same_constant a.now b.now }
{
    match a {
        Const::Zero => matches!(b, Const::Zero),
        Const::Int(number) => matches!(b, Const::Int(other) if number == other),
        Const::Str(text) => match b {
            Const::Str(other) => text.as_slice() == other.as_slice(),
            _ => false,
        },
        Const::Array(elements) => match b {
            Const::Array(others) => each_same(elements.as_slice(), others.as_slice()),
            _ => false,
        },
        Const::Struct(fields) => match b {
            Const::Struct(others) => each_same(fields.as_slice(), others.as_slice()),
            _ => false,
        },
        Const::Address(place) => match b {
            Const::Address(other) => same_place(place, other),
            _ => false,
        },
        Const::AddressAsInt(place) => match b {
            Const::AddressAsInt(other) => same_place(place, other),
            _ => false,
        },
        Const::IntAsPtr(number) => matches!(b, Const::IntAsPtr(other) if number == other),
    }
}

#[cycle(same)]
fn each_same(a: &[Const], b: &[Const]) -> bool
    ensures { result ≡ each_in (map same_constant a.now) b.now }
{
    let mut rest = b;
    for member in a {
        match rest {
            [first, more @ ..] if same_constant(member, first) => rest = more,
            _ => return false,
        }
    }
    rest.is_empty()
}

/// Whether two operands are the same register, or the same constant.
pub fn same_operand(a: &Operand, b: &Operand) -> bool
    ensures { result ≡ same_operand a.now b.now }
{
    match a {
        Operand::Reg(r) => matches!(b, Operand::Reg(other) if r == other),
        Operand::Const(constant) => match b {
            Operand::Const(other) => same_constant(constant, other),
            _ => false,
        },
    }
}
