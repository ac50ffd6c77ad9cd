ghost use Rattle.std.specs.Prelude.{◌≡◌};
ghost use Rattle.no_read_rules.specs.Rules.{Gives, valued, plain};
ghost use Rattle.no_read_rules.specs.Scope.{Meaning, seen};
ghost use Rattle.std.specs.Prelude.{true, false};
ghost use Rattle.no_read_registers.specs.declared.locals.Locals.{Locals};
ghost use Rattle.no_read_operations.specs.Operands.{to_type, comma_same};
ghost use Rattle.no_read_operations.specs.Simple.{binary_flags, binary_parts, binary, cast_flags, cast_parts, cast_form, pred_of, compare_parts, compare, freeze, select};

use crate::operands::{
    Flags, an_operand, bit_operand, skip_flag_words, some_type, this_type, two_operands,
    typed_operand,
};
use no_ir::{BinOp, CastOp, Op, Operand, Pred, Ty};
use no_lex::{Token, TokenKind};
use no_read_constants::width_of;
use no_read_registers::Locals;
use no_read_rules::{Scope, Stop, is_kind, skip_sign, skip_word, spelled, syntax};
use no_words::pred_named;
use std::alloc::Global;

fn binary_flags(op: BinOp) -> Flags
    ensures { result ≡ binary_flags op }
{
    match op {
        BinOp::Add | BinOp::Sub | BinOp::Mul | BinOp::Shl => Flags::Wrapping,
        BinOp::UDiv | BinOp::SDiv | BinOp::LShr | BinOp::AShr => Flags::Exact,
        BinOp::Or => Flags::Disjoint,
        BinOp::URem | BinOp::SRem | BinOp::And | BinOp::Xor => Flags::Nothing,
    }
}

#[tactic(auto, using(crate::proofs::Grouped::binary_is))]
fn binary_parts<'b>(
    alloc: Global,
    scope: &Scope,
    locals: &mut Locals,
    op: BinOp,
    tokens: &'b [Token],
) -> Result<(Op, &'b [Token]), Stop>
    ensures { Gives (λ x. (x.0, locals.new, x.1.now)) result ((binary_parts (seen scope.now) op).read locals.old tokens.now) }
{
    let (width, rest) = width_of(scope.text, tokens)?;
    let ((first, second), rest) = two_operands(alloc, scope, locals, &Ty::Int(width), rest)?;
    Ok((Op::Binary(op, width, first, second), rest))
}

/// A binary operation behind its operator: `iN a, b`.
pub fn binary<'b>(
    alloc: Global,
    scope: &Scope,
    locals: &mut Locals,
    op: BinOp,
    tokens: &'b [Token],
) -> Result<(Op, &'b [Token]), Stop>
    ensures { Gives (λ x. (x.0, locals.new, x.1.now)) result ((binary (seen scope.now) op).read locals.old tokens.now) }
{
    let rest = skip_flag_words(scope.text, binary_flags(op), tokens);
    binary_parts(alloc, scope, locals, op, rest)
}

fn cast_flags(op: CastOp) -> Flags
    ensures { result ≡ cast_flags op }
{
    match op {
        CastOp::Trunc => Flags::Wrapping,
        CastOp::ZExt => Flags::NonNegative,
        CastOp::SExt | CastOp::PtrToInt | CastOp::IntToPtr | CastOp::BitCast => Flags::Nothing,
    }
}

/// Behind the word `to`: a type.
#[tactic(auto, unfolding(crate::specs::Operands::to_type))]
fn to_type<'b>(alloc: Global, scope: &Scope, tokens: &'b [Token]) -> Result<(Ty, &'b [Token]), Stop>
    ensures { (s : Locals) → Gives (λ x. (x.0, s, x.1.now)) result ((to_type (seen scope.now)).read s tokens.now) }
{
    let rest = skip_word(scope.text, b"to", tokens)?;
    some_type(alloc, scope, rest)
}

#[tactic(auto, using(crate::proofs::Grouped::cast_is))]
fn cast_parts<'b>(
    alloc: Global,
    scope: &Scope,
    locals: &mut Locals,
    op: CastOp,
    tokens: &'b [Token],
) -> Result<(Op, &'b [Token]), Stop>
    ensures { Gives (λ x. (x.0, locals.new, x.1.now)) result ((cast_parts (seen scope.now) op).read locals.old tokens.now) }
{
    let ((from, value), rest) = typed_operand(alloc, scope, locals, tokens)?;
    let (target, rest) = to_type(alloc, scope, rest)?;
    Ok((Op::Cast(op, from, value, target), rest))
}

/// A conversion behind its operator: `T a to U`.
pub fn cast_form<'b>(
    alloc: Global,
    scope: &Scope,
    locals: &mut Locals,
    op: CastOp,
    tokens: &'b [Token],
) -> Result<(Op, &'b [Token]), Stop>
    ensures { Gives (λ x. (x.0, locals.new, x.1.now)) result ((cast_form (seen scope.now) op).read locals.old tokens.now) }
{
    let rest = skip_flag_words(scope.text, cast_flags(op), tokens);
    cast_parts(alloc, scope, locals, op, rest)
}

fn pred_of<'b>(text: &[u8], tokens: &'b [Token]) -> Result<(Pred, &'b [Token]), Stop>
    ensures { Gives (λ x. valued x.0 x.1.now) result ((plain (pred_of text.now)).read tt tokens.now) }
{
    match tokens {
        [token, rest @ ..] if is_kind(TokenKind::Word, token) => match pred_named(spelled(
            text, token,
        )) {
            Some(pred) => Ok((pred, rest)),
            None => Err(syntax(tokens)),
        },
        _ => Err(syntax(tokens)),
    }
}

#[tactic(auto, using(crate::proofs::Grouped::compare_is))]
fn compare_parts<'b>(
    alloc: Global,
    scope: &Scope,
    locals: &mut Locals,
    tokens: &'b [Token],
) -> Result<(Op, &'b [Token]), Stop>
    ensures { Gives (λ x. (x.0, locals.new, x.1.now)) result ((compare_parts (seen scope.now)).read locals.old tokens.now) }
{
    let (pred, rest) = pred_of(scope.text, tokens)?;
    let (of, rest) = some_type(alloc, scope, rest)?;
    let ((first, second), rest) = two_operands(alloc, scope, locals, &of, rest)?;
    Ok((Op::Compare(pred, of, first, second), rest))
}

/// A comparison behind `icmp`: `P T a, b`.
pub fn compare<'b>(
    alloc: Global,
    scope: &Scope,
    locals: &mut Locals,
    tokens: &'b [Token],
) -> Result<(Op, &'b [Token]), Stop>
    ensures { Gives (λ x. (x.0, locals.new, x.1.now)) result ((compare (seen scope.now)).read locals.old tokens.now) }
{
    let rest = skip_flag_words(scope.text, Flags::SameSign, tokens);
    compare_parts(alloc, scope, locals, rest)
}

/// Behind `freeze`: `T a`.
#[tactic(auto, using(crate::proofs::Grouped::freeze_is))]
pub fn freeze<'b>(
    alloc: Global,
    scope: &Scope,
    locals: &mut Locals,
    tokens: &'b [Token],
) -> Result<(Op, &'b [Token]), Stop>
    ensures { Gives (λ x. (x.0, locals.new, x.1.now)) result ((freeze (seen scope.now)).read locals.old tokens.now) }
{
    let ((of, value), rest) = typed_operand(alloc, scope, locals, tokens)?;
    Ok((Op::Freeze(of, value), rest))
}

/// Behind a comma: the second operand of a choice, with its type, which has to be that of the first.
#[tactic(auto, unfolding(crate::specs::Operands::comma_same))]
fn comma_same<'b>(
    alloc: Global,
    scope: &Scope,
    locals: &mut Locals,
    of: &Ty,
    tokens: &'b [Token],
) -> Result<(Operand, &'b [Token]), Stop>
    ensures { Gives (λ x. (x.0, locals.new, x.1.now)) result ((comma_same (seen scope.now) of.now).read locals.old tokens.now) }
{
    let rest = skip_sign(scope.text, b",", tokens)?;
    let rest = this_type(alloc, scope, of, rest)?;
    an_operand(alloc, scope, locals, of, rest)
}

/// Behind `select`: `i1 c, T a, T b`.
#[tactic(auto, using(crate::proofs::Grouped::select_is))]
pub fn select<'b>(
    alloc: Global,
    scope: &Scope,
    locals: &mut Locals,
    tokens: &'b [Token],
) -> Result<(Op, &'b [Token]), Stop>
    ensures { Gives (λ x. (x.0, locals.new, x.1.now)) result ((select (seen scope.now)).read locals.old tokens.now) }
{
    let (condition, rest) = bit_operand(alloc, scope, locals, tokens)?;
    let rest = skip_sign(scope.text, b",", rest)?;
    let ((of, first), rest) = typed_operand(alloc, scope, locals, rest)?;
    let (second, rest) = comma_same(alloc, scope, locals, &of, rest)?;
    Ok((Op::Select(condition, of, first, second), rest))
}
