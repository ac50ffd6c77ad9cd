ghost use Rattle.std.specs.Prelude.{◌≡◌, ◌∷◌, [], codes, is_some, Some};
ghost use Rattle.no_ir.specs.declared.types.Ty.{Ty};
ghost use Rattle.no_ir.specs.declared.instruction.Operand.{Operand};
ghost use Rattle.no_read_rules.specs.Lists.{more_item, some_items, items};
ghost use Rattle.no_read_rules.specs.Repeated.{repeat_all, with_front};
ghost use Rattle.no_read_rules.specs.Rules.{Gives, passed, plain, after};
ghost use Rattle.no_read_rules.specs.Scope.{Meaning, seen};
ghost use Rattle.no_read_registers.specs.declared.locals.Locals.{Locals};
ghost use Rattle.no_read_operations.specs.Operands.{an_operand};
ghost use Rattle.no_read_instructions.specs.Calls.{result_of, behind_attributes, an_argument, call_parts, void_of, void_call, typed_call, call_type, call_form};

use no_ir::{Instr, List, Op, Operand, Role, Ty};
use no_lex::Token;
use no_read_attributes::skip_attributes;
use no_read_operations::{an_operand, end_mark, some_type};
use no_read_registers::{Locals, no_name};
use no_read_rules::{Scope, Stop, closes_list, is_sign, is_word, skip_sign, syntax};
use std::alloc::Global;

/// The register of a result: the written one, or one that the counter names.
pub(crate) fn result_of(
    alloc: Global,
    locals: &mut Locals,
    written: Option<u32>,
) -> Result<u32, Stop>
    ensures { (tokens : _) → Gives (λ k. (k, locals.new, tokens)) result ((result_of written).read locals.old tokens) }
{
    match written {
        Some(register) => Ok(register),
        None => Ok(no_name(alloc, locals)?),
    }
}

#[tactic(auto, using(crate::proofs::CallLaws::behind_reads, crate::proofs::CallLaws::behind_fails))]
fn attributed_operand<'b>(
    alloc: Global,
    scope: &Scope,
    locals: &mut Locals,
    of: &Ty,
    tokens: &'b [Token],
) -> Result<(Operand, &'b [Token]), Stop>
    ensures { Gives (λ x. (x.0, locals.new, x.1.now)) result ((behind_attributes (seen scope.now).text (an_operand (seen scope.now) of.now)).read locals.old tokens.now) }
{
    let rest = skip_attributes(scope.text, tokens)?;
    an_operand(alloc, scope, locals, of, rest)
}

/// An argument: its type, attributes, and an operand.
#[tactic(auto, unfolding(crate::specs::Calls::an_argument))]
fn an_argument<'b>(
    alloc: Global,
    scope: &Scope,
    locals: &mut Locals,
    tokens: &'b [Token],
) -> Result<((Ty, Operand), &'b [Token]), Stop>
    ensures { Gives (λ x. (x.0, locals.new, x.1.now)) result ((an_argument (seen scope.now)).read locals.old tokens.now) }
{
    let (of, rest) = some_type(alloc, scope, tokens)?;
    let (value, rest) = attributed_operand(alloc, scope, locals, &of, rest)?;
    Ok(((of, value), rest))
}

#[tactic(auto, unfolding(no_read_rules::specs::Lists::more_item))]
fn more_argument<'b>(
    alloc: Global,
    scope: &Scope,
    locals: &mut Locals,
    tokens: &'b [Token],
) -> Result<(Option<(Ty, Operand)>, &'b [Token]), Stop>
    ensures { Gives (λ x. (x.0, locals.new, x.1.now)) result ((more_item (seen scope.now).text (codes ")") (an_argument (seen scope.now))).read locals.old tokens.now) }
{
    let (closes, rest) = closes_list(scope.text, b")", tokens)?;
    if closes {
        return Ok((None, rest));
    }
    let (argument, rest) = an_argument(alloc, scope, locals, rest)?;
    Ok((Some(argument), rest))
}

fn more_arguments<'b>(
    alloc: Global,
    scope: &Scope,
    locals: &mut Locals,
    first: (Ty, Operand),
    tokens: &'b [Token],
) -> Result<(List<(Ty, Operand)>, &'b [Token]), Stop>
    ensures { Gives (λ x. (x.0, locals.new, x.1.now)) result (with_front (first ∷ []) (repeat_all (more_item (seen scope.now).text (codes ")") (an_argument (seen scope.now))) locals.old tokens.now)) }
{
    let mut all = List::new(alloc);
    all.push(first)?;
    let mut rest = tokens;
    loop {
        let (item, after) = more_argument(alloc, scope, locals, rest)?;
        match item {
            None => return Ok((all, after)),
            Some(argument) => {
                all.push(argument)?;
                rest = after;
            }
        }
    }
}

#[tactic(auto, unfolding(no_read_rules::specs::Lists::some_items))]
fn some_arguments<'b>(
    alloc: Global,
    scope: &Scope,
    locals: &mut Locals,
    tokens: &'b [Token],
) -> Result<(List<(Ty, Operand)>, &'b [Token]), Stop>
    ensures { Gives (λ x. (x.0, locals.new, x.1.now)) result ((some_items (seen scope.now).text (codes ")") (an_argument (seen scope.now))).read locals.old tokens.now) }
{
    let (first, rest) = an_argument(alloc, scope, locals, tokens)?;
    more_arguments(alloc, scope, locals, first, rest)
}

/// The arguments, and the closing bracket.
#[tactic(auto, unfolding(no_read_rules::specs::Lists::items, no_read_rules::specs::Lists::no_items))]
fn arguments<'b>(
    alloc: Global,
    scope: &Scope,
    locals: &mut Locals,
    tokens: &'b [Token],
) -> Result<(List<(Ty, Operand)>, &'b [Token]), Stop>
    ensures { Gives (λ x. (x.0, locals.new, x.1.now)) result ((items (seen scope.now).text (codes ")") (an_argument (seen scope.now))).read locals.old tokens.now) }
{
    match tokens {
        [token, rest @ ..] if is_sign(scope.text, b")", token) => Ok((List::new(alloc), rest)),
        _ => some_arguments(alloc, scope, locals, tokens),
    }
}

#[tactic(auto, unfolding(crate::specs::Calls::call_parts))]
fn call_parts<'b>(
    alloc: Global,
    scope: &Scope,
    role: Role,
    locals: &mut Locals,
    of: Ty,
    register: Option<u32>,
    tokens: &'b [Token],
) -> Result<(Instr, &'b [Token]), Stop>
    ensures { Gives (λ x. (x.0, locals.new, x.1.now)) result ((call_parts (seen scope.now) role of register).read locals.old tokens.now) }
{
    let (callee, rest) = an_operand(alloc, scope, locals, &Ty::Ptr, tokens)?;
    let rest = skip_sign(scope.text, b"(", rest)?;
    let (arguments, rest) = arguments(alloc, scope, locals, rest)?;
    let rest = skip_attributes(scope.text, rest)?;
    let (inserted, rest) = end_mark(scope.text, role, false, rest)?;
    let instr = Instr {
        result: register,
        inserted,
        op: Op::Call(of, callee, arguments),
    };
    Ok((instr, rest))
}

fn skip_void<'b>(text: &[u8], written: bool, tokens: &'b [Token]) -> Result<&'b [Token], Stop>
    ensures { Gives (λ rest. passed rest.now) result ((plain (void_of text.now written)).read tt tokens.now) }
{
    match tokens {
        [token, rest @ ..] if is_word(text, b"void", token) && !written => Ok(rest),
        _ => Err(syntax(tokens)),
    }
}

#[tactic(auto, unfolding(crate::specs::Calls::void_call))]
fn void_call<'b>(
    alloc: Global,
    scope: &Scope,
    role: Role,
    locals: &mut Locals,
    register: Option<u32>,
    tokens: &'b [Token],
) -> Result<(Instr, &'b [Token]), Stop>
    ensures { Gives (λ x. (x.0, locals.new, x.1.now)) result ((void_call (seen scope.now) role register).read locals.old tokens.now) }
{
    let rest = skip_void(scope.text, register.is_some(), tokens)?;
    call_parts(alloc, scope, role, locals, Ty::Void, None, rest)
}

#[tactic(auto, unfolding(crate::specs::Calls::typed_call))]
fn typed_call<'b>(
    alloc: Global,
    scope: &Scope,
    role: Role,
    locals: &mut Locals,
    register: Option<u32>,
    tokens: &'b [Token],
) -> Result<(Instr, &'b [Token]), Stop>
    ensures { Gives (λ x. (x.0, locals.new, x.1.now)) result ((typed_call (seen scope.now) role register).read locals.old tokens.now) }
{
    let (of, rest) = some_type(alloc, scope, tokens)?;
    let register = result_of(alloc, locals, register)?;
    call_parts(alloc, scope, role, locals, of, Some(register), rest)
}

fn call_type<'b>(
    alloc: Global,
    scope: &Scope,
    role: Role,
    locals: &mut Locals,
    register: Option<u32>,
    tokens: &'b [Token],
) -> Result<(Instr, &'b [Token]), Stop>
    ensures { Gives (λ x. (x.0, locals.new, x.1.now)) result ((call_type (seen scope.now) role register).read locals.old tokens.now) }
{
    match tokens {
        [token, ..] if is_word(scope.text, b"void", token) => void_call(
            alloc, scope, role, locals, register, tokens,
        ),
        _ => typed_call(alloc, scope, role, locals, register, tokens),
    }
}

/// A call behind its word, with the register of a written result.
#[tactic(auto, using(crate::proofs::CallLaws::behind_reads, crate::proofs::CallLaws::behind_fails))]
pub(crate) fn call_form<'b>(
    alloc: Global,
    scope: &Scope,
    role: Role,
    locals: &mut Locals,
    register: Option<u32>,
    tokens: &'b [Token],
) -> Result<(Instr, &'b [Token]), Stop>
    ensures { Gives (λ x. (x.0, locals.new, x.1.now)) result ((call_form (seen scope.now) role register).read locals.old tokens.now) }
{
    let rest = skip_attributes(scope.text, tokens)?;
    call_type(alloc, scope, role, locals, register, rest)
}
