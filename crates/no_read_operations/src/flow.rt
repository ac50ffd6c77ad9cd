ghost use Rattle.std.specs.Prelude.{◌≡◌, ◌∷◌, [], true, false, codes};
ghost use Rattle.no_ir.specs.declared.types.Ty.{Ty};
ghost use Rattle.no_read_rules.specs.Repeated.{repeat_all};
ghost use Rattle.no_read_rules.specs.Rules.{Gives, passed, plain, checked};
ghost use Rattle.no_read_rules.specs.Scope.{Meaning, seen};
ghost use Rattle.no_read_constants.specs.Places.{width_of};
ghost use Rattle.no_read_registers.specs.declared.locals.Locals.{Locals};
ghost use Rattle.no_read_operations.specs.Flow.{return_void, return_value, ret, branch, branch_if, br, same_width, a_case, no_case, one_case, more_case, all_cases, switch, a_pair, phi};

use crate::ends::Listed;
use crate::lists::{Item, some_listed};
use crate::operands::{an_operand, bit_operand, comma_label, some_type, typed_operand};
use no_ir::{List, Op, Operand, Role, Ty};
use no_lex::Token;
use no_read_constants::{number_at, width_of};
use no_read_registers::{Locals, a_label, a_label_name};
use no_read_rules::{Scope, Stop, is_sign, is_word, skip_sign, skip_word, syntax};
use std::alloc::Global;

// ---- `ret` and `br`

#[tactic(auto, using(crate::proofs::Grouped::return_is))]
fn return_value<'b>(
    alloc: Global,
    scope: &Scope,
    locals: &mut Locals,
    tokens: &'b [Token],
) -> Result<(Op, &'b [Token]), Stop>
    ensures { Gives (λ x. (x.0, locals.new, x.1.now)) result ((return_value (seen scope.now)).read locals.old tokens.now) }
{
    let (value, rest) = typed_operand(alloc, scope, locals, tokens)?;
    Ok((Op::Ret(Some(value)), rest))
}

/// Behind `ret`: `void`, or `T a`.
#[tactic(auto, unfolding(crate::specs::Flow::return_void))]
pub fn ret<'b>(
    alloc: Global,
    scope: &Scope,
    locals: &mut Locals,
    tokens: &'b [Token],
) -> Result<(Op, &'b [Token]), Stop>
    ensures { Gives (λ x. (x.0, locals.new, x.1.now)) result ((ret (seen scope.now)).read locals.old tokens.now) }
{
    match tokens {
        [token, rest @ ..] if is_word(scope.text, b"void", token) => Ok((Op::Ret(None), rest)),
        _ => return_value(alloc, scope, locals, tokens),
    }
}

#[tactic(auto, unfolding(crate::specs::Flow::branch))]
fn branch<'b>(
    alloc: Global,
    scope: &Scope,
    locals: &mut Locals,
    tokens: &'b [Token],
) -> Result<(Op, &'b [Token]), Stop>
    ensures { Gives (λ x. (x.0, locals.new, x.1.now)) result ((branch (seen scope.now)).read locals.old tokens.now) }
{
    let (label, rest) = a_label(alloc, scope.text, locals, tokens)?;
    Ok((Op::Br(label), rest))
}

#[tactic(auto, using(crate::proofs::Grouped::branch_is))]
fn branch_if<'b>(
    alloc: Global,
    scope: &Scope,
    locals: &mut Locals,
    tokens: &'b [Token],
) -> Result<(Op, &'b [Token]), Stop>
    ensures { Gives (λ x. (x.0, locals.new, x.1.now)) result ((branch_if (seen scope.now)).read locals.old tokens.now) }
{
    let (condition, rest) = bit_operand(alloc, scope, locals, tokens)?;
    let (first, rest) = comma_label(alloc, scope.text, locals, rest)?;
    let (second, rest) = comma_label(alloc, scope.text, locals, rest)?;
    Ok((Op::CondBr(condition, first, second), rest))
}

/// Behind `br`: `label %l`, or `i1 c, label %l, label %m`.
pub fn br<'b>(
    alloc: Global,
    scope: &Scope,
    locals: &mut Locals,
    tokens: &'b [Token],
) -> Result<(Op, &'b [Token]), Stop>
    ensures { Gives (λ x. (x.0, locals.new, x.1.now)) result ((br (seen scope.now)).read locals.old tokens.now) }
{
    match tokens {
        [token, ..] if is_word(scope.text, b"label", token) => branch(alloc, scope, locals, tokens),
        _ => branch_if(alloc, scope, locals, tokens),
    }
}

// ---- `switch`

fn this_width<'b>(text: &[u8], want: u8, tokens: &'b [Token]) -> Result<&'b [Token], Stop>
    ensures { Gives (λ rest. passed rest.now) result ((checked (plain (width_of text.now)) (same_width want)).read tt tokens.now) }
{
    let (width, rest) = width_of(text, tokens)?;
    if width == want {
        Ok(rest)
    } else {
        Err(syntax(tokens))
    }
}

#[tactic(auto, using(crate::proofs::Grouped::case_is))]
fn a_case<'b>(
    alloc: Global,
    scope: &Scope,
    locals: &mut Locals,
    width: u8,
    tokens: &'b [Token],
) -> Result<((u64, u32), &'b [Token]), Stop>
    ensures { Gives (λ x. (x.0, locals.new, x.1.now)) result ((a_case (seen scope.now) width).read locals.old tokens.now) }
{
    let rest = this_width(scope.text, width, tokens)?;
    let (number, rest) = number_at(scope.text, width, rest)?;
    let (label, rest) = comma_label(alloc, scope.text, locals, rest)?;
    Ok(((number, label), rest))
}

#[tactic(auto, unfolding(crate::specs::Flow::one_case))]
fn one_case<'b>(
    alloc: Global,
    scope: &Scope,
    locals: &mut Locals,
    width: u8,
    tokens: &'b [Token],
) -> Result<(Option<(u64, u32)>, &'b [Token]), Stop>
    ensures { Gives (λ x. (x.0, locals.new, x.1.now)) result ((one_case (seen scope.now) width).read locals.old tokens.now) }
{
    let (found, rest) = a_case(alloc, scope, locals, width, tokens)?;
    Ok((Some(found), rest))
}

#[tactic(auto, unfolding(crate::specs::Flow::no_case))]
fn more_case<'b>(
    alloc: Global,
    scope: &Scope,
    locals: &mut Locals,
    width: u8,
    tokens: &'b [Token],
) -> Result<(Option<(u64, u32)>, &'b [Token]), Stop>
    ensures { Gives (λ x. (x.0, locals.new, x.1.now)) result ((more_case (seen scope.now) width).read locals.old tokens.now) }
{
    match tokens {
        [token, rest @ ..] if is_sign(scope.text, b"]", token) => Ok((None, rest)),
        _ => one_case(alloc, scope, locals, width, tokens),
    }
}

fn cases<'b>(
    alloc: Global,
    scope: &Scope,
    locals: &mut Locals,
    width: u8,
    tokens: &'b [Token],
) -> Result<(List<(u64, u32)>, &'b [Token]), Stop>
    ensures { Gives (λ x. (x.0, locals.new, x.1.now)) result (repeat_all (more_case (seen scope.now) width) locals.old tokens.now) }
{
    let mut all = List::new(alloc);
    let mut rest = tokens;
    loop {
        let (item, after) = more_case(alloc, scope, locals, width, rest)?;
        match item {
            None => return Ok((all, after)),
            Some(found) => {
                all.push(found)?;
                rest = after;
            }
        }
    }
}

/// An opening bracket, and the cases up to the closing one.
#[tactic(auto, unfolding(crate::specs::Flow::all_cases))]
fn all_cases<'b>(
    alloc: Global,
    scope: &Scope,
    locals: &mut Locals,
    width: u8,
    tokens: &'b [Token],
) -> Result<(List<(u64, u32)>, &'b [Token]), Stop>
    ensures { Gives (λ x. (x.0, locals.new, x.1.now)) result ((all_cases (seen scope.now) width).read locals.old tokens.now) }
{
    let rest = skip_sign(scope.text, b"[", tokens)?;
    cases(alloc, scope, locals, width, rest)
}

/// Behind `switch`: `iN a, label %d`, and cases `iN k, label %l` in square brackets.
#[tactic(auto, using(crate::proofs::Grouped::switch_is))]
pub fn switch<'b>(
    alloc: Global,
    scope: &Scope,
    locals: &mut Locals,
    tokens: &'b [Token],
) -> Result<(Op, &'b [Token]), Stop>
    ensures { Gives (λ x. (x.0, locals.new, x.1.now)) result ((switch (seen scope.now)).read locals.old tokens.now) }
{
    let (width, rest) = width_of(scope.text, tokens)?;
    let (value, rest) = an_operand(alloc, scope, locals, &Ty::Int(width), rest)?;
    let (other, rest) = comma_label(alloc, scope.text, locals, rest)?;
    let (cases, rest) = all_cases(alloc, scope, locals, width, rest)?;
    Ok((Op::Switch(width, value, other, cases), rest))
}

// ---- `phi`

#[tactic(auto, unfolding(crate::specs::Flow::a_pair))]
fn a_pair<'b>(
    alloc: Global,
    scope: &Scope,
    locals: &mut Locals,
    of: &Ty,
    tokens: &'b [Token],
) -> Result<((Operand, u32), &'b [Token]), Stop>
    ensures { Gives (λ x. (x.0, locals.new, x.1.now)) result ((a_pair (seen scope.now) of.now).read locals.old tokens.now) }
{
    let rest = skip_sign(scope.text, b"[", tokens)?;
    let (value, rest) = an_operand(alloc, scope, locals, of, rest)?;
    let rest = skip_sign(scope.text, b",", rest)?;
    let (label, rest) = a_label_name(alloc, scope.text, locals, rest)?;
    let rest = skip_sign(scope.text, b"]", rest)?;
    Ok(((value, label), rest))
}

/// The pairs of a `phi` at a type.
#[derive(Drop)]
struct Pairs<'a> {
    of: &'a Ty,
}

impl Item for Pairs<'_> {
    type Of = (Operand, u32);

    ghost rule = { λ pairs m. a_pair m pairs.of.now };

    fn item<'b>(
        &self,
        alloc: Global,
        scope: &Scope,
        locals: &mut Locals,
        tokens: &'b [Token],
    ) -> Result<((Operand, u32), &'b [Token]), Stop> {
        a_pair(alloc, scope, locals, self.of, tokens)
    }
}

/// Behind `phi`: `T`, at least one `[ a, %l ]`, and attachments; whether the partition made the instruction.
#[tactic(auto, using(crate::proofs::Grouped::phi_is, crate::proofs::FormLaws::pair_solid))]
pub fn phi<'b>(
    alloc: Global,
    scope: &Scope,
    role: Role,
    locals: &mut Locals,
    tokens: &'b [Token],
) -> Result<((Op, bool), &'b [Token]), Stop>
    ensures { Gives (λ x. (x.0, locals.new, x.1.now)) result ((phi (seen scope.now) role).read locals.old tokens.now) }
{
    let (of, rest) = some_type(alloc, scope, tokens)?;
    let (all, rest) = some_listed(alloc, scope, role, locals, &Pairs { of: &of }, rest)?;
    let Listed {
        items,
        inserted,
        ..
    } = all;
    Ok(((Op::Phi(of, items), inserted), rest))
}
