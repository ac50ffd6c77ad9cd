ghost use Rattle.std.specs.Prelude.{◌≡◌, List, None, Some, is_some};
ghost use Rattle.no_ir.specs.declared.function.Role.{Role};
ghost use Rattle.no_ir.specs.declared.instruction.Instr.{Instr};
ghost use Rattle.no_lex.specs.declared.token.Token.{Token};
ghost use Rattle.no_read_rules.specs.Rules.{Good, Gives};
ghost use Rattle.no_read_rules.specs.Scope.{Meaning, seen};
ghost use Rattle.no_read_registers.specs.declared.locals.Locals.{Locals};
ghost use Rattle.no_read_instructions.specs.Instructions.{giver_form, action_form, giving, acting, tail_call, after_instr_head, instr_body, named_instr, an_instr, instr_goes_on};

use crate::calls::{call_form, result_of};
use crate::heads::{Action, Giver, InstrHead, instr_head};
use no_ir::{Instr, Op, Role};
use no_lex::{Token, TokenKind};
use no_read_operations::{
    address, alloca, binary, br, cast_form, compare, freeze, load, phi, ret, select, store, switch,
    with_end,
};
use no_read_registers::{Locals, a_definition};
use no_read_rules::{Scope, Stop, is_kind, skip_sign, skip_word};
use std::alloc::Global;

/// An operation with a result, behind its first word.
fn giver_form<'b>(
    alloc: Global,
    scope: &Scope,
    role: Role,
    locals: &mut Locals,
    giver: Giver,
    tokens: &'b [Token],
) -> Result<((Op, bool), &'b [Token]), Stop>
    ensures { Gives (λ x. (x.0, locals.new, x.1.now)) result ((giver_form (seen scope.now) role giver).read locals.old tokens.now) }
{
    let text = scope.text;
    match giver {
        Giver::Binary(op) => with_end(text, role, false, binary(alloc, scope, locals, op, tokens)),
        Giver::Cast(op) => with_end(
            text,
            role,
            false,
            cast_form(alloc, scope, locals, op, tokens),
        ),
        Giver::Compare => with_end(text, role, false, compare(alloc, scope, locals, tokens)),
        Giver::Freeze => with_end(text, role, false, freeze(alloc, scope, locals, tokens)),
        Giver::Select => with_end(text, role, false, select(alloc, scope, locals, tokens)),
        Giver::Phi => phi(alloc, scope, role, locals, tokens),
        Giver::Alloca => alloca(alloc, scope, role, locals, tokens),
        Giver::Load => with_end(text, role, true, load(alloc, scope, locals, tokens)),
        Giver::Address => address(alloc, scope, role, locals, tokens),
    }
}

/// An operation without one.
fn action_form<'b>(
    alloc: Global,
    scope: &Scope,
    role: Role,
    locals: &mut Locals,
    action: Action,
    tokens: &'b [Token],
) -> Result<((Op, bool), &'b [Token]), Stop>
    ensures { Gives (λ x. (x.0, locals.new, x.1.now)) result ((action_form (seen scope.now) role action).read locals.old tokens.now) }
{
    let text = scope.text;
    match action {
        Action::Store => with_end(text, role, true, store(alloc, scope, locals, tokens)),
        Action::Br => with_end(text, role, false, br(alloc, scope, locals, tokens)),
        Action::Switch => with_end(text, role, false, switch(alloc, scope, locals, tokens)),
        Action::Ret => with_end(text, role, false, ret(alloc, scope, locals, tokens)),
        Action::Unreachable => with_end(text, role, false, Ok((Op::Unreachable, tokens))),
    }
}

#[tactic(auto, unfolding(crate::specs::Instructions::giving))]
fn giving<'b>(
    alloc: Global,
    scope: &Scope,
    role: Role,
    locals: &mut Locals,
    written: Option<u32>,
    giver: Giver,
    tokens: &'b [Token],
) -> Result<(Instr, &'b [Token]), Stop>
    ensures { Gives (λ x. (x.0, locals.new, x.1.now)) result ((giving (seen scope.now) role written giver).read locals.old tokens.now) }
{
    let register = result_of(alloc, locals, written)?;
    let ((op, inserted), rest) = giver_form(alloc, scope, role, locals, giver, tokens)?;
    let instr = Instr {
        result: Some(register),
        inserted,
        op,
    };
    Ok((instr, rest))
}

#[tactic(auto, unfolding(crate::specs::Instructions::acting))]
fn acting<'b>(
    alloc: Global,
    scope: &Scope,
    role: Role,
    locals: &mut Locals,
    action: Action,
    tokens: &'b [Token],
) -> Result<(Instr, &'b [Token]), Stop>
    ensures { Gives (λ x. (x.0, locals.new, x.1.now)) result ((acting (seen scope.now) role action).read locals.old tokens.now) }
{
    let ((op, inserted), rest) = action_form(alloc, scope, role, locals, action, tokens)?;
    let instr = Instr {
        result: None,
        inserted,
        op,
    };
    Ok((instr, rest))
}

#[tactic(auto, unfolding(crate::specs::Instructions::tail_call))]
fn tail_call<'b>(
    alloc: Global,
    scope: &Scope,
    role: Role,
    locals: &mut Locals,
    written: Option<u32>,
    tokens: &'b [Token],
) -> Result<(Instr, &'b [Token]), Stop>
    ensures { Gives (λ x. (x.0, locals.new, x.1.now)) result ((tail_call (seen scope.now) role written).read locals.old tokens.now) }
{
    let rest = skip_word(scope.text, b"call", tokens)?;
    call_form(alloc, scope, role, locals, written, rest)
}

#[tactic(auto, unfolding(crate::specs::Instructions::instr_body))]
fn instr_body<'b>(
    alloc: Global,
    scope: &Scope,
    role: Role,
    locals: &mut Locals,
    written: Option<u32>,
    tokens: &'b [Token],
) -> Result<(Instr, &'b [Token]), Stop>
    ensures { Gives (λ x. (x.0, locals.new, x.1.now)) result ((instr_body (seen scope.now) role written).read locals.old tokens.now) }
{
    let (head, rest) = instr_head(scope.text, written.is_some(), tokens)?;
    match head {
        InstrHead::Gives(giver) => giving(alloc, scope, role, locals, written, giver, rest),
        InstrHead::Call => call_form(alloc, scope, role, locals, written, rest),
        InstrHead::TailCall => tail_call(alloc, scope, role, locals, written, rest),
        InstrHead::Acts(action) => acting(alloc, scope, role, locals, action, rest),
    }
}

#[tactic(auto, unfolding(crate::specs::Instructions::named_instr))]
fn named_instr<'b>(
    alloc: Global,
    scope: &Scope,
    role: Role,
    locals: &mut Locals,
    tokens: &'b [Token],
) -> Result<(Instr, &'b [Token]), Stop>
    ensures { Gives (λ x. (x.0, locals.new, x.1.now)) result ((named_instr (seen scope.now) role).read locals.old tokens.now) }
{
    let (register, rest) = a_definition(alloc, scope.text, locals, tokens)?;
    let rest = skip_sign(scope.text, b"=", rest)?;
    instr_body(alloc, scope, role, locals, Some(register), rest)
}

/// An instruction with its attachments, of which the one that the partition makes counts in a server's part alone.
///
/// Registers and labels that are new are added. Syntax comes at the first token that no form allows, and where a result is
/// written that the instruction doesn't have; Number at a number that is out of range.
#[tactic(auto, unfolding(crate::specs::Instructions::an_instr))]
pub fn an_instr<'b>(
    alloc: Global,
    scope: &Scope,
    role: Role,
    locals: &mut Locals,
    tokens: &'b [Token],
) -> Result<(Instr, &'b [Token]), Stop>
    ensures { Gives (λ x. (x.0, locals.new, x.1.now)) result ((an_instr (seen scope.now) role).read locals.old tokens.now) }
{
    match tokens {
        [token, ..] if is_kind(TokenKind::Local, token) => named_instr(
            alloc, scope, role, locals, tokens,
        ),
        _ => instr_body(alloc, scope, role, locals, None, tokens),
    }
}

/// Instructions are read exactly: what was read is meant by the tokens that were taken, and what tokens mean is read from them.
#[tactic(auto, using(crate::proofs::InstrLaws::instr_good))]
pub fn instructions_are_exact()
    ensures { (m : Meaning) (role : Role) → Good (instr_goes_on m.text) (an_instr m role) }
{}

/// At most one instruction is meant by a list of tokens.
#[tactic(auto, using(crate::proofs::InstrLaws::one_instr))]
pub fn at_most_one_instruction()
    ensures { (m : Meaning) (role : Role) (s t u : Locals) (tokens : List Token) (a b : Instr) → (an_instr m role).means s tokens a t → (an_instr m role).means s tokens b u → a ≡ b }
{}
