ghost use Rattle.std.specs.Prelude.{Bool, ◌≡◌, ◌∷◌, [], codes};
ghost use Rattle.no_ir.specs.declared.function.Role.{Role};
ghost use Rattle.no_read_rules.specs.Lists.{more_item, some_items, items};
ghost use Rattle.no_read_rules.specs.Repeated.{repeat_all, with_front};
ghost use Rattle.no_read_rules.specs.Rules.{Gives, valued, Good};
ghost use Rattle.no_read_rules.specs.Scope.{Meaning, seen};
ghost use Rattle.no_read_attributes.specs.Attributes.{may_go_on};
ghost use Rattle.no_read_functions.specs.Heads.{own_name, place_name, param_name, a_param, params, result_type, words_type, head_marks, a_head};

use no_ir::{Bytes, List, Role, Ty};
use no_lex::{Token, TokenKind};
use no_read_attributes::{Mark, attribute_marks, skip_attributes, symbol_name};
use no_read_registers::{Locals, a_definition, no_name};
use no_read_rules::{Scope, Stop, a_type, closes_list, is_kind, is_sign, is_word, skip_sign};
use std::alloc::Global;

/// What stands before the blocks of a function.
#[derive(Debug, Drop)]
pub struct Head {
    /// The name, without its sign.
    pub name: Bytes,
    pub result: Ty,
    /// Register and type of each parameter.
    pub params: List<(u32, Ty)>,
    /// The attributes with an effect, in order.
    pub marks: List<Mark>,
}

/// The written name, or the next number.
#[tactic(auto, unfolding(crate::specs::Heads::own_name))]
fn own_name<'b>(
    alloc: Global,
    text: &[u8],
    locals: &mut Locals,
    tokens: &'b [Token],
) -> Result<(u32, &'b [Token]), Stop>
    ensures { Gives (λ x. (x.0, locals.new, x.1.now)) result ((own_name text.now).read locals.old tokens.now) }
{
    match tokens {
        [token, ..] if is_kind(TokenKind::Local, token) => a_definition(
            alloc, text, locals, tokens,
        ),
        _ => {
            let register = no_name(alloc, locals)?;
            Ok((register, tokens))
        }
    }
}

/// The place, whatever name is written.
#[tactic(auto, unfolding(crate::specs::Heads::place_name))]
fn place_name<'b>(
    alloc: Global,
    locals: &mut Locals,
    tokens: &'b [Token],
) -> Result<(u32, &'b [Token]), Stop>
    ensures { Gives (λ x. (x.0, locals.new, x.1.now)) result (place_name.read locals.old tokens.now) }
{
    let rest = match tokens {
        [token, more @ ..] if is_kind(TokenKind::Local, token) => more,
        _ => tokens,
    };
    let register = no_name(alloc, locals)?;
    Ok((register, rest))
}

fn param_name<'b>(
    alloc: Global,
    text: &[u8],
    named: bool,
    locals: &mut Locals,
    tokens: &'b [Token],
) -> Result<(u32, &'b [Token]), Stop>
    ensures { Gives (λ x. (x.0, locals.new, x.1.now)) result ((param_name text.now named).read locals.old tokens.now) }
{
    if named {
        own_name(alloc, text, locals, tokens)
    } else {
        place_name(alloc, locals, tokens)
    }
}

/// A parameter: its type, attributes that have no effect, and its name.
#[tactic(auto, unfolding(crate::specs::Heads::a_param))]
fn a_param<'b>(
    alloc: Global,
    scope: &Scope,
    named: bool,
    locals: &mut Locals,
    tokens: &'b [Token],
) -> Result<((u32, Ty), &'b [Token]), Stop>
    ensures { Gives (λ x. (x.0, locals.new, x.1.now)) result ((a_param (seen scope.now) named).read locals.old tokens.now) }
{
    let (ty, rest) = a_type(alloc, scope, 64, tokens)?;
    let rest = skip_attributes(scope.text, rest)?;
    let (register, rest) = param_name(alloc, scope.text, named, locals, rest)?;
    Ok(((register, ty), rest))
}

#[tactic(auto, unfolding(no_read_rules::specs::Lists::more_item))]
fn more_param<'b>(
    alloc: Global,
    scope: &Scope,
    named: bool,
    locals: &mut Locals,
    tokens: &'b [Token],
) -> Result<(Option<(u32, Ty)>, &'b [Token]), Stop>
    ensures { Gives (λ x. (x.0, locals.new, x.1.now)) result ((more_item (seen scope.now).text (codes ")") (a_param (seen scope.now) named)).read locals.old tokens.now) }
{
    let (closes, rest) = closes_list(scope.text, b")", tokens)?;
    if closes {
        return Ok((None, rest));
    }
    let (param, rest) = a_param(alloc, scope, named, locals, rest)?;
    Ok((Some(param), rest))
}

/// The parameters behind the first.
fn more_params<'b>(
    alloc: Global,
    scope: &Scope,
    named: bool,
    first: (u32, Ty),
    locals: &mut Locals,
    tokens: &'b [Token],
) -> Result<(List<(u32, Ty)>, &'b [Token]), Stop>
    ensures { Gives (λ x. (x.0, locals.new, x.1.now)) result (with_front (first ∷ []) (repeat_all (more_item (seen scope.now).text (codes ")") (a_param (seen scope.now) named)) locals.old tokens.now)) }
{
    let mut all = List::new(alloc);
    all.push(first)?;
    let mut rest = tokens;
    loop {
        let (item, after) = more_param(alloc, scope, named, locals, rest)?;
        match item {
            None => return Ok((all, after)),
            Some(param) => {
                all.push(param)?;
                rest = after;
            }
        }
    }
}

#[tactic(auto, unfolding(no_read_rules::specs::Lists::some_items))]
fn some_params<'b>(
    alloc: Global,
    scope: &Scope,
    named: bool,
    locals: &mut Locals,
    tokens: &'b [Token],
) -> Result<(List<(u32, Ty)>, &'b [Token]), Stop>
    ensures { Gives (λ x. (x.0, locals.new, x.1.now)) result ((some_items (seen scope.now).text (codes ")") (a_param (seen scope.now) named)).read locals.old tokens.now) }
{
    let (first, rest) = a_param(alloc, scope, named, locals, tokens)?;
    more_params(alloc, scope, named, first, locals, rest)
}

#[tactic(auto, unfolding(no_read_rules::specs::Lists::items, no_read_rules::specs::Lists::no_items))]
fn all_params<'b>(
    alloc: Global,
    scope: &Scope,
    named: bool,
    locals: &mut Locals,
    tokens: &'b [Token],
) -> Result<(List<(u32, Ty)>, &'b [Token]), Stop>
    ensures { Gives (λ x. (x.0, locals.new, x.1.now)) result ((items (seen scope.now).text (codes ")") (a_param (seen scope.now) named)).read locals.old tokens.now) }
{
    match tokens {
        [token, rest @ ..] if is_sign(scope.text, b")", token) => Ok((List::new(alloc), rest)),
        _ => some_params(alloc, scope, named, locals, tokens),
    }
}

/// The parameters, in brackets.
#[tactic(auto, unfolding(crate::specs::Heads::params))]
fn params<'b>(
    alloc: Global,
    scope: &Scope,
    named: bool,
    locals: &mut Locals,
    tokens: &'b [Token],
) -> Result<(List<(u32, Ty)>, &'b [Token]), Stop>
    ensures { Gives (λ x. (x.0, locals.new, x.1.now)) result ((params (seen scope.now) named).read locals.old tokens.now) }
{
    let rest = skip_sign(scope.text, b"(", tokens)?;
    all_params(alloc, scope, named, locals, rest)
}

/// The type of a result, which may be `void`.
#[tactic(auto, unfolding(crate::specs::Heads::result_type))]
pub fn result_type<'b>(
    alloc: Global,
    scope: &Scope,
    tokens: &'b [Token],
) -> Result<(Ty, &'b [Token]), Stop>
    ensures { Gives (λ x. valued x.0 x.1.now) result ((result_type (seen scope.now)).read tt tokens.now) }
{
    match tokens {
        [token, rest @ ..] if is_word(scope.text, b"void", token) => Ok((Ty::Void, rest)),
        _ => a_type(alloc, scope, 64, tokens),
    }
}

/// Words and attributes that have no effect, and the type of a result.
#[tactic(auto, unfolding(crate::specs::Heads::words_type))]
fn words_type<'b>(
    alloc: Global,
    scope: &Scope,
    tokens: &'b [Token],
) -> Result<(Ty, &'b [Token]), Stop>
    ensures { Gives (λ x. valued x.0 x.1.now) result ((words_type (seen scope.now)).read tt tokens.now) }
{
    let rest = skip_attributes(scope.text, tokens)?;
    result_type(alloc, scope, rest)
}

/// The attributes of a function that have an effect.
#[tactic(auto, unfolding(crate::specs::Heads::head_marks))]
fn head_marks<'b>(
    alloc: Global,
    scope: &Scope,
    role: Role,
    tokens: &'b [Token],
) -> Result<(List<Mark>, &'b [Token]), Stop>
    ensures { Gives (λ x. valued x.0 x.1.now) result ((head_marks (seen scope.now) role).read tt tokens.now) }
{
    attribute_marks(alloc, scope.text, role, tokens)
}

/// What stands behind `declare` or `define` and before the blocks. In a declaration the parameters are named by their places.
#[tactic(auto, unfolding(crate::specs::Heads::a_head))]
pub fn a_head<'b>(
    alloc: Global,
    scope: &Scope,
    role: Role,
    named: bool,
    locals: &mut Locals,
    tokens: &'b [Token],
) -> Result<(Head, &'b [Token]), Stop>
    ensures { Gives (λ x. (x.0, locals.new, x.1.now)) result ((a_head (seen scope.now) role named).read locals.old tokens.now) }
{
    let (result, rest) = words_type(alloc, scope, tokens)?;
    let (name, rest) = symbol_name(alloc, scope.text, rest)?;
    let (params, rest) = params(alloc, scope, named, locals, rest)?;
    let (marks, rest) = head_marks(alloc, scope, role, rest)?;
    Ok((
        Head {
            name,
            result,
            params,
            marks,
        },
        rest,
    ))
}

/// Heads are read exactly: what was read is meant by the tokens that were taken, and what tokens mean is read from them.
#[tactic(auto, using(crate::proofs::HeadLaws::head_good))]
pub fn heads_are_exact()
    ensures { (m : Meaning) (role : Role) (named : Bool) → Good (may_go_on m.text) (a_head m role named) }
{}
