ghost use Rattle.std.specs.Prelude.{◌≡◌, codes};
ghost use Rattle.no_ir.specs.declared.function.Role.{Role};
ghost use Rattle.no_read_rules.specs.Rules.{Gives, valued, passed, plain, none, one, maybe, Good};
ghost use Rattle.no_read_rules.specs.Spelled.{a_word};
ghost use Rattle.no_read_rules.specs.Scope.{Meaning, seen};
ghost use Rattle.no_read_attributes.specs.Attributes.{may_go_on};
ghost use Rattle.no_read_toplevel.specs.Entities.{a_source, target_of, a_target, group_of, a_group, is_bare, bare_of, is_distinct, a_node, a_declaration};

use crate::globals::metadata;
use no_ir::{Bytes, List, Role};
use no_lex::{Token, TokenKind};
use no_read_attributes::{Mark, attribute_marks, is_record, skip_bracketed, string};
use no_read_functions::{Head, a_head};
use no_read_registers::Locals;
use no_read_rules::{Scope, Stop, is_kind, is_word, skip_sign, spelled, syntax, unescaped_inner};
use std::alloc::Global;

/// Behind `source_filename`: a string without an effect.
#[tactic(auto, unfolding(crate::specs::Entities::a_source))]
pub(crate) fn a_source<'b>(text: &[u8], tokens: &'b [Token]) -> Result<&'b [Token], Stop>
    ensures { Gives (λ rest. passed rest.now) result ((a_source text.now).read tt tokens.now) }
{
    let rest = skip_sign(text, b"=", tokens)?;
    let (_, rest) = string(text, rest)?;
    Ok(rest)
}

/// Whether the layout is stated, which must not have been before; and whether it is stated now.
fn target<'b>(
    text: &[u8],
    stated: bool,
    tokens: &'b [Token],
) -> Result<(bool, bool, &'b [Token]), Stop>
    ensures { Gives (λ x. (x.0, x.1, x.2.now)) result ((one (target_of text.now)).read stated tokens.now) }
{
    match tokens {
        [token, rest @ ..] if is_word(text, b"triple", token) => Ok((false, stated, rest)),
        [token, rest @ ..] if is_word(text, b"datalayout", token) => {
            if stated {
                Err(syntax(tokens))
            } else {
                Ok((true, true, rest))
            }
        }
        _ => Err(syntax(tokens)),
    }
}

/// Behind `target`: a triple without an effect, or the layout, where none was stated before; and whether one is stated now.
#[tactic(auto, unfolding(crate::specs::Entities::a_target))]
pub(crate) fn a_target<'b>(
    alloc: Global,
    text: &[u8],
    stated: bool,
    tokens: &'b [Token],
) -> Result<(Option<Bytes>, bool, &'b [Token]), Stop>
    ensures { Gives (λ x. (x.0, x.1, x.2.now)) result ((a_target text.now).read stated tokens.now) }
{
    let (layout, stated, rest) = target(text, stated, tokens)?;
    let rest = skip_sign(text, b"=", rest)?;
    let (token, rest) = string(text, rest)?;
    if layout {
        let bytes = unescaped_inner(alloc, spelled(text, &token))?;
        Ok((Some(bytes), stated, rest))
    } else {
        Ok((None, stated, rest))
    }
}

fn group<'b>(text: &[u8], tokens: &'b [Token]) -> Result<(Token, &'b [Token]), Stop>
    ensures { Gives (λ x. valued x.0 x.1.now) result ((plain (group_of text.now)).read tt tokens.now) }
{
    match tokens {
        [token, rest @ ..]
            if is_kind(TokenKind::Group, token) && !is_record(spelled(text, token)) => Ok((
            *token, rest,
        )),
        _ => Err(syntax(tokens)),
    }
}

/// Behind `attributes`: the name of a group, and those of its attributes that have an effect.
#[tactic(auto, unfolding(crate::specs::Entities::a_group))]
pub(crate) fn a_group<'b>(
    alloc: Global,
    text: &[u8],
    role: Role,
    tokens: &'b [Token],
) -> Result<((Token, List<Mark>), &'b [Token]), Stop>
    ensures { Gives (λ x. valued x.0 x.1.now) result ((a_group text.now role).read tt tokens.now) }
{
    let (group, rest) = group(text, tokens)?;
    let rest = skip_sign(text, b"=", rest)?;
    let rest = skip_sign(text, b"{", rest)?;
    let (marks, rest) = attribute_marks(alloc, text, role, rest)?;
    let rest = skip_sign(text, b"}", rest)?;
    Ok(((group, marks), rest))
}

/// Behind the word `distinct`, where it stands here.
fn skip_distinct<'b>(text: &[u8], tokens: &'b [Token]) -> Result<(Option<()>, &'b [Token]), Stop>
    ensures { Gives (λ x. valued x.0 x.1.now) result ((maybe (is_distinct text.now) (a_word text.now (codes "distinct"))).read tt tokens.now) }
{
    match tokens {
        [token, rest @ ..] if is_word(text, b"distinct", token) => Ok((Some(()), rest)),
        _ => Ok((None, tokens)),
    }
}

fn is_bare(text: &[u8], token: &Token) -> bool
    ensures { result ≡ is_bare text.now token.now }
{
    is_kind(TokenKind::Meta, token) && spelled(text, token) == b"!".as_slice()
}

fn bare<'b>(text: &[u8], tokens: &'b [Token]) -> Result<&'b [Token], Stop>
    ensures { Gives (λ rest. passed rest.now) result ((plain (bare_of text.now)).read tt tokens.now) }
{
    match tokens {
        [token, rest @ ..] if is_bare(text, token) => Ok(rest),
        _ => Err(syntax(tokens)),
    }
}

/// Metadata, which has no effect: its name, and a node.
#[tactic(auto, unfolding(crate::specs::Entities::a_node))]
pub(crate) fn a_node<'b>(text: &[u8], tokens: &'b [Token]) -> Result<&'b [Token], Stop>
    ensures { Gives (λ rest. passed rest.now) result ((a_node text.now).read tt tokens.now) }
{
    let rest = metadata(text, tokens)?;
    let rest = skip_sign(text, b"=", rest)?;
    let (_, rest) = skip_distinct(text, rest)?;
    let rest = bare(text, rest)?;
    skip_bracketed(text, b"{", b"}", rest)
}

/// Behind `declare`: a head, and the names of its parameters, which are their places.
pub(crate) fn a_declaration<'b>(
    alloc: Global,
    scope: &Scope,
    role: Role,
    tokens: &'b [Token],
) -> Result<((Head, Locals), &'b [Token]), Stop>
    ensures { Gives (λ x. valued x.0 x.1.now) result ((a_declaration (seen scope.now) role).read tt tokens.now) }
{
    let mut locals = Locals::new(alloc)?;
    let (head, rest) = a_head(alloc, scope, role, false, &mut locals, tokens)?;
    Ok(((head, locals), rest))
}

/// These forms are read exactly: what was read is meant by the tokens that were taken, and what tokens mean is read from them.
#[tactic(auto, using(crate::proofs::EntityLaws::source_good, crate::proofs::EntityLaws::target_good, crate::proofs::EntityLaws::group_good, crate::proofs::EntityLaws::node_good, crate::proofs::EntityLaws::declaration_good))]
pub fn top_forms_are_exact()
    ensures sources { (m : Meaning) → Good none (a_source m.text) }
    ensures targets { (m : Meaning) → Good none (a_target m.text) }
    ensures groups { (m : Meaning) (role : Role) → Good none (a_group m.text role) }
    ensures nodes { (m : Meaning) → Good none (a_node m.text) }
    ensures declarations { (m : Meaning) (role : Role) → Good (may_go_on m.text) (a_declaration m role) }
{}
