ghost use Rattle.std.specs.Prelude.{◌≡◌, ◌∷◌, ◌++◌, [], Bool, false, OnOk};
ghost use Rattle.no_read_rules.specs.Rules.{Gives, plain, next_is};
ghost use Rattle.no_read_rules.specs.Scope.{seen};
ghost use Rattle.no_read_rules.specs.Repeated.{repeat_all};
ghost use Rattle.no_read_toplevel.specs.Tops.{word_of, word_at, top_word, begins_top, source_top, target_top, function_top, declared_top, group_top, global_top, node_top, worded, a_top, more_tops};

use crate::entities::{a_declaration, a_group, a_node, a_source, a_target};
use crate::globals::a_global;
use no_ir::{Bytes, GlobalVar, List, NoMemory, Role};
use no_lex::{Token, TokenKind};
use no_read_attributes::Mark;
use no_read_functions::{Written, a_function};
use no_read_rules::{Scope, Stop, is_kind, spelled, syntax};
use std::alloc::Global;

/// What one form at the top of a text gives.
#[derive(Drop)]
pub enum Top {
    /// No effect.
    Nothing,
    /// The data layout string.
    Layout(Bytes),
    /// The name of a group of attributes, and those with an effect.
    Group(Token, List<Mark>),
    Global(GlobalVar),
    Function(Written),
}

/// A word that begins a form.
#[derive(Clone, Copy, Debug, PartialEq, Eq)]
pub enum TopWord {
    Source,
    Target,
    Define,
    Declare,
    Attributes,
}

fn word_of(word: &[u8]) -> Option<TopWord>
    ensures { result ≡ word_of word.now }
{
    if word == b"source_filename".as_slice() {
        return Some(TopWord::Source);
    }
    if word == b"target".as_slice() {
        return Some(TopWord::Target);
    }
    if word == b"define".as_slice() {
        return Some(TopWord::Define);
    }
    if word == b"declare".as_slice() {
        return Some(TopWord::Declare);
    }
    if word == b"attributes".as_slice() {
        return Some(TopWord::Attributes);
    }
    None
}

fn word_at(text: &[u8], token: &Token) -> Option<TopWord>
    ensures { result ≡ word_at text.now token.now }
{
    if is_kind(TokenKind::Word, token) {
        word_of(spelled(text, token))
    } else {
        None
    }
}

fn begins_top(text: &[u8], token: &Token) -> bool
    ensures { result ≡ begins_top text.now token.now }
{
    is_kind(TokenKind::Global, token)
        || is_kind(TokenKind::Meta, token)
        || word_at(text, token).is_some()
}

fn top_word<'b>(text: &[u8], tokens: &'b [Token]) -> Result<(TopWord, &'b [Token]), Stop>
    ensures { (s : Bool) → Gives (λ x. (x.0, s, x.1.now)) result ((plain (top_word text.now)).read s tokens.now) }
{
    match tokens {
        [token, rest @ ..] => match word_at(text, token) {
            Some(word) => Ok((word, rest)),
            None => Err(syntax(tokens)),
        },
        [] => Err(syntax(tokens)),
    }
}

#[tactic(auto, unfolding(crate::specs::Tops::source_top))]
fn source_top<'b>(scope: &Scope, tokens: &'b [Token]) -> Result<(Top, &'b [Token]), Stop>
    ensures { (s : Bool) → Gives (λ x. (x.0, s, x.1.now)) result ((source_top (seen scope.now)).read s tokens.now) }
{
    let rest = a_source(scope.text, tokens)?;
    Ok((Top::Nothing, rest))
}

#[tactic(auto, unfolding(crate::specs::Tops::target_top))]
fn target_top<'b>(
    alloc: Global,
    scope: &Scope,
    stated: bool,
    tokens: &'b [Token],
) -> Result<(Top, bool, &'b [Token]), Stop>
    ensures { Gives (λ x. (x.0, x.1, x.2.now)) result ((target_top (seen scope.now)).read stated tokens.now) }
{
    let (layout, stated, rest) = a_target(alloc, scope.text, stated, tokens)?;
    match layout {
        Some(layout) => Ok((Top::Layout(layout), stated, rest)),
        None => Ok((Top::Nothing, stated, rest)),
    }
}

#[tactic(auto, unfolding(crate::specs::Tops::function_top))]
fn function_top<'b>(
    alloc: Global,
    scope: &Scope,
    role: Role,
    tokens: &'b [Token],
) -> Result<(Top, &'b [Token]), Stop>
    ensures { (s : Bool) → Gives (λ x. (x.0, s, x.1.now)) result ((function_top (seen scope.now) role).read s tokens.now) }
{
    let (function, rest) = a_function(alloc, scope, role, tokens)?;
    Ok((Top::Function(function), rest))
}

#[tactic(auto, unfolding(crate::specs::Tops::declared_top))]
fn declared_top<'b>(
    alloc: Global,
    scope: &Scope,
    role: Role,
    tokens: &'b [Token],
) -> Result<(Top, &'b [Token]), Stop>
    ensures { (s : Bool) → Gives (λ x. (x.0, s, x.1.now)) result ((declared_top (seen scope.now) role).read s tokens.now) }
{
    let ((head, names), rest) = a_declaration(alloc, scope, role, tokens)?;
    let written = Written {
        head,
        blocks: List::new(alloc),
        names,
    };
    Ok((Top::Function(written), rest))
}

#[tactic(auto, unfolding(crate::specs::Tops::group_top))]
fn group_top<'b>(
    alloc: Global,
    scope: &Scope,
    role: Role,
    tokens: &'b [Token],
) -> Result<(Top, &'b [Token]), Stop>
    ensures { (s : Bool) → Gives (λ x. (x.0, s, x.1.now)) result ((group_top (seen scope.now) role).read s tokens.now) }
{
    let ((group, marks), rest) = a_group(alloc, scope.text, role, tokens)?;
    Ok((Top::Group(group, marks), rest))
}

#[tactic(auto, unfolding(crate::specs::Tops::global_top))]
fn global_top<'b>(
    alloc: Global,
    scope: &Scope,
    tokens: &'b [Token],
) -> Result<(Top, &'b [Token]), Stop>
    ensures { (s : Bool) → Gives (λ x. (x.0, s, x.1.now)) result ((global_top (seen scope.now)).read s tokens.now) }
{
    let (global, rest) = a_global(alloc, scope, tokens)?;
    Ok((Top::Global(global), rest))
}

#[tactic(auto, unfolding(crate::specs::Tops::node_top))]
fn node_top<'b>(scope: &Scope, tokens: &'b [Token]) -> Result<(Top, &'b [Token]), Stop>
    ensures { (s : Bool) → Gives (λ x. (x.0, s, x.1.now)) result ((node_top (seen scope.now)).read s tokens.now) }
{
    let rest = a_node(scope.text, tokens)?;
    Ok((Top::Nothing, rest))
}

/// A form that a word begins, and whether a layout is stated behind it.
#[tactic(auto, unfolding(crate::specs::Tops::worded))]
fn worded<'b>(
    alloc: Global,
    scope: &Scope,
    role: Role,
    stated: bool,
    tokens: &'b [Token],
) -> Result<(Top, bool, &'b [Token]), Stop>
    ensures { Gives (λ x. (x.0, x.1, x.2.now)) result ((worded (seen scope.now) role).read stated tokens.now) }
{
    let (word, rest) = top_word(scope.text, tokens)?;
    if matches!(word, TopWord::Target) {
        return target_top(alloc, scope, stated, rest);
    }
    let (top, rest) = match word {
        TopWord::Source => source_top(scope, rest)?,
        TopWord::Define => function_top(alloc, scope, role, rest)?,
        TopWord::Declare => declared_top(alloc, scope, role, rest)?,
        _ => group_top(alloc, scope, role, rest)?,
    };
    Ok((top, stated, rest))
}

/// One form, and whether a layout is stated behind it.
#[tactic(auto, unfolding(crate::specs::Tops::a_top))]
fn a_top<'b>(
    alloc: Global,
    scope: &Scope,
    role: Role,
    stated: bool,
    tokens: &'b [Token],
) -> Result<(Top, bool, &'b [Token]), Stop>
    ensures { Gives (λ x. (x.0, x.1, x.2.now)) result ((a_top (seen scope.now) role).read stated tokens.now) }
{
    match tokens {
        [token, ..] if is_kind(TokenKind::Global, token) => {
            let (top, rest) = global_top(alloc, scope, tokens)?;
            Ok((top, stated, rest))
        }
        [token, ..] if is_kind(TokenKind::Meta, token) => {
            let (top, rest) = node_top(scope, tokens)?;
            Ok((top, stated, rest))
        }
        _ => worded(alloc, scope, role, stated, tokens),
    }
}

/// One more form, where one begins here.
fn more_tops<'b>(
    alloc: Global,
    scope: &Scope,
    role: Role,
    stated: bool,
    tokens: &'b [Token],
) -> Result<(Option<Top>, bool, &'b [Token]), Stop>
    ensures { Gives (λ x. (x.0, x.1, x.2.now)) result ((more_tops (seen scope.now) role).read stated tokens.now) }
{
    match tokens {
        [token, ..] if begins_top(scope.text, token) => {
            let (top, stated, rest) = a_top(alloc, scope, role, stated, tokens)?;
            Ok((Some(top), stated, rest))
        }
        _ => Ok((None, stated, tokens)),
    }
}

/// One form more.
fn keep(all: &mut Vec<Top>, top: Top) -> Result<(), NoMemory>
    ensures { OnOk result (all.new.items ≡ all.old.items ++ top ∷ []) }
{
    match all.push(top) {
        Ok(()) => Ok(()),
        Err(_) => Err(NoMemory),
    }
}

/// All forms, whether a layout was stated, and the tokens from the first on that begins none.
#[tactic(auto, using(crate::proofs::TopsLaws::tops_begin))]
pub(crate) fn tops<'b>(
    alloc: Global,
    scope: &Scope,
    role: Role,
    tokens: &'b [Token],
) -> Result<(Vec<Top>, bool, &'b [Token]), Stop>
    ensures { Gives (λ x. (x.0.items, x.1, x.2.now)) result (repeat_all (more_tops (seen scope.now) role) false tokens.now) }
{
    let mut all = Vec::new(alloc);
    let mut stated = false;
    let mut rest = tokens;
    loop {
        let (top, now, after) = more_tops(alloc, scope, role, stated, rest)?;
        match top {
            None => return Ok((all, now, after)),
            Some(top) => {
                keep(&mut all, top)?;
                stated = now;
                rest = after;
            }
        }
    }
}
