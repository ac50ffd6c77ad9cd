ghost use Rattle.std.specs.Prelude.{ℕ, List, ◌≡◌, codes};
ghost use Rattle.no_lex.specs.declared.token.Token.{Token};
ghost use Rattle.no_read_rules.specs.Rules.{Gives, valued, passed, plain, Good};
ghost use Rattle.no_read_rules.specs.Scope.{Meaning, seen};
ghost use Rattle.no_read_constants.specs.Skipped.{skip_while, behind};
ghost use Rattle.no_read_attributes.specs.Words.{is_one, is_node};
ghost use Rattle.no_read_toplevel.specs.Globals.{idle_words, is_idle, constant_of, is_metadata, metadata_of, tail_head, after_tail_head, a_tail, is_comma, more_tail, latest, tails, a_global};
ghost use Rattle.no_read_attributes.specs.Symbols.{symbol_name};

use no_ir::GlobalVar;
use no_lex::{Token, TokenKind};
use no_read_attributes::{alignment, is_node, is_one, string, symbol_name};
use no_read_constants::a_const;
use no_read_rules::{
    Flaw, Scope, Stop, a_type, fault_at, is_kind, is_sign, is_word, skip_sign, spelled, syntax,
};
use std::alloc::Global;

/// Linkage, visibility and calling conventions.
const IDLE_WORDS: [&[u8]; 17] = [
    b"private",
    b"internal",
    b"common",
    b"weak",
    b"weak_odr",
    b"linkonce",
    b"linkonce_odr",
    b"available_externally",
    b"dso_local",
    b"default",
    b"hidden",
    b"protected",
    b"unnamed_addr",
    b"local_unnamed_addr",
    b"ccc",
    b"fastcc",
    b"coldcc",
];

fn is_idle_word(word: &[u8]) -> bool
    ensures { result ≡ is_one idle_words word.now }
{
    is_one(&IDLE_WORDS, word)
}

/// Whether a token is a word that has no effect.
fn is_idle(text: &[u8], token: &Token) -> bool
    ensures { result ≡ is_idle text.now token.now }
{
    is_kind(TokenKind::Word, token) && is_idle_word(spelled(text, token))
}

fn skip_idle<'b>(text: &[u8], tokens: &'b [Token]) -> &'b [Token]
    ensures { result.now ≡ skip_while (is_idle text.now) tokens.now }
{
    let mut rest = tokens;
    while let [token, more @ ..] = rest {
        if !is_idle(text, token) {
            break;
        }
        rest = more;
    }
    rest
}

/// Whether a global is a constant.
fn constant<'b>(text: &[u8], tokens: &'b [Token]) -> Result<(bool, &'b [Token]), Stop>
    ensures { Gives (λ x. valued x.0 x.1.now) result ((plain (constant_of text.now)).read tt tokens.now) }
{
    match tokens {
        [token, rest @ ..] if is_word(text, b"constant", token) => Ok((true, rest)),
        [token, rest @ ..] if is_word(text, b"global", token) => Ok((false, rest)),
        _ => Err(syntax(tokens)),
    }
}

fn is_metadata(text: &[u8], token: &Token) -> bool
    ensures { result ≡ is_metadata text.now token.now }
{
    let spelling = spelled(text, token);
    is_kind(TokenKind::Meta, token) && spelling.len() > 1 && !is_node(spelling)
}

/// Behind the name of metadata.
pub(crate) fn metadata<'b>(text: &[u8], tokens: &'b [Token]) -> Result<&'b [Token], Stop>
    ensures { Gives (λ rest. passed rest.now) result ((plain (metadata_of text.now)).read tt tokens.now) }
{
    match tokens {
        [token, rest @ ..] if is_metadata(text, token) => Ok(rest),
        _ => Err(syntax(tokens)),
    }
}

/// What stands behind a comma after a global.
#[derive(Clone, Copy, Debug, PartialEq, Eq)]
pub enum TailHead {
    Align,
    Section,
    Attachment,
}

fn head_of(text: &[u8], token: &Token) -> Result<TailHead, Flaw>
    ensures { result ≡ tail_head text.now token.now }
{
    if is_word(text, b"align", token) {
        Ok(TailHead::Align)
    } else if is_word(text, b"section", token) {
        Ok(TailHead::Section)
    } else if is_metadata(text, token) {
        Ok(TailHead::Attachment)
    } else {
        Err(Flaw::Syntax)
    }
}

fn tail_head<'b>(text: &[u8], tokens: &'b [Token]) -> Result<(TailHead, &'b [Token]), Stop>
    ensures { Gives (λ x. valued x.0 x.1.now) result ((plain (tail_head text.now)).read tt tokens.now) }
{
    match tokens {
        [] => Err(syntax(tokens)),
        [token, rest @ ..] => match head_of(text, token) {
            Ok(head) => Ok((head, rest)),
            Err(flaw) => Err(fault_at(flaw, tokens)),
        },
    }
}

fn after_tail_head<'b>(
    text: &[u8],
    head: TailHead,
    tokens: &'b [Token],
) -> Result<(Option<u32>, &'b [Token]), Stop>
    ensures { Gives (λ x. valued x.0 x.1.now) result ((after_tail_head text.now head).read tt tokens.now) }
{
    match head {
        TailHead::Align => {
            let (number, rest) = alignment(text, tokens)?;
            Ok((Some(number), rest))
        }
        TailHead::Section => {
            let (_, rest) = string(text, tokens)?;
            Ok((None, rest))
        }
        TailHead::Attachment => {
            let rest = metadata(text, tokens)?;
            Ok((None, rest))
        }
    }
}

#[tactic(auto, unfolding(crate::specs::Globals::a_tail))]
fn a_tail<'b>(text: &[u8], tokens: &'b [Token]) -> Result<(Option<u32>, &'b [Token]), Stop>
    ensures { Gives (λ x. valued x.0 x.1.now) result ((a_tail text.now).read tt tokens.now) }
{
    let rest = skip_sign(text, b",", tokens)?;
    let (head, rest) = tail_head(text, rest)?;
    let (align, rest) = after_tail_head(text, head, rest)?;
    Ok((align, rest))
}

fn more_tail<'b>(
    text: &[u8],
    tokens: &'b [Token],
) -> Result<(Option<Option<u32>>, &'b [Token]), Stop>
    ensures { Gives (λ x. valued x.0 x.1.now) result ((more_tail text.now).read tt tokens.now) }
{
    match tokens {
        [token, ..] if is_sign(text, b",", token) => {
            let (align, rest) = a_tail(text, tokens)?;
            Ok((Some(align), rest))
        }
        _ => Ok((None, tokens)),
    }
}

fn latest(found: Option<u32>, align: Option<u32>) -> Option<u32>
    ensures { result ≡ latest found align }
{
    match align {
        Some(number) => Some(number),
        None => found,
    }
}

/// Alignment, section and attachments in any order and number, of which the last alignment counts.
fn tails<'b>(text: &[u8], tokens: &'b [Token]) -> Result<(Option<u32>, &'b [Token]), Stop>
    ensures { Gives (λ x. valued x.0 x.1.now) result ((tails text.now).read tt tokens.now) }
{
    let mut found = None;
    let mut rest = tokens;
    loop {
        let (item, after) = more_tail(text, rest)?;
        match item {
            None => return Ok((found, after)),
            Some(align) => {
                found = latest(found, align);
                rest = after;
            }
        }
    }
}

/// A global variable: its name, the words that have no effect, its type and its first value, and what stands behind it.
#[tactic(auto, unfolding(crate::specs::Globals::a_global))]
pub fn a_global<'b>(
    alloc: Global,
    scope: &Scope,
    tokens: &'b [Token],
) -> Result<(GlobalVar, &'b [Token]), Stop>
    ensures { Gives (λ x. valued x.0 x.1.now) result ((a_global (seen scope.now)).read tt tokens.now) }
{
    let (name, rest) = symbol_name(alloc, scope.text, tokens)?;
    let rest = skip_sign(scope.text, b"=", rest)?;
    let (constant, rest) = constant(scope.text, skip_idle(scope.text, rest))?;
    let (ty, rest) = a_type(alloc, scope, 64, rest)?;
    let (init, rest) = a_const(alloc, scope, &ty, 64, rest)?;
    let (align, rest) = tails(scope.text, rest)?;
    Ok((
        GlobalVar {
            name,
            constant,
            ty,
            init,
            align,
        },
        rest,
    ))
}

/// Globals are read exactly: what was read is meant by the tokens that were taken, and what tokens mean is read from them.
#[tactic(auto, using(crate::proofs::GlobalLaws::a_global_good))]
pub fn globals_are_exact()
    ensures { (m : Meaning) → Good (is_comma m.text) (a_global m) }
{}

/// At most one global is meant by a list of tokens.
#[tactic(auto, using(crate::proofs::GlobalLaws::one_global))]
pub fn at_most_one_global()
    ensures { (m : Meaning) (tokens : List Token) (a b : GlobalVar) → (a_global m).means tt tokens a tt → (a_global m).means tt tokens b tt → a ≡ b }
{}
