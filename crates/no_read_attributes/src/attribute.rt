ghost use Rattle.std.specs.Prelude.{ℕ, List, ◌≡◌, ◌≤◌, codes, bytes_eq, true};
ghost use Rattle.no_read_rules.specs.Rules.{Gives, valued, passed, plain, Good};
ghost use Rattle.no_read_attributes.specs.Attributes.{is_alignment, aligned, alignment_of, begins_attribute, attribute_head, align_tail, string_of, value_tail, after_head, an_attribute, more_attribute, may_go_on, skip_attributes, attribute_marks};
ghost use Rattle.no_ir.specs.declared.function.Role.{Role};
ghost use Rattle.no_read_attributes.specs.Brackets.{behind_close, to_close, bracketed};

use crate::words::{is_attribute_word, is_record};
use no_lex::{Token, TokenKind};
use no_read_rules::{Flaw, Stop, decimal, fault_at, is_kind, is_sign, skip_sign, spelled, syntax};

/// One attribute, as far as it counts.
#[derive(Clone, Copy, Debug, PartialEq, Eq)]
pub enum Attribute {
    /// A word alone.
    Word,
    /// The word `align` alone.
    Align,
    /// A word with a bracketed group, or `align` with a number.
    Closed,
    /// A string alone.
    Text(Token),
    /// A string and its value.
    Pair(Token, Token),
    /// The name of a group.
    Group(Token),
}

/// What an attribute begins with.
#[derive(Clone, Copy, Debug, PartialEq, Eq)]
pub enum AttributeHead {
    Word,
    Align,
    Text(Token),
    Group(Token),
}

fn is_alignment(number: u64) -> bool
    ensures is { result ≡ is_alignment number }
    ensures small { result ≡ true → number ≤ 65536 }
{
    match number {
        1
        | 2
        | 4
        | 8
        | 16
        | 32
        | 64
        | 128
        | 256
        | 512
        | 1024
        | 2048
        | 4096
        | 8192
        | 16384
        | 32768
        | 65536 => true,
        _ => false,
    }
}

fn aligned(number: Option<u64>) -> Result<u32, Flaw>
    ensures { result ≡ aligned number }
{
    match number {
        Some(number) if is_alignment(number) => Ok(number as u32),
        _ => Err(Flaw::Number),
    }
}

/// The number of an alignment, a power of two up to 65,536.
pub fn alignment<'b>(text: &[u8], tokens: &'b [Token]) -> Result<(u32, &'b [Token]), Stop>
    ensures { Gives (λ x. valued x.0 x.1.now) result ((plain (alignment_of text.now)).read tt tokens.now) }
{
    match tokens {
        [token, rest @ ..] if is_kind(TokenKind::Integer, token) => match aligned(decimal(
            65536,
            spelled(text, token),
        )) {
            Ok(number) => Ok((number, rest)),
            Err(flaw) => Err(fault_at(flaw, tokens)),
        },
        _ => Err(syntax(tokens)),
    }
}

/// Behind the bracket that closes the one before these tokens.
#[tactic(auto, using(crate::proofs::BracketLaws::opens_more, crate::proofs::BracketLaws::closes_last, crate::proofs::BracketLaws::closes_one, crate::proofs::BracketLaws::passes, crate::proofs::BracketLaws::runs_out))]
fn to_close<'b>(
    text: &[u8],
    opener: &[u8],
    closer: &[u8],
    tokens: &'b [Token],
) -> Result<&'b [Token], Stop>
    ensures { Gives (λ rest. passed rest.now) result ((to_close text.now opener.now closer.now).read tt tokens.now) }
{
    let mut depth = 0usize;
    let mut rest = tokens;
    while let [token, more @ ..] = rest {
        if is_sign(text, opener, token) {
            depth += 1;
        } else if is_sign(text, closer, token) {
            if depth == 0 {
                return Ok(more);
            }
            depth -= 1;
        }
        rest = more;
    }
    Err(syntax(rest))
}

/// Behind a bracket, what stands inside, and the bracket that closes it.
#[tactic(auto, unfolding(crate::specs::Brackets::bracketed))]
pub fn skip_bracketed<'b>(
    text: &[u8],
    opener: &[u8],
    closer: &[u8],
    tokens: &'b [Token],
) -> Result<&'b [Token], Stop>
    ensures { Gives (λ rest. passed rest.now) result ((bracketed text.now opener.now closer.now).read tt tokens.now) }
{
    let rest = skip_sign(text, opener, tokens)?;
    to_close(text, opener, closer, rest)
}

/// Whether an attribute begins with this token.
pub fn begins_attribute(text: &[u8], token: &Token) -> bool
    ensures { result ≡ begins_attribute text.now token.now }
{
    match token.kind {
        TokenKind::Word => is_attribute_word(spelled(text, token)),
        TokenKind::Quoted => true,
        TokenKind::Group => !is_record(spelled(text, token)),
        _ => false,
    }
}

fn is_align(word: &[u8]) -> bool
    ensures { result ≡ bytes_eq word.now (codes "align") }
{
    word == b"align".as_slice()
}

fn head_of(text: &[u8], token: &Token) -> Result<AttributeHead, Flaw>
    ensures { result ≡ attribute_head text.now token.now }
{
    let spelling = spelled(text, token);
    match token.kind {
        TokenKind::Word if is_attribute_word(spelling) => Ok(if is_align(spelling) {
            AttributeHead::Align
        } else {
            AttributeHead::Word
        }),
        TokenKind::Quoted => Ok(AttributeHead::Text(*token)),
        TokenKind::Group if !is_record(spelling) => Ok(AttributeHead::Group(*token)),
        _ => Err(Flaw::Syntax),
    }
}

fn attribute_head<'b>(
    text: &[u8],
    tokens: &'b [Token],
) -> Result<(AttributeHead, &'b [Token]), Stop>
    ensures { Gives (λ x. valued x.0 x.1.now) result ((plain (attribute_head text.now)).read tt tokens.now) }
{
    match tokens {
        [] => Err(syntax(tokens)),
        [token, rest @ ..] => match head_of(text, token) {
            Ok(head) => Ok((head, rest)),
            Err(flaw) => Err(fault_at(flaw, tokens)),
        },
    }
}

/// Behind `align`: a number, or a bracketed group.
#[tactic(auto, unfolding(crate::specs::Attributes::align_tail))]
fn align_tail<'b>(text: &[u8], tokens: &'b [Token]) -> Result<&'b [Token], Stop>
    ensures { Gives (λ rest. passed rest.now) result ((align_tail text.now).read tt tokens.now) }
{
    match tokens {
        [token, ..] if is_kind(TokenKind::Integer, token) => {
            let (_, rest) = alignment(text, tokens)?;
            Ok(rest)
        }
        _ => skip_bracketed(text, b"(", b")", tokens),
    }
}

/// A string.
pub fn string<'b>(text: &[u8], tokens: &'b [Token]) -> Result<(Token, &'b [Token]), Stop>
    ensures { Gives (λ x. valued x.0 x.1.now) result ((plain (string_of text.now)).read tt tokens.now) }
{
    match tokens {
        [token, rest @ ..] if is_kind(TokenKind::Quoted, token) => Ok((*token, rest)),
        _ => Err(syntax(tokens)),
    }
}

/// Behind a string: its value.
#[tactic(auto, unfolding(crate::specs::Attributes::value_tail))]
fn value_tail<'b>(text: &[u8], tokens: &'b [Token]) -> Result<(Token, &'b [Token]), Stop>
    ensures { Gives (λ x. valued x.0 x.1.now) result ((value_tail text.now).read tt tokens.now) }
{
    let rest = skip_sign(text, b"=", tokens)?;
    let (value, rest) = string(text, rest)?;
    Ok((value, rest))
}

fn after_word<'b>(text: &[u8], tokens: &'b [Token]) -> Result<(Attribute, &'b [Token]), Stop>
    ensures { Gives (λ x. valued x.0 x.1.now) result ((after_head text.now AttributeHead.Word).read tt tokens.now) }
{
    match tokens {
        [token, ..] if is_sign(text, b"(", token) => {
            let rest = skip_bracketed(text, b"(", b")", tokens)?;
            Ok((Attribute::Closed, rest))
        }
        _ => Ok((Attribute::Word, tokens)),
    }
}

fn after_align<'b>(text: &[u8], tokens: &'b [Token]) -> Result<(Attribute, &'b [Token]), Stop>
    ensures { Gives (λ x. valued x.0 x.1.now) result ((after_head text.now AttributeHead.Align).read tt tokens.now) }
{
    match tokens {
        [token, ..] if is_kind(TokenKind::Integer, token) || is_sign(text, b"(", token) => {
            let rest = align_tail(text, tokens)?;
            Ok((Attribute::Closed, rest))
        }
        _ => Ok((Attribute::Align, tokens)),
    }
}

fn after_text<'b>(
    text: &[u8],
    key: Token,
    tokens: &'b [Token],
) -> Result<(Attribute, &'b [Token]), Stop>
    ensures { Gives (λ x. valued x.0 x.1.now) result ((after_head text.now (AttributeHead.Text key)).read tt tokens.now) }
{
    match tokens {
        [token, ..] if is_sign(text, b"=", token) => {
            let (value, rest) = value_tail(text, tokens)?;
            Ok((Attribute::Pair(key, value), rest))
        }
        _ => Ok((Attribute::Text(key), tokens)),
    }
}

/// A word with an optional bracketed group, `align` with a number, a string with an optional value, or the name of a group.
#[tactic(auto, unfolding(crate::specs::Attributes::an_attribute))]
fn an_attribute<'b>(text: &[u8], tokens: &'b [Token]) -> Result<(Attribute, &'b [Token]), Stop>
    ensures { Gives (λ x. valued x.0 x.1.now) result ((an_attribute text.now).read tt tokens.now) }
{
    let (head, rest) = attribute_head(text, tokens)?;
    match head {
        AttributeHead::Word => after_word(text, rest),
        AttributeHead::Align => after_align(text, rest),
        AttributeHead::Text(key) => after_text(text, key, rest),
        AttributeHead::Group(group) => Ok((Attribute::Group(group), rest)),
    }
}

/// One more attribute, if one stands here.
pub(crate) fn more_attribute<'b>(
    text: &[u8],
    tokens: &'b [Token],
) -> Result<(Option<Attribute>, &'b [Token]), Stop>
    ensures { Gives (λ x. valued x.0 x.1.now) result ((more_attribute text.now).read tt tokens.now) }
{
    match tokens {
        [token, ..] if begins_attribute(text, token) => {
            let (attribute, rest) = an_attribute(text, tokens)?;
            Ok((Some(attribute), rest))
        }
        _ => Ok((None, tokens)),
    }
}

/// Behind all attributes that stand here.
#[tactic(auto, using(crate::proofs::AttributeLaws::skip_fail, crate::proofs::AttributeLaws::skip_stop, crate::proofs::AttributeLaws::skip_go, crate::proofs::AttributeLaws::falls))]
pub fn skip_attributes<'b>(text: &[u8], tokens: &'b [Token]) -> Result<&'b [Token], Stop>
    ensures { Gives (λ rest. passed rest.now) result ((skip_attributes text.now).read tt tokens.now) }
{
    let mut rest = tokens;
    loop {
        let (item, after) = more_attribute(text, rest)?;
        match item {
            None => return Ok(after),
            Some(_) => rest = after,
        }
    }
}

/// Attributes are read exactly: those that have an effect are kept, the list is as long as it can be, and what tokens mean is read from them.
#[tactic(auto, using(crate::proofs::AttributeLaws::marks_good))]
pub fn attributes_are_exact()
    ensures { (text : List ℕ) (role : Role) → Good (may_go_on text) (attribute_marks text role) }
{}

/// So are attributes that have none.
#[tactic(auto, using(crate::proofs::AttributeLaws::skip_good))]
pub fn skipped_attributes_are_exact()
    ensures { (text : List ℕ) → Good (may_go_on text) (skip_attributes text) }
{}
