ghost use Rattle.no_ir.specs.declared.types.Ty.{Ty};
ghost use Rattle.no_lex.specs.declared.token.Token.{Token};
ghost use Rattle.std.specs.Prelude.{ℕ, List, ◌≡◌, ◌∷◌, [], codes, map, IfOk};
ghost use Rattle.no_read_rules.specs.Lists.{more_item, some_items, items};
ghost use Rattle.no_read_rules.specs.Repeated.{repeat_all, with_front};
ghost use Rattle.no_read_rules.specs.Rules.{none, Good, Gives, valued, plain, checked};
ghost use Rattle.no_read_rules.specs.Scope.{Meaning, seen};
ghost use Rattle.no_read_rules.specs.Types.{word_type, sign_type, named_type, number_in, type_head, leaf_of, count_token, array_parts, struct_parts, packed_parts, a_type};

use crate::lists::closes_list;
use crate::names::number_in;
use crate::numbers::count_of;
use crate::step::{fault_at, is_kind, is_sign, skip_sign, skip_word, spelled, syntax};
use crate::{Flaw, Scope, Stop};
use no_ir::{Boxed, List, NoMemory, Ty};
use no_lex::{Token, TokenKind};
use std::alloc::Global;

/// What the first token of a type begins.
#[derive(Clone, Copy, Debug, PartialEq, Eq)]
pub enum TypeHead {
    Int(u8),
    Ptr,
    Named(u32),
    Array,
    Struct,
    Packed,
}

/// What a word begins as a type.
pub fn word_type(word: &[u8]) -> Result<TypeHead, Flaw>
    ensures { result ≡ word_type word.now }
{
    match word {
        b"i1" => Ok(TypeHead::Int(1)),
        b"i8" => Ok(TypeHead::Int(8)),
        b"i16" => Ok(TypeHead::Int(16)),
        b"i32" => Ok(TypeHead::Int(32)),
        b"i64" => Ok(TypeHead::Int(64)),
        b"ptr" => Ok(TypeHead::Ptr),
        b"label" => Err(Flaw::LeftOut),
        _ => Err(Flaw::Syntax),
    }
}

fn sign_type(sign: &[u8]) -> Result<TypeHead, Flaw>
    ensures { result ≡ sign_type sign.now }
{
    match sign {
        b"[" => Ok(TypeHead::Array),
        b"{" => Ok(TypeHead::Struct),
        b"<" => Ok(TypeHead::Packed),
        _ => Err(Flaw::Syntax),
    }
}

fn named_type(
    alloc: Global,
    scope: &Scope,
    spelling: &[u8],
) -> Result<Result<TypeHead, Flaw>, NoMemory>
    ensures { IfOk result (λ head. head ≡ named_type (number_in (seen scope.now).named spelling.now)) }
{
    match number_in(alloc, scope.named, spelling)? {
        None => Ok(Err(Flaw::Syntax)),
        Some(number) => match u32::try_from(number) {
            Ok(number) => Ok(Ok(TypeHead::Named(number))),
            Err(_) => Err(NoMemory),
        },
    }
}

fn head_of(alloc: Global, scope: &Scope, token: &Token) -> Result<Result<TypeHead, Flaw>, NoMemory>
    ensures { IfOk result (λ head. head ≡ type_head (seen scope.now) token.now) }
{
    let spelling = spelled(scope.text, token);
    match token.kind {
        TokenKind::Word => Ok(word_type(spelling)),
        TokenKind::Sign => Ok(sign_type(spelling)),
        TokenKind::Local => named_type(alloc, scope, spelling),
        _ => Ok(Err(Flaw::Syntax)),
    }
}

fn type_head<'b>(
    alloc: Global,
    scope: &Scope,
    tokens: &'b [Token],
) -> Result<(TypeHead, &'b [Token]), Stop>
    ensures { Gives (λ x. valued x.0 x.1.now) result ((plain (type_head (seen scope.now))).read tt tokens.now) }
{
    match tokens {
        [] => Err(syntax(tokens)),
        [token, rest @ ..] => match head_of(alloc, scope, token)? {
            Ok(head) => Ok((head, rest)),
            Err(flaw) => Err(fault_at(flaw, tokens)),
        },
    }
}

fn count<'b>(scope: &Scope, tokens: &'b [Token]) -> Result<(u64, &'b [Token]), Stop>
    ensures { Gives (λ x. valued x.0 x.1.now) result ((plain (count_token (seen scope.now).text)).read tt tokens.now) }
{
    match tokens {
        [token, rest @ ..] if is_kind(TokenKind::Integer, token) => match count_of(spelled(
            scope.text, token,
        )) {
            Ok(count) => Ok((count, rest)),
            Err(flaw) => Err(fault_at(flaw, tokens)),
        },
        _ => Err(syntax(tokens)),
    }
}

/// A type without brackets.
fn leaf<'b>(alloc: Global, scope: &Scope, tokens: &'b [Token]) -> Result<(Ty, &'b [Token]), Stop>
    ensures { Gives (λ x. valued x.0 x.1.now) result ((checked (plain (type_head (seen scope.now))) leaf_of).read tt tokens.now) }
{
    let (head, rest) = type_head(alloc, scope, tokens)?;
    match head {
        TypeHead::Int(width) => Ok((Ty::Int(width), rest)),
        TypeHead::Ptr => Ok((Ty::Ptr, rest)),
        TypeHead::Named(number) => Ok((Ty::Named(number), rest)),
        TypeHead::Array | TypeHead::Struct | TypeHead::Packed => Err(syntax(tokens)),
    }
}

/// A type in which so many brackets may stand one in another.
#[cycle(types)]
#[tactic(auto, using(crate::proofs::Depths::type_none, crate::proofs::Depths::type_more))]
pub fn a_type<'b>(
    alloc: Global,
    scope: &Scope,
    depth: u32,
    tokens: &'b [Token],
) -> Result<(Ty, &'b [Token]), Stop>
    ensures { Gives (λ x. valued x.0 x.1.now) result ((a_type (seen scope.now) depth).read tt tokens.now) }
{
    if depth == 0 {
        return leaf(alloc, scope, tokens);
    }
    let (head, rest) = type_head(alloc, scope, tokens)?;
    match head {
        TypeHead::Int(width) => Ok((Ty::Int(width), rest)),
        TypeHead::Ptr => Ok((Ty::Ptr, rest)),
        TypeHead::Named(number) => Ok((Ty::Named(number), rest)),
        TypeHead::Array => array_parts(alloc, scope, depth - 1, rest),
        TypeHead::Struct => struct_parts(alloc, scope, depth - 1, rest),
        TypeHead::Packed => packed_parts(alloc, scope, depth - 1, rest),
    }
}

#[cycle(types)]
#[tactic(auto, unfolding(crate::specs::Types::array_parts))]
fn array_parts<'b>(
    alloc: Global,
    scope: &Scope,
    depth: u32,
    tokens: &'b [Token],
) -> Result<(Ty, &'b [Token]), Stop>
    ensures { Gives (λ x. valued x.0 x.1.now) result ((array_parts (seen scope.now) (a_type (seen scope.now) depth)).read tt tokens.now) }
{
    let (count, rest) = count(scope, tokens)?;
    let rest = skip_word(scope.text, b"x", rest)?;
    let (element, rest) = a_type(alloc, scope, depth, rest)?;
    let rest = skip_sign(scope.text, b"]", rest)?;
    Ok((Ty::Array(count, Boxed::new(alloc, element)?), rest))
}

#[cycle(types)]
#[tactic(auto, unfolding(crate::specs::Types::struct_parts))]
fn struct_parts<'b>(
    alloc: Global,
    scope: &Scope,
    depth: u32,
    tokens: &'b [Token],
) -> Result<(Ty, &'b [Token]), Stop>
    ensures { Gives (λ x. valued x.0 x.1.now) result ((struct_parts (seen scope.now) (a_type (seen scope.now) depth)).read tt tokens.now) }
{
    let (fields, rest) = fields(alloc, scope, depth, tokens)?;
    Ok((Ty::Struct(false, fields), rest))
}

#[cycle(types)]
#[tactic(auto, unfolding(crate::specs::Types::packed_parts))]
fn packed_parts<'b>(
    alloc: Global,
    scope: &Scope,
    depth: u32,
    tokens: &'b [Token],
) -> Result<(Ty, &'b [Token]), Stop>
    ensures { Gives (λ x. valued x.0 x.1.now) result ((packed_parts (seen scope.now) (a_type (seen scope.now) depth)).read tt tokens.now) }
{
    let rest = skip_sign(scope.text, b"{", tokens)?;
    let (fields, rest) = fields(alloc, scope, depth, rest)?;
    let rest = skip_sign(scope.text, b">", rest)?;
    Ok((Ty::Struct(true, fields), rest))
}

/// The fields of a struct, and its closing bracket.
#[cycle(types)]
#[tactic(auto, unfolding(crate::specs::Lists::items, crate::specs::Lists::no_items, crate::specs::Lists::some_items))]
fn fields<'b>(
    alloc: Global,
    scope: &Scope,
    depth: u32,
    tokens: &'b [Token],
) -> Result<(List<Ty>, &'b [Token]), Stop>
    ensures { Gives (λ x. valued x.0 x.1.now) result ((items (seen scope.now).text (codes "}") (a_type (seen scope.now) depth)).read tt tokens.now) }
{
    match tokens {
        [token, rest @ ..] if is_sign(scope.text, b"}", token) => Ok((List::new(alloc), rest)),
        _ => some_fields(alloc, scope, depth, tokens),
    }
}

#[cycle(types)]
#[tactic(auto, unfolding(crate::specs::Lists::some_items))]
fn some_fields<'b>(
    alloc: Global,
    scope: &Scope,
    depth: u32,
    tokens: &'b [Token],
) -> Result<(List<Ty>, &'b [Token]), Stop>
    ensures { Gives (λ x. valued x.0 x.1.now) result ((some_items (seen scope.now).text (codes "}") (a_type (seen scope.now) depth)).read tt tokens.now) }
{
    let (first, rest) = a_type(alloc, scope, depth, tokens)?;
    more_fields(alloc, scope, depth, first, rest)
}

/// The fields behind the first.
#[cycle(types)]
fn more_fields<'b>(
    alloc: Global,
    scope: &Scope,
    depth: u32,
    first: Ty,
    tokens: &'b [Token],
) -> Result<(List<Ty>, &'b [Token]), Stop>
    ensures { Gives (λ x. valued x.0 x.1.now) result (with_front (first ∷ []) (repeat_all (more_item (seen scope.now).text (codes "}") (a_type (seen scope.now) depth)) tt tokens.now)) }
{
    let mut all = List::new(alloc);
    all.push(first)?;
    let mut rest = tokens;
    loop {
        let (item, after) = more_field(alloc, scope, depth, rest)?;
        match item {
            None => return Ok((all, after)),
            Some(field) => {
                all.push(field)?;
                rest = after;
            }
        }
    }
}

#[cycle(types)]
#[tactic(auto, unfolding(crate::specs::Lists::more_item))]
fn more_field<'b>(
    alloc: Global,
    scope: &Scope,
    depth: u32,
    tokens: &'b [Token],
) -> Result<(Option<Ty>, &'b [Token]), Stop>
    ensures { Gives (λ x. valued x.0 x.1.now) result ((more_item (seen scope.now).text (codes "}") (a_type (seen scope.now) depth)).read tt tokens.now) }
{
    let (closes, rest) = closes_list(scope.text, b"}", tokens)?;
    if closes {
        return Ok((None, rest));
    }
    let (field, rest) = a_type(alloc, scope, depth, rest)?;
    Ok((Some(field), rest))
}

/// Types are read exactly: what was read is meant by the tokens that were taken, and what tokens mean is read from them.
#[tactic(auto, using(crate::proofs::TypeLaws::type_good))]
pub fn types_are_exact()
    ensures { (m : Meaning) (depth : ℕ) → Good none (a_type m depth) }
{}

/// At most one type is meant by a list of tokens.
#[tactic(auto, using(crate::proofs::TypeLaws::one_type))]
pub fn at_most_one_type()
    ensures { (m : Meaning) (depth : ℕ) (tokens : List Token) (a b : Ty) → (a_type m depth).means tt tokens a tt → (a_type m depth).means tt tokens b tt → a ≡ b }
{}
