ghost use Rattle.std.specs.Prelude.{◌≡◌, ◌<◌, ◌≤◌, ◌^◌, ◌∷◌, [], codes, drop, IfOk, IfSome};
ghost use mir.Syntax.{w64};
ghost use mir.Val.{SFits};
ghost use Rattle.no_read_rules.specs.Lists.{more_item};
ghost use Rattle.no_read_rules.specs.Repeated.{repeat_all, with_front};
ghost use Rattle.no_read_rules.specs.Rules.{Gives, valued, passed, plain};
ghost use Rattle.no_read_rules.specs.Scope.{seen};
ghost use Rattle.no_read_rules.specs.Types.{word_type};
ghost use Rattle.no_read_rules.specs.Unescaped.{name_of};
ghost use Rattle.no_read_constants.specs.Places.{symbol_named, symbol_of, int_width, width_of, truth_at, number_by, number_at, is_flag, an_index, indices, gep_parts, place_head, after_place_head, a_place, begins_place};
ghost use Rattle.no_read_constants.specs.Skipped.{skip_while};

use no_eval::signed;
use no_ir::{Bytes, List, NoMemory, Place, Symbol, Ty};
use no_lex::{Token, TokenKind};
use no_read_rules::{
    Flaw, Scope, Stop, TypeHead, a_type, closes_list, fault_at, integer_at, is_kind, is_word,
    name_of, skip_sign, skip_word, spelled, syntax, word_type,
};
use std::alloc::Global;

/// What a place begins with.
pub enum PlaceHead {
    /// A name alone.
    Bare(Symbol),
    /// A constant `getelementptr`.
    Gep,
}

fn symbol_named(alloc: Global, scope: &Scope, spelling: &[u8]) -> Result<Symbol, NoMemory>
    ensures { IfOk result (λ s. s ≡ symbol_named (seen scope.now) (name_of spelling.now)) }
{
    let name = name_of(alloc, spelling)?;
    known_symbol(scope, name)
}

fn known_symbol(scope: &Scope, name: Bytes) -> Result<Symbol, NoMemory>
    ensures { IfOk result (λ s. s ≡ symbol_named (seen scope.now) name) }
{
    match scope.globals.find(name.as_slice()) {
        Some(number) => match u32::try_from(number) {
            Ok(number) => Ok(Symbol::Global(number)),
            Err(_) => Err(NoMemory),
        },
        None => match scope.functions.find(name.as_slice()) {
            Some(number) => match u32::try_from(number) {
                Ok(number) => Ok(Symbol::Function(number)),
                Err(_) => Err(NoMemory),
            },
            None => Ok(Symbol::Unknown(name)),
        },
    }
}

fn body_of(spelling: &[u8]) -> &[u8]
    ensures { result.now ≡ drop 1 spelling.now }
{
    match spelling {
        [_, body @ ..] => body,
        [] => spelling,
    }
}

/// The symbol that a name of a global or a function means.
pub fn symbol<'b>(
    alloc: Global,
    scope: &Scope,
    tokens: &'b [Token],
) -> Result<(Symbol, &'b [Token]), Stop>
    ensures { Gives (λ x. valued x.0 x.1.now) result ((plain (symbol_of (seen scope.now))).read tt tokens.now) }
{
    match tokens {
        [token, rest @ ..] if is_kind(TokenKind::Global, token) => {
            let symbol = symbol_named(alloc, scope, body_of(spelled(scope.text, token)))?;
            Ok((symbol, rest))
        }
        _ => Err(syntax(tokens)),
    }
}

fn int_width(word: &[u8]) -> Result<u8, Flaw>
    ensures { result ≡ int_width (word_type word.now) }
{
    match word_type(word) {
        Ok(TypeHead::Int(width)) => Ok(width),
        Ok(_) => Err(Flaw::Syntax),
        Err(flaw) => Err(flaw),
    }
}

/// An integer type, of which the width alone counts.
pub fn width_of<'b>(text: &[u8], tokens: &'b [Token]) -> Result<(u8, &'b [Token]), Stop>
    ensures { Gives (λ x. valued x.0 x.1.now) result ((plain (width_of text.now)).read tt tokens.now) }
{
    match tokens {
        [token, rest @ ..] if is_kind(TokenKind::Word, token) => match int_width(spelled(
            text, token,
        )) {
            Ok(width) => Ok((width, rest)),
            Err(flaw) => Err(fault_at(flaw, tokens)),
        },
        _ => Err(syntax(tokens)),
    }
}

pub(crate) fn truth_at(width: u8, word: &[u8]) -> Result<u64, Flaw>
    ensures is { result ≡ truth_at width word.now }
    ensures below { IfOk result (λ n. (0 < width) × (width ≤ 64) × (n < 2 ^ width)) }
{
    match word {
        b"true" if width == 1 => Ok(1),
        b"false" if width == 1 => Ok(0),
        _ => Err(Flaw::Syntax),
    }
}

fn number_by(width: u8, kind: TokenKind, spelling: &[u8]) -> Result<u64, Flaw>
    ensures is { result ≡ number_by width kind spelling.now }
    ensures below { IfOk result (λ n. (0 < width) × (width ≤ 64) × (n < 2 ^ width)) }
{
    match kind {
        TokenKind::Integer => integer_at(width, spelling),
        TokenKind::Word => truth_at(width, spelling),
        _ => Err(Flaw::Syntax),
    }
}

/// A number written at an integer type of this width.
pub fn number_at<'b>(
    text: &[u8],
    width: u8,
    tokens: &'b [Token],
) -> Result<(u64, &'b [Token]), Stop>
    ensures is { Gives (λ x. valued x.0 x.1.now) result ((plain (number_at text.now width)).read tt tokens.now) }
    ensures below { IfOk result (λ x. (0 < width) × (width ≤ 64) × (x.0 < 2 ^ width)) }
{
    match tokens {
        [] => Err(syntax(tokens)),
        [token, rest @ ..] => match number_by(width, token.kind, spelled(text, token)) {
            Ok(number) => Ok((number, rest)),
            Err(flaw) => Err(fault_at(flaw, tokens)),
        },
    }
}

/// An index: an integer type, and a number at it.
#[tactic(auto, unfolding(crate::specs::Places::an_index))]
fn an_index<'b>(scope: &Scope, tokens: &'b [Token]) -> Result<(i64, &'b [Token]), Stop>
    ensures is { Gives (λ x. valued x.0 x.1.now) result ((an_index (seen scope.now)).read tt tokens.now) }
    ensures fits { IfOk result (λ x. SFits w64 x.0) }
{
    let (width, rest) = width_of(scope.text, tokens)?;
    let (number, rest) = number_at(scope.text, width, rest)?;
    Ok((signed(width, number), rest))
}

#[tactic(auto, unfolding(no_read_rules::specs::Lists::more_item))]
fn more_index<'b>(scope: &Scope, tokens: &'b [Token]) -> Result<(Option<i64>, &'b [Token]), Stop>
    ensures is { Gives (λ x. valued x.0 x.1.now) result ((more_item (seen scope.now).text (codes ")") (an_index (seen scope.now))).read tt tokens.now) }
    ensures fits { IfOk result (λ x. IfSome x.0 (λ z. SFits w64 z)) }
{
    let (closes, rest) = closes_list(scope.text, b")", tokens)?;
    if closes {
        return Ok((None, rest));
    }
    let (index, rest) = an_index(scope, rest)?;
    Ok((Some(index), rest))
}

fn more_indices<'b>(
    alloc: Global,
    scope: &Scope,
    first: i64,
    tokens: &'b [Token],
) -> Result<(List<i64>, &'b [Token]), Stop>
    ensures { Gives (λ x. valued x.0 x.1.now) result (with_front (first ∷ []) (repeat_all (more_item (seen scope.now).text (codes ")") (an_index (seen scope.now))) tt tokens.now)) }
{
    let mut all = List::new(alloc);
    all.push(first)?;
    let mut rest = tokens;
    loop {
        let (item, after) = more_index(scope, rest)?;
        match item {
            None => return Ok((all, after)),
            Some(index) => {
                all.push(index)?;
                rest = after;
            }
        }
    }
}

/// At least one index, and the closing bracket.
#[tactic(auto, unfolding(crate::specs::Places::indices))]
fn indices<'b>(
    alloc: Global,
    scope: &Scope,
    tokens: &'b [Token],
) -> Result<(List<i64>, &'b [Token]), Stop>
    ensures { Gives (λ x. valued x.0 x.1.now) result ((indices (seen scope.now)).read tt tokens.now) }
{
    let (first, rest) = an_index(scope, tokens)?;
    more_indices(alloc, scope, first, rest)
}

/// A constant `getelementptr` behind its flags.
#[tactic(auto, unfolding(crate::specs::Places::gep_parts))]
fn gep_parts<'b>(
    alloc: Global,
    scope: &Scope,
    depth: u32,
    tokens: &'b [Token],
) -> Result<(Place, &'b [Token]), Stop>
    ensures { Gives (λ x. valued x.0 x.1.now) result ((gep_parts (seen scope.now) depth).read tt tokens.now) }
{
    let rest = skip_sign(scope.text, b"(", tokens)?;
    let (base, rest) = a_type(alloc, scope, depth, rest)?;
    let rest = skip_sign(scope.text, b",", rest)?;
    let rest = skip_word(scope.text, b"ptr", rest)?;
    let (symbol, rest) = symbol(alloc, scope, rest)?;
    let rest = skip_sign(scope.text, b",", rest)?;
    let (indices, rest) = indices(alloc, scope, rest)?;
    Ok((
        Place {
            symbol,
            base,
            indices,
        },
        rest,
    ))
}

fn is_flag(text: &[u8], token: &Token) -> bool
    ensures { result ≡ is_flag text.now token.now }
{
    is_word(text, b"inbounds", token)
        || is_word(text, b"nusw", token)
        || is_word(text, b"nuw", token)
}

/// Behind the flags of a `getelementptr`.
pub fn skip_flags<'b>(text: &[u8], tokens: &'b [Token]) -> &'b [Token]
    ensures { result.now ≡ skip_while (is_flag text.now) tokens.now }
{
    let mut rest = tokens;
    while let [token, more @ ..] = rest {
        if !is_flag(text, token) {
            break;
        }
        rest = more;
    }
    rest
}

fn place_head<'b>(
    alloc: Global,
    scope: &Scope,
    tokens: &'b [Token],
) -> Result<(PlaceHead, &'b [Token]), Stop>
    ensures { Gives (λ x. valued x.0 x.1.now) result ((plain (place_head (seen scope.now))).read tt tokens.now) }
{
    match tokens {
        [token, rest @ ..] if is_kind(TokenKind::Global, token) => {
            let symbol = symbol_named(alloc, scope, body_of(spelled(scope.text, token)))?;
            Ok((PlaceHead::Bare(symbol), rest))
        }
        [token, rest @ ..] if is_word(scope.text, b"getelementptr", token) => Ok((
            PlaceHead::Gep,
            rest,
        )),
        _ => Err(syntax(tokens)),
    }
}

/// A name of a global or a function, or a constant `getelementptr`.
#[tactic(auto, unfolding(crate::specs::Places::a_place))]
pub fn a_place<'b>(
    alloc: Global,
    scope: &Scope,
    depth: u32,
    tokens: &'b [Token],
) -> Result<(Place, &'b [Token]), Stop>
    ensures { Gives (λ x. valued x.0 x.1.now) result ((a_place (seen scope.now) depth).read tt tokens.now) }
{
    let (head, rest) = place_head(alloc, scope, tokens)?;
    match head {
        PlaceHead::Bare(symbol) => Ok((
            Place {
                symbol,
                base: Ty::Void,
                indices: List::new(alloc),
            },
            rest,
        )),
        PlaceHead::Gep => gep_parts(alloc, scope, depth, skip_flags(scope.text, rest)),
    }
}

/// Whether a place begins with this token.
pub fn begins_place(text: &[u8], token: &Token) -> bool
    ensures { result ≡ begins_place text.now token.now }
{
    is_kind(TokenKind::Global, token) || is_word(text, b"getelementptr", token)
}
