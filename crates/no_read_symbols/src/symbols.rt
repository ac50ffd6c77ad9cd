ghost use Rattle.std.specs.Prelude.{◌≡◌, drop, codes, IfOk};
ghost use Rattle.no_ir.specs.Naming.{with_name};
ghost use Rattle.no_read_rules.specs.Rules.{next_is};
ghost use Rattle.no_read_rules.specs.Spelled.{spelled, is_sign};
ghost use Rattle.no_read_rules.specs.Unescaped.{name_of};
ghost use Rattle.no_read_symbols.specs.Scan.{named_after, with_symbol, symbols_in};

use crate::Standing;
use crate::standing::{is_outer, stands_after};
use no_ir::{Bytes, Names, NoMemory};
use no_lex::{Token, TokenKind};
use no_read_rules::{is_kind, is_sign, name_of, spelled};
use std::alloc::Global;

/// The names of the globals and of the functions of a text, each in the order of first appearance.
#[derive(Drop)]
pub struct Symbols {
    pub globals: Names,
    pub functions: Names,
}

/// A name has appeared.
fn add_name(names: &mut Names, name: &[u8]) -> Result<(), NoMemory>
    ensures { IfOk result (λ _. names.new ≡ with_name names.old name.now) }
{
    if names.len() >= u32::MAX as usize {
        return Err(NoMemory);
    }
    names.number(name)?;
    Ok(())
}

/// The name behind the sign of a token.
fn name_at(alloc: Global, text: &[u8], token: &Token) -> Result<Bytes, NoMemory>
    ensures { IfOk result (λ name. name ≡ name_of (drop 1 (spelled text.now token.now))) }
{
    match spelled(text, token) {
        [_, body @ ..] => name_of(alloc, body),
        [] => name_of(alloc, &[]),
    }
}

fn is_equals(text: &[u8], tokens: &[Token]) -> bool
    ensures { result ≡ next_is (is_sign text.now (codes "=")) tokens.now }
{
    match tokens {
        [token, ..] => is_sign(text, b"=", token),
        [] => false,
    }
}

/// The names with that of a token, where it is one that the text defines here.
fn add_symbol(
    alloc: Global,
    text: &[u8],
    token: &Token,
    tokens: &[Token],
    s: Standing,
    symbols: &mut Symbols,
) -> Result<(), NoMemory>
    ensures { IfOk result (λ _. symbols.new ≡ named_after text.now token.now tokens.now s symbols.old) }
{
    if !is_outer(s) || !is_kind(TokenKind::Global, token) {
        return Ok(());
    }
    if s.awaits {
        let name = name_at(alloc, text, token)?;
        return add_name(&mut symbols.functions, name.as_slice());
    }
    if is_equals(text, tokens) {
        let name = name_at(alloc, text, token)?;
        return add_name(&mut symbols.globals, name.as_slice());
    }
    Ok(())
}

/// The names of the globals and of the functions that a text defines or declares.
///
/// Outside all brackets, a name directly before an equals sign is a global's, and the first name behind the word `define` or
/// `declare` is a function's.
pub fn symbol_names(alloc: Global, text: &[u8], tokens: &[Token]) -> Result<Symbols, NoMemory>
    ensures { IfOk result (λ y. y ≡ symbols_in text.now tokens.now) }
{
    let mut symbols = Symbols {
        globals: Names::new(alloc)?,
        functions: Names::new(alloc)?,
    };
    let mut s = Standing {
        rounds: 0,
        braces: 0,
        depth: 0,
        marked: false,
        awaits: false,
    };
    let mut rest = tokens;
    while let [token, more @ ..] = rest {
        add_symbol(alloc, text, token, more, s, &mut symbols)?;
        s = stands_after(text, token, s);
        rest = more;
    }
    Ok(symbols)
}
