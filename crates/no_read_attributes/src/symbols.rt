ghost use Rattle.std.specs.Prelude.{◌≡◌, drop};
ghost use Rattle.no_read_rules.specs.Rules.{Gives, valued, plain};
ghost use Rattle.no_read_attributes.specs.Symbols.{symbol_name};

use no_ir::Bytes;
use no_lex::{Token, TokenKind};
use no_read_rules::{Stop, is_kind, name_of, spelled, syntax};
use std::alloc::Global;

fn body_of(spelling: &[u8]) -> &[u8]
    ensures { result.now ≡ drop 1 spelling.now }
{
    match spelling {
        [_, body @ ..] => body,
        [] => spelling,
    }
}

/// The name behind the sign of a global or a function.
pub fn symbol_name<'b>(
    alloc: Global,
    text: &[u8],
    tokens: &'b [Token],
) -> Result<(Bytes, &'b [Token]), Stop>
    ensures { Gives (λ x. valued x.0 x.1.now) result ((plain (symbol_name text.now)).read tt tokens.now) }
{
    match tokens {
        [token, rest @ ..] if is_kind(TokenKind::Global, token) => {
            let name = name_of(alloc, body_of(spelled(text, token)))?;
            Ok((name, rest))
        }
        _ => Err(syntax(tokens)),
    }
}
