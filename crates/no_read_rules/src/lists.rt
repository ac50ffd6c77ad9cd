ghost use Rattle.no_read_rules.specs.Lists.{closes_list};
ghost use Rattle.no_read_rules.specs.Rules.{Gives, valued, plain};

use crate::Stop;
use crate::step::{is_sign, syntax};
use no_lex::Token;

/// Behind an item: whether the list closes with this sign, or goes on with a comma.
pub fn closes_list<'b>(
    text: &[u8],
    close: &[u8],
    tokens: &'b [Token],
) -> Result<(bool, &'b [Token]), Stop>
    ensures { Gives (λ x. valued x.0 x.1.now) result ((plain (closes_list text.now close.now)).read tt tokens.now) }
{
    match tokens {
        [token, rest @ ..] if is_sign(text, close, token) => Ok((true, rest)),
        [token, rest @ ..] if is_sign(text, b",", token) => Ok((false, rest)),
        _ => Err(syntax(tokens)),
    }
}
