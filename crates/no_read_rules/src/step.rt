ghost use Rattle.std.specs.Prelude.{◌≡◌};
ghost use Rattle.no_read_rules.specs.Rules.{fault, Gives, passed};
ghost use Rattle.no_read_rules.specs.Spelled.{spelled, is_kind, is_word, is_sign, a_word, a_sign};

use crate::{Flaw, Stop, Stopped};
use no_lex::{Token, TokenKind};

/// A fault at the first of these tokens.
pub fn fault_at(flaw: Flaw, tokens: &[Token]) -> Stop
    ensures { result ≡ Stop.Fault (fault flaw tokens.now) }
{
    let at = match tokens {
        [] => None,
        [token, ..] => Some(token.start),
    };
    Stop::Fault(Stopped { flaw, at })
}

/// A fault at the first of these tokens, where no form goes on with it.
pub fn syntax(tokens: &[Token]) -> Stop
    ensures { result ≡ Stop.Fault (fault Flaw.Syntax tokens.now) }
{
    fault_at(Flaw::Syntax, tokens)
}

/// The bytes of a token.
#[tactic(auto, using(crate::proofs::Cutting::cut))]
pub fn spelled<'a>(text: &'a [u8], token: &Token) -> &'a [u8]
    ensures { result.now ≡ spelled text.now token.now }
{
    let (_, rest) = text.split_at((token.start as usize).min(text.len()));
    let size = (token.end.saturating_sub(token.start)) as usize;
    let (word, _) = rest.split_at(size.min(rest.len()));
    word
}

pub fn is_kind(kind: TokenKind, token: &Token) -> bool
    ensures { result ≡ is_kind kind token.now }
{
    token.kind as u8 == kind as u8
}

/// Whether a token is this word.
pub fn is_word(text: &[u8], word: &[u8], token: &Token) -> bool
    ensures { result ≡ is_word text.now word.now token.now }
{
    is_kind(TokenKind::Word, token) && spelled(text, token) == word
}

/// Whether a token is this sign.
pub fn is_sign(text: &[u8], sign: &[u8], token: &Token) -> bool
    ensures { result ≡ is_sign text.now sign.now token.now }
{
    is_kind(TokenKind::Sign, token) && spelled(text, token) == sign
}

/// Behind this word.
pub fn skip_word<'b>(text: &[u8], word: &[u8], tokens: &'b [Token]) -> Result<&'b [Token], Stop>
    ensures { Gives (λ rest. passed rest.now) result ((a_word text.now word.now).read tt tokens.now) }
{
    match tokens {
        [token, rest @ ..] if is_word(text, word, token) => Ok(rest),
        _ => Err(syntax(tokens)),
    }
}

/// Behind this sign.
pub fn skip_sign<'b>(text: &[u8], sign: &[u8], tokens: &'b [Token]) -> Result<&'b [Token], Stop>
    ensures { Gives (λ rest. passed rest.now) result ((a_sign text.now sign.now).read tt tokens.now) }
{
    match tokens {
        [token, rest @ ..] if is_sign(text, sign, token) => Ok(rest),
        _ => Err(syntax(tokens)),
    }
}
