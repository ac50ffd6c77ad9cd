ghost use Rattle.std.specs.Prelude.{◌≡◌, ◌<◌, ◌≤◌, ◌+◌, ◌^◌};
ghost use Rattle.no_read_symbols.specs.Scan.{sign_bracket, bracket_of, rounds_after, braces_after, outside_after, moved, is_outer, begins_function, awaits_after, stands_after};

use no_lex::{Token, TokenKind};
use no_read_rules::{is_kind, is_word, spelled};

/// What a token is to a scan that counts brackets.
#[derive(Clone, Copy, Debug, PartialEq, Eq)]
pub enum Bracket {
    OpenRound,
    CloseRound,
    OpenBrace,
    CloseBrace,
    OpenSquare,
    CloseSquare,
    /// A mark of metadata that stands alone.
    Mark,
    Other,
}

/// Where a scan of the tokens stands.
#[derive(Clone, Copy, Debug, PartialEq, Eq)]
pub struct Standing {
    /// Open parentheses.
    pub rounds: usize,
    /// Open braces of metadata.
    pub braces: usize,
    /// Other open brackets.
    pub depth: usize,
    /// Whether the token before is a mark of metadata that stands alone.
    pub marked: bool,
    /// Whether a function's name is awaited.
    pub awaits: bool,
}

fn sign_bracket(sign: &[u8]) -> Bracket
    ensures { result ≡ sign_bracket sign.now }
{
    match sign {
        b"(" => Bracket::OpenRound,
        b")" => Bracket::CloseRound,
        b"{" => Bracket::OpenBrace,
        b"}" => Bracket::CloseBrace,
        b"[" => Bracket::OpenSquare,
        b"]" => Bracket::CloseSquare,
        _ => Bracket::Other,
    }
}

fn bracket_of(text: &[u8], token: &Token) -> Bracket
    ensures { result ≡ bracket_of text.now token.now }
{
    let spelling = spelled(text, token);
    match token.kind {
        TokenKind::Sign => sign_bracket(spelling),
        TokenKind::Meta if spelling == b"!".as_slice() => Bracket::Mark,
        _ => Bracket::Other,
    }
}

fn rounds_after(bracket: Bracket, rounds: usize) -> usize
    requires { rounds + 1 < 2 ^ 64 }
    ensures { result ≡ rounds_after bracket rounds }
{
    match bracket {
        Bracket::OpenRound => rounds + 1,
        Bracket::CloseRound => rounds.saturating_sub(1),
        _ => rounds,
    }
}

fn braces_after(bracket: Bracket, braces: usize) -> usize
    requires { braces + 1 < 2 ^ 64 }
    ensures { result ≡ braces_after bracket braces }
{
    match bracket {
        Bracket::OpenBrace => braces + 1,
        Bracket::CloseBrace => braces.saturating_sub(1),
        _ => braces,
    }
}

fn outside_after(bracket: Bracket, s: Standing) -> Standing
    requires { s.depth + 1 < 2 ^ 64 }
    ensures { result ≡ outside_after bracket s }
{
    let mut after = s;
    after.marked = bracket == Bracket::Mark;
    match bracket {
        Bracket::OpenRound => after.rounds = 1,
        Bracket::OpenBrace if s.marked => after.braces = 1,
        Bracket::OpenBrace | Bracket::OpenSquare => after.depth = s.depth + 1,
        Bracket::CloseBrace | Bracket::CloseSquare => after.depth = s.depth.saturating_sub(1),
        Bracket::Mark | Bracket::CloseRound | Bracket::Other => {}
    }
    after
}

fn moved(bracket: Bracket, s: Standing) -> Standing
    requires rounds { s.rounds + 1 < 2 ^ 64 }
    requires braces { s.braces + 1 < 2 ^ 64 }
    requires depth { s.depth + 1 < 2 ^ 64 }
    ensures { result ≡ moved bracket s }
{
    if s.rounds > 0 {
        return Standing {
            rounds: rounds_after(bracket, s.rounds),
            ..s
        };
    }
    if s.braces > 0 {
        return Standing {
            braces: braces_after(bracket, s.braces),
            ..s
        };
    }
    outside_after(bracket, s)
}

/// Whether no bracket is open.
pub(crate) fn is_outer(s: Standing) -> bool
    ensures { result ≡ is_outer s }
{
    s.rounds == 0 && s.braces == 0 && s.depth == 0
}

fn begins_function(text: &[u8], token: &Token) -> bool
    ensures { result ≡ begins_function text.now token.now }
{
    is_word(text, b"define", token) || is_word(text, b"declare", token)
}

fn awaits_after(text: &[u8], token: &Token, s: Standing) -> bool
    ensures { result ≡ awaits_after text.now token.now s }
{
    if !is_outer(s) {
        return s.awaits;
    }
    if is_kind(TokenKind::Global, token) {
        return false;
    }
    begins_function(text, token) || s.awaits
}

/// Where the scan stands behind a token.
pub(crate) fn stands_after(text: &[u8], token: &Token, s: Standing) -> Standing
    requires rounds { s.rounds + 1 < 2 ^ 64 }
    requires braces { s.braces + 1 < 2 ^ 64 }
    requires depth { s.depth + 1 < 2 ^ 64 }
    ensures is { result ≡ stands_after text.now token.now s }
    ensures rounds { result.rounds ≤ s.rounds + 1 }
    ensures braces { result.braces ≤ s.braces + 1 }
    ensures depth { result.depth ≤ s.depth + 1 }
{
    Standing {
        awaits: awaits_after(text, token, s),
        ..moved(bracket_of(text, token), s)
    }
}
