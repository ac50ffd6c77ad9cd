ghost use Rattle.std.specs.Prelude.{◌≡◌, ◌<◌, ◌≤◌, ◌^◌, ◌+◌, List, length, Result, IfOk};
ghost use Rattle.no_lex.specs.declared.fault.LexFault.{LexFault};
ghost use Rattle.no_lex.specs.declared.token.Token.{Token};
ghost use Rattle.no_lex.specs.Tokens.{may_label, settled, fault_at, AreSpans, Lexes, Answers};
ghost use Rattle.no_lex.specs.Found.{Looks};

use crate::spelling::{begins_with, found, skipped};
use crate::{LexError, LexFault, LexKind, Token, TokenKind};
use sqlite_items::Items as List;
use std::alloc::Global;

fn may_label(kind: TokenKind) -> bool
    ensures { result ≡ may_label kind }
{
    matches!(
        kind,
        TokenKind::Word | TokenKind::Integer | TokenKind::Quoted
    )
}

/// The token of this kind and size at a place, as what follows settles it.
fn settled(start: usize, kind: TokenKind, size: usize, bytes: &[u8]) -> Token
    requires size { size ≤ length bytes.now }
    requires place { start + length bytes.now < 2 ^ 32 }
    ensures { result ≡ settled start kind size bytes.now }
{
    let (spelling, rest) = bytes.split_at(size);
    let end = start + size;
    if may_label(kind) && begins_with(b':', rest) {
        Token {
            kind: TokenKind::Label,
            start: start as u32,
            end: (end + 1) as u32,
        }
    } else if spelling == b"c".as_slice() && begins_with(b'"', rest) {
        Token {
            kind: TokenKind::CMark,
            start: start as u32,
            end: end as u32,
        }
    } else {
        Token {
            kind,
            start: start as u32,
            end: end as u32,
        }
    }
}

/// The fault where no token begins.
fn fault_at(place: usize, bytes: &[u8]) -> LexFault
    requires { place + length bytes.now < 2 ^ 32 }
    ensures { result ≡ fault_at place bytes.now }
{
    match bytes {
        [b'"', ..] => LexFault {
            kind: LexKind::OpenString,
            at: place as u32,
        },
        [b'@' | b'%', b'"', ..] => LexFault {
            kind: LexKind::OpenString,
            at: (place + 1) as u32,
        },
        _ => LexFault {
            kind: LexKind::BadByte,
            at: place as u32,
        },
    }
}

/// What one look for the next token gives.
enum Seen {
    Found(Token),
    /// The text is done.
    End,
    Stuck(LexFault),
}

/// The next token from a place on, if there is one.
#[tactic(auto, using(crate::proofs::Looking::look_some, crate::proofs::Looking::look_none, crate::proofs::Looking::look_done))]
fn look(text: &[u8], at: usize) -> Seen
    requires within { at ≤ length text.now }
    requires short { length text.now < 2 ^ 32 }
    ensures { Looks text.now at result }
{
    let (_, rest) = text.split_at(at);
    let blank = skipped(rest);
    let (_, bytes) = rest.split_at(blank);
    let place = at + blank;
    if bytes.len() == 0 {
        return Seen::End;
    }
    match found(bytes) {
        Some((kind, size)) => Seen::Found(settled(place, kind, size, bytes)),
        None => Seen::Stuck(fault_at(place, bytes)),
    }
}

/// The tokens of a text that is no longer than the limit.
#[tactic(auto, using(crate::proofs::Looking::follow_more, crate::proofs::Looking::falls, crate::proofs::Looking::stays))]
fn parts(alloc: Global, text: &[u8], limit: u32) -> Result<List<Token>, LexError>
    requires { length text.now ≤ limit }
    ensures { Answers result (Lexes limit text.now) }
{
    let mut all = List::new(alloc);
    let mut at = 0;
    loop {
        match look(text, at) {
            Seen::Stuck(fault) => return Err(LexError::Fault(fault)),
            Seen::End => return Ok(all),
            Seen::Found(token) => {
                all.push(token)?;
                at = token.end as usize;
            }
        }
    }
}

/// The tokens of a text, or its first fault.
fn lex(alloc: Global, text: &[u8], limit: u32) -> Result<List<Token>, LexError>
    ensures lexes { Answers result (Lexes limit text.now) }
    ensures too_long { limit < length text.now → result ≡ Err (LexError.Fault (record { kind = LexKind.TooLong; at = limit })) }
{
    if text.len() > limit as usize {
        return Err(LexError::Fault(LexFault {
            kind: LexKind::TooLong,
            at: limit,
        }));
    }
    parts(alloc, text, limit)
}

/// The tokens of a text of at most `limit` bytes, in order.
///
/// The first fault of the text is answered instead: TooLong at the limit before all others, then the first place where no
/// token begins, in the text's order. The limit is 16,777,216 for a source and 268,435,456 for a server's part.
#[tactic(auto, using(crate::proofs::Once::only_answer))]
pub fn tokens(alloc: Global, text: &[u8], limit: u32) -> Result<List<Token>, LexError>
    // What is answered is the text's own tokens or fault, and at most one answer is.
    ensures lexes { Answers result (Lexes limit text.now) }
    ensures only { (answer : Result (List Token) LexFault) → Lexes limit text.now answer → Answers result (λ found. found ≡ answer) }

    // Tokens lie inside the text, one behind another. A text that is too long takes no memory.
    ensures spans { IfOk result (λ all. AreSpans 0 (length text.now) all) }
    ensures too_long { limit < length text.now → result ≡ Err (LexError.Fault (record { kind = LexKind.TooLong; at = limit })) }
{
    lex(alloc, text, limit)
}
