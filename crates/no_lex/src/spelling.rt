ghost use Rattle.std.specs.Prelude.{◌≡◌, ◌<◌, ◌≤◌, ◌^◌, ◌-◌, false, length, IfSome, IsTrue};
ghost use Rattle.std.specs.List.{list_all, prefix_len};
ghost use Rattle.no_lex.specs.Spelling.{is_digit, is_name_byte, is_sign, is_blank, is_digits, is_integer, name_kind, first_of};
ghost use Rattle.no_lex.specs.Tokens.{skipped, begins_with};
ghost use Rattle.no_lex.specs.Found.{quote_len, string_len, name_or_string, some_name, sized, word_at, found, IsFound};

use crate::TokenKind;

fn is_name_byte(byte: u8) -> bool
    ensures { result ≡ is_name_byte byte }
{
    matches!(byte, b'a'..=b'z' | b'A'..=b'Z' | b'0'..=b'9' | b'-' | b'$' | b'.' | b'_')
}

/// What a byte begins.
#[derive(Clone, Copy, Debug, PartialEq, Eq)]
pub enum First {
    /// A word or an integer, or `...`.
    Name,
    /// A name of this kind, behind its sign.
    Sigil(TokenKind),
    GroupMark,
    MetaMark,
    Quote,
    /// A sign of one byte.
    OneSign,
    Nothing,
}

fn is_sign(byte: u8) -> bool
    ensures { result ≡ is_sign byte }
{
    matches!(
        byte,
        b'=' | b',' | b'(' | b')' | b'{' | b'}' | b'[' | b']' | b'<' | b'>' | b'*' | b':'
    )
}

fn first_of(byte: u8) -> First
    ensures { result ≡ first_of byte }
{
    if is_name_byte(byte) {
        return First::Name;
    }
    match byte {
        b'@' => First::Sigil(TokenKind::Global),
        b'%' => First::Sigil(TokenKind::Local),
        b'#' => First::GroupMark,
        b'!' => First::MetaMark,
        b'"' => First::Quote,
        _ if is_sign(byte) => First::OneSign,
        _ => First::Nothing,
    }
}

fn is_blank(byte: u8) -> bool
    ensures { result ≡ is_blank byte }
{
    matches!(byte, b' ' | b'\t' | b'\r' | b'\n')
}

/// Whether all of some bytes, at least one, are digits.
pub fn is_digits(bytes: &[u8]) -> bool
    ensures { result ≡ is_digits bytes.now }
{
    match bytes {
        [] => false,
        _ => all_digits(bytes),
    }
}

fn all_digits(bytes: &[u8]) -> bool
    ensures { result ≡ list_all is_digit bytes.now }
{
    bytes.iter().all(|byte| is_digit(*byte))
}

fn is_digit(byte: u8) -> bool
    ensures { result ≡ is_digit byte }
{
    byte >= b'0' && byte <= b'9'
}

/// Whether bytes spell an integer: digits, maybe behind a minus sign.
pub fn is_integer(bytes: &[u8]) -> bool
    ensures { result ≡ is_integer bytes.now }
{
    match bytes {
        [] => false,
        [b'-', digits @ ..] => is_digits(digits),
        _ => is_digits(bytes),
    }
}

/// What name characters are.
fn name_kind(bytes: &[u8]) -> TokenKind
    ensures { result ≡ name_kind bytes.now }
{
    if is_integer(bytes) {
        TokenKind::Integer
    } else if bytes == b"...".as_slice() {
        TokenKind::Sign
    } else {
        TokenKind::Word
    }
}

/// How many name characters stand at the front.
fn name_len(bytes: &[u8]) -> usize
    ensures len { result ≡ prefix_len is_name_byte bytes.now }
    ensures within { result ≤ length bytes.now }
{
    let mut count = 0;
    for byte in bytes {
        if !is_name_byte(*byte) {
            break;
        }
        count += 1;
    }
    count
}

/// How many bytes at the front are blanks and comments.
pub(crate) fn skipped(bytes: &[u8]) -> usize
    ensures count { result ≡ skipped false bytes.now }
    ensures within { result ≤ length bytes.now }
{
    let mut inside = false;
    let mut count = 0;
    for byte in bytes {
        if inside {
            inside = *byte != b'\n';
        } else if *byte == b';' {
            inside = true;
        } else if !is_blank(*byte) {
            break;
        }
        count += 1;
    }
    count
}

/// How many bytes a string takes behind its first quote, its last one counted.
fn quote_len(bytes: &[u8]) -> Option<usize>
    ensures len { result ≡ quote_len bytes.now }
    ensures within { IfSome result (λ n. n ≤ length bytes.now) }
{
    let mut count = 0;
    for byte in bytes {
        count += 1;
        if *byte == b'"' {
            return Some(count);
        }
    }
    None
}

/// The length of the string that stands at the front.
fn string_len(bytes: &[u8]) -> Option<usize>
    ensures len { result ≡ string_len bytes.now }
    ensures within { IfSome result (λ n. n ≤ length bytes.now) }
{
    match bytes {
        [b'"', inner @ ..] => match quote_len(inner) {
            Some(len) => Some(len + 1),
            None => None,
        },
        _ => None,
    }
}

/// The length of the name or string that stands at the front.
fn name_or_string(bytes: &[u8]) -> Option<usize>
    ensures len { result ≡ name_or_string bytes.now }
    ensures within { IfSome result (λ n. n ≤ length bytes.now) }
{
    let len = name_len(bytes);
    if len == 0 {
        string_len(bytes)
    } else {
        Some(len)
    }
}

/// Whether this byte comes first.
pub(crate) fn begins_with(byte: u8, bytes: &[u8]) -> bool
    ensures is { result ≡ begins_with byte bytes.now }
    ensures some { IsTrue result → 0 < length bytes.now }
{
    match bytes {
        [first, ..] => *first == byte,
        [] => false,
    }
}

fn sized(kind: TokenKind, len: Option<usize>) -> Option<(TokenKind, usize)>
    requires { IfSome len (λ n. n < 2 ^ 64 - 1) }
    ensures { result ≡ sized kind len }
{
    match len {
        Some(len) => Some((kind, len + 1)),
        None => None,
    }
}

/// The name that stands at the front, if it has a byte.
fn some_name(bytes: &[u8]) -> Option<usize>
    ensures len { result ≡ some_name bytes.now }
    ensures within { IfSome result (λ n. n ≤ length bytes.now) }
{
    let len = name_len(bytes);
    if len == 0 { None } else { Some(len) }
}

/// Name characters at the front, of which this many stand behind the first.
fn word_at(bytes: &[u8], len: usize) -> (TokenKind, usize)
    requires { len < length bytes.now }
    ensures { result ≡ word_at bytes.now len }
{
    let (name, _) = bytes.split_at(len + 1);
    (name_kind(name), len + 1)
}

/// The longest token at the front by itself, and how many bytes it has.
#[tactic(auto, using(crate::proofs::Longest::found_is))]
pub(crate) fn found(bytes: &[u8]) -> Option<(TokenKind, usize)>
    ensures { IsFound bytes.now result }
{
    find(bytes)
}

fn find(bytes: &[u8]) -> Option<(TokenKind, usize)>
    ensures { result ≡ found bytes.now }
{
    match bytes {
        [] => None,
        [first, inner @ ..] => match first_of(*first) {
            First::Name => Some(word_at(bytes, name_len(inner))),
            First::Sigil(kind) => sized(kind, name_or_string(inner)),
            First::GroupMark => sized(TokenKind::Group, some_name(inner)),
            First::MetaMark => sized(TokenKind::Meta, Some(name_or_string(inner).unwrap_or(0))),
            First::Quote => sized(TokenKind::Quoted, quote_len(inner)),
            First::OneSign => Some((TokenKind::Sign, 1)),
            First::Nothing => None,
        },
    }
}
