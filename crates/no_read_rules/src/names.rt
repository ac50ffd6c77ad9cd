ghost use Rattle.std.specs.Prelude.{◌≡◌, ◌≤◌, length, drop, position, bytes_eq, true, IfOk};
ghost use Rattle.no_read_rules.specs.Unescaped.{is_hex, hex_value, first_byte, unescaped, is_quoted, inner, name_of};
ghost use Rattle.no_read_rules.specs.Types.{number_in};

use no_ir::{Bytes, List, Names, NoMemory};
use std::alloc::Global;

fn is_hex(byte: u8) -> bool
    ensures { result ≡ is_hex byte }
{
    matches!(byte, b'0'..=b'9' | b'a'..=b'f' | b'A'..=b'F')
}

fn hex_value(byte: u8) -> u8
    requires { is_hex byte ≡ true }
    ensures value { result ≡ hex_value byte }
    ensures small { result ≤ 15 }
{
    if byte <= b'9' {
        byte - b'0'
    } else if byte <= b'F' {
        byte - b'7'
    } else {
        byte - b'W'
    }
}

/// The byte that stands first, and how many bytes its spelling has.
pub fn first_byte(bytes: &[u8]) -> (u8, usize)
    ensures { result ≡ first_byte bytes.now }
{
    match bytes {
        [] => (0, 1),
        [b'\\', b'\\', ..] => (b'\\', 2),
        [b'\\', high, low, ..] if is_hex(*high) && is_hex(*low) => (
            16 * hex_value(*high) + hex_value(*low),
            3,
        ),
        [byte, ..] => (*byte, 1),
    }
}

/// A string without its escapes.
#[tactic(auto, using(crate::proofs::Escapes::one_more, crate::proofs::Escapes::fits, crate::proofs::Escapes::falls))]
pub fn unescaped(alloc: Global, bytes: &[u8]) -> Result<Bytes, NoMemory>
    ensures { IfOk result (λ all. all ≡ unescaped bytes.now) }
{
    let mut all = List::new(alloc);
    let mut rest = bytes;
    while !rest.is_empty() {
        let (byte, len) = first_byte(rest);
        all.push(byte)?;
        let (_, more) = rest.split_at(len);
        rest = more;
    }
    Ok(all)
}

/// The bytes between two quotes.
pub fn inner(bytes: &[u8]) -> &[u8]
    ensures { result.now ≡ inner bytes.now }
{
    match bytes {
        [_, inside @ .., _] => inside,
        _ => &[],
    }
}

/// The bytes of a string between its quotes, without its escapes.
pub fn unescaped_inner(alloc: Global, spelling: &[u8]) -> Result<Bytes, NoMemory>
    ensures { IfOk result (λ all. all ≡ unescaped (inner spelling.now)) }
{
    unescaped(alloc, inner(spelling))
}

fn is_quoted(bytes: &[u8]) -> bool
    ensures { result ≡ is_quoted bytes.now }
{
    matches!(bytes, [b'"', ..])
}

/// A name by its spelling, which may be a string.
pub fn name_of(alloc: Global, spelling: &[u8]) -> Result<Bytes, NoMemory>
    ensures { IfOk result (λ name. name ≡ name_of spelling.now) }
{
    if is_quoted(spelling) {
        unescaped(alloc, inner(spelling))
    } else {
        Ok(List::from_slice(alloc, spelling)?)
    }
}

/// The number of a name behind its sign.
pub fn number_in(alloc: Global, names: &Names, spelling: &[u8]) -> Result<Option<usize>, NoMemory>
    ensures { IfOk result (λ number. number ≡ number_in names.now spelling.now) }
{
    let body = match spelling {
        [_, body @ ..] => body,
        [] => &[],
    };
    find_name(alloc, names, body)
}

fn find_name(alloc: Global, names: &Names, spelling: &[u8]) -> Result<Option<usize>, NoMemory>
    ensures { IfOk result (λ number. number ≡ position (bytes_eq (name_of spelling.now)) names.now) }
{
    if is_quoted(spelling) {
        let name = unescaped(alloc, inner(spelling))?;
        Ok(names.find(name.as_slice()))
    } else {
        Ok(names.find(spelling))
    }
}
