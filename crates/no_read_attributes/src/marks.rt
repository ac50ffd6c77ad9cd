ghost use Rattle.std.specs.Prelude.{◌≡◌, ◌++◌, bytes_eq, IfOk, OnOk};
ghost use Rattle.no_read_rules.specs.Rules.{Gives, valued};
ghost use Rattle.no_read_rules.specs.Unescaped.{unescaped, inner};
ghost use Rattle.no_read_attributes.specs.Attributes.{says, at_address, address_of, address_mark, text_mark, pair_mark, mark_of, listed, attribute_marks};

use crate::attribute::{Attribute, more_attribute};
use no_ir::{List, NoMemory, Role};
use no_lex::Token;
use no_read_rules::{Stop, decimal, first_byte, inner, spelled, unescaped_inner};
use std::alloc::Global;

/// An attribute of a function that has an effect.
#[derive(Clone, Copy, Debug, PartialEq, Eq)]
pub enum Mark {
    /// The function is bound to the device.
    Bound,
    /// The address that the device has for it.
    Address(u32),
    /// Those of the group with this name.
    Group(Token),
}

/// Whether a string spells these bytes.
#[tactic(auto, using(crate::proofs::Saying::says_done, crate::proofs::Saying::says_short, crate::proofs::Saying::says_other, no_read_rules::proofs::Escapes::fits))]
fn spells(bytes: &[u8], want: &[u8]) -> bool
    ensures { result ≡ bytes_eq (unescaped bytes.now) want.now }
{
    let mut rest = bytes;
    let mut left = want;
    while let [first, more @ ..] = left {
        if rest.is_empty() {
            return false;
        }
        let (byte, len) = first_byte(rest);
        if byte != *first {
            return false;
        }
        let (_, behind) = rest.split_at(len);
        rest = behind;
        left = more;
    }
    rest.is_empty()
}

fn says(text: &[u8], token: &Token, want: &[u8]) -> bool
    ensures { result ≡ says text.now token.now want.now }
{
    spells(inner(spelled(text, token)), want)
}

/// A decimal number below 2 to the power of 32.
fn address_of(bytes: &[u8]) -> Option<u64>
    ensures { result ≡ address_of bytes.now }
{
    match bytes {
        [] => None,
        _ => decimal(u32::MAX as u64, bytes),
    }
}

fn address_mark(alloc: Global, role: Role, spelling: &[u8]) -> Result<Option<Mark>, NoMemory>
    ensures { IfOk result (λ m. m ≡ address_mark role (unescaped (inner spelling.now))) }
{
    match role {
        Role::Source => Ok(None),
        Role::Part => {
            let value = unescaped_inner(alloc, spelling)?;
            match address_of(value.as_slice()) {
                None => Ok(None),
                Some(number) => match u32::try_from(number) {
                    Ok(address) => Ok(Some(Mark::Address(address))),
                    Err(_) => Err(NoMemory),
                },
            }
        }
    }
}

fn text_mark(text: &[u8], key: Token) -> Option<Mark>
    ensures { result ≡ text_mark text.now key }
{
    if says(text, &key, b"machine-bound") {
        Some(Mark::Bound)
    } else {
        None
    }
}

fn pair_mark(
    alloc: Global,
    text: &[u8],
    role: Role,
    key: Token,
    value: Token,
) -> Result<Option<Mark>, NoMemory>
    ensures { IfOk result (λ m. m ≡ pair_mark text.now role key value) }
{
    if says(text, &key, b"machine-bound") {
        Ok(Some(Mark::Bound))
    } else if says(text, &key, b"no.addr") {
        address_mark(alloc, role, spelled(text, &value))
    } else {
        Ok(None)
    }
}

/// What an attribute sets.
fn mark_of(
    alloc: Global,
    text: &[u8],
    role: Role,
    attribute: Attribute,
) -> Result<Option<Mark>, NoMemory>
    ensures { IfOk result (λ m. m ≡ mark_of text.now role attribute) }
{
    match attribute {
        Attribute::Text(key) => Ok(text_mark(text, key)),
        Attribute::Pair(key, value) => pair_mark(alloc, text, role, key, value),
        Attribute::Group(group) => Ok(Some(Mark::Group(group))),
        Attribute::Word | Attribute::Align | Attribute::Closed => Ok(None),
    }
}

fn with_mark(all: &mut List<Mark>, mark: Option<Mark>) -> Result<(), NoMemory>
    ensures { OnOk result (all.new ≡ all.old ++ listed mark) }
{
    if let Some(mark) = mark {
        all.push(mark)?;
    }
    Ok(())
}

/// The attributes that stand here, of which those with an effect are kept, in order.
pub fn attribute_marks<'b>(
    alloc: Global,
    text: &[u8],
    role: Role,
    tokens: &'b [Token],
) -> Result<(List<Mark>, &'b [Token]), Stop>
    ensures { Gives (λ x. valued x.0 x.1.now) result ((attribute_marks text.now role).read tt tokens.now) }
{
    let mut all = List::new(alloc);
    let mut rest = tokens;
    loop {
        let (item, after) = more_attribute(text, rest)?;
        match item {
            None => return Ok((all, after)),
            Some(attribute) => {
                let mark = mark_of(alloc, text, role, attribute)?;
                with_mark(&mut all, mark)?;
                rest = after;
            }
        }
    }
}
