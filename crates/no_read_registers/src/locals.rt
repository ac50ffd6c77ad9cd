ghost use Rattle.std.specs.Prelude.{◌≡◌, ◌-◌, ℕ, List, [], length, take, drop, reverse, IfOk};
ghost use Rattle.no_ir.specs.Naming.{place_of, with_name};
ghost use Rattle.no_read_rules.specs.Rules.{none, Good, Gives};
ghost use Rattle.no_read_rules.specs.Unescaped.{name_of};
ghost use Rattle.no_read_registers.specs.Counting.{next, behind_name, label_fits};
ghost use Rattle.no_read_registers.specs.Numbered.{no_locals_yet, register_named, label_named, register_defined, label_defined, register_unnamed, label_unnamed, local_name, a_register, a_definition, no_name, a_label_name, a_label, without_colon, a_block_label, no_block_label};

use crate::counting::{count, label_fits, next, reversed};
use no_ir::{Bytes, List, Names, NoMemory};
use no_lex::{Token, TokenKind};
use no_read_rules::{Flaw, Stop, fault_at, is_kind, name_of, skip_word, spelled, syntax};
use std::alloc::Global;

/// What has appeared in a function so far: its registers and its labels by number, and the counter that gives names to what has
/// none, as its decimal digits with the least first.
#[derive(Drop)]
pub struct Locals {
    pub registers: Names,
    pub labels: Names,
    pub counter: Bytes,
}

impl Locals {
    /// At the head of a function.
    pub fn new(alloc: Global) -> Result<Locals, NoMemory>
        ensures { IfOk result (λ s. s ≡ no_locals_yet) }
    {
        Ok(Locals {
            registers: Names::new(alloc)?,
            labels: Names::new(alloc)?,
            counter: List::from_slice(alloc, b"0")?,
        })
    }
}

/// The number of a name, which is added if it is new.
fn numbered(names: &mut Names, name: &[u8]) -> Result<u32, NoMemory>
    ensures { IfOk result (λ k. (k ≡ place_of names.old name.now) × (names.new ≡ with_name names.old name.now)) }
{
    if names.len() >= u32::MAX as usize {
        return Err(NoMemory);
    }
    names.number(name)
}

fn body_of(spelling: &[u8]) -> &[u8]
    ensures { result.now ≡ drop 1 spelling.now }
{
    match spelling {
        [_, body @ ..] => body,
        [] => &[],
    }
}

fn local_name(alloc: Global, text: &[u8], token: &Token) -> Result<Bytes, NoMemory>
    ensures { IfOk result (λ name. name ≡ local_name text.now token.now) }
{
    name_of(alloc, body_of(spelled(text, token)))
}

/// A register that is used.
pub fn a_register<'b>(
    alloc: Global,
    text: &[u8],
    locals: &mut Locals,
    tokens: &'b [Token],
) -> Result<(u32, &'b [Token]), Stop>
    ensures { Gives (λ x. (x.0, locals.new, x.1.now)) result ((a_register text.now).read locals.old tokens.now) }
{
    match tokens {
        [token, rest @ ..] if is_kind(TokenKind::Local, token) => {
            let name = local_name(alloc, text, token)?;
            let number = numbered(&mut locals.registers, name.as_slice())?;
            Ok((number, rest))
        }
        _ => Err(syntax(tokens)),
    }
}

fn define(alloc: Global, locals: &mut Locals, name: &[u8]) -> Result<u32, NoMemory>
    ensures { IfOk result (λ k. (k, locals.new) ≡ register_defined locals.old name.now) }
{
    let number = numbered(&mut locals.registers, name)?;
    count(alloc, &mut locals.counter, name)?;
    Ok(number)
}

/// A register that a result or a parameter defines by its name.
pub fn a_definition<'b>(
    alloc: Global,
    text: &[u8],
    locals: &mut Locals,
    tokens: &'b [Token],
) -> Result<(u32, &'b [Token]), Stop>
    ensures { Gives (λ x. (x.0, locals.new, x.1.now)) result ((a_definition text.now).read locals.old tokens.now) }
{
    match tokens {
        [token, rest @ ..] if is_kind(TokenKind::Local, token) => {
            let name = local_name(alloc, text, token)?;
            let number = define(alloc, locals, name.as_slice())?;
            Ok((number, rest))
        }
        _ => Err(syntax(tokens)),
    }
}

/// The register of a result or a parameter without a written name.
pub fn no_name(alloc: Global, locals: &mut Locals) -> Result<u32, NoMemory>
    ensures { IfOk result (λ k. (k, locals.new) ≡ register_unnamed locals.old) }
{
    let name = reversed(alloc, locals.counter.as_slice())?;
    let number = numbered(&mut locals.registers, name.as_slice())?;
    locals.counter = next(alloc, locals.counter.as_slice())?;
    Ok(number)
}

/// The name of a label that is used, without its word.
pub fn a_label_name<'b>(
    alloc: Global,
    text: &[u8],
    locals: &mut Locals,
    tokens: &'b [Token],
) -> Result<(u32, &'b [Token]), Stop>
    ensures { Gives (λ x. (x.0, locals.new, x.1.now)) result ((a_label_name text.now).read locals.old tokens.now) }
{
    match tokens {
        [token, rest @ ..] if is_kind(TokenKind::Local, token) => {
            let name = local_name(alloc, text, token)?;
            let number = numbered(&mut locals.labels, name.as_slice())?;
            Ok((number, rest))
        }
        _ => Err(syntax(tokens)),
    }
}

/// A label that is used, with its word.
#[tactic(auto, unfolding(crate::specs::Numbered::a_label))]
pub fn a_label<'b>(
    alloc: Global,
    text: &[u8],
    locals: &mut Locals,
    tokens: &'b [Token],
) -> Result<(u32, &'b [Token]), Stop>
    ensures { Gives (λ x. (x.0, locals.new, x.1.now)) result ((a_label text.now).read locals.old tokens.now) }
{
    let rest = skip_word(text, b"label", tokens)?;
    a_label_name(alloc, text, locals, rest)
}

fn without_colon(spelling: &[u8]) -> &[u8]
    ensures { result.now ≡ without_colon spelling.now }
{
    match spelling {
        [body @ .., _] => body,
        [] => &[],
    }
}

fn define_label(alloc: Global, locals: &mut Locals, name: &[u8]) -> Result<u32, NoMemory>
    ensures { IfOk result (λ k. (k, locals.new) ≡ label_defined locals.old name.now) }
{
    let number = numbered(&mut locals.labels, name)?;
    count(alloc, &mut locals.counter, name)?;
    Ok(number)
}

/// A label at the beginning of a block: Number where it spells an integer that isn't from 0 to 2^32 - 1.
pub fn a_block_label<'b>(
    alloc: Global,
    text: &[u8],
    locals: &mut Locals,
    tokens: &'b [Token],
) -> Result<(u32, &'b [Token]), Stop>
    ensures { Gives (λ x. (x.0, locals.new, x.1.now)) result ((a_block_label text.now).read locals.old tokens.now) }
{
    match tokens {
        [token, rest @ ..] if is_kind(TokenKind::Label, token) => {
            let name = name_of(alloc, without_colon(spelled(text, token)))?;
            if !label_fits(name.as_slice()) {
                return Err(fault_at(Flaw::Number, tokens));
            }
            let number = define_label(alloc, locals, name.as_slice())?;
            Ok((number, rest))
        }
        _ => Err(syntax(tokens)),
    }
}

/// The label of a block without a written one, at its first token: Number where the counter is 2^32 or more.
pub fn no_block_label(alloc: Global, locals: &mut Locals, tokens: &[Token]) -> Result<u32, Stop>
    ensures { Gives (λ k. (k, locals.new, tokens.now)) result (no_block_label.read locals.old tokens.now) }
{
    let name = reversed(alloc, locals.counter.as_slice())?;
    if !label_fits(name.as_slice()) {
        return Err(fault_at(Flaw::Number, tokens));
    }
    let number = numbered(&mut locals.labels, name.as_slice())?;
    locals.counter = next(alloc, locals.counter.as_slice())?;
    Ok(number)
}

/// Names of registers and labels are read exactly: what was read is meant by the tokens that were taken, and what tokens mean is read.
#[tactic(auto, using(crate::proofs::LocalLaws::register_good, crate::proofs::LocalLaws::definition_good, crate::proofs::LocalLaws::no_name_good, crate::proofs::LocalLaws::label_good, crate::proofs::LocalLaws::block_label_good, crate::proofs::LocalLaws::no_block_label_good))]
pub fn local_rules_are_exact()
    ensures registers { (text : List ℕ) → Good none (a_register text) }
    ensures definitions { (text : List ℕ) → Good none (a_definition text) }
    ensures unnamed { Good none no_name }
    ensures labels { (text : List ℕ) → Good none (a_label text) }
    ensures block_labels { (text : List ℕ) → Good none (a_block_label text) }
    ensures no_block_labels { Good none no_block_label }
{}
