ghost use Rattle.std.specs.Prelude.{◌≡◌};
ghost use Rattle.no_read_rules.specs.Rules.{Gives, valued, plain};
ghost use Rattle.no_read_instructions.specs.Heads.{other_word, or_cast, or_binary, giver_word, action_word, call_word, or_action, or_giver, head_word, instr_head};

use no_ir::{BinOp, CastOp};
use no_lex::{Token, TokenKind};
use no_read_rules::{Flaw, Stop, fault_at, is_kind, spelled, syntax};
use no_words::{binary_named, cast_named};

/// An instruction with a result.
#[derive(Clone, Copy, Debug, PartialEq, Eq)]
pub enum Giver {
    Binary(BinOp),
    Cast(CastOp),
    Compare,
    Freeze,
    Select,
    Phi,
    Alloca,
    Load,
    Address,
}

/// An instruction without one.
#[derive(Clone, Copy, Debug, PartialEq, Eq)]
pub enum Action {
    Store,
    Br,
    Switch,
    Ret,
    Unreachable,
}

/// What the first word of an instruction begins.
#[derive(Clone, Copy, Debug, PartialEq, Eq)]
pub enum InstrHead {
    Gives(Giver),
    Call,
    /// A word that stands before `call`.
    TailCall,
    Acts(Action),
}

fn other_word(word: &[u8]) -> Option<Giver>
    ensures { result ≡ other_word word.now }
{
    if word == b"icmp".as_slice() {
        Some(Giver::Compare)
    } else if word == b"freeze".as_slice() {
        Some(Giver::Freeze)
    } else if word == b"select".as_slice() {
        Some(Giver::Select)
    } else if word == b"phi".as_slice() {
        Some(Giver::Phi)
    } else if word == b"alloca".as_slice() {
        Some(Giver::Alloca)
    } else if word == b"load".as_slice() {
        Some(Giver::Load)
    } else if word == b"getelementptr".as_slice() {
        Some(Giver::Address)
    } else {
        None
    }
}

fn or_cast(op: Option<CastOp>, word: &[u8]) -> Option<Giver>
    ensures { result ≡ or_cast op word.now }
{
    match op {
        Some(op) => Some(Giver::Cast(op)),
        None => other_word(word),
    }
}

fn giver_word(word: &[u8]) -> Option<Giver>
    ensures { result ≡ giver_word word.now }
{
    match binary_named(word) {
        Some(op) => Some(Giver::Binary(op)),
        None => or_cast(cast_named(word), word),
    }
}

fn action_word(word: &[u8]) -> Option<Action>
    ensures { result ≡ action_word word.now }
{
    if word == b"store".as_slice() {
        Some(Action::Store)
    } else if word == b"br".as_slice() {
        Some(Action::Br)
    } else if word == b"switch".as_slice() {
        Some(Action::Switch)
    } else if word == b"ret".as_slice() {
        Some(Action::Ret)
    } else if word == b"unreachable".as_slice() {
        Some(Action::Unreachable)
    } else {
        None
    }
}

fn call_word(word: &[u8]) -> Result<InstrHead, Flaw>
    ensures { result ≡ call_word word.now }
{
    if word == b"call".as_slice() {
        Ok(InstrHead::Call)
    } else if word == b"tail".as_slice() {
        Ok(InstrHead::TailCall)
    } else if word == b"musttail".as_slice() {
        Ok(InstrHead::TailCall)
    } else if word == b"notail".as_slice() {
        Ok(InstrHead::TailCall)
    } else {
        Err(Flaw::Syntax)
    }
}

fn or_action(action: Option<Action>, written: bool, word: &[u8]) -> Result<InstrHead, Flaw>
    ensures { result ≡ or_action action written word.now }
{
    match action {
        Some(_) if written => Err(Flaw::Syntax),
        Some(action) => Ok(InstrHead::Acts(action)),
        None => call_word(word),
    }
}

fn head_word(written: bool, word: &[u8]) -> Result<InstrHead, Flaw>
    ensures { result ≡ head_word written word.now }
{
    match giver_word(word) {
        Some(giver) => Ok(InstrHead::Gives(giver)),
        None => or_action(action_word(word), written, word),
    }
}

/// The first word of an instruction; Syntax where a result is written that the instruction doesn't have.
pub(crate) fn instr_head<'b>(
    text: &[u8],
    written: bool,
    tokens: &'b [Token],
) -> Result<(InstrHead, &'b [Token]), Stop>
    ensures { Gives (λ x. valued x.0 x.1.now) result ((plain (instr_head text.now written)).read tt tokens.now) }
{
    match tokens {
        [token, rest @ ..] if is_kind(TokenKind::Word, token) => match head_word(
            written,
            spelled(text, token),
        ) {
            Ok(head) => Ok((head, rest)),
            Err(flaw) => Err(fault_at(flaw, tokens)),
        },
        _ => Err(syntax(tokens)),
    }
}
