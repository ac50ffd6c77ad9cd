ghost use Rattle.std.specs.Prelude.{◌≡◌, ◌<◌, ◌^◌, length, IfOk};
ghost use Rattle.no_read.specs.Faults.{fault_number, token_at, syntax_at, left_out_at, flaw_at, read_fault};

use no_ir::{Bytes, List, NoMemory};
use no_lex::Token;
use no_read_attributes::is_left_out;
use no_read_rules::{Flaw, Stopped, spelled};
use std::alloc::{AllocError, Global};

/// The first fault of a text that reads as no module, and its place in bytes.
#[derive(Debug, Drop)]
pub enum ReadFault {
    /// A token that no form allows, or the text's end where a form isn't whole.
    Syntax { at: u32 },
    /// A token that the profile leaves out, and how it is spelled.
    LeftOut { at: u32, word: Bytes },
    /// A number out of its range.
    Number { at: u32 },
    /// A named type that lies on a circle of references.
    Circle { at: u32 },
}

impl ReadFault {
    /// The number that the program's lines give it.
    pub fn number(&self) -> u8
        ensures { result ≡ fault_number self.now }
    {
        match self {
            ReadFault::Syntax { .. } => 1,
            ReadFault::LeftOut { .. } => 2,
            ReadFault::Number { .. } => 3,
            ReadFault::Circle { .. } => 4,
        }
    }
}

/// Why there is no module.
#[derive(Debug, Drop)]
pub enum ReadError {
    NoMemory,
    Fault(ReadFault),
}

impl From<AllocError> for ReadError {
    ghost use Rattle.std.specs.Prelude.{◌≡◌};
    ghost use Rattle.no_read.specs.declared.fault.ReadError.TheVariants.{NoMemory};

    ghost from_gives = { λ _ e. e ≡ NoMemory };

    fn from(_error: AllocError) -> ReadError {
        ReadError::NoMemory
    }
}

impl From<NoMemory> for ReadError {
    ghost use Rattle.std.specs.Prelude.{◌≡◌};
    ghost use Rattle.no_read.specs.declared.fault.ReadError.TheVariants as read;

    ghost from_gives = { λ _ e. e ≡ read.NoMemory };

    fn from(_error: NoMemory) -> ReadError {
        ReadError::NoMemory
    }
}

/// The token that begins at a place.
fn token_at(place: u32, tokens: &[Token]) -> Option<Token>
    ensures { result ≡ token_at place tokens.now }
{
    for token in tokens {
        if token.start == place {
            return Some(*token);
        }
    }
    None
}

/// The fault at a token that no form allows.
fn syntax_at(
    alloc: Global,
    text: &[u8],
    place: u32,
    token: Option<Token>,
) -> Result<ReadFault, AllocError>
    ensures { IfOk result (λ f. f ≡ syntax_at text.now place token) }
{
    match token {
        Some(token) if is_left_out(text, &token) => Ok(ReadFault::LeftOut {
            at: place,
            word: List::from_slice(alloc, spelled(text, &token))?,
        }),
        _ => Ok(ReadFault::Syntax { at: place }),
    }
}

fn left_out_at(
    alloc: Global,
    text: &[u8],
    place: u32,
    token: Option<Token>,
) -> Result<ReadFault, AllocError>
    ensures { IfOk result (λ f. f ≡ left_out_at text.now place token) }
{
    match token {
        Some(token) => Ok(ReadFault::LeftOut {
            at: place,
            word: List::from_slice(alloc, spelled(text, &token))?,
        }),
        None => Ok(ReadFault::LeftOut {
            at: place,
            word: List::new(alloc),
        }),
    }
}

fn flaw_at(
    alloc: Global,
    text: &[u8],
    tokens: &[Token],
    flaw: Flaw,
    place: u32,
) -> Result<ReadFault, AllocError>
    ensures { IfOk result (λ f. f ≡ flaw_at text.now tokens.now flaw place) }
{
    match flaw {
        Flaw::Syntax => syntax_at(alloc, text, place, token_at(place, tokens)),
        Flaw::LeftOut => left_out_at(alloc, text, place, token_at(place, tokens)),
        Flaw::Number => Ok(ReadFault::Number { at: place }),
        Flaw::Circle => Ok(ReadFault::Circle { at: place }),
    }
}

/// The fault of a text of less than 2 to the power of 32 bytes, where reading its tokens stopped.
pub fn read_fault(
    alloc: Global,
    text: &[u8],
    tokens: &[Token],
    stopped: Stopped,
) -> Result<ReadFault, AllocError>
    requires { length text.now < 2 ^ 32 }
    ensures { IfOk result (λ f. f ≡ read_fault text.now tokens.now stopped) }
{
    match stopped.at {
        None => Ok(ReadFault::Syntax {
            at: text.len() as u32,
        }),
        Some(place) => flaw_at(alloc, text, tokens, stopped.flaw, place),
    }
}
