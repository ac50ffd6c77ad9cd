ghost use Rattle.std.specs.Prelude.{◌≡◌};
ghost use Rattle.no_lex.specs.Faults.{kind_number};

use std::alloc::AllocError;

/// What is wrong with a text that does not part into tokens. TooLong is judged first.
#[derive(Clone, Copy, Debug, PartialEq, Eq)]
pub enum LexKind {
    /// A byte that begins no token.
    BadByte,
    /// A quote that isn't closed.
    OpenString,
    /// A text of more bytes than the limit.
    TooLong,
}

impl LexKind {
    /// The number that the program's lines give it.
    pub fn number(self) -> u8
        ensures { result ≡ kind_number self }
    {
        match self {
            LexKind::BadByte => 1,
            LexKind::OpenString => 2,
            LexKind::TooLong => 3,
        }
    }
}

/// The first fault of a text, and its place in bytes: the byte, the quote, or the limit.
#[derive(Clone, Copy, Debug, PartialEq, Eq)]
pub struct LexFault {
    pub kind: LexKind,
    pub at: u32,
}

/// Why there are no tokens.
#[derive(Clone, Copy, Debug, PartialEq, Eq)]
pub enum LexError {
    NoMemory,
    Fault(LexFault),
}

impl From<AllocError> for LexError {
    ghost use Rattle.no_lex.specs.declared.fault.LexError.TheVariants.{NoMemory};

    ghost from_gives = { λ _ e. e ≡ NoMemory };

    fn from(_error: AllocError) -> LexError {
        LexError::NoMemory
    }
}
