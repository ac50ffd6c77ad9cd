ghost use Rattle.std.specs.Prelude.{◌≡◌};
ghost use Rattle.no_verify.specs.Kinds.{number_of};

use no_layout::LayoutFault;
use thiserror::Error;

/// What is wrong with a module.
#[derive(Clone, Copy, Debug, PartialEq, Eq, Error)]
pub enum VerifyKind {
    /// A symbol, register or label has no definition.
    #[error("UnknownName")]
    UnknownName,
    /// A name of its kind is defined a second time.
    #[error("Twice")]
    Twice,
    /// An operand, index, initialiser or result has another type than its place asks.
    #[error("TypeMismatch")]
    TypeMismatch,
    /// A block's last instruction is no terminator, or a terminator stands earlier.
    #[error("NoTerminator")]
    NoTerminator,
    /// A phi does not meet the edges that lead to it.
    #[error("PhiEdges")]
    PhiEdges,
    /// Some path reaches a use of a register that it does not assign.
    #[error("NotAssigned")]
    NotAssigned,
    /// A declared function that is used is no external.
    #[error("UnknownExternal")]
    UnknownExternal,
    /// A source has no function `main`.
    #[error("NoMain")]
    NoMain,
    /// The globals or the functions have no room.
    #[error("ImageTooLarge")]
    ImageTooLarge,
    /// A type is too large.
    #[error("BadType")]
    BadType,
    /// A server's part breaks a rule of its marks.
    #[error("BadMark")]
    BadMark,
}

impl VerifyKind {
    /// The number of a kind, from 1 to 11.
    pub fn number(self) -> u8
        ensures { result ≡ number_of self }
    {
        match self {
            VerifyKind::UnknownName => 1,
            VerifyKind::Twice => 2,
            VerifyKind::TypeMismatch => 3,
            VerifyKind::NoTerminator => 4,
            VerifyKind::PhiEdges => 5,
            VerifyKind::NotAssigned => 6,
            VerifyKind::UnknownExternal => 7,
            VerifyKind::NoMain => 8,
            VerifyKind::ImageTooLarge => 9,
            VerifyKind::BadType => 10,
            VerifyKind::BadMark => 11,
        }
    }
}

/// The first fault of a module: its kind, and the numbers of function, block and instruction; 0 for what has none.
#[derive(Clone, Copy, Debug, PartialEq, Eq, Error)]
#[error("{kind} at {function}, {block}, {place}")]
pub struct VerifyFault {
    pub kind: VerifyKind,
    pub function: u32,
    pub block: u32,
    pub place: u32,
}

/// Why a module is not accepted.
#[derive(Clone, Copy, Debug, PartialEq, Eq, Error)]
pub enum VerifyError {
    #[error("out of memory")]
    NoMemory,
    /// The module's layout string states no layout.
    #[error("{0}")]
    Layout(LayoutFault),
    #[error("{0}")]
    Fault(VerifyFault),
}
