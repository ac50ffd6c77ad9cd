//! The tokens of the text profile: where each word, name, number, string and sign of a text stands.
#![tactic(auto)]

mod fault;
mod lexer;
mod spelling;
mod token;

pub use fault::{LexError, LexFault, LexKind};
pub use lexer::tokens;
pub use spelling::{is_digits, is_integer};
pub use token::{Token, TokenKind};
