ghost use Rattle.std.specs.Prelude.{◌≡◌, ◌<◌, ◌^◌, length, Result, IfOk};
ghost use Rattle.no_read.specs.declared.fault.ReadFault.{ReadFault};
ghost use Rattle.no_read.specs.declared.known.Known.{Known};
ghost use Rattle.no_read_rules.specs.Scope.{seen};
ghost use Rattle.no_read.specs.Faults.{read_fault};
ghost use Rattle.no_read.specs.Knowing.{known_of, Knows, Answers, StopsAs, meaning_of};

use crate::{ReadError, read_fault};
use no_ir::{List, Names, NoMemory, Ty};
use no_lex::Token;
use no_read_rules::{Scope, Stop};
use no_read_symbols::{Symbols, symbol_names};
use no_read_types::{Lifted, definitions};
use std::alloc::Global;

/// What the names of a text mean, and the tokens that its forms are read from.
#[derive(Drop)]
pub struct Known {
    pub named: Names,
    pub types: List<Ty>,
    pub globals: Names,
    pub functions: Names,
    /// The tokens without type definitions.
    pub rest: List<Token>,
}

impl Known {
    /// What names mean in forms.
    pub fn scope<'a>(&'a self, text: &'a [u8]) -> Scope<'a>
        ensures { seen result ≡ meaning_of text.now self.now }
    {
        Scope {
            text,
            named: &self.named,
            types: self.types.as_slice(),
            globals: &self.globals,
            functions: &self.functions,
        }
    }
}

fn with_symbols(alloc: Global, text: &[u8], lifted: Lifted) -> Result<Known, NoMemory>
    ensures { IfOk result (λ k. k ≡ known_of text.now lifted) }
{
    let Symbols { globals, functions } = symbol_names(alloc, text, lifted.rest.as_slice())?;
    let Lifted { named, types, rest } = lifted;
    Ok(Known {
        named,
        types,
        globals,
        functions,
        rest,
    })
}

/// The error where reading stopped.
pub(crate) fn stop_error(alloc: Global, text: &[u8], tokens: &[Token], stop: Stop) -> ReadError
    requires { length text.now < 2 ^ 32 }
    ensures { StopsAs text.now tokens.now stop result }
{
    match stop {
        Stop::NoMemory => ReadError::NoMemory,
        Stop::Fault(stopped) => match read_fault(alloc, text, tokens, stopped) {
            Ok(fault) => ReadError::Fault(fault),
            Err(_) => ReadError::NoMemory,
        },
    }
}

/// What the names of a text mean, or the first fault.
#[tactic(auto, using(crate::proofs::KnowingLaws::is_known, crate::proofs::KnowingLaws::is_refused))]
pub(crate) fn names_in(alloc: Global, text: &[u8], tokens: &[Token]) -> Result<Known, ReadError>
    requires { length text.now < 2 ^ 32 }
    ensures { Answers result (Knows text.now tokens.now) }
{
    match definitions(alloc, text, tokens) {
        Ok(lifted) => {
            let known = with_symbols(alloc, text, lifted)?;
            Ok(known)
        }
        Err(stop) => Err(stop_error(alloc, text, tokens, stop)),
    }
}

/// What the names of a text of less than 2 to the power of 32 bytes mean, or the first fault of its type definitions.
pub fn read_names(alloc: Global, text: &[u8], tokens: &[Token]) -> Result<Known, ReadError>
    requires { length text.now < 2 ^ 32 }
    // What is answered is what the names mean, or the fault, and at most one answer is.
    ensures knows { Answers result (Knows text.now tokens.now) }
    ensures only { (answer : Result Known ReadFault) → Knows text.now tokens.now answer → Answers result (λ found. found ≡ answer) }
{
    names_in(alloc, text, tokens)
}
