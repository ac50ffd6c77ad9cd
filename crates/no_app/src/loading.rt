ghost use Rattle.std.specs.Prelude.{◌≡◌, ◌<◌, ◌^◌, length, IfOk, Result, Ok, Err};
ghost use Rattle.no_semantics.specs.Accepted.{Accepted};
ghost use Rattle.no_app.specs.declared.outcome.ModuleFault.{ModuleFault};
ghost use Rattle.no_ir.specs.declared.function.Role.TheVariants.{Source};
ghost use Rattle.no_verify.specs.Verdict.{IsAccepted};
ghost use Rattle.no_module.specs.Formed.{IsFormed};
ghost use Rattle.no_module.specs.Marks.{MarksAllowed};
ghost use Rattle.no_app.specs.Programs.{Loads, Means, MeansModule, MeansTokens, unaccepted, unlexed, unread};

use crate::outcome::ModuleFault;
use no_ir::{Module, NoMemory, Role};
use no_lex::{LexError, Token, tokens};
use no_read::{ReadError, read_module};
use no_semantics::Sound;
use no_verify::{VerifyError, verify};
use std::alloc::Global;

/// The greatest length of a text, in bytes.
pub(crate) const TEXT_LIMIT: u32 = 16_777_216;

/// Why a text gives no program.
#[derive(Debug, Drop)]
pub enum Refused {
    NoMemory,
    Bad(ModuleFault),
}

impl From<NoMemory> for Refused {
    ghost use Rattle.std.specs.Prelude.{◌≡◌};
    ghost use Rattle.no_app.specs.declared.loading.Refused.TheVariants as refused;

    ghost from_gives = { λ _ e. e ≡ refused.NoMemory };

    fn from(_error: NoMemory) -> Refused {
        Refused::NoMemory
    }
}

fn unaccepted(error: VerifyError) -> Refused
    ensures { result ≡ unaccepted error }
{
    match error {
        VerifyError::NoMemory => Refused::NoMemory,
        VerifyError::Layout(fault) => Refused::Bad(ModuleFault::Layout(fault)),
        VerifyError::Fault(fault) => Refused::Bad(ModuleFault::Verify(fault)),
    }
}

/// The program that a module is, by the verifier.
#[tactic(auto, using(crate::proofs::Meanings::accepted_loads, crate::proofs::Meanings::accepted_only, crate::proofs::Meanings::unaccepted_loads, crate::proofs::Meanings::unaccepted_only))]
fn accepted(alloc: Global, program: Module) -> Result<Sound, Refused>
    requires formed { IsFormed program }
    requires marks { MarksAllowed Source program }
    ensures loads { Loads result (MeansModule program) }
    ensures only { (answer : Result Accepted ModuleFault) → MeansModule program answer → Loads result (λ found. found ≡ answer) }
    ensures accepted { IfOk result (λ s. IsAccepted s.«module» Source s) }
{
    match verify(alloc, program, Role::Source) {
        Ok(accepted) => Ok(accepted),
        Err(error) => Err(unaccepted(error)),
    }
}

fn unlexed(error: LexError) -> Refused
    ensures { result ≡ unlexed error }
{
    match error {
        LexError::NoMemory => Refused::NoMemory,
        LexError::Fault(fault) => Refused::Bad(ModuleFault::Lex(fault)),
    }
}

fn unread(error: ReadError) -> Refused
    ensures { result ≡ unread error }
{
    match error {
        ReadError::NoMemory => Refused::NoMemory,
        ReadError::Fault(fault) => Refused::Bad(ModuleFault::Read(fault)),
    }
}

/// The program that a text's tokens mean.
#[tactic(auto, using(crate::proofs::Meanings::read_loads, crate::proofs::Meanings::read_only, crate::proofs::Meanings::unread_loads, crate::proofs::Meanings::unread_only))]
fn read(alloc: Global, text: &[u8], tokens: &[Token]) -> Result<Sound, Refused>
    requires { length text.now < 2 ^ 32 }
    ensures loads { Loads result (MeansTokens text.now (Ok tokens.now)) }
    ensures only { (answer : Result Accepted ModuleFault) → MeansTokens text.now (Ok tokens.now) answer → Loads result (λ found. found ≡ answer) }
    ensures accepted { IfOk result (λ s. IsAccepted s.«module» Source s) }
{
    match read_module(alloc, text, tokens, Role::Source) {
        Ok(program) => accepted(alloc, program),
        Err(error) => Err(unread(error)),
    }
}

/// The program that a text means, or the first fault.
#[tactic(auto, using(crate::proofs::Meanings::text_loads, crate::proofs::Meanings::text_means, crate::proofs::Meanings::unlexed_loads, crate::proofs::Meanings::unlexed_only))]
pub fn load(alloc: Global, text: &[u8]) -> Result<Sound, Refused>
    // What is loaded is what the text means, and it means one thing at most.
    ensures loads { Loads result (Means text.now) }
    ensures only { (answer : Result Accepted ModuleFault) → Means text.now answer → Loads result (λ found. found ≡ answer) }
    ensures accepted { IfOk result (λ s. IsAccepted s.«module» Source s) }
{
    match tokens(alloc, text, TEXT_LIMIT) {
        Ok(tokens) => read(alloc, text, tokens.as_slice()),
        Err(error) => Err(unlexed(error)),
    }
}
