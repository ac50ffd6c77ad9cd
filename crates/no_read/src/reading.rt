ghost use Rattle.std.specs.Prelude.{ℕ, List, ◌≡◌, ◌<◌, ◌^◌, length, IfOk, Result};
ghost use Rattle.no_ir.specs.declared.function.Module.{Module};
ghost use Rattle.no_ir.specs.declared.function.Role.{Role};
ghost use Rattle.no_lex.specs.declared.token.Token.{Token};
ghost use Rattle.no_module.specs.Formed.{IsFormed};
ghost use Rattle.no_module.specs.Marks.{MarksAllowed};
ghost use Rattle.no_read_rules.specs.Rules.{Gives};
ghost use Rattle.no_read.specs.declared.fault.ReadFault.{ReadFault};
ghost use Rattle.no_read.specs.Knowing.{Answers};
ghost use Rattle.no_read.specs.Reading.{IsModule, Reads, read_by};

use crate::known::{names_in, stop_error};
use crate::typed::with_types;
use crate::{Known, ReadError};
use no_ir::{List, Module, Role};
use no_lex::Token;
use no_read_rules::Stop;
use no_read_toplevel::{a_module, modules_are_exact};
use std::alloc::Global;

/// The module of the forms, where it is known what names mean.
#[tactic(auto, using(crate::proofs::ReadingLaws::read_untyped))]
fn forms(alloc: Global, text: &[u8], known: Known, role: Role) -> Result<Module, Stop>
    ensures { Gives (λ m. m) result (read_by text.now role known) }
{
    let scope = known.scope(text);
    let module = a_module(alloc, &scope, role, List::new(alloc), known.rest.as_slice())?;
    let module = with_types(alloc, known, module)?;
    Ok(module)
}

fn read(alloc: Global, text: &[u8], tokens: &[Token], role: Role) -> Result<Module, ReadError>
    requires { length text.now < 2 ^ 32 }
    ensures { Answers result (Reads text.now role tokens.now) }
{
    let known = match names_in(alloc, text, tokens) {
        Ok(known) => known,
        Err(error) => return Err(error),
    };
    match forms(alloc, text, known, role) {
        Ok(module) => Ok(module),
        Err(stop) => Err(stop_error(alloc, text, tokens, stop)),
    }
}

/// The module that the tokens of a text of less than 2 to the power of 32 bytes read to, or the first fault.
///
/// Type definitions are read first, wherever they stand, and then all other tokens in order. The first token that no form
/// allows is LeftOut where the profile leaves its word out, and Syntax otherwise; Number is a number out of its range, and
/// Circle the first named type that lies on a circle of references. Where the text ends before a form is whole, that is
/// Syntax at the text's length.
pub fn read_module(
    alloc: Global,
    text: &[u8],
    tokens: &[Token],
    role: Role,
) -> Result<Module, ReadError>
    requires { length text.now < 2 ^ 32 }
    // What is answered is what the text reads to, a module or a fault, and at most one answer is.
    ensures reads { Answers result (Reads text.now role tokens.now) }
    ensures only { (answer : Result Module ReadFault) → Reads text.now role tokens.now answer → Answers result (λ found. found ≡ answer) }
    // A module that is read is formed, and in a source nothing has a mark of a server's part.
    ensures formed { IfOk result (λ m. IsFormed m) }
    ensures marks { IfOk result (λ m. MarksAllowed role m) }
{
    modules_are_exact();
    read(alloc, text, tokens, role)
}

/// A text reads to one module at most.
pub fn at_most_one_module()
    ensures { (text : List ℕ) (role : Role) (tokens : List Token) (a b : Module) → IsModule text role tokens a → IsModule text role tokens b → a ≡ b }
{
    modules_are_exact();
}
