ghost use Rattle.std.specs.Prelude.{◌≡◌, IfOk};
ghost use Rattle.no_app.specs.Outcomes.{status_of};

use no_ir::{Bytes, Trap};
use no_layout::LayoutFault;
use no_lex::LexFault;
use no_read::ReadFault;
use no_verify::VerifyFault;

/// What is wrong with a module's file: the first that stands here.
#[derive(Debug, Drop)]
pub enum ModuleFault {
    /// The text does not part into tokens.
    Lex(LexFault),
    /// The tokens read to no module.
    Read(ReadFault),
    /// The data layout string is none.
    Layout(LayoutFault),
    /// The verifier refuses the module.
    Verify(VerifyFault),
}

/// How the program ends, in the order of the words that its last line has.
#[derive(Debug, Drop)]
pub enum Outcome {
    /// The run ended with this number.
    Exited(u8),
    Trapped(Trap),
    /// The run used up its budget.
    Unfinished,
    NoMemory,
    /// The words are not a command's words.
    Usage,
    /// The file of this name could not be read.
    FileFault(Bytes),
    BadModule(ModuleFault),
    /// The input failed.
    ReadFault,
    /// The output, or the stream of the last line, did not take what it was given.
    WriteFault,
}

/// The exit status that the program ends with.
pub fn status(outcome: &Outcome) -> u8
    ensures { result ≡ status_of outcome.now }
{
    match outcome {
        Outcome::Exited(number) => *number,
        Outcome::Trapped(trap) => 100 + trap.number(),
        Outcome::Unfinished => 110,
        Outcome::WriteFault => 118,
        Outcome::NoMemory => 119,
        Outcome::Usage => 120,
        Outcome::FileFault(_) => 121,
        Outcome::BadModule(_) => 122,
        Outcome::ReadFault => 127,
    }
}
