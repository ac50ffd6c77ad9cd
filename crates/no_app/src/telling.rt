ghost use Rattle.std.specs.Prelude.{◌≡◌, ℕ, ◌≤◌, ◌++◌, ◌⊎◌, OnOk, IfOk, decimal};
ghost use Rattle.no_app.specs.Outcomes.{line_of, words_of, module_words, place_of, place_words, layout_number, verify_words, Becomes};

use crate::outcome::{ModuleFault, Outcome};
use no_ir::{NoMemory, Trap};
use no_layout::LayoutKind;
use no_ports::{GaveAll, Sink, give_all};
use no_read::ReadFault;
use no_verify::VerifyFault;
use std::alloc::Global;

/// Adds a number in decimal digits.
fn put_number(out: &mut Vec<u8>, alloc: Global, n: u64) -> Result<(), NoMemory>
    ensures { OnOk result (out.new.items ≡ out.old.items ++ decimal n) }
{
    let digits = format!(in alloc; "{n}")?;
    out.extend_from_slice(digits.as_bytes())?;
    Ok(())
}

/// Adds the words of a trap.
fn put_trap(out: &mut Vec<u8>, alloc: Global, trap: Trap) -> Result<(), NoMemory>
    ensures { OnOk result (out.new.items ≡ out.old.items ++ words_of (Outcome.Trapped trap)) }
{
    out.extend_from_slice(b"trapped ")?;
    put_number(out, alloc, u64::from(trap.number()))?;
    out.extend_from_slice(b" ")?;
    out.extend_from_slice(trap.name().as_bytes())?;
    Ok(())
}

/// Adds the words of a module's fault.
fn put_fault(out: &mut Vec<u8>, alloc: Global, fault: &ModuleFault) -> Result<(), NoMemory>
    ensures { OnOk result (out.new.items ≡ out.old.items ++ module_words fault.now) }
{
    match fault {
        ModuleFault::Lex(fault) => {
            out.extend_from_slice(b"lex ")?;
            put_place(out, alloc, fault.kind.number(), fault.at)
        }
        ModuleFault::Read(fault) => {
            out.extend_from_slice(b"read ")?;
            put_place(out, alloc, fault.number(), place_of(fault))
        }
        ModuleFault::Layout(fault) => {
            out.extend_from_slice(b"layout ")?;
            put_place(out, alloc, layout_number(fault.kind), fault.at)
        }
        ModuleFault::Verify(fault) => put_verify(out, alloc, *fault),
    }
}

/// Adds the words of a verifier's fault: the number of its kind, and where it is.
fn put_verify(out: &mut Vec<u8>, alloc: Global, fault: VerifyFault) -> Result<(), NoMemory>
    ensures { OnOk result (out.new.items ≡ out.old.items ++ verify_words fault) }
{
    out.extend_from_slice(b"verify ")?;
    put_number(out, alloc, u64::from(fault.kind.number()))?;
    out.extend_from_slice(b" function ")?;
    put_number(out, alloc, u64::from(fault.function))?;
    out.extend_from_slice(b" block ")?;
    put_number(out, alloc, u64::from(fault.block))?;
    out.extend_from_slice(b" place ")?;
    put_number(out, alloc, u64::from(fault.place))
}

/// Adds the number of a kind of fault, and its place.
fn put_place(out: &mut Vec<u8>, alloc: Global, kind: u8, at: u32) -> Result<(), NoMemory>
    ensures { OnOk result (out.new.items ≡ out.old.items ++ place_words kind at) }
{
    put_number(out, alloc, u64::from(kind))?;
    out.extend_from_slice(b" at ")?;
    put_number(out, alloc, u64::from(at))
}

/// The place of a fault, in bytes.
fn place_of(fault: &ReadFault) -> u32
    ensures { result ≡ place_of fault.now }
{
    match fault {
        ReadFault::Syntax { at } => *at,
        ReadFault::LeftOut { at, .. } => *at,
        ReadFault::Number { at } => *at,
        ReadFault::Circle { at } => *at,
    }
}

/// The number of a kind of layout fault.
fn layout_number(kind: LayoutKind) -> u8
    ensures { result ≡ layout_number kind }
{
    match kind {
        LayoutKind::NoOrder => 1,
        LayoutKind::BadWidth => 2,
        LayoutKind::BadSpec => 3,
    }
}

/// Adds the words of an outcome.
fn put_words(out: &mut Vec<u8>, alloc: Global, outcome: &Outcome) -> Result<(), NoMemory>
    ensures { OnOk result (out.new.items ≡ out.old.items ++ words_of outcome.now) }
{
    match outcome {
        Outcome::Exited(number) => {
            out.extend_from_slice(b"exited ")?;
            put_number(out, alloc, u64::from(*number))
        }
        Outcome::Trapped(trap) => put_trap(out, alloc, *trap),
        Outcome::Unfinished => put_text(out, b"unfinished"),
        Outcome::NoMemory => put_text(out, b"no memory"),
        Outcome::Usage => put_text(out, b"the words are not a command's words"),
        Outcome::FileFault(name) => {
            out.extend_from_slice(b"file fault ")?;
            put_text(out, name.as_slice())
        }
        Outcome::BadModule(fault) => {
            out.extend_from_slice(b"bad module ")?;
            put_fault(out, alloc, fault)
        }
        Outcome::ReadFault => put_text(out, b"read fault"),
        Outcome::WriteFault => put_text(out, b"write fault"),
    }
}

/// Adds a text.
fn put_text(out: &mut Vec<u8>, text: &[u8]) -> Result<(), NoMemory>
    ensures { OnOk result (out.new.items ≡ out.old.items ++ text.now) }
{
    out.extend_from_slice(text)?;
    Ok(())
}

/// The last line of an outcome.
fn line(alloc: Global, outcome: &Outcome) -> Result<Vec<u8>, NoMemory>
    ensures { IfOk result (λ l. l.items ≡ line_of outcome.now) }
{
    let mut out = Vec::new(alloc);
    put_text(&mut out, b"nativeoff: ")?;
    put_words(&mut out, alloc, outcome)?;
    put_text(&mut out, b"\n")?;
    Ok(out)
}

/// What becomes of an outcome whose line the stream refused: a write fault, but for want of memory.
fn after_failure(outcome: Outcome) -> Outcome
    ensures { (result ≡ Outcome.WriteFault) ⊎ ((outcome ≡ Outcome.NoMemory) × (result ≡ Outcome.NoMemory)) }
{
    match outcome {
        Outcome::NoMemory => Outcome::NoMemory,
        _ => Outcome::WriteFault,
    }
}

/// Gives the last line of an outcome to a stream, and answers the outcome that comes of it.
///
/// A failure of the stream makes it a write fault, but for want of memory, which stays what it is. Want of memory for the line
/// makes it want of memory, also a write fault: so a write fault has given its whole line, or the stream failed.
pub(crate) fn tell<E: Sink>(alloc: Global, outcome: Outcome, err: &mut E) -> Outcome
    ensures { Becomes outcome result (E.held err.old) (E.held err.new) (E.faults err.old) (E.faults err.new) }
{
    let Ok(text) = line(alloc, &outcome) else {
        return Outcome::NoMemory;
    };
    match give_all(err, &text) {
        GaveAll::Done => outcome,
        GaveAll::Failed => after_failure(outcome),
        GaveAll::NoMemory => Outcome::NoMemory,
    }
}
