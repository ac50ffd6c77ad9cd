ghost use Rattle.std.specs.Prelude.{◌≡◌, ◌≤◌, ◌^◌, ◌⊎◌, ℕ, List, None, Some};
ghost use Rattle.no_app.specs.Jobs.{GoesOn, OnInput, TellsBytes};
ghost use Rattle.no_app.specs.Words.{asked_of};
ghost use Rattle.no_app.specs.Outcomes.{Says, WritesPart, Concludes, Tells, RunsText, WritesText, IsRefusal, outcome_of_job, outcome_refused};

use crate::job::{JobEnd, local_job};
use crate::loading::{Refused, TEXT_LIMIT, load};
use crate::outcome::Outcome;
use crate::telling::tell;
use crate::words::read_words;
use no_ir::{Bytes, End, Text};
use no_machine::Steps;
use no_ports::{FileAnswer, Files, Sink, Source, Spawner, Wire};
use std::alloc::Global;
use std::convert::AsStr;
use std::sync::ledger::Ledger;

/// The outcome of a file that could not be read.
fn file_fault(alloc: Global, name: &str) -> Outcome
    ensures { (result ≡ Outcome.FileFault name.now) ⊎ (result ≡ Outcome.NoMemory) }
{
    match Bytes::from_slice(alloc, name.as_bytes()) {
        Ok(name) => Outcome::FileFault(name),
        Err(_) => Outcome::NoMemory,
    }
}

/// The outcome of a job.
fn job_outcome(end: JobEnd) -> Outcome
    ensures { result ≡ outcome_of_job end }
{
    match end {
        JobEnd::Ended(End::Exited(number), _) => Outcome::Exited(number),
        JobEnd::Ended(End::Trapped(trap), _) => Outcome::Trapped(trap),
        JobEnd::Ended(End::Unfinished, _) => Outcome::Unfinished,
        JobEnd::ReadFault => Outcome::ReadFault,
        JobEnd::WriteFault => Outcome::WriteFault,
        JobEnd::NoMemory => Outcome::NoMemory,
    }
}

/// The outcome of a text that gives no program.
fn refused_outcome(refusal: Refused) -> Outcome
    ensures { result ≡ outcome_refused refusal }
{
    match refusal {
        Refused::Bad(fault) => Outcome::BadModule(fault),
        Refused::NoMemory => Outcome::NoMemory,
    }
}

/// Reads a program's text and runs it on the device alone.
fn run_text<I: Source, O: Sink, L: Ledger>(
    alloc: Global,
    text: &[u8],
    budget: u64,
    input: &mut I,
    out: &mut O,
    steps: &mut Steps<L>,
) -> Outcome
    requires budget { budget ≤ 2 ^ 32 }
    requires bytes { TellsBytes (I.left input.old) }
    ensures says { OnInput (I.left input.old) (λ given. RunsText result (record { held = O.held out.old; held' = O.held out.new; counted = steps.old; counted' = steps.new; ins = I.faults input.old; ins' = I.faults input.new; outs = O.faults out.old; outs' = O.faults out.new }) given budget text.now) }
    ensures part { OnInput (I.left input.old) (λ given. WritesText (record { held = O.held out.old; held' = O.held out.new; counted = steps.old; counted' = steps.new; ins = I.faults input.old; ins' = I.faults input.new; outs = O.faults out.old; outs' = O.faults out.new }) given budget text.now) }
    ensures input { GoesOn (I.left input.old) (I.left input.new) }
    ensures untouched { IsRefusal result → input.new ≡ input.old }
{
    match load(alloc, text) {
        Ok(sound) => job_outcome(local_job(alloc, sound, budget, input, out, steps)),
        Err(refusal) => refused_outcome(refusal),
    }
}

/// Does what the words ask for, all but the last line.
fn perform<F: Files, I: Source, O: Sink, L: Ledger>(
    alloc: Global,
    words: &[Text],
    files: &mut F,
    input: &mut I,
    out: &mut O,
    steps: &mut Steps<L>,
) -> Outcome
    requires { TellsBytes (I.left input.old) }
    ensures says { Says result (record { job = asked_of words.now; contents = F.contents files.old; input = I.left input.old; flow = record { held = O.held out.old; held' = O.held out.new; counted = steps.old; counted' = steps.new; ins = I.faults input.old; ins' = I.faults input.new; outs = O.faults out.old; outs' = O.faults out.new }; faults = F.faults files.old; faults' = F.faults files.new }) }
    ensures part { WritesPart (record { job = asked_of words.now; contents = F.contents files.old; input = I.left input.old; flow = record { held = O.held out.old; held' = O.held out.new; counted = steps.old; counted' = steps.new; ins = I.faults input.old; ins' = I.faults input.new; outs = O.faults out.old; outs' = O.faults out.new }; faults = F.faults files.old; faults' = F.faults files.new }) (asked_of words.now) }
    ensures files { (name : List ℕ) → F.contents files.new name ≡ F.contents files.old name }
    ensures input { GoesOn (I.left input.old) (I.left input.new) }
    ensures untouched { IsRefusal result → input.new ≡ input.old }
{
    let Some(request) = read_words(words) else {
        return Outcome::Usage;
    };
    let mut text = Vec::new(alloc);
    match files.read(request.file.as_str(), TEXT_LIMIT + 1, &mut text) {
        FileAnswer::Done => run_text(alloc, &text, request.steps, input, out, steps),
        FileAnswer::Failed => file_fault(alloc, request.file.as_str()),
        FileAnswer::NoMemory => Outcome::NoMemory,
    }
}

/// The top call: does all that the program does, and gives the last line to `err`.
///
/// The words are those after the program's own name. Now they are `local FILE`, with `--steps N`.
pub fn command<F: Files, I: Source, O: Sink, E: Sink, W: Wire, S: Spawner, L: Ledger>(
    alloc: Global,
    words: &[Text],
    files: &mut F,
    input: &mut I,
    out: &mut O,
    err: &mut E,
    wire: &mut W,
    spawner: &mut S,
    steps: &mut Steps<L>,
) -> Outcome
    requires { TellsBytes (I.left input.old) }
    // The headline, and when each outcome comes.
    ensures says { Concludes result (record { job = asked_of words.now; contents = F.contents files.old; input = I.left input.old; flow = record { held = O.held out.old; held' = O.held out.new; counted = steps.old; counted' = steps.new; ins = I.faults input.old; ins' = I.faults input.new; outs = O.faults out.old; outs' = O.faults out.new }; faults = F.faults files.old; faults' = F.faults files.new }) (E.faults err.old) (E.faults err.new) }
    // Whatever the outcome, no more than a prefix of the run's output is written, and no more counted than the run counts.
    ensures part { WritesPart (record { job = asked_of words.now; contents = F.contents files.old; input = I.left input.old; flow = record { held = O.held out.old; held' = O.held out.new; counted = steps.old; counted' = steps.new; ins = I.faults input.old; ins' = I.faults input.new; outs = O.faults out.old; outs' = O.faults out.new }; faults = F.faults files.old; faults' = F.faults files.new }) (asked_of words.now) }
    // The line that `err` gets.
    ensures told { Tells result (record { job = asked_of words.now; contents = F.contents files.old; input = I.left input.old; flow = record { held = O.held out.old; held' = O.held out.new; counted = steps.old; counted' = steps.new; ins = I.faults input.old; ins' = I.faults input.new; outs = O.faults out.old; outs' = O.faults out.new }; faults = F.faults files.old; faults' = F.faults files.new }) (E.held err.old) (E.held err.new) (E.faults err.old) (E.faults err.new) }
    // Input is taken in its order, and none before a run begins.
    ensures input { GoesOn (I.left input.old) (I.left input.new) }
    ensures untouched { IsRefusal result → input.new ≡ input.old }
    // What stays the same.
    ensures files { (name : List ℕ) → F.contents files.new name ≡ F.contents files.old name }
    ensures wire { wire.new ≡ wire.old }
    ensures spawner { spawner.new ≡ spawner.old }
{
    let outcome = perform(alloc, words, files, input, out, steps);
    tell(alloc, outcome, err)
}
