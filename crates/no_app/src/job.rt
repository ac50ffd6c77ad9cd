ghost use Rattle.std.specs.Prelude.{◌≡◌, ◌^◌, ◌≤◌, ◌<◌, ◌++◌, IfOk, OnOk, false, length};
ghost use Rattle.no_ir.specs.declared.function.Role.TheVariants.{Source};
ghost use Rattle.no_ports.specs.Meanings.{Rose};
ghost use Rattle.no_verify.specs.Verdict.{IsAccepted};
ghost use Rattle.no_engine.specs.Parts.{IsFresh};
ghost use Rattle.no_app.specs.Jobs.{AreBytes, Feeds, GoesOn, IsRunnable, OnInput, OnRun, RanSo, SlicedSo, TellsBytes, report_alone};

use crate::report::Report;
use no_engine::{Engine, Slice, booted};
use no_ir::{End, NoMemory};
use no_lib::{Env, Input};
use no_machine::Steps;
use no_ports::{GaveAll, Sink, Source, Took, give_all};
use no_semantics::Sound;
use std::alloc::Global;
use std::sync::ledger::Ledger;

/// How a job ended.
#[derive(Clone, Copy, Debug, PartialEq, Eq)]
pub enum JobEnd {
    /// The program ended.
    Ended(End, Report),
    /// The input failed.
    ReadFault,
    /// The output did not take a piece.
    WriteFault,
    NoMemory,
}

/// What became of a take from the input.
#[derive(Clone, Copy, Debug, PartialEq, Eq)]
pub(crate) enum Fed {
    /// There is more, or there is no more to come.
    Done,
    Failed,
    NoMemory,
}

/// The most that is counted between two looks at the output.
const SLICE: u64 = 65_536;

/// The most bytes that are taken from the input at once.
const PIECE: usize = 4096;

/// The report of a run on the device alone.
fn alone(count: u64) -> Report
    ensures { result ≡ report_alone count }
{
    Report {
        offloads: 0,
        finished: 0,
        lost: 0,
        abandoned: 0,
        declined: 0,
        pages: 0,
        dirty: 0,
        remote: 0,
        local: count,
        breach: None,
    }
}

/// Puts a piece behind a program's input.
fn put(piece: &[u8], env: &mut Env) -> Result<(), NoMemory>
    ensures put { OnOk result (env.new ≡ record { input = env.old.input ++ piece.now; ended = env.old.ended; output = env.old.output }) }
    ensures bytes { AreBytes piece.now }
{
    env.input.feed(piece)
}

/// Puts what the source gives next behind a program's input, or ends that.
fn feed<I: Source>(input: &mut I, piece: &mut [u8], env: &mut Env) -> Fed
    requires some { 0 < length piece.old }
    requires short { length piece.old < 2 ^ 32 }
    requires open { env.old.ended ≡ false }
    ensures fed { Feeds result (I.left input.old) (I.left input.new) env.old env.new }
    ensures later { I.faults input.old ≤ I.faults input.new }
    ensures failed { result ≡ Fed.Failed → Rose (I.faults input.old) (I.faults input.new) }
{
    match input.take(piece) {
        Took::Took(n) => match put(&piece[..n as usize], env) {
            Ok(()) => Fed::Done,
            Err(_) => Fed::NoMemory,
        },
        Took::End => {
            env.ended = true;
            Fed::Done
        }
        Took::Failed => Fed::Failed,
    }
}

/// Runs a program slice by slice, by an engine at the beginning of its run.
pub(crate) fn slices<E: Engine, I: Source, O: Sink, L: Ledger>(
    alloc: Global,
    sound: &Sound,
    engine: &mut E,
    input: &mut I,
    out: &mut O,
    steps: &mut Steps<L>,
) -> JobEnd
    requires runnable { IsRunnable sound.now }
    requires fresh { IsFresh (E.on sound.now) E.count E.budget sound.now (E.budget engine.old) engine.old }
    requires bytes { TellsBytes (I.left input.old) }
    ensures run { OnInput (I.left input.old) (λ given. OnRun sound.now given (E.budget engine.old) (SlicedSo (E.over sound.now engine.new given) result (O.held out.old) (O.held out.new) steps.old steps.new)) }
    ensures budget { E.budget engine.new ≡ E.budget engine.old }
    ensures read { result ≡ JobEnd.ReadFault → Rose (I.faults input.old) (I.faults input.new) }
    ensures fault { result ≡ JobEnd.WriteFault → Rose (O.faults out.old) (O.faults out.new) }
    ensures reads { I.faults input.old ≤ I.faults input.new }
    ensures later { O.faults out.old ≤ O.faults out.new }
    ensures input { GoesOn (I.left input.old) (I.left input.new) }
{
    let mut piece = [0; PIECE];
    let mut env = Env {
        input: Input::new(alloc),
        ended: false,
        output: Vec::new(alloc),
    };
    'slices: loop {
        let answer = engine.advance(sound, SLICE, &mut env, steps);
        match give_all(out, &env.output) {
            GaveAll::Done => {}
            GaveAll::Failed => return JobEnd::WriteFault,
            GaveAll::NoMemory => return JobEnd::NoMemory,
        }
        env.output.clear();
        match answer {
            Slice::Stepped => {}
            Slice::Ended(end) => return JobEnd::Ended(end, alone(engine.count())),
            Slice::WantInput => match feed(input, &mut piece, &mut env) {
                Fed::Done => {}
                Fed::Failed => return JobEnd::ReadFault,
                Fed::NoMemory => return JobEnd::NoMemory,
            },
            Slice::NoMemory => return JobEnd::NoMemory,
        }
    }
}

/// Runs a program on the device alone.
///
/// Its output is given as it comes, after each slice of instructions and before each take from the input. Input is taken
/// when the program asks for a byte of which none is there.
pub fn local_job<I: Source, O: Sink, L: Ledger>(
    alloc: Global,
    sound: Sound,
    budget: u64,
    input: &mut I,
    out: &mut O,
    steps: &mut Steps<L>,
) -> JobEnd
    requires budget { budget ≤ 2 ^ 32 }
    requires accepted { IsAccepted sound.«module» Source sound }
    requires bytes { TellsBytes (I.left input.old) }
    // What the output got is what the run writes, the job ends as the run does, and the counter rises by what the run counts.
    ensures run { OnInput (I.left input.old) (λ given. OnRun sound given budget (RanSo result (O.held out.old) (O.held out.new) steps.old steps.new)) }
    // A fault is told only where one came.
    ensures read { result ≡ JobEnd.ReadFault → Rose (I.faults input.old) (I.faults input.new) }
    ensures fault { result ≡ JobEnd.WriteFault → Rose (O.faults out.old) (O.faults out.new) }
    ensures reads { I.faults input.old ≤ I.faults input.new }
    ensures later { O.faults out.old ≤ O.faults out.new }
    ensures input { GoesOn (I.left input.old) (I.left input.new) }
{
    let Ok(mut machine) = booted(alloc, &sound, budget) else {
        return JobEnd::NoMemory;
    };
    slices(alloc, &sound, &mut machine, input, out, steps)
}
