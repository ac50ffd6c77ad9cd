//! The program `nativeoff`: makes the real objects, and calls `command` with them.
#![tactic(auto)]

ghost use Rattle.std.specs.Prelude.{◌≡◌};

mod host_files;
mod std_sink;
mod std_source;

use host_files::HostFiles;
use no_app::{Outcome, command, status};
use no_ir::Text;
use no_machine::Steps;
use no_ports::{ClosedSpawner, ClosedWire};
use std::marker::Brand;
use std::process::ExitCode;
use std::sync::ledger::{Blank, Ledger};
use std::{env, io};
use std_sink::StdSink;
use std_source::StdSource;

/// The words after the program's own name.
fn words(rt: &HostRuntime) -> io::Result<Vec<Text>> {
    let mut words = Vec::new(rt.alloc());
    for word in env::args(rt)?.skip(1) {
        words.push(Text::from_string(word))?;
    }
    Ok(words)
}

/// Calls `command` on the standard streams and the files of the system.
fn run<L: Ledger>(rt: &HostRuntime, words: &[Text], blank: Blank) -> Outcome
    requires name { blank.name ≡ L.name }
    requires parts { blank.parts ≡ L.parts }
    requires two { blank.parts ≡ 2 }
{
    let mut files = HostFiles::new(rt);
    let mut input = StdSource::new(rt.reader());
    let mut out = StdSink::new(rt.stdout());
    let mut err = StdSink::new(rt.stderr());
    let mut steps: Steps<L> = Steps::new(blank);
    command(
        rt.alloc(),
        words,
        &mut files,
        &mut input,
        &mut out,
        &mut err,
        &mut ClosedWire::new(),
        &mut ClosedSpawner::new(),
        &mut steps,
    )
}

/// Words that are not UTF-8 are no command's words, as none are.
fn main(rt: HostRuntime) -> ExitCode {
    let words = match words(&rt) {
        Ok(words) => words,
        Err(error) => {
            if matches!(error.kind(), io::ErrorKind::OutOfMemory) {
                let _ = rt.eprintln("nativeoff: no memory");
                return ExitCode::from(status(&Outcome::NoMemory));
            }
            Vec::new(rt.alloc())
        }
    };
    let outcome = run::<Brand>(&rt, &words, Blank::new(2));
    ExitCode::from(status(&outcome))
}
