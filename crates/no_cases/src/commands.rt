ghost use Rattle.std.specs.Prelude.{◌≡◌, IfOk, Some};
ghost use Rattle.no_app.specs.Jobs.{AreBytes, TellsBytes};

use no_app::{command, status};
use no_ir::{NoMemory, Text};
use no_machine::Steps;
use no_ports::{ClosedSpawner, ClosedWire, MemSource, SureFiles, SureSink};
use std::alloc::Global;
use std::marker::Brand;
use std::sync::ledger::{Blank, Ledger};
use std::test::*;

/// A program that returns a byte of the input.
const PROGRAM: &str = "target datalayout = \"E-p:32:32-i64:64\"
declare i32 @getchar()
define i32 @main() {
  %c = call i32 @getchar()
  ret i32 %c
}
";

/// The items of a list of bytes are bytes.
fn are_bytes(text: &[u8])
    ensures { AreBytes text.now }
{}

/// A source of a text, of whose calls these fail.
fn source(alloc: Global, text: &[u8], failing: &[u32]) -> Result<MemSource, NoMemory>
    ensures { IfOk result (λ s. TellsBytes (Some s.left)) }
{
    are_bytes(text);
    Ok(MemSource::new(
        Vec::from_slice(alloc, text)?,
        Vec::from_slice(alloc, failing)?,
    ))
}

fn words(alloc: Global) -> Result<Vec<Text>, NoMemory> {
    let mut words = Vec::new(alloc);
    for word in ["local", "m.ll"] {
        words.push(Text::from_string(String::from_str(alloc, word)?))?;
    }
    Ok(words)
}

/// The status and the last line of the program, where these takes from the input fail.
fn told<L: Ledger>(alloc: Global, failing: &[u32], blank: Blank) -> Result<(u8, Vec<u8>), NoMemory>
    requires name { blank.name ≡ L.name }
    requires parts { blank.parts ≡ L.parts }
    requires two { blank.parts ≡ 2 }
{
    let mut named = Vec::new(alloc);
    let text = Vec::from_slice(alloc, PROGRAM.as_bytes())?;
    named.push((String::from_str(alloc, "m.ll")?, text))?;
    let mut err = SureSink::new(alloc);
    let mut steps: Steps<L> = Steps::new(blank);
    let outcome = command(
        alloc,
        &words(alloc)?,
        &mut SureFiles::new(named),
        &mut source(alloc, b"A".as_slice(), failing)?,
        &mut SureSink::new(alloc),
        &mut err,
        &mut ClosedWire::new(),
        &mut ClosedSpawner::new(),
        &mut steps,
    );
    Ok((status(&outcome), Vec::from_slice(alloc, err.held())?))
}

#[test]
fn a_source_that_fails_is_a_read_fault(rt: HostRuntime) -> Result<(), NoMemory> {
    let (status, line) = told::<Brand>(rt.alloc(), &[1], Blank::new(2))?;
    assert_eq!(rt; status, 127);
    assert_eq!(rt; line.as_slice(), b"nativeoff: read fault\n".as_slice());
    Ok(())
}

#[test]
fn a_take_that_nothing_needs_may_fail(rt: HostRuntime) -> Result<(), NoMemory> {
    let (status, line) = told::<Brand>(rt.alloc(), &[2], Blank::new(2))?;
    assert_eq!(rt; status, 65);
    assert_eq!(rt; line.as_slice(), b"nativeoff: exited 65\n".as_slice());
    Ok(())
}
