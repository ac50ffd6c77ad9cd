ghost use Rattle.std.specs.Prelude.{◌≡◌, IfOk, OnOk, [], false};
ghost use Rattle.no_image.specs.Pieces.{AreInside, IsImage};
ghost use Rattle.no_ir.specs.declared.function.Role.TheVariants.{Source};
ghost use Rattle.no_layout.specs.Memory.{AreFormed};
ghost use Rattle.no_pages.specs.Table.{regions_of};
ghost use Rattle.no_semantics.specs.First.{program_of};
ghost use Rattle.no_verify.specs.Verdict.{IsAccepted};
ghost use Rattle.no_cases.specs.Standing.{IsFresh, IsReady};

use no_app::load;
use no_image::image;
use no_ir::{End, List, NoMemory};
use no_layout::{Access, Loaded, Memory, Width};
use no_lib::{Env, Input};
use no_machine::{Machine, StepAnswer, Steps};
use no_pages::PageTable;
use no_semantics::{Image, Sound};
use std::alloc::Global;
use std::marker::Brand;
use std::sync::ledger::{Blank, Ledger};
use std::test::*;

/// A program that adds a byte of the input to a global, and returns the sum; the global's first number comes between.
const PARTS: [&str; 2] = [
    "target datalayout = \"E-p:32:32-i64:64\"
@g = global i32 ",
    "
declare i32 @getchar()
define i32 @main() {
  %number = load i32, ptr @g
  %byte = call i32 @getchar()
  %sum = add i32 %number, %byte
  store i32 %sum, ptr @g
  ret i32 %sum
}
",
];

/// The program whose global begins with a number.
fn accepted(alloc: Global, number: &str) -> Result<Sound, NoMemory>
    ensures { IfOk result (λ a. IsAccepted a.«module» Source a) }
{
    let mut text = Vec::from_slice(alloc, PARTS[0].as_bytes())?;
    text.extend_from_slice(number.as_bytes())?;
    text.extend_from_slice(PARTS[1].as_bytes())?;
    match load(alloc, &text) {
        Ok(sound) => Ok(sound),
        Err(_) => Err(NoMemory),
    }
}

/// Its first memory.
fn imaged(alloc: Global, sound: &Sound) -> Result<Image, NoMemory>
    requires { IsAccepted sound.now.«module» Source sound.now }
    ensures { IfOk result (λ i. IsImage sound.now i) }
{
    image(alloc, sound)
}

/// A machine of it over a memory.
fn booted(
    alloc: Global,
    sound: &Sound,
    addresses: List<u32>,
    memory: PageTable,
    budget: u64,
    env: &Env,
) -> Result<Machine<PageTable>, NoMemory>
    requires accepted { IsAccepted sound.now.«module» Source sound.now }
    requires addresses { addresses ≡ (program_of sound.now).addresses }
    requires regions { regions_of memory ≡ (program_of sound.now).regions }
    requires input { env.now.input ≡ [] }
    ensures { IfOk result (λ m. IsFresh sound.now m env.now) }
{
    Machine::boot(alloc, sound, addresses, memory, budget)
}

/// Its memory, of which all pages are there, or none.
fn memory_of(alloc: Global, image: &Image, present: bool) -> Result<PageTable, NoMemory>
    requires formed { AreFormed image.now.regions }
    requires inside { AreInside image.now.regions image.now.pieces }
    ensures { IfOk result (λ m. regions_of m ≡ image.now.regions) }
{
    if present {
        no_image::load(alloc, image)
    } else {
        PageTable::absent(alloc, image.regions)
    }
}

/// The program and a machine of it, of whose memory all pages are there, or none.
fn begin(
    alloc: Global,
    number: &str,
    present: bool,
    budget: u64,
    env: &Env,
) -> Result<(Sound, Machine<PageTable>), NoMemory>
    requires { env.now.input ≡ [] }
    ensures { IfOk result (λ b. IsFresh b.0 b.1 env.now) }
{
    let sound = accepted(alloc, number)?;
    let image = imaged(alloc, &sound)?;
    let memory = memory_of(alloc, &image, present)?;
    let machine = booted(alloc, &sound, image.addresses, memory, budget, env)?;
    Ok((sound, machine))
}

/// What a run up to a limit answers, and what is counted then. An instruction without a meaning fails the case.
fn turn<L: Ledger>(
    machine: &mut Machine<PageTable>,
    sound: &Sound,
    limit: u64,
    env: &mut Env,
    steps: &mut Steps<L>,
) -> Result<(StepAnswer, u64), NoMemory>
    requires { IsReady sound.now machine.old env.old }
    ensures { OnOk result (IsReady sound.now machine.new env.new) }
{
    match machine.run(sound, limit, env, steps) {
        StepAnswer::Stuck => Err(NoMemory),
        answer => Ok((answer, machine.count())),
    }
}

/// The same of a machine at its beginning that stays there, since it wants a page. All else fails the case.
fn wait<L: Ledger>(
    machine: &mut Machine<PageTable>,
    sound: &Sound,
    limit: u64,
    env: &mut Env,
    steps: &mut Steps<L>,
) -> Result<(StepAnswer, u64), NoMemory>
    requires { IsFresh sound.now machine.old env.old }
    ensures { OnOk result (IsFresh sound.now machine.new env.new) }
{
    let answer = machine.run(sound, limit, env, steps);
    if machine.count() != 0 {
        return Err(NoMemory);
    }
    match answer {
        StepAnswer::WantPage(_) => Ok((answer, 0)),
        _ => Err(NoMemory),
    }
}

/// Gives a machine at its beginning the page of the global, where it lacks that.
fn offer(
    machine: &mut Machine<PageTable>,
    sound: &Sound,
    bytes: &[u8; 4096],
    env: &Env,
) -> Result<(), NoMemory>
    requires { IsFresh sound.now machine.old env.now }
    ensures { OnOk result (IsFresh sound.now machine.new env.now) }
{
    match machine.memory().ready(0x10000, 1, false) {
        Access::Missing(page) => machine.supply(page, bytes),
        _ => Ok(()),
    }
}

/// Puts a text behind the input, where that has not ended.
fn feed(
    machine: &Machine<PageTable>,
    sound: &Sound,
    text: &[u8],
    env: &mut Env,
) -> Result<(), NoMemory>
    requires { IsReady sound.now machine.now env.old }
    ensures { OnOk result (IsReady sound.now machine.now env.new) }
{
    if env.ended {
        return Ok(());
    }
    env.input.feed(text)
}

/// What five turns answered with what was counted then, and the number that the global had at the end.
#[derive(Drop)]
struct Seen {
    turns: [(StepAnswer, u64); 5],
    global: Loaded,
}

/// A machine at its beginning may be run.
fn settle(machine: &Machine<PageTable>, sound: &Sound, env: &Env)
    requires { IsFresh sound.now machine.now env.now }
    ensures { IsReady sound.now machine.now env.now }
{}

/// This input is given, and then comes a turn up to two counted instructions, and two up to a hundred, behind two that were taken.
fn take_turns<L: Ledger>(
    machine: &mut Machine<PageTable>,
    sound: &Sound,
    taken: [(StepAnswer, u64); 2],
    input: &[u8],
    env: &mut Env,
    steps: &mut Steps<L>,
) -> Result<Seen, NoMemory>
    requires { IsReady sound.now machine.old env.old }
{
    feed(machine, sound, input, env)?;
    let third = turn(machine, sound, 2, env, steps)?;
    let fourth = turn(machine, sound, 100, env, steps)?;
    let fifth = turn(machine, sound, 100, env, steps)?;
    Ok(Seen {
        turns: [taken[0], taken[1], third, fourth, fifth],
        global: machine.memory().load(true, Width::Four, 0x10000),
    })
}

/// This input is given, and then come two turns up to two counted instructions each, and the others behind more input.
fn take_all<L: Ledger>(
    machine: &mut Machine<PageTable>,
    sound: &Sound,
    first: &[u8],
    then: &[u8],
    env: &mut Env,
    steps: &mut Steps<L>,
) -> Result<Seen, NoMemory>
    requires { IsReady sound.now machine.old env.old }
{
    feed(machine, sound, first, env)?;
    let one = turn(machine, sound, 2, env, steps)?;
    let two = turn(machine, sound, 2, env, steps)?;
    take_turns(machine, sound, [one, two], then, env, steps)
}

/// The same, with two turns that want a page, which is given then with the number 5.
fn take_given<L: Ledger>(
    machine: &mut Machine<PageTable>,
    sound: &Sound,
    then: &[u8],
    env: &mut Env,
    steps: &mut Steps<L>,
) -> Result<Seen, NoMemory>
    requires { IsFresh sound.now machine.old env.old }
{
    let one = wait(machine, sound, 2, env, steps)?;
    let two = wait(machine, sound, 2, env, steps)?;
    offer(machine, sound, &five(), env)?;
    settle(machine, sound, env);
    take_turns(machine, sound, [one, two], then, env, steps)
}

/// No input yet, and no output.
fn quiet(alloc: Global, ended: bool) -> Env
    ensures { result.input ≡ [] }
{
    Env {
        input: Input::new(alloc),
        ended,
        output: Vec::new(alloc),
    }
}

/// What differs between runs over all pages: the first number of the global, the budget, the input at first and what comes
/// then, and whether the input has ended.
#[derive(Clone, Copy)]
struct Case<'a> {
    number: &'a str,
    budget: u64,
    first: &'a [u8],
    then: &'a [u8],
    ended: bool,
}

/// A run of the program over all its pages.
fn over_all<L: Ledger>(alloc: Global, case: Case<'_>, blank: Blank) -> Result<Seen, NoMemory>
    requires name { blank.name ≡ L.name }
    requires parts { blank.parts ≡ L.parts }
    requires two { blank.parts ≡ 2 }
{
    let mut steps: Steps<L> = Steps::new(blank);
    let mut env = quiet(alloc, case.ended);
    let (sound, mut machine) = begin(alloc, case.number, true, case.budget, &env)?;
    settle(&machine, &sound, &env);
    take_all(
        &mut machine,
        &sound,
        case.first,
        case.then,
        &mut env,
        &mut steps,
    )
}

/// A run of it over no page.
fn over_none<L: Ledger>(alloc: Global, then: &[u8], blank: Blank) -> Result<Seen, NoMemory>
    requires name { blank.name ≡ L.name }
    requires parts { blank.parts ≡ L.parts }
    requires two { blank.parts ≡ 2 }
{
    let mut steps: Steps<L> = Steps::new(blank);
    let mut env = quiet(alloc, false);
    let (sound, mut machine) = begin(alloc, "0", false, 100, &env)?;
    take_given(&mut machine, &sound, then, &mut env, &mut steps)
}

/// A page whose first number is 5.
fn five() -> [u8; 4096] {
    let mut page = [0; 4096];
    page[3] = 5;
    page
}

#[test]
fn input_is_waited_for(rt: HostRuntime) -> Result<(), NoMemory> {
    let case = Case {
        number: "261",
        budget: 100,
        first: b"".as_slice(),
        then: b"A".as_slice(),
        ended: false,
    };
    let seen = over_all::<Brand>(rt.alloc(), case, Blank::new(2))?;
    let waits = (StepAnswer::WantInput, 1);
    let ended = (StepAnswer::Ended(End::Exited(70)), 5);
    let stepped = (StepAnswer::Stepped, 3);
    assert!(rt; seen.turns == [waits, waits, stepped, ended, ended]);
    assert_eq!(rt; seen.global, Loaded::Value(0x0146));
    Ok(())
}

#[test]
fn the_end_of_the_input_is_minus_one(rt: HostRuntime) -> Result<(), NoMemory> {
    let case = Case {
        number: "0",
        budget: 100,
        first: b"".as_slice(),
        then: b"".as_slice(),
        ended: true,
    };
    let seen = over_all::<Brand>(rt.alloc(), case, Blank::new(2))?;
    let first = (StepAnswer::Stepped, 2);
    let second = (StepAnswer::Stepped, 4);
    let ended = (StepAnswer::Ended(End::Exited(255)), 5);
    assert!(rt; seen.turns == [first, second, ended, ended, ended]);
    assert_eq!(rt; seen.global, Loaded::Value(0xffff_ffff));
    Ok(())
}

#[test]
fn an_absent_page_is_wanted(rt: HostRuntime) -> Result<(), NoMemory> {
    let seen = over_none::<Brand>(rt.alloc(), b"A".as_slice(), Blank::new(2))?;
    let wants = (StepAnswer::WantPage(0x10), 0);
    let stepped = (StepAnswer::Stepped, 2);
    let ended = (StepAnswer::Ended(End::Exited(70)), 5);
    assert!(rt; seen.turns == [wants, wants, stepped, ended, ended]);
    assert_eq!(rt; seen.global, Loaded::Value(70));
    Ok(())
}

#[test]
fn a_budget_ends_a_run(rt: HostRuntime) -> Result<(), NoMemory> {
    let case = Case {
        number: "0",
        budget: 3,
        first: b"A".as_slice(),
        then: b"".as_slice(),
        ended: false,
    };
    let seen = over_all::<Brand>(rt.alloc(), case, Blank::new(2))?;
    let first = (StepAnswer::Stepped, 2);
    let over = (StepAnswer::Ended(End::Unfinished), 3);
    assert!(rt; seen.turns == [first, over, over, over, over]);
    assert_eq!(rt; seen.global, Loaded::Value(0));
    Ok(())
}
