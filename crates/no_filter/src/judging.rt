ghost use Rattle.std.specs.Prelude.{◌≡◌, ◌<◌, ◌^◌, [], ◌∷◌, Some, slice_get, length, IfOk};
ghost use Rattle.no_calls.specs.Links.{IsGraphOf};
ghost use Rattle.no_filter.specs.Verdicts.{Answers, IsAlone, IsJudged, IsOf, IsReached, name_in, named_from, names_of};

use crate::reasons::{inputs, pinned, volatiles};
use crate::rules::{MOST_PARAMETERS, Rule, Verdict};
use no_calls::Graph;
use no_ir::{Bytes, Function, List, Module, NoMemory};
use no_layout::Layout;
use no_module::is_declared;
use no_semantics::Sound;
use std::alloc::Global;

fn copy_of(alloc: Global, name: &[u8]) -> Result<Bytes, NoMemory>
    ensures { IfOk result (λ copy. copy ≡ name.now) }
{
    let copy = Vec::from_slice(alloc, name)?;
    Ok(List::from_vec(copy))
}

/// The number of the first function that has a name.
fn number_named(functions: &[Function], name: &[u8]) -> Option<usize>
    ensures { result ≡ named_from name.now 0 functions.now }
{
    for (number, function) in functions.iter().enumerate() {
        if function.name.as_slice() == name {
            return Some(number);
        }
    }
    None
}

fn name_of(alloc: Global, program: &Module, k: u32) -> Result<Bytes, NoMemory>
    ensures { IfOk result (λ name. name ≡ name_in (slice_get program.now.functions k)) }
{
    match program.functions.get(k as usize) {
        Some(function) => copy_of(alloc, function.name.as_slice()),
        None => Ok(List::new(alloc)),
    }
}

/// The names of functions.
fn names_of(alloc: Global, program: &Module, path: &[u32]) -> Result<List<Bytes>, NoMemory>
    ensures { IfOk result (λ names. names ≡ names_of program.now path.now) }
{
    let mut names = List::new(alloc);
    for k in path {
        names.push(name_of(alloc, program, *k)?)?;
    }
    Ok(names)
}

/// A list of one name.
fn only(alloc: Global, name: &[u8]) -> Result<List<Bytes>, NoMemory>
    ensures { IfOk result (λ names. names ≡ name.now ∷ []) }
{
    let mut names = List::new(alloc);
    names.push(copy_of(alloc, name)?)?;
    Ok(names)
}

/// The names along the path to what a function reaches of these, if it reaches one.
fn path_to(
    alloc: Global,
    program: &Module,
    graph: &Graph,
    f: u32,
    goals: &[u32],
) -> Result<Option<List<Bytes>>, NoMemory>
    requires graph { IsGraphOf program.now graph.now }
    requires within { f < length program.now.functions }
    ensures { IfOk result (Answers program.now f goals.now) }
{
    match graph.path(f, goals)? {
        None => Ok(None),
        Some(path) => Ok(Some(names_of(alloc, program, path.as_slice())?)),
    }
}

/// The first rule of what a function reaches that holds.
fn reached(
    alloc: Global,
    program: &Module,
    graph: &Graph,
    f: u32,
) -> Result<Option<(Rule, List<Bytes>)>, NoMemory>
    requires graph { IsGraphOf program.now graph.now }
    requires within { f < length program.now.functions }
    requires short { length program.now.functions < 2 ^ 32 }
    ensures { IfOk result (IsReached program.now f) }
{
    let readers = inputs(alloc, program)?;
    if let Some(names) = path_to(alloc, program, graph, f, readers.as_slice())? {
        return Ok(Some((Rule::Input, names)));
    }
    let accesses = volatiles(alloc, program)?;
    if let Some(names) = path_to(alloc, program, graph, f, accesses.as_slice())? {
        return Ok(Some((Rule::Volatile, names)));
    }
    let bound = pinned(alloc, program)?;
    if let Some(names) = path_to(alloc, program, graph, f, bound.as_slice())? {
        return Ok(Some((Rule::Pinned, names)));
    }
    Ok(None)
}

/// The first rule of a function itself that holds.
fn alone(
    alloc: Global,
    device: &Layout,
    server: &Layout,
    name: &[u8],
    f: u32,
    function: &Function,
) -> Result<Verdict, NoMemory>
    ensures { IfOk result (IsAlone device.now server.now name.now f function.now) }
{
    if is_declared(function) {
        return Ok(Verdict::Bound(Rule::NotDefined, only(alloc, name)?));
    }
    if server.pointer < device.pointer {
        return Ok(Verdict::Bound(Rule::Width, only(alloc, name)?));
    }
    if function.params.len() > MOST_PARAMETERS {
        return Ok(Verdict::Bound(Rule::Argument, only(alloc, name)?));
    }
    Ok(Verdict::Free(f))
}

/// The verdict on a function.
fn judge_function(
    alloc: Global,
    sound: &Sound,
    graph: &Graph,
    name: &[u8],
    server: &Layout,
    f: u32,
) -> Result<Verdict, NoMemory>
    requires graph { IsGraphOf sound.now.«module» graph.now }
    requires within { f < length sound.now.«module».functions }
    requires short { length sound.now.«module».functions < 2 ^ 32 }
    ensures { IfOk result (IsOf sound.now name.now server.now f) }
{
    let program = sound.module();
    if let Some((rule, names)) = reached(alloc, program, graph, f)? {
        return Ok(Verdict::Bound(rule, names));
    }
    let function = &program.functions.as_slice()[f as usize];
    let verdict = alone(alloc, sound.layout(), server, name, f, function)?;
    Ok(verdict)
}

/// Whether the function of a name may move to a server with this layout, and if not, the first rule that keeps it on the device.
///
/// `graph` is that of the module. Along the path of a rule of what is reached stand the names of the functions from this one to
/// the reason; with any other rule its name alone.
pub fn judge(
    alloc: Global,
    sound: &Sound,
    graph: &Graph,
    name: &[u8],
    server: &Layout,
) -> Result<Verdict, NoMemory>
    requires { IsGraphOf sound.now.«module» graph.now }
    ensures { IfOk result (IsJudged sound.now name.now server.now) }
{
    let functions = sound.module().functions.as_slice();
    let Some(number) = number_named(functions, name) else {
        return Ok(Verdict::Bound(Rule::NotDefined, only(alloc, name)?));
    };
    if functions.len() > u32::MAX as usize {
        return Err(NoMemory);
    }
    judge_function(alloc, sound, graph, name, server, number as u32)
}
