ghost use Rattle.std.specs.Prelude.{◌≡◌, ◌<◌, ◌^◌, map, slice_set, false, length, IfOk};
ghost use Rattle.no_calls.specs.Links.{IsGraphOf};
ghost use Rattle.no_filter.specs.Verdicts.{AreFree, Cleared, passes};

use crate::reasons::{inputs, pinned, volatiles};
use crate::rules::MOST_PARAMETERS;
use no_calls::Graph;
use no_ir::{Function, NoMemory};
use no_layout::Layout;
use no_module::is_declared;
use no_semantics::Sound;
use std::alloc::Global;

/// Whether no rule holds of the function itself.
fn passes(device: &Layout, server: &Layout, function: &Function) -> bool
    ensures { result ≡ passes device.now server.now function.now }
{
    !is_declared(function)
        && (device.pointer <= server.pointer && function.params.len() <= MOST_PARAMETERS)
}

/// For each function whether no rule holds of it itself.
fn passing(
    alloc: Global,
    device: &Layout,
    server: &Layout,
    functions: &[Function],
) -> Result<Vec<bool>, NoMemory>
    ensures { IfOk result (λ flags. flags.items ≡ map (passes device.now server.now) functions.now) }
{
    let mut flags = Vec::new(alloc);
    for function in functions {
        flags.push(passes(device, server, function))?;
    }
    Ok(flags)
}

#[tactic(auto, using(std::proofs::lemmas::List::set_past))]
fn clear_one(flags: &mut Vec<bool>, k: u32)
    ensures { flags.new.items ≡ slice_set flags.old.items k false }
{
    if (k as usize) < flags.len() {
        flags[k as usize] = false;
    }
}

/// Clears the flags of these functions.
fn clear(flags: &mut Vec<bool>, ks: &[u32])
    ensures wide { length flags.new.items ≡ length flags.old.items }
    ensures cleared { Cleared ks.now flags.old.items flags.new.items }
{
    for k in ks {
        clear_one(flags, *k);
    }
}

/// For each function of a module, whether no rule keeps it on the device, in time that grows with the module alone.
///
/// `graph` is that of the module.
pub fn free_functions(
    alloc: Global,
    sound: &Sound,
    graph: &Graph,
    server: &Layout,
) -> Result<Vec<bool>, NoMemory>
    requires { IsGraphOf sound.now.«module» graph.now }
    ensures { IfOk result (λ flags. AreFree sound.now server.now flags.items) }
{
    let program = sound.module();
    let functions = program.functions.as_slice();
    if functions.len() > u32::MAX as usize {
        return Err(NoMemory);
    }
    let mut flags = passing(alloc, sound.layout(), server, functions)?;
    let readers = inputs(alloc, program)?;
    let first = graph.reaching(readers.as_slice())?;
    clear(&mut flags, first.as_slice());
    let accesses = volatiles(alloc, program)?;
    let second = graph.reaching(accesses.as_slice())?;
    clear(&mut flags, second.as_slice());
    let bound = pinned(alloc, program)?;
    let third = graph.reaching(bound.as_slice())?;
    clear(&mut flags, third.as_slice());
    Ok(flags)
}
