ghost use Rattle.std.specs.Prelude.{◌≡◌, ◌⊎◌, ◌+◌, ◌<◌, ◌≤◌, ◌^◌, ◌&&◌, [], ◌∷◌, ◌++◌, List, false, if◌then◌else◌, length, nat_lt, replicate, slice_index_or, slice_set, true, IfOk, OnOk};
ghost use Rattle.no_ir.specs.declared.function.Function.{Function as Definition};
ghost use Rattle.no_ir.specs.Naming.{is_known, with_name};
ghost use Rattle.no_profile.specs.Choices.{Selects, passing};
ghost use Rattle.no_profile.specs.Gains.{is_worth};
ghost use Rattle.no_profile.specs.Numbered.{AreFlags, AreNumbered, Judges, Sees, Weighs, found};
ghost use Rattle.no_profile.specs.Ranges.{AreInRange, IsInRange, IsRanged};

use crate::fault::SelectError;
use crate::gains::gain;
use crate::profile::{Line, Profile, Rates};
use no_ir::{Function, List, Module, Names, NoMemory};
use no_module::is_declared;
use std::alloc::Global;

// ---- functions by their names

/// The defined functions by their names.
#[derive(Drop)]
struct Defined {
    names: Names,
    /// The function's number beside each name.
    numbers: Vec<u32>,
}

impl Defined {
    fn number(&self, name: &[u8]) -> Option<u32>
        ensures { result ≡ found self.now.names self.now.numbers.items name.now }
    {
        match self.names.find(name) {
            Some(at) => self.numbers.get(at).copied(),
            None => None,
        }
    }

    /// Adds a name with a number, where it is new.
    fn add(&mut self, k: u32, name: &[u8]) -> Result<(), NoMemory>
        requires room { length self.old.names + 1 < 2 ^ 32 }
        ensures names { OnOk result (self.new.names ≡ with_name self.old.names name.now) }
        ensures numbers { OnOk result (self.new.numbers.items ≡ (if is_known self.old.names name.now then self.old.numbers.items else self.old.numbers.items ++ k ∷ [])) }
    {
        if self.names.find(name).is_some() {
            return Ok(());
        }
        self.names.number(name)?;
        self.numbers.push(k)?;
        Ok(())
    }

    /// Adds function k behind those before it.
    fn add_function(&mut self, k: u32, function: &Function) -> Result<(), NoMemory>
        requires room { length self.old.names + 1 < 2 ^ 32 }
        ensures numbered { (before : List Definition) → k ≡ length before → AreNumbered before self.old.names self.old.numbers.items → OnOk result (AreNumbered (before ++ function.now ∷ []) self.new.names self.new.numbers.items) }
        ensures grows { OnOk result (length self.new.names ≤ length self.old.names + 1) }
    {
        if is_declared(function) {
            return Ok(());
        }
        self.add(k, function.name.as_slice())
    }
}

/// The defined functions of a module.
fn numbered(alloc: Global, functions: &[Function]) -> Result<Defined, NoMemory>
    requires { length functions.now < 2 ^ 32 }
    ensures { IfOk result (λ all. AreNumbered functions.now all.names all.numbers.items) }
{
    let mut all = Defined {
        names: Names::new(alloc)?,
        numbers: Vec::new(alloc),
    };
    for (k, function) in functions.iter().enumerate() {
        all.add_function(k as u32, function)?;
    }
    Ok(all)
}

// ---- lines

/// The fault of a line that names no defined function, or one that was named before.
fn unknown(alloc: Global, name: &[u8]) -> SelectError
    ensures { (result ≡ SelectError.NoMemory) ⊎ (result ≡ SelectError.Unknown name.now) }
{
    match Vec::from_slice(alloc, name) {
        Ok(copy) => SelectError::Unknown(List::from_vec(copy)),
        Err(_) => SelectError::NoMemory,
    }
}

/// The number of the function that a line names, where no line before it does.
fn judge(alloc: Global, defined: &Defined, seen: &[bool], line: &Line) -> Result<usize, SelectError>
    ensures { Judges (found defined.now.names defined.now.numbers.items line.now.name) seen.now line.now result }
{
    let Some(k) = defined.number(line.name.as_slice()) else {
        return Err(unknown(alloc, line.name.as_slice()));
    };
    let k = k as usize;
    if k >= seen.len() || seen[k] {
        return Err(unknown(alloc, line.name.as_slice()));
    }
    Ok(k)
}

/// Whether a line is worth moving.
fn is_worth(line: &Line, rates: &Rates) -> bool
    requires { IsInRange line.now }
    ensures { result ≡ is_worth rates.now line.now }
{
    gain(line, rates) > 0
}

/// Marks the function of a line.
fn mark(line: &Line, rates: &Rates, k: usize, seen: &mut Vec<bool>, worth: &mut Vec<bool>)
    requires ranged { IsInRange line.now }
    requires within { k < length seen.old.items }
    ensures seen { seen.new.items ≡ slice_set seen.old.items k true }
    ensures worth { worth.new.items ≡ (if is_worth rates.now line.now && nat_lt k (length worth.old.items) then slice_set worth.old.items k true else worth.old.items) }
{
    seen[k] = true;
    if is_worth(line, rates) && k < worth.len() {
        worth[k] = true;
    }
}

/// Judges a line behind others, and marks its function.
fn see(
    alloc: Global,
    defined: &Defined,
    rates: &Rates,
    line: &Line,
    seen: &mut Vec<bool>,
    worth: &mut Vec<bool>,
) -> Result<(), SelectError>
    requires { IsInRange line.now }
    ensures { (functions : List Definition) (before : List Line) → AreNumbered functions defined.now.names defined.now.numbers.items → AreFlags functions rates.now before seen.old.items worth.old.items → Sees functions rates.now before line.now result seen.new.items worth.new.items }
{
    match judge(alloc, defined, seen.as_slice(), line) {
        Ok(k) => {
            mark(line, rates, k, seen, worth);
            Ok(())
        }
        Err(error) => Err(error),
    }
}

/// So many flags that are not set.
fn flags(alloc: Global, count: usize) -> Result<Vec<bool>, NoMemory>
    ensures { IfOk result (λ flags. flags.items ≡ replicate count false) }
{
    let mut flags = Vec::new(alloc);
    for _ in 0..count {
        flags.push(false)?;
    }
    Ok(flags)
}

/// For each function whether it is worth moving by its line.
fn weigh(
    alloc: Global,
    defined: &Defined,
    count: usize,
    lines: &[Line],
    rates: &Rates,
) -> Result<Vec<bool>, SelectError>
    requires { AreInRange lines.now }
    ensures { (functions : List Definition) → count ≡ length functions → AreNumbered functions defined.now.names defined.now.numbers.items → Weighs functions rates.now lines.now result }
{
    let mut seen = flags(alloc, count)?;
    let mut worth = flags(alloc, count)?;
    for line in lines {
        match see(alloc, defined, rates, line, &mut seen, &mut worth) {
            Ok(()) => {}
            Err(error) => return Err(error),
        }
    }
    Ok(worth)
}

/// The numbers of functions that are marked twice, rising.
fn both(alloc: Global, worth: &[bool], free: &[bool]) -> Result<List<u32>, NoMemory>
    requires short { length worth.now < 2 ^ 32 }
    requires wide { length free.now ≡ length worth.now }
    ensures { IfOk result (λ ks. ks ≡ passing (λ k. slice_index_or worth.now k false && slice_index_or free.now k false) (length worth.now)) }
{
    let mut ks = List::new(alloc);
    for k in 0..worth.len() {
        if worth[k] && free[k] {
            ks.push(k as u32)?;
        }
    }
    Ok(ks)
}

/// The numbers of the functions whose gain is greater than 0 and whose `free` is true, rising.
///
/// `free` has one entry for each function of the module, by its number. All lines are judged before any is weighed: each has to
/// name a defined function, and no two the same.
pub fn select(
    alloc: Global,
    profile: &Profile,
    program: &Module,
    rates: &Rates,
    free: &[bool],
) -> Result<List<u32>, SelectError>
    requires ranged { IsRanged profile.now }
    requires wide { length free.now ≡ length program.now.functions }
    ensures { Selects program.now.functions rates.now profile.now.lines free.now result }
{
    let functions = program.functions.as_slice();
    if functions.len() > u32::MAX as usize {
        return Err(SelectError::NoMemory);
    }
    let all = numbered(alloc, functions)?;
    let worth = weigh(
        alloc,
        &all,
        functions.len(),
        profile.lines.as_slice(),
        rates,
    )?;
    let ks = both(alloc, worth.as_slice(), free)?;
    Ok(ks)
}
