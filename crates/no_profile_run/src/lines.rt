ghost use Rattle.std.specs.Prelude.{◌≡◌, ◌++◌, ℕ, IfOk, IfSome, List, OnOk, false};
ghost use Rattle.no_profile_run.specs.Lines.{line_of, lines_at, lines_from, share};
ghost use Rattle.no_profile_run.specs.Moments.{Moment};
ghost use Rattle.no_profile_run.specs.Profiled.{Entry, entries_of};
ghost use Rattle.no_profile_run.specs.Tallied.{AreClosed, IsCounter};

use crate::tally::{Counter, Tally};
use no_ir::{Function, List, NoMemory};
use no_module::is_declared;
use no_profile::Line;
use std::alloc::Global;

/// A number of things divided among so many, rounded up. None where that is too much for the sum.
fn share(things: u64, many: u64) -> Option<u64>
    ensures { IfSome result (λ n. n ≡ share things many) }
{
    if many == 0 {
        return Some(0);
    }
    let Some(sum) = things.checked_add(many - 1) else {
        return None;
    };
    Some(sum / many)
}

/// The line of a function with this counter.
fn line(alloc: Global, function: &Function, c: Counter) -> Result<Line, NoMemory>
    ensures { IfOk result (λ l. (entries : List Entry) → IsCounter false c entries → l ≡ line_of function.now.name entries) }
{
    let Some(pages) = share(c.pages, c.calls) else {
        return Err(NoMemory);
    };
    let name = List::from_vec(Vec::from_slice(alloc, function.name.as_slice())?);
    Ok(Line {
        name,
        calls: c.calls,
        steps: c.steps,
        pages,
    })
}

impl Tally {
    /// Puts the line of function k behind others, where it is defined.
    fn add_line(
        &self,
        alloc: Global,
        k: usize,
        function: &Function,
        lines: &mut List<Line>,
    ) -> Result<(), NoMemory>
        ensures { OnOk result ((rows : List Moment) → AreClosed self.now (λ f. entries_of f rows) → lines.new ≡ lines.old ++ lines_at k function.now rows) }
    {
        if is_declared(function) {
            return Ok(());
        }
        if k >= self.counters.len() {
            return Err(NoMemory);
        }
        let one = line(alloc, function, self.counters[k])?;
        lines.push(one)?;
        Ok(())
    }

    /// The lines of the defined functions of a module, in their order, once all calls are closed.
    pub fn lines(&self, alloc: Global, functions: &[Function]) -> Result<List<Line>, NoMemory>
        ensures { IfOk result (λ ls. (rows : List Moment) → AreClosed self.now (λ f. entries_of f rows) → ls ≡ lines_from 0 functions.now rows) }
    {
        let mut lines = List::new(alloc);
        for (k, function) in functions.iter().enumerate() {
            self.add_line(alloc, k, function, &mut lines)?;
        }
        Ok(lines)
    }
}
