ghost use Rattle.std.specs.Prelude.{◌≡◌, ℕ, ◌<◌, ◌^◌, IfOk, Option, length};
ghost use Rattle.std.specs.List.{Contains};
ghost use Rattle.no_verify_paths.specs.Paths.{IsAnswer};
ghost use Rattle.no_verify_paths.specs.Flow.{row};
ghost use Rattle.no_verify_paths.specs.Survey.{IsLabels};
ghost use Rattle.no_verify_paths.specs.Judge.{IsSketch, Judged};

use crate::flow::solve;
use crate::graph::graph;
use crate::judge::judge;
use crate::labels::first_blocks;
use crate::parameters::parameter_rows;
use crate::rows::row_of;
use crate::sets::{set_of, sets_of};
use crate::survey::{Notebook, survey};
use no_ir::{Function, NoMemory};
use std::alloc::Global;

/// What is known of a function before sets flow.
#[derive(Drop)]
struct Sketch {
    /// The successors of each block.
    next: Vec<Vec<u32>>,
    /// The parameters in the rows of their registers.
    parameters: Vec<Vec<u32>>,
    book: Notebook,
}

/// The first one of what was found, and of the users of a row's missed needs.
fn judge_row(
    alloc: Global,
    function: &Function,
    sketch: &Sketch,
    number: usize,
    found: Option<(u32, u32)>,
) -> Result<Option<(u32, u32)>, NoMemory>
    requires count { (0 < length function.now.blocks) × (length function.now.blocks < 2 ^ 32) }
    requires sketch { IsSketch function.now sketch.now }
    ensures { IfOk result (λ first. Judged function.now (Contains (row sketch.now.book.needs.items number)) found first) }
{
    let needs = row_of(sketch.book.needs.as_slice(), number);
    if needs.is_empty() {
        return Ok(found);
    }
    let assignments = row_of(sketch.book.assignments.as_slice(), number);
    let gens = sets_of(alloc, function.blocks.len(), assignments)?;
    let start = set_of(row_of(sketch.parameters.as_slice(), number));
    let sets = solve(alloc, sketch.next.as_slice(), gens.as_slice(), start)?;
    Ok(judge(
        function,
        number,
        sets.as_slice(),
        gens.as_slice(),
        needs,
        found,
    ))
}

/// The first user of a missed need.
fn judge_rows(
    alloc: Global,
    function: &Function,
    sketch: &Sketch,
) -> Result<Option<(u32, u32)>, NoMemory>
    requires count { (0 < length function.now.blocks) × (length function.now.blocks < 2 ^ 32) }
    requires sketch { IsSketch function.now sketch.now }
    ensures { IfOk result (λ first. IsAnswer function.now first) }
{
    let mut found = None;
    for number in 0..sketch.book.needs.len() {
        found = judge_row(alloc, function, sketch, number, found)?;
    }
    Ok(found)
}

/// Notes all that is known of a function before sets flow.
fn draw(alloc: Global, function: &Function, labels: &[Option<u32>]) -> Result<Sketch, NoMemory>
    requires count { length function.now.blocks < 2 ^ 32 }
    requires labels { IsLabels function.now labels.now }
    ensures { IfOk result (λ sketch. IsSketch function.now sketch) }
{
    let next = graph(alloc, function, labels)?;
    let parameters = parameter_rows(alloc, function.params.as_slice())?;
    let book = survey(alloc, function, labels)?;
    Ok(Sketch {
        next,
        parameters,
        book,
    })
}

/// Block and place of the first use of a register that some path reaches unassigned; `None` where each path assigns
/// each register before it is used.
///
/// Paths go from block 0 by the labels of the last instruction of each block. What a phi takes from a label is used
/// at the end of that label's block. Places are judged in order of block and then of place in it. The uses of a
/// block that no path leads to are fine. `NoMemory` is the answer for a function with 2^32 blocks or with so many
/// instructions in a block, since no fault could name them.
pub fn assigned(alloc: Global, function: &Function) -> Result<Option<(u32, u32)>, NoMemory>
    ensures answer { IfOk result (λ found. IsAnswer function.now found) }
    ensures only { IfOk result (λ found. (other : Option (ℕ × ℕ)) → IsAnswer function.now other → other ≡ found) }
{
    let blocks = function.blocks.as_slice();
    if blocks.is_empty() {
        return Ok(None);
    }
    if blocks.len() > u32::MAX as usize {
        return Err(NoMemory);
    }
    let labels = first_blocks(alloc, blocks)?;
    let sketch = draw(alloc, function, labels.as_slice())?;
    judge_rows(alloc, function, &sketch)
}
