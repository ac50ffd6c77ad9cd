ghost use Rattle.std.specs.Prelude.{ℕ, List, ◌≡◌, ◌<◌, ◌^◌, length, None, IfOk};
ghost use Rattle.no_read_types.specs.Graph.{is_set, next_from, order_of, IsNumbering, AreSame};

use crate::flags::flags;
use crate::queue::{start_queue, take_next};
use no_ir::{List, NoMemory};
use std::alloc::{AllocError, Global};

/// The order in which definitions get their numbers, the number of each, and which wait for one.
#[derive(Drop)]
pub(crate) struct Numbering {
    pub order: List<u32>,
    pub numbers: Vec<u32>,
    pub waits: Vec<bool>,
}

/// The numbers up to a count, each at its own place.
#[tactic(auto, using(crate::proofs::OrderLaws::same_push))]
fn same_numbers(alloc: Global, count: usize) -> Result<Vec<u32>, AllocError>
    requires { count < 2 ^ 32 }
    ensures long { IfOk result (λ all. length all.items ≡ count) }
    ensures same { IfOk result (λ all. AreSame all.items) }
{
    let mut all = Vec::new(alloc);
    while all.len() < count {
        all.push(all.len() as u32)?;
    }
    Ok(all)
}

/// Numbers the definitions: again and again the first in order whose references all have numbers.
pub(crate) fn number(alloc: Global, graph: &[List<u32>]) -> Result<Numbering, NoMemory>
    ensures order { IfOk result (λ x. x.order ≡ order_of graph.now) }
    ensures numbering { IfOk result (λ x. IsNumbering graph.now x.order x.numbers.items x.waits.items) }
    ensures stuck { IfOk result (λ x. next_from (is_set x.waits.items) 0 graph.now ≡ None) }
{
    if graph.len() > u32::MAX as usize {
        return Err(NoMemory);
    }
    let mut waits = flags(alloc, graph.len(), true)?;
    let mut numbers = same_numbers(alloc, graph.len())?;
    let mut queue = start_queue(alloc, graph, &waits, &numbers)?;
    let mut order = List::new(alloc);
    loop {
        let next = take_next(graph, &mut waits, &mut queue)?;
        match next {
            None => {
                return Ok(Numbering {
                    order,
                    numbers,
                    waits,
                });
            }
            Some(n) => {
                numbers[n as usize] = order.len() as u32;
                order.push(n)?;
            }
        }
    }
}
