ghost use Rattle.std.specs.Prelude.{ℕ, List, ◌≡◌, ◌<◌, length, None, IfOk};
ghost use Rattle.std.specs.List.{find};
ghost use Rattle.no_read_types.specs.Graph.{is_set, next_from, count_set, OnCircle, IsFirstOnCircle, Tells};

use crate::flags::{first_set, flags, is_set, mark};
use crate::graph::references_at;
use no_ir::List;
use std::alloc::{AllocError, Global};

/// Whether a definition lies on a circle of references.
fn is_on_circle(alloc: Global, graph: &[List<u32>], start: usize) -> Result<bool, AllocError>
    ensures { IfOk result (λ b. Tells b (OnCircle graph.now start)) }
{
    let mut seen = flags(alloc, graph.len(), false)?;
    let mut todo = Vec::new(alloc);
    mark(references_at(graph, start), &mut seen, &mut todo)?;
    loop {
        match todo.pop() {
            None => return Ok(is_set(&seen, start)),
            Some(n) => mark(references_at(graph, n as usize), &mut seen, &mut todo)?,
        }
    }
}

/// The first of these that is set.
fn first_waiting(refs: &[u32], waits: &[bool]) -> Option<u32>
    ensures { result ≡ find (is_set waits.now) refs.now }
{
    for n in refs {
        if is_set(waits, *n as usize) {
            return Some(*n);
        }
    }
    None
}

/// A definition on a circle, where some wait and each of them refers to one that waits.
fn some_on_circle(alloc: Global, graph: &[List<u32>], waits: &[bool]) -> Result<usize, AllocError>
    requires long { length waits.now ≡ length graph.now }
    requires some { 0 < count_set waits.now }
    requires stuck { next_from (is_set waits.now) 0 graph.now ≡ None }
    ensures { IfOk result (λ n. OnCircle graph.now n) }
{
    let mut visited = flags(alloc, graph.len(), false)?;
    let mut n = first_set(waits);
    while !is_set(&visited, n) {
        visited[n] = true;
        match first_waiting(references_at(graph, n), waits) {
            Some(next) => n = next as usize,
            None => return Ok(n),
        }
    }
    Ok(n)
}

/// The first definition that lies on a circle, where some wait and each of them refers to one that waits.
pub(crate) fn first_on_circle(
    alloc: Global,
    graph: &[List<u32>],
    waits: &[bool],
) -> Result<usize, AllocError>
    requires long { length waits.now ≡ length graph.now }
    requires some { 0 < count_set waits.now }
    requires stuck { next_from (is_set waits.now) 0 graph.now ≡ None }
    ensures { IfOk result (λ n. IsFirstOnCircle graph.now n) }
{
    let last = some_on_circle(alloc, graph, waits)?;
    for n in 0..last {
        if is_on_circle(alloc, graph, n)? {
            return Ok(n);
        }
    }
    Ok(last)
}
