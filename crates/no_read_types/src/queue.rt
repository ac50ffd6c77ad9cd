ghost use Rattle.std.specs.Prelude.{ℕ, List, ◌≡◌, ◌∷◌, [], length, take, replicate, false, IfOk};
ghost use Rattle.std.specs.List.{list_any, find};
ghost use Rattle.std.specs.BTreeSet.{contains};
ghost use Rattle.std.specs.Ordering.{nat_cmp};
ghost use Rattle.no_read_types.specs.Graph.{is_set, next_from, AreSame};
ghost use Rattle.no_read_types.specs.Queue.{IsQueue, cleared};

use crate::flags::is_set;
use crate::graph::references_at;
use crate::ready::{add_ready, take_least};
use crate::watchers::Watchers;
use no_ir::List;
use std::alloc::{AllocError, Global};
use std::collections::BTreeSet;

/// Which definitions are ready for a number, and what each of the others waits for.
#[derive(Drop)]
pub(crate) struct Queue {
    pub ready: BTreeSet<u32>,
    pub watchers: Watchers,
    /// How many references of each have no more to wait for.
    pub places: Vec<usize>,
}

/// The first of these that is waited for, where none before a place is, and its place.
#[tactic(auto, using(crate::proofs::QueueLaws::find_here, crate::proofs::QueueLaws::find_nowhere, crate::proofs::QueueLaws::none_more))]
fn advance(refs: &[u32], waits: &[bool], from: usize) -> (usize, Option<u32>)
    requires { list_any (is_set waits.now) (take from refs.now) ≡ false }
    ensures place { list_any (is_set waits.now) (take result.0 refs.now) ≡ false }
    ensures found { result.1 ≡ find (is_set waits.now) refs.now }
{
    let mut at = from;
    while at < refs.len() {
        if is_set(waits, refs[at] as usize) {
            return (at, Some(refs[at]));
        }
        at += 1;
    }
    (at, None)
}

/// Queues one that waits.
fn enqueue(graph: &[List<u32>], waits: &[bool], n: u32, queue: &mut Queue) -> Result<(), AllocError>
    requires long { length waits.now ≡ length graph.now }
    requires queue { (left : List ℕ) × IsQueue graph.now waits.now (contains nat_cmp queue.old.ready) queue.old.watchers queue.old.places.items left }
    ensures { IfOk result (λ _. (left : List ℕ) → IsQueue graph.now waits.now (contains nat_cmp queue.old.ready) queue.old.watchers queue.old.places.items (n ∷ left) → IsQueue graph.now waits.now (contains nat_cmp queue.new.ready) queue.new.watchers queue.new.places.items left) }
{
    let at = n as usize;
    if !is_set(waits, at) {
        return Ok(());
    }
    let (place, found) = advance(references_at(graph, at), waits, queue.places[at]);
    queue.places[at] = place;
    match found {
        None => {
            add_ready(&mut queue.ready, n)?;
            Ok(())
        }
        Some(watched) => {
            queue.watchers.watch(watched as usize, n)?;
            Ok(())
        }
    }
}

/// Queues all of these that wait.
pub(crate) fn enqueue_all(
    graph: &[List<u32>],
    waits: &[bool],
    all: &[u32],
    queue: &mut Queue,
) -> Result<(), AllocError>
    requires long { length waits.now ≡ length graph.now }
    requires queue { IsQueue graph.now waits.now (contains nat_cmp queue.old.ready) queue.old.watchers queue.old.places.items all.now }
    ensures { IfOk result (λ _. IsQueue graph.now waits.now (contains nat_cmp queue.new.ready) queue.new.watchers queue.new.places.items []) }
{
    for n in all {
        enqueue(graph, waits, *n, queue)?;
    }
    Ok(())
}

fn zeros(alloc: Global, count: usize) -> Result<Vec<usize>, AllocError>
    ensures { IfOk result (λ all. all.items ≡ replicate count 0) }
{
    let mut all = Vec::new(alloc);
    while all.len() < count {
        all.push(0)?;
    }
    Ok(all)
}

/// A queue of so many definitions, none of which is ready or watches another.
fn empty_queue(alloc: Global, count: usize) -> Result<Queue, AllocError>
    ensures ready { IfOk result (λ q. (n : ℕ) → contains nat_cmp q.ready n ≡ false) }
    ensures watchers { IfOk result (λ q. q.watchers ≡ replicate count []) }
    ensures places { IfOk result (λ q. q.places.items ≡ replicate count 0) }
{
    let watchers = Watchers::new(alloc, count)?;
    let places = zeros(alloc, count)?;
    Ok(Queue {
        ready: BTreeSet::new(alloc),
        watchers,
        places,
    })
}

/// The queue where all these, which are all numbers at their own places, wait.
#[tactic(auto, using(crate::proofs::QueueLaws::queue_starts))]
pub(crate) fn start_queue(
    alloc: Global,
    graph: &[List<u32>],
    waits: &[bool],
    numbers: &[u32],
) -> Result<Queue, AllocError>
    requires long { length waits.now ≡ length graph.now }
    requires as_long { length numbers.now ≡ length graph.now }
    requires same { AreSame numbers.now }
    ensures { IfOk result (λ q. IsQueue graph.now waits.now (contains nat_cmp q.ready) q.watchers q.places.items []) }
{
    let mut queue = empty_queue(alloc, graph.len())?;
    enqueue_all(graph, waits, numbers, &mut queue)?;
    Ok(queue)
}

/// Takes the next that gets a number: the first that waits and refers to none that waits.
pub(crate) fn take_next(
    graph: &[List<u32>],
    waits: &mut Vec<bool>,
    queue: &mut Queue,
) -> Result<Option<u32>, AllocError>
    requires long { length waits.old.items ≡ length graph.now }
    requires queue { IsQueue graph.now waits.old.items (contains nat_cmp queue.old.ready) queue.old.watchers queue.old.places.items [] }
    ensures next { IfOk result (λ n. n ≡ next_from (is_set waits.old.items) 0 graph.now) }
    ensures waits { IfOk result (λ n. waits.new.items ≡ cleared waits.old.items n) }
    ensures queue { IfOk result (λ _. IsQueue graph.now waits.new.items (contains nat_cmp queue.new.ready) queue.new.watchers queue.new.places.items []) }
{
    match take_least(&mut queue.ready) {
        None => Ok(None),
        Some(n) => {
            waits[n as usize] = false;
            let watching = queue.watchers.take_watchers(n as usize);
            enqueue_all(graph, waits, &watching, queue)?;
            Ok(Some(n))
        }
    }
}
