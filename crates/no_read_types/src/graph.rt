ghost use Rattle.std.specs.Prelude.{ℕ, List, ◌≡◌, ◌++◌, map, IfOk};
ghost use Rattle.no_read_types.specs.Graph.{joined, references, graph_of, references_at};

use crate::Definition;
use no_ir::{List, Ty};
use sqlite_items::at;
use std::alloc::{AllocError, Global};

/// Adds the named types that a type refers to.
#[cycle(references)]
fn add_references(ty: &Ty, all: &mut List<u32>) -> Result<(), AllocError>
    ensures { IfOk result (λ _. all.new ≡ all.old ++ references ty.now) }
{
    match ty {
        Ty::Void | Ty::Int(_) | Ty::Ptr => Ok(()),
        Ty::Named(number) => all.push(*number),
        Ty::Array(_, element) => add_references(element.get(), all),
        Ty::Struct(_, fields) => add_all(fields.as_slice(), all),
    }
}

#[cycle(references)]
fn add_all(types: &[Ty], all: &mut List<u32>) -> Result<(), AllocError>
    ensures { IfOk result (λ _. all.new ≡ all.old ++ joined (map references types.now)) }
{
    for ty in types {
        add_references(ty, all)?;
    }
    Ok(())
}

/// The references of each definition.
pub(crate) fn graph_of(alloc: Global, defined: &[Definition]) -> Result<List<List<u32>>, AllocError>
    ensures { IfOk result (λ graph. graph ≡ graph_of defined.now) }
{
    let mut graph = List::new(alloc);
    for definition in defined {
        let mut all = List::new(alloc);
        add_references(&definition.ty, &mut all)?;
        graph.push(all)?;
    }
    Ok(graph)
}

/// The references of the definition at a place.
pub(crate) fn references_at(graph: &[List<u32>], n: usize) -> &[u32]
    ensures { result.now ≡ references_at graph.now n }
{
    match at(graph, n) {
        Some(all) => all.as_slice(),
        None => &[],
    }
}
