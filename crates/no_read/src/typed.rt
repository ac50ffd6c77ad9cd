ghost use Rattle.std.specs.Prelude.{◌≡◌, IfOk};
ghost use Rattle.std.specs.List.{zip};
ghost use Rattle.no_read.specs.Reading.{typed, with_types};

use crate::Known;
use no_ir::{Bytes, List, Module, NoMemory, Ty};
use std::alloc::Global;

/// Each name beside its type.
fn paired(alloc: Global, names: &[Bytes], types: &[Ty]) -> Result<List<(Bytes, Ty)>, NoMemory>
    ensures { IfOk result (λ all. all ≡ zip names.now types.now) }
{
    let mut all = List::new(alloc);
    let mut rest = types;
    for name in names {
        let [ty, more @ ..] = rest else {
            return Ok(all);
        };
        let name = List::from_slice(alloc, name.as_slice())?;
        all.push((name, ty.copy(alloc)?))?;
        rest = more;
    }
    Ok(all)
}

/// A module with the named types of its text.
pub(crate) fn with_types(alloc: Global, known: Known, module: Module) -> Result<Module, NoMemory>
    ensures { IfOk result (λ m. m ≡ with_types (typed known) «module») }
{
    let Known { named, types, .. } = known;
    let names = named.into_list()?;
    let types = paired(alloc, names.as_slice(), types.as_slice())?;
    let Module {
        layout,
        globals,
        functions,
        ..
    } = module;
    Ok(Module {
        layout,
        types,
        globals,
        functions,
    })
}
