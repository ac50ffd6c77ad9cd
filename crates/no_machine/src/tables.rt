ghost use Rattle.std.specs.Prelude.{IfOk};
ghost use Rattle.no_machine.specs.Outside.{AreExternals};
ghost use Rattle.no_machine.specs.Turning.{AreDeclared};

use no_ir::{List, Module, NoMemory, Role};
use no_module::{External, external_of, is_declared};
use std::alloc::Global;

/// For each function of a module whether it is declared.
pub fn declared_of(alloc: Global, program: &Module) -> Result<List<bool>, NoMemory>
    ensures { IfOk result (λ table. AreDeclared program.now table) }
{
    let mut table = List::new(alloc);
    for function in program.functions.as_slice() {
        table.push(is_declared(function))?;
    }
    Ok(table)
}

/// For each function of a module which external it is, if it is one.
pub fn externals_of(
    alloc: Global,
    program: &Module,
    role: Role,
) -> Result<List<Option<External>>, NoMemory>
    ensures { IfOk result (λ table. AreExternals program.now role table) }
{
    let mut table = List::new(alloc);
    for function in program.functions.as_slice() {
        table.push(external_of(role, function))?;
    }
    Ok(table)
}
