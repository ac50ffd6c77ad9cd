ghost use Rattle.std.specs.Prelude.{IfOk};
ghost use Rattle.no_verify_paths.specs.Judge.{AreParameters};

use crate::rows::add_to_row;
use no_ir::{NoMemory, Ty};
use std::alloc::Global;

/// The parameters of a function, in the rows of their registers.
pub(crate) fn parameter_rows(
    alloc: Global,
    parameters: &[(u32, Ty)],
) -> Result<Vec<Vec<u32>>, NoMemory>
    ensures { IfOk result (λ rows. AreParameters parameters.now rows.items) }
{
    let mut rows = Vec::new(alloc);
    for parameter in parameters {
        add_to_row(alloc, &mut rows, (parameter.0 / 64) as usize, parameter.0)?;
    }
    Ok(rows)
}
