ghost use Rattle.std.specs.Prelude.{◌≡◌, ℕ, ◌<◌, ◌^◌, IfOk, length};
ghost use Rattle.no_verify_paths.specs.Survey.{at};
ghost use Rattle.no_verify_paths.specs.Paths.{first_from};

use crate::rows::put;
use no_ir::{Block, NoMemory};
use std::alloc::Global;

/// For each label the number of its first block.
pub(crate) fn first_blocks(alloc: Global, blocks: &[Block]) -> Result<Vec<Option<u32>>, NoMemory>
    requires { length blocks.now < 2 ^ 32 }
    ensures { IfOk result (λ table. (l : ℕ) → at table.items l ≡ first_from 0 blocks.now l) }
{
    let mut table = Vec::new(alloc);
    for number in (0..blocks.len()).rev() {
        put(&mut table, blocks[number].label, number as u32)?;
    }
    Ok(table)
}
