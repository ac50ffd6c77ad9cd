ghost use Rattle.std.specs.Prelude.{◌≡◌, ℕ, ◌==◌, Some, OnOk, if◌then◌else◌};
ghost use Rattle.no_verify_paths.specs.Flow.{row};
ghost use Rattle.no_verify_paths.specs.Survey.{RowAdded, at, is_some_of};

use no_ir::NoMemory;
use std::alloc::Global;

/// Adds an item to the row of a number. Rows that are not there yet are empty.
pub(crate) fn add_to_row<T: Drop>(
    alloc: Global,
    rows: &mut Vec<Vec<T>>,
    number: usize,
    item: T,
) -> Result<(), NoMemory>
    ensures { OnOk result (RowAdded number item rows.old.items rows.new.items) }
{
    while rows.len() <= number {
        rows.push(Vec::new(alloc))?;
    }
    rows[number].push(item)?;
    Ok(())
}

/// Puts a value for a number into a table. Numbers that are not there yet have none.
pub(crate) fn put(table: &mut Vec<Option<u32>>, number: u32, value: u32) -> Result<(), NoMemory>
    ensures { OnOk result ((i : ℕ) → at table.new.items i ≡ (if i == number then Some value else at table.old.items i)) }
{
    while table.len() <= number as usize {
        table.push(None)?;
    }
    table[number as usize] = Some(value);
    Ok(())
}

/// What a table has for a number.
pub(crate) fn find(table: &[Option<u32>], number: u32) -> Option<u32>
    ensures { result ≡ at table.now number }
{
    *table.get(number as usize)?
}

/// The row of a number, empty where there is none.
#[tactic(auto, unfolding(crate::specs::Flow::row))]
pub(crate) fn row_of<T>(rows: &[Vec<T>], number: usize) -> &[T]
    ensures { result.now ≡ row rows.now number }
{
    match rows.get(number) {
        Some(found) => found.as_slice(),
        None => &[],
    }
}
