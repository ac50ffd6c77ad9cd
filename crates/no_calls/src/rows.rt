ghost use Rattle.std.specs.Prelude.{◌≡◌, ℕ, ◌<◌, ◌≤◌, ◌^◌, [], IfOk, OnOk, length, vec_len};
ghost use Rattle.std.specs.List.{Contains};
ghost use Rattle.no_calls.specs.Rows.{AreBelow, IsReverse, RowsAdded, row};

use no_ir::NoMemory;
use std::alloc::Global;

/// The row of a number, empty where there is none.
#[tactic(auto, unfolding(crate::specs::Rows::row))]
pub(crate) fn row_of(rows: &[Vec<u32>], number: usize) -> &[u32]
    ensures { result.now ≡ row rows.now number }
{
    match rows.get(number) {
        Some(found) => found.as_slice(),
        None => &[],
    }
}

/// Adds a number to each of these rows.
fn add_to_rows(rows: &mut Vec<Vec<u32>>, places: &[u32], number: u32) -> Result<(), NoMemory>
    requires { (s : ℕ) → Contains places.now s → s < vec_len rows.old }
    ensures { OnOk result (RowsAdded places.now number rows.old.items rows.new.items) }
{
    for place in places {
        rows[*place as usize].push(number)?;
    }
    Ok(())
}

/// So many empty rows.
fn empty_rows(alloc: Global, count: usize) -> Result<Vec<Vec<u32>>, NoMemory>
    ensures wide { IfOk result (λ rows. vec_len rows ≡ count) }
    ensures empty { IfOk result (λ rows. (s : ℕ) → row rows.items s ≡ []) }
{
    let mut rows = Vec::new(alloc);
    for _ in 0..count {
        rows.push(Vec::new(alloc))?;
    }
    Ok(rows)
}

/// For each of so many numbers the rows that have it, in order.
pub(crate) fn reversed(
    alloc: Global,
    rows: &[Vec<u32>],
    count: usize,
) -> Result<Vec<Vec<u32>>, NoMemory>
    requires short { length rows.now < 2 ^ 32 }
    requires below { AreBelow rows.now count }
    ensures wide { IfOk result (λ back. vec_len back ≡ count) }
    ensures reverse { IfOk result (λ back. IsReverse rows.now back.items) }
{
    let mut back = empty_rows(alloc, count)?;
    for (a, row) in rows.iter().enumerate() {
        add_to_rows(&mut back, row.as_slice(), a as u32)?;
    }
    Ok(back)
}
