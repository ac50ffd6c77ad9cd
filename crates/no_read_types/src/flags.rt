ghost use Rattle.std.specs.Prelude.{ℕ, List, ◌≡◌, ◌+◌, ◌<◌, ◌++◌, length, true, get_or, replicate, IfOk};
ghost use Rattle.no_read_types.specs.Graph.{is_set, is_clear, count_set, marked, fresh};

use std::alloc::{AllocError, Global};

pub(crate) fn is_set(flags: &[bool], n: usize) -> bool
    ensures { result ≡ is_set flags.now n }
{
    if n < flags.len() { flags[n] } else { false }
}

fn is_clear(flags: &[bool], n: usize) -> bool
    ensures { result ≡ is_clear flags.now n }
{
    if n < flags.len() { !flags[n] } else { false }
}

/// So many flags of one value.
pub(crate) fn flags(alloc: Global, count: usize, value: bool) -> Result<Vec<bool>, AllocError>
    ensures { IfOk result (λ all. all.items ≡ replicate count value) }
{
    let mut all = Vec::new(alloc);
    while all.len() < count {
        all.push(value)?;
    }
    Ok(all)
}

/// The place of a flag that is set.
#[tactic(auto, using(crate::proofs::FlagLaws::set_here, crate::proofs::FlagLaws::set_none))]
pub(crate) fn first_set(flags: &[bool]) -> usize
    requires { 0 < count_set flags.now }
    ensures { is_set flags.now result ≡ true }
{
    let mut n = 0;
    for flag in flags {
        if *flag {
            return n;
        }
        n += 1;
    }
    0
}

/// Sets these flags, and adds those that weren't set to a list.
pub(crate) fn mark(
    refs: &[u32],
    seen: &mut Vec<bool>,
    todo: &mut Vec<u32>,
) -> Result<(), AllocError>
    ensures seen { IfOk result (λ _. seen.new.items ≡ marked seen.old.items refs.now) }
    ensures todo { IfOk result (λ _. todo.new.items ≡ todo.old.items ++ fresh seen.old.items refs.now) }
{
    for n in refs {
        if is_clear(seen, *n as usize) {
            seen[*n as usize] = true;
            todo.push(*n)?;
        }
    }
    Ok(())
}
