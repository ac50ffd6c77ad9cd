ghost use Rattle.std.specs.Prelude.{◌≡◌, ℕ, ◌<◌, OnOk, length};
ghost use Rattle.std.specs.List.{Contains};
ghost use Rattle.no_calls.specs.Spreading.{AreFound, Noted, IsFound};

use no_ir::NoMemory;

/// What a search found.
#[derive(Drop)]
pub(crate) struct Found {
    /// How far each number is, where it was found.
    pub(crate) far: Vec<Option<u32>>,
    /// What was found at this level, and waits.
    pub(crate) next: Vec<u32>,
}

/// A number is met: it waits, unless it was found before.
pub(crate) fn meet(found: &mut Found, number: u32, level: u32) -> Result<(), NoMemory>
    requires { number < length found.old.far.items }
    ensures noted { OnOk result (Noted (λ b. b ≡ number) level found.old found.new) }
    ensures there { OnOk result (IsFound found.new.far.items number) }
{
    let at = number as usize;
    if found.far[at].is_some() {
        return Ok(());
    }
    found.next.push(number)?;
    found.far[at] = Some(level);
    Ok(())
}

/// The members of a set are met.
pub(crate) fn meet_all(found: &mut Found, members: &[u32], level: u32) -> Result<(), NoMemory>
    requires { (b : ℕ) → Contains members.now b → b < length found.old.far.items }
    ensures noted { OnOk result (Noted (Contains members.now) level found.old found.new) }
    ensures there { OnOk result (AreFound members.now found.new) }
{
    for member in members {
        meet(found, *member, level)?;
    }
    Ok(())
}
