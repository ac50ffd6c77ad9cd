ghost use Rattle.std.specs.Prelude.{◌≡◌, ◌+◌, ◌*◌, ◌%◌, ◌^◌, ◌<◌, ◌≤◌, ◌∷◌, ℕ, List, Some, slice_get, slice_range};
ghost use Rattle.no_code.specs.declared.code.Step.{Step};
ghost use Rattle.no_semantics.specs.Values.{extended};
ghost use Rattle.no_machine.specs.Slots.{IsNumber, value_in};
ghost use Rattle.no_machine.specs.Did.{IsReadyGep, IsReadyStep, Wrote, leads};

use crate::did::Did;
use crate::slots::{put, read};
use no_code::{Code, Step};
use no_eval::cast;
use no_ir::CastOp;
use no_semantics::narrowed;

/// A number of w bits at the width of a pointer, with its sign where that is more.
#[inline(always)]
fn extended(w: u8, pointer: u8, n: u64) -> u64
    requires some { 0 < w }
    requires most { w ≤ 64 }
    requires some_to { 0 < pointer }
    requires most_to { pointer ≤ 64 }
    requires fits { n < 2 ^ w }
    ensures { result ≡ extended w pointer n }
{
    if w < pointer {
        cast(CastOp::SExt, w, pointer, n)
    } else {
        narrowed(pointer, n)
    }
}

/// An address moved by a step.
#[inline(always)]
fn stepped(one: Step, pointer: u8, window: &[u64], constants: &[u64], at: u64) -> u64
    requires some { 0 < pointer }
    requires most { pointer ≤ 64 }
    requires ready { IsReadyStep window.now constants.now one }
    ensures { (rest : ℕ) → (more : List Step) → rest ≡ leads window.now constants.now pointer more → (result + rest) % 2 ^ 64 ≡ (at + leads window.now constants.now pointer (one ∷ more)) % 2 ^ 64 }
{
    match one {
        Step::Index(w, x, stride) => {
            let index = extended(w, pointer, read(window, constants, x));
            at.wrapping_add(index.wrapping_mul(u64::from(stride)))
        }
        Step::Field(offset) => at.wrapping_add(u64::from(offset)),
    }
}

/// An address moved by some steps, modulo 2^64.
#[inline(always)]
fn walk(steps: &[Step], pointer: u8, window: &[u64], constants: &[u64], base: u64) -> u64
    requires some { 0 < pointer }
    requires most { pointer ≤ 64 }
    requires ready { (k : ℕ) → (one : Step) → slice_get steps.now k ≡ Some one → IsReadyStep window.now constants.now one }
    ensures { result ≡ (base + leads window.now constants.now pointer steps.now) % 2 ^ 64 }
{
    let mut at = base;
    for one in steps {
        at = stepped(*one, pointer, window, constants, at);
    }
    at
}

/// "getelementptr Instruction"
#[inline(always)]
pub(crate) fn address(
    code: &Code,
    pointer: u8,
    window: &mut [u64],
    constants: &[u64],
    into: u32,
    x: u32,
    from: u32,
    to: u32,
) -> Did
    requires { IsReadyGep window.old constants.now code.now pointer into x from to }
    ensures { Wrote ((value_in window.old constants.now x + leads window.old constants.now pointer (slice_range code.now.steps from to)) % 2 ^ pointer) into window.old window.new result }
{
    let steps = &code.steps.as_slice()[from as usize..to as usize];
    let at = walk(
        steps,
        pointer,
        window,
        constants,
        read(window, constants, x),
    );
    put(window, into, narrowed(pointer, at))
}
