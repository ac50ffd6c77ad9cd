ghost use Rattle.std.specs.Prelude.{◌≡◌, ◌==◌, if◌then◌else◌};
ghost use Rattle.no_eval.specs.Binary.{binary_of};
ghost use Rattle.no_eval.specs.Compare.{compare_of};
ghost use Rattle.no_eval.specs.Cast.{cast_of};
ghost use Rattle.no_semantics.specs.Results.{bit};
ghost use Rattle.no_machine.specs.Slots.{value_in};
ghost use Rattle.no_machine.specs.Did.{Gave, IsReadyBinary, IsReadyCast, IsReadyCopy, IsReadySelect, Wrote};

use crate::did::Did;
use crate::slots::{put, read};
use no_eval::{binary, cast, compare};
use no_ir::{BinOp, CastOp, Pred};

/// A truth value as a number of one bit.
#[inline(always)]
fn bit(b: bool) -> u64
    ensures { result ≡ bit b }
{
    if b { 1 } else { 0 }
}

/// One of two numbers.
#[inline(always)]
fn chosen(first: bool, x: u64, y: u64) -> u64
    ensures { result ≡ (if first then x else y) }
{
    if first { x } else { y }
}

/// A binary operator.
#[inline(always)]
pub(crate) fn combine(
    o: BinOp,
    w: u8,
    window: &mut [u64],
    constants: &[u64],
    into: u32,
    x: u32,
    y: u32,
) -> Did
    requires { IsReadyBinary window.old constants.now w into x y }
    ensures { Gave (binary_of o w (value_in window.old constants.now x) (value_in window.old constants.now y)) into window.old window.new result }
{
    match binary(o, w, read(window, constants, x), read(window, constants, y)) {
        Ok(n) => put(window, into, n),
        Err(trap) => Did::Trapped(trap),
    }
}

/// A comparison.
#[inline(always)]
pub(crate) fn judge(
    o: Pred,
    w: u8,
    window: &mut [u64],
    constants: &[u64],
    into: u32,
    x: u32,
    y: u32,
) -> Did
    requires { IsReadyBinary window.old constants.now w into x y }
    ensures { Wrote (bit (compare_of o w (value_in window.old constants.now x) (value_in window.old constants.now y))) into window.old window.new result }
{
    let holds = compare(o, w, read(window, constants, x), read(window, constants, y));
    put(window, into, bit(holds))
}

/// A conversion.
#[inline(always)]
pub(crate) fn convert(
    o: CastOp,
    w: u8,
    to: u8,
    window: &mut [u64],
    constants: &[u64],
    into: u32,
    x: u32,
) -> Did
    requires { IsReadyCast window.old constants.now o w to into x }
    ensures { Wrote (cast_of o w to (value_in window.old constants.now x)) into window.old window.new result }
{
    let n = cast(o, w, to, read(window, constants, x));
    put(window, into, n)
}

/// The operand itself.
#[inline(always)]
pub(crate) fn copy(window: &mut [u64], constants: &[u64], into: u32, x: u32) -> Did
    requires { IsReadyCopy window.old constants.now into x }
    ensures { Wrote (value_in window.old constants.now x) into window.old window.new result }
{
    let n = read(window, constants, x);
    put(window, into, n)
}

/// One of two operands.
#[inline(always)]
pub(crate) fn select(
    window: &mut [u64],
    constants: &[u64],
    into: u32,
    z: u32,
    x: u32,
    y: u32,
) -> Did
    requires { IsReadySelect window.old constants.now into z x y }
    ensures { Wrote (if value_in window.old constants.now z == 1 then value_in window.old constants.now x else value_in window.old constants.now y) into window.old window.new result }
{
    let first = read(window, constants, z) == 1;
    let n = chosen(
        first,
        read(window, constants, x),
        read(window, constants, y),
    );
    put(window, into, n)
}
