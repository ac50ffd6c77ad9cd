//! Values worked out by hand from the rules of docs/LANGUAGE.md.
ghost use Rattle.std.specs.Prelude.{◌^◌, ◌<◌, ◌≤◌, IsTrue};

use no_eval::{binary, cast, compare};
use no_ir::{BinOp, CastOp, Pred, Trap};
use std::process::Abort;
use std::test::*;

const ZERO: Result<u64, Trap> = Err(Trap::DivideByZero);

const OVER: Result<u64, Trap> = Err(Trap::DivideOverflow);

/// Whether a number has at most w bits.
fn fits(w: u8, a: u64) -> bool
    requires { w ≤ 64 }
    ensures { IsTrue result → a < 2 ^ w }
{
    w == 64 || a < 1 << w
}

/// Asks for the width and the operands that every call needs.
fn asked(rt: &impl Abort, op: BinOp, w: u8, a: u64, b: u64) -> Result<u64, Trap> {
    assert!(rt; 0 < w && w <= 64);
    assert!(rt; fits(w, a) && fits(w, b));
    binary(op, w, a, b)
}

#[test]
fn sums_and_products(rt: HostRuntime) {
    let rows = [
        (BinOp::Add, 1, 1, 1, 0),
        (BinOp::Add, 8, 0xff, 1, 0),
        (BinOp::Add, 8, 0x7f, 1, 0x80),
        (BinOp::Add, 16, 0xffff, 0xffff, 0xfffe),
        (BinOp::Add, 32, 0x8000_0000, 0x8000_0000, 0),
        (BinOp::Add, 64, 0xffff_ffff_ffff_ffff, 2, 1),
        (BinOp::Sub, 1, 0, 1, 1),
        (BinOp::Sub, 8, 0, 1, 0xff),
        (BinOp::Sub, 8, 0x80, 1, 0x7f),
        (BinOp::Sub, 16, 0, 0x8000, 0x8000),
        (BinOp::Sub, 32, 5, 5, 0),
        (BinOp::Sub, 64, 0, 1, 0xffff_ffff_ffff_ffff),
        (BinOp::Mul, 1, 1, 1, 1),
        (BinOp::Mul, 8, 0x80, 2, 0),
        (BinOp::Mul, 8, 0xff, 0xff, 1),
        (BinOp::Mul, 16, 0x100, 0x101, 0x100),
        (BinOp::Mul, 32, 0x1_0001, 0xffff, 0xffff_ffff),
        (
            BinOp::Mul,
            64,
            0xffff_ffff_ffff_ffff,
            3,
            0xffff_ffff_ffff_fffd,
        ),
        (BinOp::And, 8, 0xf0, 0x3c, 0x30),
        (BinOp::Or, 16, 0xf000, 0x000f, 0xf00f),
        (
            BinOp::Xor,
            64,
            0xffff_ffff_ffff_ffff,
            1,
            0xffff_ffff_ffff_fffe,
        ),
    ];
    for (op, w, a, b, want) in rows {
        assert_eq!(rt; asked(&rt, op, w, a, b), Ok(want), "{op:?} i{w} {a}, {b}");
    }
}

#[test]
fn divisions(rt: HostRuntime) {
    let rows = [
        (BinOp::UDiv, 1, 1, 0, ZERO),
        (BinOp::UDiv, 8, 0xff, 2, Ok(0x7f)),
        (BinOp::UDiv, 16, 0x8000, 0xffff, Ok(0)),
        (BinOp::URem, 8, 0xff, 7, Ok(3)),
        (BinOp::URem, 32, 0xffff_ffff, 0, ZERO),
        (BinOp::URem, 64, 0xffff_ffff_ffff_ffff, 10, Ok(5)),
        (BinOp::SDiv, 1, 0, 1, Ok(0)),
        (BinOp::SDiv, 1, 1, 1, OVER),
        (BinOp::SDiv, 8, 0x80, 0, ZERO),
        (BinOp::SDiv, 8, 0x80, 0xff, OVER),
        (BinOp::SDiv, 8, 0x80, 1, Ok(0x80)),
        (BinOp::SDiv, 8, 0x81, 0xff, Ok(0x7f)),
        (BinOp::SDiv, 8, 0xf9, 2, Ok(0xfd)),
        (BinOp::SDiv, 16, 7, 0xfffe, Ok(0xfffd)),
        (BinOp::SDiv, 32, 0xffff_fff9, 0xffff_fffe, Ok(3)),
        (
            BinOp::SDiv,
            64,
            0x8000_0000_0000_0000,
            0xffff_ffff_ffff_ffff,
            OVER,
        ),
        (
            BinOp::SDiv,
            64,
            0x8000_0000_0000_0000,
            2,
            Ok(0xc000_0000_0000_0000),
        ),
        (BinOp::SRem, 1, 1, 1, OVER),
        (BinOp::SRem, 8, 0xf9, 2, Ok(0xff)),
        (BinOp::SRem, 8, 7, 0xfe, Ok(1)),
        (BinOp::SRem, 16, 0xfff9, 0xfffe, Ok(0xffff)),
        (BinOp::SRem, 32, 0x8000_0000, 0xffff_ffff, OVER),
        (
            BinOp::SRem,
            64,
            0x8000_0000_0000_0000,
            3,
            Ok(0xffff_ffff_ffff_fffe),
        ),
        (BinOp::SRem, 64, 5, 0, ZERO),
    ];
    for (op, w, a, b, want) in rows {
        assert_eq!(rt; asked(&rt, op, w, a, b), want, "{op:?} i{w} {a}, {b}");
    }
}

#[test]
fn shifts(rt: HostRuntime) {
    let rows = [
        (BinOp::Shl, 1, 1, 0, 1),
        (BinOp::Shl, 1, 1, 1, 0),
        (BinOp::Shl, 8, 1, 7, 0x80),
        (BinOp::Shl, 8, 1, 8, 0),
        (BinOp::Shl, 8, 0xff, 0xff, 0),
        (BinOp::Shl, 32, 0xffff_ffff, 4, 0xffff_fff0),
        (BinOp::Shl, 64, 3, 63, 0x8000_0000_0000_0000),
        (BinOp::Shl, 64, 3, 64, 0),
        (BinOp::LShr, 1, 1, 1, 0),
        (BinOp::LShr, 8, 0x80, 7, 1),
        (BinOp::LShr, 8, 0x80, 8, 0),
        (BinOp::LShr, 64, 0xffff_ffff_ffff_ffff, 63, 1),
        (BinOp::LShr, 64, 0xffff_ffff_ffff_ffff, 64, 0),
        (BinOp::AShr, 1, 1, 0, 1),
        (BinOp::AShr, 1, 1, 1, 1),
        (BinOp::AShr, 8, 0x80, 1, 0xc0),
        (BinOp::AShr, 8, 0x81, 1, 0xc0),
        (BinOp::AShr, 8, 0x80, 7, 0xff),
        (BinOp::AShr, 8, 0x80, 8, 0xff),
        (BinOp::AShr, 8, 0x7f, 8, 0),
        (BinOp::AShr, 16, 0x7fff, 3, 0x0fff),
        (BinOp::AShr, 32, 0x8000_0000, 0xffff_ffff, 0xffff_ffff),
        (
            BinOp::AShr,
            64,
            0x8000_0000_0000_0000,
            63,
            0xffff_ffff_ffff_ffff,
        ),
        (BinOp::AShr, 64, 0x7fff_ffff_ffff_ffff, 64, 0),
    ];
    for (op, w, a, b, want) in rows {
        assert_eq!(rt; asked(&rt, op, w, a, b), Ok(want), "{op:?} i{w} {a}, {b}");
    }
}

/// Asks for what every comparison needs.
fn compared(rt: &impl Abort, p: Pred, w: u8, a: u64, b: u64) -> bool {
    assert!(rt; 0 < w && w <= 64);
    assert!(rt; fits(w, a) && fits(w, b));
    compare(p, w, a, b)
}

#[test]
fn comparisons(rt: HostRuntime) {
    let rows = [
        (Pred::Eq, 1, 1, 1, true),
        (Pred::Eq, 64, 0, 0xffff_ffff_ffff_ffff, false),
        (Pred::Ne, 8, 0x80, 0x7f, true),
        (Pred::Ne, 8, 0x80, 0x80, false),
        (Pred::Ugt, 1, 1, 0, true),
        (Pred::Ugt, 32, 0x8000_0000, 0x7fff_ffff, true),
        (Pred::Ugt, 8, 3, 3, false),
        (Pred::Uge, 8, 3, 3, true),
        (Pred::Uge, 8, 0, 0xff, false),
        (Pred::Ult, 16, 0x7fff, 0x8000, true),
        (Pred::Ult, 16, 0, 0, false),
        (Pred::Ule, 64, 0, 0, true),
        (Pred::Ule, 64, 1, 0, false),
        (Pred::Sgt, 1, 0, 1, true),
        (Pred::Sgt, 32, 0x8000_0000, 0x7fff_ffff, false),
        (Pred::Sgt, 8, 0xff, 0x80, true),
        (Pred::Sge, 8, 0x80, 0x80, true),
        (Pred::Sge, 8, 0x80, 0x81, false),
        (Pred::Slt, 1, 1, 0, true),
        (Pred::Slt, 64, 0x8000_0000_0000_0000, 0, true),
        (
            Pred::Slt,
            64,
            0xffff_ffff_ffff_ffff,
            0xffff_ffff_ffff_ffff,
            false,
        ),
        (
            Pred::Sle,
            64,
            0xffff_ffff_ffff_ffff,
            0xffff_ffff_ffff_ffff,
            true,
        ),
        (Pred::Sle, 16, 0x7fff, 0x8000, false),
    ];
    for (p, w, a, b, want) in rows {
        assert_eq!(rt; compared(&rt, p, w, a, b), want, "{p:?} i{w} {a}, {b}");
    }
}

/// Asks for what the conversions between a pointer and a number need.
fn pointed(rt: &impl Abort, from: u8, to: u8, a: u64) -> (u64, u64) {
    assert!(rt; 0 < from && from <= 64 && 0 < to && to <= 64);
    assert!(rt; fits(from, a));
    (
        cast(CastOp::PtrToInt, from, to, a),
        cast(CastOp::IntToPtr, from, to, a),
    )
}

/// What a truncation of the first width gives, and both extensions of the second.
fn resized(rt: &impl Abort, wide: u8, narrow: u8, a: u64) -> (u64, u64, u64) {
    assert!(rt; 0 < narrow && narrow < wide && wide <= 64);
    assert!(rt; fits(wide, a));
    let low = cast(CastOp::Trunc, wide, narrow, a);
    (
        low,
        cast(CastOp::ZExt, narrow, wide, low),
        cast(CastOp::SExt, narrow, wide, low),
    )
}

#[test]
fn conversions(rt: HostRuntime) {
    let rows = [
        (8, 1, 0xfe, 0, 0, 0),
        (8, 1, 0x81, 1, 1, 0xff),
        (16, 8, 0x1234, 0x34, 0x34, 0x34),
        (32, 8, 0x80, 0x80, 0x80, 0xffff_ff80),
        (64, 1, 1, 1, 1, 0xffff_ffff_ffff_ffff),
        (
            64,
            32,
            0xffff_ffff_8000_0000,
            0x8000_0000,
            0x8000_0000,
            0xffff_ffff_8000_0000,
        ),
        (64, 32, 0x1_7fff_ffff, 0x7fff_ffff, 0x7fff_ffff, 0x7fff_ffff),
    ];
    for (wide, narrow, a, low, zeros, signs) in rows {
        assert_eq!(rt;
            resized(&rt, wide, narrow, a),
            (low, zeros, signs),
            "i{wide} {a} to i{narrow}"
        );
    }
    let pointers = [
        (32, 64, 0x8000_0000, 0x8000_0000),
        (64, 32, 0x1_0000_0010, 0x10),
        (32, 8, 0x1ff, 0xff),
        (16, 64, 0xffff, 0xffff),
        (64, 64, 0xffff_ffff_ffff_ffff, 0xffff_ffff_ffff_ffff),
    ];
    for (from, to, a, want) in pointers {
        assert_eq!(rt;
            pointed(&rt, from, to, a),
            (want, want),
            "{a} of {from} bits to {to}"
        );
    }
    assert_eq!(rt; cast(CastOp::BitCast, 32, 32, 0x8000_0000), 0x8000_0000);
}
