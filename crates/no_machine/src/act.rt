ghost use Rattle.std.specs.Prelude.{◌≡◌};
ghost use Rattle.no_machine.specs.Did.{Acted, IsReady};

use crate::access::{allocate, load, store};
use crate::did::Did;
use crate::edges::{take, take_case, take_one};
use crate::paths::address;
use crate::values::{combine, convert, copy, judge, select};
use no_code::{Cell, Code};
use no_ir::{BinOp, CastOp, Pred, Trap};
use no_layout::Memory;

/// Does a cell that stays in its frame, and tells which call or return another is.
#[inline(always)]
pub(crate) fn act<M: Memory>(
    code: &Code,
    constants: &[u64],
    big: bool,
    pointer: u8,
    cell: Cell,
    window: &mut [u64],
    scratch: &mut Vec<(u32, u64)>,
    sp: &mut u32,
    mem: &mut M,
) -> Did
    requires same { constants.now ≡ code.now.constants }
    requires ready { IsReady pointer code.now window.old cell }
    ensures acted { Acted big pointer code.now (record { regions = M.regions mem.old; held = M.held mem.old; byte = M.byte mem.old; after = M.byte mem.new; sp = sp.old; sp_after = sp.new }) window.old window.new result cell }
    ensures regions { M.regions mem.new ≡ M.regions mem.old }
    ensures held { M.held mem.new ≡ M.held mem.old }
{
    match cell {
        Cell::Add(w, into, x, y) => combine(BinOp::Add, w, window, constants, into, x, y),
        Cell::Sub(w, into, x, y) => combine(BinOp::Sub, w, window, constants, into, x, y),
        Cell::Mul(w, into, x, y) => combine(BinOp::Mul, w, window, constants, into, x, y),
        Cell::UDiv(w, into, x, y) => combine(BinOp::UDiv, w, window, constants, into, x, y),
        Cell::URem(w, into, x, y) => combine(BinOp::URem, w, window, constants, into, x, y),
        Cell::SDiv(w, into, x, y) => combine(BinOp::SDiv, w, window, constants, into, x, y),
        Cell::SRem(w, into, x, y) => combine(BinOp::SRem, w, window, constants, into, x, y),
        Cell::Shl(w, into, x, y) => combine(BinOp::Shl, w, window, constants, into, x, y),
        Cell::LShr(w, into, x, y) => combine(BinOp::LShr, w, window, constants, into, x, y),
        Cell::AShr(w, into, x, y) => combine(BinOp::AShr, w, window, constants, into, x, y),
        Cell::And(w, into, x, y) => combine(BinOp::And, w, window, constants, into, x, y),
        Cell::Or(w, into, x, y) => combine(BinOp::Or, w, window, constants, into, x, y),
        Cell::Xor(w, into, x, y) => combine(BinOp::Xor, w, window, constants, into, x, y),
        Cell::Eq(w, into, x, y) => judge(Pred::Eq, w, window, constants, into, x, y),
        Cell::Ne(w, into, x, y) => judge(Pred::Ne, w, window, constants, into, x, y),
        Cell::Ugt(w, into, x, y) => judge(Pred::Ugt, w, window, constants, into, x, y),
        Cell::Uge(w, into, x, y) => judge(Pred::Uge, w, window, constants, into, x, y),
        Cell::Ult(w, into, x, y) => judge(Pred::Ult, w, window, constants, into, x, y),
        Cell::Ule(w, into, x, y) => judge(Pred::Ule, w, window, constants, into, x, y),
        Cell::Sgt(w, into, x, y) => judge(Pred::Sgt, w, window, constants, into, x, y),
        Cell::Sge(w, into, x, y) => judge(Pred::Sge, w, window, constants, into, x, y),
        Cell::Slt(w, into, x, y) => judge(Pred::Slt, w, window, constants, into, x, y),
        Cell::Sle(w, into, x, y) => judge(Pred::Sle, w, window, constants, into, x, y),
        Cell::Trunc(w, v, into, x) => convert(CastOp::Trunc, w, v, window, constants, into, x),
        Cell::ZExt(w, v, into, x) => convert(CastOp::ZExt, w, v, window, constants, into, x),
        Cell::SExt(w, v, into, x) => convert(CastOp::SExt, w, v, window, constants, into, x),
        Cell::PtrToInt(w, v, into, x) => {
            convert(CastOp::PtrToInt, w, v, window, constants, into, x)
        }
        Cell::IntToPtr(w, v, into, x) => {
            convert(CastOp::IntToPtr, w, v, window, constants, into, x)
        }
        Cell::BitCast(w, v, into, x) => convert(CastOp::BitCast, w, v, window, constants, into, x),
        Cell::Copy(into, x) => copy(window, constants, into, x),
        Cell::Select(into, z, x, y) => select(window, constants, into, z, x, y),
        Cell::Alloca(into, x, stride, align) => {
            allocate(sp, window, constants, into, x, stride, align)
        }
        Cell::Load(w, into, x) => load(mem, big, w, window, constants, into, x),
        Cell::Store(w, y, x) => store(mem, big, w, window, constants, y, x),
        Cell::Gep(into, x, from, to) => {
            address(code, pointer, window, constants, into, x, from, to)
        }
        Cell::Br(e) => take(code, window, constants, scratch, e),
        Cell::CondBr(x, e, f) => take_one(code, window, constants, scratch, x, e, f),
        Cell::Switch(x, e, from, to) => {
            take_case(code, window, constants, scratch, x, e, from, to)
        }
        Cell::Call(into, f, from, to) => Did::Calls(into, f, from, to),
        Cell::CallAt(into, from, to) => Did::CallsAt(into, from, to),
        Cell::Ret(x) => Did::Returns(x),
        Cell::Leave => Did::Leaves,
        Cell::Nothing | Cell::Phi | Cell::Unreachable => Did::Trapped(Trap::Unreachable),
    }
}
