ghost use Rattle.std.specs.Prelude.{◌≡◌, ◌^◌, ◌<◌, ◌≤◌};
ghost use Rattle.no_eval.specs.Compare.{compare_of};

use crate::number::signed;
use no_ir::Pred;

/// Whether a comparison holds of two numbers of w bits. Pointers are compared as numbers of their width.
pub fn compare(p: Pred, w: u8, a: u64, b: u64) -> bool
    requires some { 0 < w }
    requires most { w ≤ 64 }
    requires left { a < 2 ^ w }
    requires right { b < 2 ^ w }
    ensures { result ≡ compare_of p w a b }
{
    match p {
        Pred::Eq => a == b,
        Pred::Ne => a != b,
        Pred::Ugt => a > b,
        Pred::Uge => a >= b,
        Pred::Ult => a < b,
        Pred::Ule => a <= b,
        Pred::Sgt => signed(w, a) > signed(w, b),
        Pred::Sge => signed(w, a) >= signed(w, b),
        Pred::Slt => signed(w, a) < signed(w, b),
        Pred::Sle => signed(w, a) <= signed(w, b),
    }
}
