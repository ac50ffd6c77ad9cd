ghost use Rattle.std.specs.Prelude.{◌≡◌};
ghost use Rattle.no_words.specs.Words.{binary_named, binary_word as binary_word_of, cast_named, cast_word as cast_word_of, pred_named, pred_word as pred_word_of};

use no_ir::{BinOp, CastOp, Pred};

/// The word of a binary operator.
pub fn binary_word(by: BinOp) -> &'static [u8]
    ensures { result.now ≡ binary_word_of by }
{
    match by {
        BinOp::Add => b"add",
        BinOp::Sub => b"sub",
        BinOp::Mul => b"mul",
        BinOp::UDiv => b"udiv",
        BinOp::URem => b"urem",
        BinOp::SDiv => b"sdiv",
        BinOp::SRem => b"srem",
        BinOp::Shl => b"shl",
        BinOp::LShr => b"lshr",
        BinOp::AShr => b"ashr",
        BinOp::And => b"and",
        BinOp::Or => b"or",
        BinOp::Xor => b"xor",
    }
}

/// The word of a conversion.
pub fn cast_word(cast: CastOp) -> &'static [u8]
    ensures { result.now ≡ cast_word_of cast }
{
    match cast {
        CastOp::Trunc => b"trunc",
        CastOp::ZExt => b"zext",
        CastOp::SExt => b"sext",
        CastOp::PtrToInt => b"ptrtoint",
        CastOp::IntToPtr => b"inttoptr",
        CastOp::BitCast => b"bitcast",
    }
}

/// The word of a comparison.
pub fn pred_word(pred: Pred) -> &'static [u8]
    ensures { result.now ≡ pred_word_of pred }
{
    match pred {
        Pred::Eq => b"eq",
        Pred::Ne => b"ne",
        Pred::Ugt => b"ugt",
        Pred::Uge => b"uge",
        Pred::Ult => b"ult",
        Pred::Ule => b"ule",
        Pred::Sgt => b"sgt",
        Pred::Sge => b"sge",
        Pred::Slt => b"slt",
        Pred::Sle => b"sle",
    }
}

/// A binary operator by its word.
pub fn binary_named(word: &[u8]) -> Option<BinOp>
    ensures { result ≡ binary_named word.now }
{
    if word == b"add".as_slice() {
        Some(BinOp::Add)
    } else if word == b"sub".as_slice() {
        Some(BinOp::Sub)
    } else if word == b"mul".as_slice() {
        Some(BinOp::Mul)
    } else if word == b"udiv".as_slice() {
        Some(BinOp::UDiv)
    } else if word == b"urem".as_slice() {
        Some(BinOp::URem)
    } else if word == b"sdiv".as_slice() {
        Some(BinOp::SDiv)
    } else if word == b"srem".as_slice() {
        Some(BinOp::SRem)
    } else if word == b"shl".as_slice() {
        Some(BinOp::Shl)
    } else if word == b"lshr".as_slice() {
        Some(BinOp::LShr)
    } else if word == b"ashr".as_slice() {
        Some(BinOp::AShr)
    } else if word == b"and".as_slice() {
        Some(BinOp::And)
    } else if word == b"or".as_slice() {
        Some(BinOp::Or)
    } else if word == b"xor".as_slice() {
        Some(BinOp::Xor)
    } else {
        None
    }
}

/// A conversion by its word.
pub fn cast_named(word: &[u8]) -> Option<CastOp>
    ensures { result ≡ cast_named word.now }
{
    if word == b"trunc".as_slice() {
        Some(CastOp::Trunc)
    } else if word == b"zext".as_slice() {
        Some(CastOp::ZExt)
    } else if word == b"sext".as_slice() {
        Some(CastOp::SExt)
    } else if word == b"ptrtoint".as_slice() {
        Some(CastOp::PtrToInt)
    } else if word == b"inttoptr".as_slice() {
        Some(CastOp::IntToPtr)
    } else if word == b"bitcast".as_slice() {
        Some(CastOp::BitCast)
    } else {
        None
    }
}

/// A comparison by its word.
pub fn pred_named(word: &[u8]) -> Option<Pred>
    ensures { result ≡ pred_named word.now }
{
    if word == b"eq".as_slice() {
        Some(Pred::Eq)
    } else if word == b"ne".as_slice() {
        Some(Pred::Ne)
    } else if word == b"ugt".as_slice() {
        Some(Pred::Ugt)
    } else if word == b"uge".as_slice() {
        Some(Pred::Uge)
    } else if word == b"ult".as_slice() {
        Some(Pred::Ult)
    } else if word == b"ule".as_slice() {
        Some(Pred::Ule)
    } else if word == b"sgt".as_slice() {
        Some(Pred::Sgt)
    } else if word == b"sge".as_slice() {
        Some(Pred::Sge)
    } else if word == b"slt".as_slice() {
        Some(Pred::Slt)
    } else if word == b"sle".as_slice() {
        Some(Pred::Sle)
    } else {
        None
    }
}
