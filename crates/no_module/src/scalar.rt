ghost use Rattle.std.specs.Prelude.{◌≡◌, map};
ghost use Rattle.no_module.specs.Scalars.{agree, each_meets, integer, is_integer, is_of, is_param, is_pointer, is_result, is_scalar, is_void, same_result, same_scalar, scalar_of, takes};

use crate::is_width;
use no_ir::Ty;

/// A type of which a register holds a value.
#[derive(Clone, Copy, Debug, PartialEq, Eq)]
pub enum Scalar {
    /// An integer of 1, 8, 16, 32 or 64 bits.
    Int(u8),
    /// A pointer.
    Ptr,
}

impl Scalar {
    /// The integer type of so many bits; none where there is no such type.
    pub fn integer(w: u8) -> Option<Scalar>
        ensures { result ≡ integer w }
    {
        if is_width(w) {
            Some(Scalar::Int(w))
        } else {
            None
        }
    }

    /// A type as one of values; none for void, arrays, structs and named types.
    pub fn of(t: &Ty) -> Option<Scalar>
        ensures { result ≡ scalar_of t.now }
    {
        match t {
            Ty::Int(w) => Scalar::integer(*w),
            Ty::Ptr => Some(Scalar::Ptr),
            _ => None,
        }
    }

    /// Whether it is the integer type of so many bits.
    pub fn is_integer(self, w: u8) -> bool
        ensures { result ≡ is_integer w self }
    {
        matches!(self, Scalar::Int(v) if v == w)
    }

    pub fn is_pointer(self) -> bool
        ensures { result ≡ is_pointer self }
    {
        matches!(self, Scalar::Ptr)
    }

    /// Whether two types are the same.
    pub fn is_same(self, other: Scalar) -> bool
        ensures { result ≡ same_scalar self other }
    {
        match self {
            Scalar::Int(w) => other.is_integer(w),
            Scalar::Ptr => other.is_pointer(),
        }
    }
}

/// Whether there is a type, and it is this one.
pub fn is_of(scalar: Scalar, found: Option<Scalar>) -> bool
    ensures { result ≡ is_of scalar found }
{
    match found {
        Some(found) => scalar.is_same(found),
        None => false,
    }
}

/// Whether there are both types, and they are the same.
pub fn agree(left: Option<Scalar>, right: Option<Scalar>) -> bool
    ensures { result ≡ agree left right }
{
    match left {
        Some(scalar) => is_of(scalar, right),
        None => false,
    }
}

pub fn is_scalar(t: &Ty) -> bool
    ensures { result ≡ is_scalar t.now }
{
    Scalar::of(t).is_some()
}

pub fn is_void(t: &Ty) -> bool
    ensures { result ≡ is_void t.now }
{
    matches!(t, Ty::Void)
}

/// Whether a function may give this.
pub fn is_result(t: &Ty) -> bool
    ensures { result ≡ is_result t.now }
{
    is_void(t) || is_scalar(t)
}

/// Whether both are nothing, or both a value of one type.
pub fn same_result(t: &Ty, u: &Ty) -> bool
    ensures { result ≡ same_result t.now u.now }
{
    (is_void(t) && is_void(u)) || agree(Scalar::of(t), Scalar::of(u))
}

/// Whether a parameter is of this type.
#[tactic(auto, unfolding(crate::specs::Scalars::is_param))]
fn is_param(scalar: Scalar, param: &(u32, Ty)) -> bool
    ensures { result ≡ is_param scalar param.now }
{
    is_of(scalar, Scalar::of(&param.1))
}

/// Whether these are the parameters' types.
#[tactic(auto, using(crate::proofs::Meets::meets_no_more))]
pub fn takes(wanted: &[Scalar], params: &[(u32, Ty)]) -> bool
    ensures { result ≡ each_meets (map is_param wanted.now) params.now }
{
    let mut rest = params;
    for scalar in wanted {
        match rest {
            [param, more @ ..] if is_param(*scalar, param) => rest = more,
            _ => return false,
        }
    }
    rest.is_empty()
}
