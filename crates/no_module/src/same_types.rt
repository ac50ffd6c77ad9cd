ghost use Rattle.std.specs.Prelude.{◌≡◌, map};
ghost use Rattle.no_module.specs.SameTypes.{pairs, same_type};

use no_ir::Ty;

/// Whether two types are the same.
#[cycle(same)]
pub fn same_type(a: &Ty, b: &Ty) -> bool
    ensures { result ≡ same_type a.now b.now }
{
    match a {
        Ty::Void => matches!(b, Ty::Void),
        Ty::Int(width) => matches!(b, Ty::Int(other) if width == other),
        Ty::Ptr => matches!(b, Ty::Ptr),
        Ty::Array(count, element) => match b {
            Ty::Array(other, inner) => count == other && same_type(element.get(), inner.get()),
            _ => false,
        },
        Ty::Struct(packed, fields) => match b {
            Ty::Struct(other, inner) => packed == other
                && same_fields(fields.as_slice(), inner.as_slice()),
            _ => false,
        },
        Ty::Named(number) => matches!(b, Ty::Named(other) if number == other),
    }
}

#[cycle(same)]
fn same_fields(a: &[Ty], b: &[Ty]) -> bool
    ensures { result ≡ pairs (map same_type a.now) b.now }
{
    let mut rest = b;
    for field in a {
        match rest {
            [first, more @ ..] if same_type(field, first) => rest = more,
            _ => return false,
        }
    }
    rest.is_empty()
}
