ghost use Rattle.std.specs.Prelude.{◌≡◌};
ghost use Rattle.no_module.specs.Named.{resolved};

use no_ir::{Module, Ty};

/// The definition of a named type, and any other type itself.
pub fn resolved<'a>(program: &'a Module, t: &'a Ty) -> &'a Ty
    ensures { result.now ≡ resolved program.now.types t.now }
{
    match t {
        Ty::Named(k) => match program.types.get(*k as usize) {
            Some(named) => &named.1,
            None => t,
        },
        _ => t,
    }
}
