ghost use Rattle.std.specs.Prelude.{◌≡◌, slice_get, option_copied};
ghost use Rattle.no_print.specs.Constants.{resolved, symbol_name};
ghost use Rattle.no_print.specs.Names.{name_at};
ghost use Rattle.no_print.specs.Scopes.{spelled_by};

use crate::names::name_at;
use no_ir::{Bytes, Symbol, Ty};

/// How the named types, the globals and the functions of a module are spelled, by number.
#[derive(Drop)]
pub(crate) struct Scope<'a> {
    /// Name and definition of each named type.
    pub types: &'a [(Bytes, Ty)],
    /// The names of globals, each once.
    pub globals: &'a [Bytes],
    /// The names of functions, each once.
    pub functions: &'a [Bytes],
}

/// The name of a named type, which is empty where there is no such type.
pub(crate) fn type_name<'a>(scope: &Scope<'a>, number: u32) -> &'a [u8]
    ensures { result.now ≡ name_at (spelled_by scope.now).named number }
{
    match scope.types.get(number as usize) {
        Some(named) => named.0.as_slice(),
        None => b"",
    }
}

/// What the named type of this number names.
fn definition<'a>(scope: &Scope<'a>, number: u32) -> Option<&'a Ty>
    ensures { option_copied result ≡ slice_get (spelled_by scope.now).types number }
{
    match scope.types.get(number as usize) {
        Some(named) => Some(&named.1),
        None => None,
    }
}

/// What a named type names, and another type itself.
pub(crate) fn resolved<'b>(scope: &'b Scope, t: &'b Ty) -> &'b Ty
    ensures { result.now ≡ resolved (spelled_by scope.now) t.now }
{
    match t {
        Ty::Named(number) => match definition(scope, *number) {
            Some(named) => named,
            None => t,
        },
        _ => t,
    }
}

/// The name of a symbol.
pub(crate) fn symbol_name<'a>(scope: &Scope<'a>, symbol: &'a Symbol) -> &'a [u8]
    ensures { result.now ≡ symbol_name (spelled_by scope.now) symbol.now }
{
    match symbol {
        Symbol::Global(number) => name_at(scope.globals, *number),
        Symbol::Function(number) => name_at(scope.functions, *number),
        Symbol::Unknown(name) => name.as_slice(),
    }
}
