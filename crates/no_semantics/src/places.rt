ghost use Rattle.std.specs.Prelude.{◌≡◌, IsTrue};
ghost use Rattle.no_layout.specs.Text.{is_formed};
ghost use Rattle.no_semantics.specs.Sound.{place_fits, symbol_fits};

use crate::indices::path_leads;
use no_ir::{Module, Place, Symbol};
use no_layout::{Layout, Sizes};

/// Whether the module has a symbol.
fn has_symbol(program: &Module, symbol: &Symbol) -> bool
    ensures { result ≡ symbol_fits program.now symbol.now }
{
    match symbol {
        Symbol::Global(k) => (*k as usize) < program.globals.len(),
        Symbol::Function(k) => (*k as usize) < program.functions.len(),
        Symbol::Unknown(_) => false,
    }
}

/// Whether a place in a constant is one that the module has.
#[tactic(auto, using(no_sound::proofs::Facts::pointer_some, no_sound::proofs::Facts::pointer_most))]
pub fn has_place(program: &Module, layout: &Layout, sizes: &Sizes, place: &Place) -> bool
    requires { IsTrue (is_formed layout.now) }
    ensures { result ≡ place_fits program.now layout.now sizes.now place.now }
{
    has_symbol(program, &place.symbol)
        && (layout.fits(sizes, &place.base)
            && path_leads(
                program,
                layout.pointer,
                &place.base,
                place.indices.as_slice(),
            ))
}
