use no_ir::{Names, Ty};

/// What names mean in a text: the text, the named types by number with their names, and the names of globals and functions.
#[derive(Drop)]
pub struct Scope<'a> {
    pub text: &'a [u8],
    pub named: &'a Names,
    pub types: &'a [Ty],
    pub globals: &'a Names,
    pub functions: &'a Names,
}
