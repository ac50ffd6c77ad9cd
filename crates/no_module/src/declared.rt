ghost use Rattle.std.specs.Prelude.{◌≡◌};
ghost use Rattle.no_module.specs.Functions.{begins_with, is_declared};

use no_ir::Function;

/// Whether a function has no blocks.
pub fn is_declared(function: &Function) -> bool
    ensures { result ≡ is_declared function.now }
{
    function.blocks.is_empty()
}

/// Whether a name begins with these bytes.
pub fn begins_with(stem: &[u8], name: &[u8]) -> bool
    ensures { result ≡ begins_with stem.now name.now }
{
    name.starts_with(stem)
}
