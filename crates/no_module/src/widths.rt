ghost use Rattle.std.specs.Prelude.{◌≡◌};
ghost use Rattle.no_module.specs.Widths.{is_alignment, is_width};

/// Whether integers have this width in bits: the widths are 1, 8, 16, 32 and 64.
pub fn is_width(w: u8) -> bool
    ensures { result ≡ is_width w }
{
    w == 1 || w == 8 || w == 16 || w == 32 || w == 64
}

/// Whether a number is an alignment in bytes: a power of two up to 65,536.
pub fn is_alignment(n: u64) -> bool
    ensures { result ≡ is_alignment n }
{
    n.is_power_of_two() && n <= 65536
}
