ghost use Rattle.std.specs.Prelude.{◌≡◌, ◌++◌, ◌-◌, ◌^◌, ◌<◌, OnOk, length, replicate, true};
ghost use Rattle.no_layout.specs.Orders.{IsWidth, bytes_of};
ghost use Rattle.no_semantics.specs.First.{number_bytes, program_of};
ghost use Rattle.no_semantics.specs.Sound.{is_scalar};

use no_ir::{NoMemory, Ty};
use no_layout::{Width, put_number};
use no_semantics::{Sound, bytes_of, narrowed, width_at};

/// Zeros behind the bytes, up to a length.
pub(crate) fn pad(out: &mut Vec<u8>, to: usize) -> Result<(), NoMemory>
    ensures { OnOk result (out.new.items ≡ out.old.items ++ replicate (to - length out.old.items) 0) }
{
    if out.len() < to {
        out.resize(to, 0)?;
    }
    Ok(())
}

/// More bytes behind the bytes.
pub(crate) fn append(out: &mut Vec<u8>, bytes: &[u8]) -> Result<(), NoMemory>
    ensures { OnOk result (out.new.items ≡ out.old.items ++ bytes.now) }
{
    out.extend_from_slice(bytes)?;
    Ok(())
}

/// A number of so many bytes, in the order of a layout.
fn put_sized(out: &mut Vec<u8>, big: bool, size: usize, n: u64) -> Result<(), NoMemory>
    requires width { IsWidth size }
    requires fits { n < 256 ^ size }
    ensures { OnOk result (out.new.items ≡ out.old.items ++ bytes_of big size n) }
{
    let mut buffer = [0; 8];
    let bytes = &mut buffer[..size];
    put_number(big, Width::of(size), n, bytes);
    append(out, bytes)
}

/// A number of an integer type or a pointer.
pub(crate) fn put(sound: &Sound, out: &mut Vec<u8>, t: &Ty, n: u64) -> Result<(), NoMemory>
    requires { is_scalar t.now ≡ true }
    ensures { OnOk result (out.new.items ≡ out.old.items ++ number_bytes (program_of sound.now) t.now n) }
{
    let w = width_at(sound, t);
    put_sized(out, sound.layout().big, bytes_of(w), narrowed(w, n))
}
