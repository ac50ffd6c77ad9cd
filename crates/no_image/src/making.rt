ghost use Rattle.std.specs.Prelude.{◌≡◌, IfOk, true};
ghost use Rattle.no_layout.specs.Memory.{AreFormed};
ghost use Rattle.no_semantics.specs.First.{constant_bytes, first_byte, program_of};
ghost use Rattle.no_semantics.specs.Image.{addresses_of, regions_of};
ghost use Rattle.no_semantics.specs.Sound.{type_fits};
ghost use Rattle.no_image.specs.Fits.{has_image, init_fits};
ghost use Rattle.no_image.specs.Pieces.{AreInside, IsImage, placed};
ghost use Rattle.no_ir.specs.declared.function.Role.{Role};

use crate::emit::emit;
use crate::placement::{addresses, regions};
use no_ir::{Bytes, Const, GlobalVar, List, NoMemory, Role};
use no_semantics::{Image, Sound};
use std::alloc::Global;

/// The first memory of a source: the address of each global, where constants and globals end, and the bytes of each
/// global that does not begin as zeros.
#[tactic(auto, using(crate::proofs::Apart::regions_formed))]
pub fn image(alloc: Global, sound: &Sound) -> Result<Image, NoMemory>
    requires { sound.now.role ≡ Role.Source }
    ensures { IfOk result (λ i. IsImage sound.now i) }
{
    let regions = regions(sound);
    let addresses = addresses(alloc, sound)?;
    let pieces = pieces(alloc, sound, addresses.as_slice())?;
    Ok(Image {
        addresses,
        regions,
        pieces,
    })
}

/// The bytes of each global that does not begin as zeros, with its address.
fn pieces(alloc: Global, sound: &Sound, addresses: &[u32]) -> Result<List<(u32, Bytes)>, NoMemory>
    requires fits { has_image sound.now.«module» sound.now.layout sound.now.sizes ≡ true }
    requires addresses { addresses.now ≡ addresses_of sound.now.layout sound.now.sizes sound.now.«module».globals }
    ensures bytes { IfOk result (λ all. placed all ≡ first_byte sound.now) }
    ensures inside { IfOk result (λ all. AreInside (regions_of sound.now.layout sound.now.sizes sound.now.«module».globals) all) }
{
    let globals = sound.module().globals.as_slice();
    let mut all = List::new(alloc);
    for (k, global) in globals.iter().enumerate() {
        if let Const::Zero = &global.init {
            continue;
        }
        let bytes = global_bytes(alloc, sound, addresses, global)?;
        all.push((addresses[k], bytes))?;
    }
    Ok(all)
}

/// The bytes of a global.
fn global_bytes(
    alloc: Global,
    sound: &Sound,
    addresses: &[u32],
    global: &GlobalVar,
) -> Result<Bytes, NoMemory>
    requires addresses { addresses.now ≡ addresses_of sound.now.layout sound.now.sizes sound.now.«module».globals }
    requires fits { type_fits sound.now.layout sound.now.sizes global.now.ty ≡ true }
    requires init { init_fits sound.now.«module» sound.now.layout sound.now.sizes global.now.init global.now.ty ≡ true }
    ensures { IfOk result (λ bytes. bytes ≡ constant_bytes (program_of sound.now) global.now.init global.now.ty) }
{
    let mut bytes = Vec::new(alloc);
    emit(sound, addresses, &mut bytes, &global.init, &global.ty)?;
    Ok(List::from_vec(bytes))
}
