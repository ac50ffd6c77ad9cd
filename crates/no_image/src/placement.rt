ghost use Rattle.std.specs.Prelude.{◌≡◌, ◌<◌, ◌≤◌, ◌^◌, IfOk, IsTrue, if◌then◌else◌, true};
ghost use Rattle.no_layout.specs.Memory.{globals_limit};
ghost use Rattle.no_layout.specs.Text.{is_formed};
ghost use Rattle.no_room.specs.Fits.{have_types};
ghost use Rattle.no_semantics.specs.Image.{addresses_of, end_of, global_align, globals_start_of, place_behind, regions_of};
ghost use Rattle.no_image.specs.Fits.{global_fits, has_image, image_fits};

use no_ir::{GlobalVar, List, NoMemory};
use no_layout::{CONSTANTS_START, Layout, Regions, Sizes};
use no_room::{end_behind, end_of_all};
use no_semantics::Sound;
use std::alloc::Global;

/// The alignment of a global.
fn align_of(layout: &Layout, sizes: &Sizes, global: &GlobalVar) -> u64
    requires formed { IsTrue (is_formed layout.now) }
    requires fits { global_fits layout.now sizes.now global.now ≡ true }
    ensures value { result ≡ global_align layout.now sizes.now global.now }
    ensures some { 0 < result }
    ensures small { result < 2 ^ 32 }
{
    match global.align {
        Some(align) => u64::from(align),
        None => layout.align(sizes, &global.ty),
    }
}

/// Where a global stands behind an end.
fn place(layout: &Layout, sizes: &Sizes, end: u64, global: &GlobalVar) -> u64
    requires formed { IsTrue (is_formed layout.now) }
    requires fits { global_fits layout.now sizes.now global.now ≡ true }
    requires low { end ≤ globals_limit }
    ensures place { result ≡ place_behind layout.now sizes.now end global.now }
    ensures small { result < 2 ^ 33 }
{
    end.next_multiple_of(align_of(layout, sizes, global))
}

/// The end of the kind that a global is of.
fn end_for(constant: bool, constants: u64, writable: u64) -> u64
    ensures { result ≡ if constant then constants else writable }
{
    if constant { constants } else { writable }
}

/// Where the constants and the globals of a module end.
#[tactic(auto, using(crate::proofs::Placed::types_fit, crate::proofs::Placed::constants_end_low, crate::proofs::Placed::ends_low, crate::proofs::Placed::start_low))]
pub fn regions(sound: &Sound) -> Regions
    ensures value { result ≡ regions_of sound.now.layout sound.now.sizes sound.now.«module».globals }
    ensures begins { has_image sound.now.«module» sound.now.layout sound.now.sizes ≡ true }
{
    let globals = sound.globals();
    let constants = last_end(
        sound.layout(),
        sound.sizes(),
        true,
        u64::from(CONSTANTS_START),
        globals,
    );
    let writable = last_end(
        sound.layout(),
        sound.sizes(),
        false,
        constants.next_multiple_of(65_536),
        globals,
    );
    Regions {
        constants_end: constants as u32,
        globals_end: writable as u32,
    }
}

/// The address of each global of a module, in their order.
#[tactic(auto, using(crate::proofs::Placed::types_fit, crate::proofs::Placed::constants_end_low, crate::proofs::Placed::start_low))]
pub fn addresses(alloc: Global, sound: &Sound) -> Result<List<u32>, NoMemory>
    ensures { IfOk result (λ all. all ≡ addresses_of sound.now.layout sound.now.sizes sound.now.«module».globals) }
{
    let globals = sound.globals();
    let constants = last_end(
        sound.layout(),
        sound.sizes(),
        true,
        u64::from(CONSTANTS_START),
        globals,
    );
    addresses_from(
        alloc,
        sound.layout(),
        sound.sizes(),
        constants.next_multiple_of(65_536),
        globals,
    )
}

/// The end of the globals of a kind, which is at most `0x0200_0000`.
fn last_end(layout: &Layout, sizes: &Sizes, kind: bool, start: u64, globals: &[GlobalVar]) -> u64
    requires formed { IsTrue (is_formed layout.now) }
    requires fits { have_types layout.now sizes.now globals.now ≡ true }
    requires start { start ≤ globals_limit }
    requires low { end_of layout.now sizes.now kind start globals.now ≤ globals_limit }
    ensures value { result ≡ end_of layout.now sizes.now kind start globals.now }
    ensures small { result ≤ globals_limit }
{
    match end_of_all(layout, sizes, kind, start, globals) {
        Some(end) => end,
        None => 0,
    }
}

/// The address of each global, in their order. Writable ones begin at `start`.
fn addresses_from(
    alloc: Global,
    layout: &Layout,
    sizes: &Sizes,
    start: u64,
    globals: &[GlobalVar],
) -> Result<List<u32>, NoMemory>
    requires formed { IsTrue (is_formed layout.now) }
    requires fits { image_fits layout.now sizes.now globals.now ≡ true }
    requires start { start ≡ globals_start_of layout.now sizes.now globals.now }
    ensures { IfOk result (λ all. all ≡ addresses_of layout.now sizes.now globals.now) }
{
    let mut constants = u64::from(CONSTANTS_START);
    let mut writable = start;
    let mut all = List::new(alloc);
    for global in globals {
        let at = place(
            layout,
            sizes,
            end_for(global.constant, constants, writable),
            global,
        );
        all.push(at as u32)?;
        constants = end_behind(layout, sizes, true, constants, global);
        writable = end_behind(layout, sizes, false, writable, global);
    }
    Ok(all)
}
