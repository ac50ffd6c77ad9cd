ghost use Rattle.std.specs.Prelude.{◌≡◌, ◌<◌, ◌≤◌, ◌^◌, true};
ghost use Rattle.std.specs.Int.{next_multiple_of};
ghost use Rattle.no_layout.specs.Memory.{globals_limit};
ghost use Rattle.no_layout.specs.Text.{is_formed};
ghost use Rattle.no_room.specs.Ends.{end_of, end_with, global_align, same_kind};
ghost use Rattle.no_room.specs.Fits.{IsEnd, have_room, have_types, type_fits};

use no_ir::GlobalVar;
use no_layout::{CONSTANTS_START, GLOBALS_LIMIT, Layout, Sizes};

/// The alignment of a global.
pub fn align_of(layout: &Layout, sizes: &Sizes, global: &GlobalVar) -> u64
    requires formed { is_formed layout.now ≡ true }
    requires fits { type_fits layout.now sizes.now global.now.ty ≡ true }
    ensures value { result ≡ global_align layout.now sizes.now global.now }
    ensures small { result < 2 ^ 32 }
{
    match global.align {
        Some(align) => u64::from(align),
        None => layout.align(sizes, &global.ty),
    }
}

/// The next multiple of an alignment; an alignment of 0, which no text states, leaves each place.
fn aligned(end: u64, align: u64) -> u64
    requires end { end ≤ globals_limit }
    requires align { align < 2 ^ 32 }
    ensures place { result ≡ next_multiple_of end align }
    ensures small { result < 2 ^ 33 }
{
    if align == 0 {
        end
    } else {
        end.next_multiple_of(align)
    }
}

/// Whether a global is of a kind: constant or not.
pub fn is_kind(kind: bool, constant: bool) -> bool
    ensures { result ≡ same_kind kind constant }
{
    kind == constant
}

/// The end with one global more.
pub fn end_behind(layout: &Layout, sizes: &Sizes, kind: bool, end: u64, global: &GlobalVar) -> u64
    requires formed { is_formed layout.now ≡ true }
    requires fits { type_fits layout.now sizes.now global.now.ty ≡ true }
    requires low { end ≤ globals_limit }
    ensures { result ≡ end_with layout.now sizes.now kind end global.now }
{
    if is_kind(kind, global.constant) {
        aligned(end, align_of(layout, sizes, global)) + layout.size(sizes, &global.ty)
    } else {
        end
    }
}

/// The end of the globals of a kind, where it is at most `0x0200_0000`.
pub fn end_of_all(
    layout: &Layout,
    sizes: &Sizes,
    kind: bool,
    start: u64,
    globals: &[GlobalVar],
) -> Option<u64>
    requires formed { is_formed layout.now ≡ true }
    requires fits { have_types layout.now sizes.now globals.now ≡ true }
    requires low { start ≤ globals_limit }
    ensures { IsEnd result (end_of layout.now sizes.now kind start globals.now) }
{
    let mut end = start;
    for global in globals {
        end = end_behind(layout, sizes, kind, end, global);
        if end > u64::from(GLOBALS_LIMIT) {
            return None;
        }
    }
    Some(end)
}

/// Whether all globals end at `0x0200_0000` at most: the constants, which begin at `0x0001_0000`, and behind them from the
/// next multiple of 65,536 on the writable ones. The layout is one that a layout string states, and the types of the
/// globals fit.
pub fn have_room(layout: &Layout, sizes: &Sizes, globals: &[GlobalVar]) -> bool
    requires formed { is_formed layout.now ≡ true }
    requires fits { have_types layout.now sizes.now globals.now ≡ true }
    ensures { result ≡ have_room layout.now sizes.now globals.now }
{
    match end_of_all(layout, sizes, true, u64::from(CONSTANTS_START), globals) {
        None => false,
        Some(constants) => end_of_all(
            layout,
            sizes,
            false,
            constants.next_multiple_of(65_536),
            globals,
        )
        .is_some(),
    }
}
