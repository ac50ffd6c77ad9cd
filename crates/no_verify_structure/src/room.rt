ghost use Rattle.std.specs.Prelude.{◌≡◌, true};
ghost use Rattle.no_layout.specs.Text.{is_formed};
ghost use Rattle.no_room.specs.Fits.{have_types};
ghost use Rattle.no_verify_structure.specs.Room.{room_fault_of};

use crate::finding::whole;
use no_ir::Module;
use no_layout::{Layout, Sizes};
use no_room::have_room;
use no_verify_types::FaultPlace;

/// The place 0, 0, 0 where the globals end above `0x0200_0000`, or there are more than 65,536 functions.
///
/// The layout is one that a layout string states, and the types of the globals fit.
pub fn room_fault(layout: &Layout, sizes: &Sizes, program: &Module) -> Option<FaultPlace>
    requires formed { is_formed layout.now ≡ true }
    requires fits { have_types layout.now sizes.now program.now.globals ≡ true }
    ensures { result ≡ room_fault_of layout.now sizes.now program.now }
{
    if have_room(layout, sizes, program.globals.as_slice()) && program.functions.len() <= 65_536 {
        None
    } else {
        Some(whole())
    }
}
