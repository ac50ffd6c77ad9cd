ghost use Rattle.std.specs.Prelude.{◌≡◌, Ok, true};
ghost use Rattle.no_layout.specs.Text.{is_formed, layout_of};
ghost use Rattle.no_module.specs.Formed.{IsFormed};
ghost use Rattle.no_module.specs.Marks.{MarksAllowed};
ghost use Rattle.no_verify.specs.Verdict.{Answers, IsVerdict, Verdict};

use crate::judge::{fault_of, later_fault};
use crate::{VerifyError, VerifyKind};
use no_ir::{Module, Role};
use no_layout::Layout;
use no_sound::Sound;
use no_verify_structure::large_fault;
use std::alloc::Global;

/// Judges a module in its role: the layout first, then the kinds of faults in the order BadType, Twice, UnknownName,
/// UnknownExternal, TypeMismatch, NoTerminator, PhiEdges, NotAssigned, BadMark, ImageTooLarge, NoMain. Within a kind the
/// lowest function, block and place is named.
///
/// The module is formed, and a source has no instruction that the partition made and no address of the device, as the reader
/// gives it.
#[tactic(auto, using(crate::proofs::Unique::answered))]
pub fn verify(alloc: Global, program: Module, role: Role) -> Result<Sound, VerifyError>
    requires formed { IsFormed program }
    requires marks { MarksAllowed role program }
    // What is answered is the module's verdict, and it has one verdict at most.
    ensures verdict { Answers result (IsVerdict program role) }
    ensures only { (verdict : Verdict) → IsVerdict program role verdict → Answers result (λ found. found ≡ verdict) }
{
    judged(alloc, program, role)
}

/// Judges the layout, and then all else.
fn judged(alloc: Global, program: Module, role: Role) -> Result<Sound, VerifyError>
    requires formed { IsFormed program }
    requires marks { MarksAllowed role program }
    ensures { Answers result (IsVerdict program role) }
{
    if program.layout.len() > 0xFFFF_FFFF {
        return Err(VerifyError::NoMemory);
    }
    match Layout::read(program.layout.as_slice()) {
        Err(fault) => Err(VerifyError::Layout(fault)),
        Ok(layout) => under(alloc, program, layout, role),
    }
}

/// Judges a module under the layout that its string states.
fn under(alloc: Global, program: Module, layout: Layout, role: Role) -> Result<Sound, VerifyError>
    requires layout { layout_of program.layout ≡ Ok layout }
    requires stated { is_formed layout ≡ true }
    requires formed { IsFormed program }
    requires marks { MarksAllowed role program }
    ensures { Answers result (IsVerdict program role) }
{
    let sizes = match large_fault(alloc, &layout, &program) {
        Err(_) => return Err(VerifyError::NoMemory),
        Ok(Err(place)) => return Err(VerifyError::Fault(fault_of(VerifyKind::BadType, place))),
        Ok(Ok(sizes)) => sizes,
    };
    match later_fault(alloc, &layout, &sizes, &program, role) {
        Err(_) => Err(VerifyError::NoMemory),
        Ok(Some(fault)) => Err(VerifyError::Fault(fault)),
        Ok(None) => Ok(Sound::of(program, layout, sizes, role)),
    }
}
