ghost use Rattle.std.specs.Prelude.{◌≡◌, ◌≢◌, IfOk, None, true};
ghost use Rattle.no_layout.specs.Sizes.{sizes_of};
ghost use Rattle.no_layout.specs.Text.{is_formed};
ghost use Rattle.no_verify_structure.specs.Large.{large_of};
ghost use Rattle.no_verify.specs.Kinds.{IsPlace};
ghost use Rattle.no_verify.specs.Verdict.{IsLaterAnswer, later_kinds, place_of};

use crate::unassigned::unassigned_fault;
use crate::{VerifyFault, VerifyKind};
use no_ir::{Module, NoMemory, Role};
use no_layout::{Layout, Sizes};
use no_verify_structure::{
    ending_fault_in, entry_fault, marks_fault, phis_fault, room_fault, twice_fault, unknown_fault,
};
use no_verify_types::{FaultPlace, external_fault, type_fault};
use std::alloc::Global;

/// The kinds of faults that are judged after sizes of types, in their order.
const LATER_KINDS: [VerifyKind; 10] = [
    VerifyKind::Twice,
    VerifyKind::UnknownName,
    VerifyKind::UnknownExternal,
    VerifyKind::TypeMismatch,
    VerifyKind::NoTerminator,
    VerifyKind::PhiEdges,
    VerifyKind::NotAssigned,
    VerifyKind::BadMark,
    VerifyKind::ImageTooLarge,
    VerifyKind::NoMain,
];

/// Where a module has its first fault of a kind. No type is too large, and the sizes are those of the named types.
#[tactic(auto, using(crate::proofs::Later::types_fit))]
fn place_of_kind(
    alloc: Global,
    layout: &Layout,
    sizes: &Sizes,
    program: &Module,
    role: Role,
    kind: VerifyKind,
) -> Result<Option<FaultPlace>, NoMemory>
    requires formed { is_formed layout.now ≡ true }
    requires sizes { sizes.now ≡ sizes_of layout.now program.now.types }
    requires fits { large_of layout.now program.now ≡ None }
    ensures { IfOk result (λ p. IsPlace layout.now program.now role kind p) }
{
    match kind {
        VerifyKind::UnknownName => unknown_fault(alloc, program),
        VerifyKind::Twice => twice_fault(alloc, program),
        VerifyKind::TypeMismatch => type_fault(alloc, program, role),
        VerifyKind::NoTerminator => ending_fault_in(program),
        VerifyKind::PhiEdges => phis_fault(alloc, program),
        VerifyKind::NotAssigned => unassigned_fault(alloc, program.functions.as_slice()),
        VerifyKind::UnknownExternal => external_fault(alloc, program, role),
        VerifyKind::NoMain => Ok(entry_fault(program, role)),
        VerifyKind::ImageTooLarge => Ok(room_fault(layout, sizes, program)),
        VerifyKind::BadType => Ok(None),
        VerifyKind::BadMark => marks_fault(alloc, program, role),
    }
}

/// A fault of a kind at a place.
pub(crate) fn fault_of(kind: VerifyKind, place: FaultPlace) -> VerifyFault
    ensures kind { result.kind ≡ kind }
    ensures place { place_of result ≡ place }
{
    VerifyFault {
        kind,
        function: place.function,
        block: place.block,
        place: place.place,
    }
}

/// The first fault of a module in which no type is too large.
pub(crate) fn later_fault(
    alloc: Global,
    layout: &Layout,
    sizes: &Sizes,
    program: &Module,
    role: Role,
) -> Result<Option<VerifyFault>, NoMemory>
    requires formed { is_formed layout.now ≡ true }
    requires sizes { sizes.now ≡ sizes_of layout.now program.now.types }
    requires fits { large_of layout.now program.now ≡ None }
    ensures { IfOk result (λ fault. IsLaterAnswer (IsPlace layout.now program.now role) later_kinds fault) }
{
    first_fault(alloc, layout, sizes, program, role, &LATER_KINDS)
}

/// The first fault of a module among these kinds, in their order.
fn first_fault(
    alloc: Global,
    layout: &Layout,
    sizes: &Sizes,
    program: &Module,
    role: Role,
    kinds: &[VerifyKind],
) -> Result<Option<VerifyFault>, NoMemory>
    requires formed { is_formed layout.now ≡ true }
    requires sizes { sizes.now ≡ sizes_of layout.now program.now.types }
    requires fits { large_of layout.now program.now ≡ None }
    ensures { IfOk result (λ fault. IsLaterAnswer (IsPlace layout.now program.now role) kinds.now fault) }
{
    for kind in kinds {
        if let Some(place) = place_of_kind(alloc, layout, sizes, program, role, *kind)? {
            return Ok(Some(fault_of(*kind, place)));
        }
    }
    Ok(None)
}
