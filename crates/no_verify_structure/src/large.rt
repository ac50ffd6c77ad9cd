ghost use Rattle.std.specs.Prelude.{◌≡◌, IfOk, IsTrue, true};
ghost use Rattle.std.specs.List.{list_all};
ghost use Rattle.no_layout.specs.Sizes.{sizes_of};
ghost use Rattle.no_layout.specs.Text.{is_formed};
ghost use Rattle.no_module.specs.Left.{types_left};
ghost use Rattle.no_room.specs.Fits.{type_fits};
ghost use Rattle.no_verify_structure.specs.Finding.{first_place, unless};
ghost use Rattle.no_verify_structure.specs.Large.{IsLargeAnswer, function_large, global_fits, head_fits, instr_fits, large_with};

use crate::finding::{InstrRule, fault_place, first_instr, whole};
use crate::parts::{NameRule, constant_keeps, operands_keep};
use no_ir::{Function, GlobalVar, Instr, Module, NoMemory, Place, Ty};
use no_layout::{Layout, Sizes, SizesFault};
use no_module::Types;
use no_verify_types::FaultPlace;
use std::alloc::Global;

/// Types of at most `0x1000_0000` bytes under a layout.
#[derive(Clone, Copy)]
struct Fitting<'a> {
    layout: &'a Layout,
    sizes: &'a Sizes,
}

impl<'a> NameRule for Fitting<'a> {
    ghost use Rattle.std.specs.Prelude.{true};
    ghost use Rattle.no_layout.specs.Text.{is_formed};
    ghost use Rattle.no_verify_structure.specs.Large.{base_fits};

    ghost ready = { λ s. is_formed s.layout.now };

    ghost registers = { λ s r. true };

    ghost places = { λ s. base_fits s.layout.now s.sizes.now };

    fn keeps_register(&self, _register: u32) -> bool {
        true
    }

    fn keeps_place(&self, place: &Place) -> bool {
        fits(self.layout, self.sizes, &place.base)
    }
}

impl<'a> InstrRule for Fitting<'a> {
    ghost use Rattle.no_layout.specs.Text.{is_formed};
    ghost use Rattle.no_verify_structure.specs.Large.{instr_fits};

    ghost ready = { λ s. is_formed s.layout.now };

    ghost keeps = { λ s. instr_fits s.layout.now s.sizes.now };

    fn keeps(&self, instr: &Instr) -> bool {
        each_fits(self.layout, self.sizes, Types::of(&instr.op)) && operands_keep(self, &instr.op)
    }
}

fn fits(layout: &Layout, sizes: &Sizes, t: &Ty) -> bool
    requires { is_formed layout.now ≡ true }
    ensures { result ≡ type_fits layout.now sizes.now t.now }
{
    layout.fits(sizes, t)
}

/// Whether each type that is left fits.
fn each_fits(layout: &Layout, sizes: &Sizes, types: Types<'_>) -> bool
    requires { is_formed layout.now ≡ true }
    ensures { result ≡ list_all (type_fits layout.now sizes.now) (types_left types.entry) }
{
    let mut left = types;
    while let Some((ty, more)) = left.split_first() {
        if !fits(layout, sizes, ty) {
            return false;
        }
        left = more;
    }
    true
}

fn params_fit(layout: &Layout, sizes: &Sizes, params: &[(u32, Ty)]) -> bool
    requires { is_formed layout.now ≡ true }
    ensures { result ≡ list_all (λ p. type_fits layout.now sizes.now p.1) params.now }
{
    for param in params {
        if !fits(layout, sizes, &param.1) {
            return false;
        }
    }
    true
}

fn head_fits(layout: &Layout, sizes: &Sizes, function: &Function) -> bool
    requires { is_formed layout.now ≡ true }
    ensures { result ≡ head_fits layout.now sizes.now function.now }
{
    fits(layout, sizes, &function.result) && params_fit(layout, sizes, function.params.as_slice())
}

fn function_large(layout: &Layout, sizes: &Sizes, function: &Function) -> Option<(usize, usize)>
    requires { is_formed layout.now ≡ true }
    ensures { result ≡ function_large layout.now sizes.now function.now }
{
    if !head_fits(layout, sizes, function) {
        return Some((0, 0));
    }
    first_instr(&Fitting { layout, sizes }, function.blocks.as_slice())
}

fn functions_large(
    layout: &Layout,
    sizes: &Sizes,
    program: &Module,
) -> Result<Option<FaultPlace>, NoMemory>
    requires { is_formed layout.now ≡ true }
    ensures { IfOk result (λ p. p ≡ first_place (λ k. function_large layout.now sizes.now) program.now.functions) }
{
    for (k, function) in program.functions.as_slice().iter().enumerate() {
        if let Some((b, i)) = function_large(layout, sizes, function) {
            return Ok(Some(fault_place(k, b, i)?));
        }
    }
    Ok(None)
}

fn global_fits(layout: &Layout, sizes: &Sizes, global: &GlobalVar) -> bool
    requires { is_formed layout.now ≡ true }
    ensures { result ≡ global_fits layout.now sizes.now global.now }
{
    fits(layout, sizes, &global.ty) && constant_keeps(&Fitting { layout, sizes }, &global.init)
}

fn globals_fit(layout: &Layout, sizes: &Sizes, globals: &[GlobalVar]) -> bool
    requires { is_formed layout.now ≡ true }
    ensures { result ≡ list_all (global_fits layout.now sizes.now) globals.now }
{
    for global in globals {
        if !global_fits(layout, sizes, global) {
            return false;
        }
    }
    true
}

/// Where a type of globals or functions is too large.
fn used_large(
    layout: &Layout,
    sizes: &Sizes,
    program: &Module,
) -> Result<Option<FaultPlace>, NoMemory>
    requires { is_formed layout.now ≡ true }
    ensures { IfOk result (λ p. p ≡ large_with layout.now sizes.now program.now) }
{
    if !globals_fit(layout, sizes, program.globals.as_slice()) {
        return Ok(Some(whole()));
    }
    functions_large(layout, sizes, program)
}

/// The sizes of a module's named types, or where a type is first too large: more than `0x1000_0000` bytes, or with such a
/// type inside. Named types come first, used or not, then globals, then functions.
///
/// 2^32 named types and more, for which no text has room, are want of memory.
#[tactic(auto, using(crate::proofs::Named::large_named, crate::proofs::Named::large_used))]
pub fn large_fault(
    alloc: Global,
    layout: &Layout,
    program: &Module,
) -> Result<Result<Sizes, FaultPlace>, NoMemory>
    requires { is_formed layout.now ≡ true }
    ensures { IfOk result (λ answer. IsLargeAnswer layout.now program.now answer) }
{
    if program.types.len() > 0xFFFF_FFFF {
        return Err(NoMemory);
    }
    match layout.sizes(alloc, &program.types) {
        Err(SizesFault::NoMemory) => Err(NoMemory),
        Err(SizesFault::TooLarge(_)) => Ok(Err(whole())),
        Ok(sizes) => match used_large(layout, &sizes, program)? {
            Some(place) => Ok(Err(place)),
            None => Ok(Ok(sizes)),
        },
    }
}
