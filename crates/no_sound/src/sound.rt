ghost use Rattle.std.specs.Prelude.{◌≡◌, IsTrue, true};
ghost use Rattle.std.specs.Option.{option_copied, IfSome};
ghost use Rattle.no_layout.specs.Text.{is_formed};
ghost use Rattle.no_sound.specs.Blocks.{block_in};
ghost use Rattle.no_sound.specs.Image.{has_image, image_fits};
ghost use Rattle.no_sound.specs.Sound.{block_fits, is_sound};

use no_ir::{Block, GlobalVar, Module, Role};
use no_layout::{Layout, Sizes};
use std::marker::Model;

/// A module that was accepted, with its data layout, the sizes of its named types, and its role. The verifier makes it, and all
/// that runs, places or judges a program takes it.
#[derive(Drop)]
pub struct Sound {
    inner: Module,
    layout: Layout,
    sizes: Sizes,
    role: Role,
}

impl Model for Sound {
    ghost use Rattle.std.specs.Prelude.{◌≡◌, true};
    ghost use Rattle.no_room.specs.Accepted.{Accepted};
    ghost use Rattle.no_sound.specs.Image.{has_image};
    ghost use Rattle.no_sound.specs.Sound.{is_sound};

    ghost Value = { Accepted };

    ghost use Rattle.no_ir.specs.contracts.types.Ty as types;
    ghost use Rattle.no_ir.specs.contracts.constant.Const as constants;
    ghost use Rattle.std.specs.Coded.{codes};

    ghost coded = { Prim.hlevel (codes, types.the_row.coded, constants.the_row.coded) };

    ghost view = { λ s. record { «module» = s.inner; layout = s.layout; sizes = s.sizes; role = s.role } };

    ghost invariant = { λ s. (is_sound s.inner s.layout s.sizes ≡ true) × (has_image s.inner s.layout s.sizes ≡ true) };
}

impl Sound {
    /// The module with its layout, the sizes that `Layout::sizes` gives for its types, and its role: a machine runs each of its
    /// instructions, and its first memory can be made. It takes no memory.
    pub fn of(program: Module, layout: Layout, sizes: Sizes, role: Role) -> Sound
        requires runs { is_sound program layout sizes ≡ true }
        requires begins { has_image program layout sizes ≡ true }
        ensures { result ≡ record { «module» = program; layout = layout; sizes = sizes; role = role } }
    {
        Sound {
            inner: program,
            layout,
            sizes,
            role,
        }
    }

    pub fn module(&self) -> &Module
        ensures value { result.now ≡ self.now.«module» }
        ensures sound { is_sound result.now self.now.layout self.now.sizes ≡ true }
    {
        &self.inner
    }

    /// The module's globals, for which there is room, with first values of their types.
    pub fn globals(&self) -> &[GlobalVar]
        ensures value { result.now ≡ self.now.«module».globals }
        ensures fits { image_fits self.now.layout self.now.sizes self.now.«module».globals ≡ true }
        ensures begins { has_image self.now.«module» self.now.layout self.now.sizes ≡ true }
    {
        self.inner.globals.as_slice()
    }

    /// The layout that the module's string states.
    pub fn layout(&self) -> &Layout
        ensures value { result.now ≡ self.now.layout }
        ensures formed { IsTrue (is_formed result.now) }
    {
        &self.layout
    }

    /// The sizes of the module's named types under its layout.
    pub fn sizes(&self) -> &Sizes
        ensures { result.now ≡ self.now.sizes }
    {
        &self.sizes
    }

    pub fn role(&self) -> Role
        ensures { result ≡ self.now.role }
    {
        self.role
    }

    /// A block of a function. A machine runs each of its instructions.
    pub fn block(&self, function: u64, block: u64) -> Option<&Block>
        ensures value { option_copied result ≡ block_in self.now.«module» function block }
        ensures fits { IfSome (option_copied result) (λ b. block_fits self.now.«module» self.now.layout self.now.sizes b ≡ true) }
    {
        block_in(&self.inner, function, block)
    }
}

/// A block of a function, by their numbers.
fn block_in(program: &Module, function: u64, block: u64) -> Option<&Block>
    ensures { option_copied result ≡ block_in program.now function block }
{
    program
        .functions
        .get(function as usize)?
        .blocks
        .get(block as usize)
}
