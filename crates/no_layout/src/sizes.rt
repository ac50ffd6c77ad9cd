ghost use Rattle.std.specs.Prelude.{◌≡◌, ◌++◌, ◌∷◌, [], IfErr, OnOk, slice_get};
ghost use Rattle.no_layout.specs.Sizes.{known};
ghost use Rattle.no_layout.specs.Measured.{Agrees, IsSmall};

use crate::Extent;
use std::alloc::Global;
use std::marker::Model;

/// Size and alignment of each named type of a module, in bytes, under one layout.
#[derive(Debug, Drop)]
pub struct Sizes {
    extents: Vec<Extent>,
}

impl Model for Sizes {
    ghost use Rattle.std.specs.Prelude.{List};
    ghost use Rattle.no_layout.specs.declared.extent.Extent.{Extent};
    ghost use Rattle.no_layout.specs.Measured.{AreSmall};

    ghost Value = { List Extent };

    ghost view = { λ s. s.extents.items };

    ghost invariant = { λ s. AreSmall s.extents.items };
}

/// Why the sizes of a module's types are not known.
#[derive(Clone, Copy, Debug, PartialEq, Eq)]
pub enum SizesFault {
    NoMemory,
    /// The named type of this number is the first that has, or has inside it a type that has, more than `0x1000_0000` bytes.
    TooLarge(u32),
}

impl Sizes {
    /// The numbers of no type.
    pub(crate) fn new(alloc: Global) -> Sizes
        ensures { result ≡ [] }
    {
        Sizes {
            extents: Vec::new(alloc),
        }
    }

    /// Adds the numbers of the next type.
    pub(crate) fn push(&mut self, extent: Extent) -> Result<(), SizesFault>
        requires { IsSmall extent }
        ensures ok { OnOk result (self.new ≡ self.old ++ extent ∷ []) }
        ensures err { IfErr result (λ e. e ≡ SizesFault.NoMemory) }
    {
        match self.extents.push(extent) {
            Ok(()) => Ok(()),
            Err(_) => Err(SizesFault::NoMemory),
        }
    }

    /// The numbers of the named type of this number; none of 0 bytes where there is none.
    pub(crate) fn known(&self, number: u32) -> Extent
        ensures { Agrees result (known (slice_get self.now number)) }
    {
        match self.extents.as_slice().get(number as usize) {
            Some(extent) => *extent,
            None => Extent { size: 0, align: 1 },
        }
    }
}
