ghost use Rattle.std.specs.Prelude.{◌≡◌, IfOk};

use crate::NoMemory;
use crate::duplicate::Duplicate;
use sqlite_items::{Boxed, Items as List};
use std::alloc::Global;

/// A type (LLVM Language Reference, "Type System"). Contracts see it as plain data.
#[derive(Debug, Drop)]
pub enum Ty {
    /// The result of a function that returns nothing.
    Void,
    /// An integer of 1, 8, 16, 32 or 64 bits.
    Int(u8),
    /// A pointer, of the width that the data layout states.
    Ptr,
    /// The number of elements, and their type.
    Array(u64, Boxed<Ty>),
    /// Whether it is packed, and its fields in order.
    Struct(bool, List<Ty>),
    /// The type of this number in the module's list of named types.
    Named(u32),
}

impl Ty {
    /// An equal type.
    pub fn copy(&self, alloc: Global) -> Result<Ty, NoMemory>
        ensures { IfOk result (λ t. t ≡ self.now) }
    {
        match self {
            Ty::Void => Ok(Ty::Void),
            Ty::Int(width) => Ok(Ty::Int(*width)),
            Ty::Ptr => Ok(Ty::Ptr),
            Ty::Array(count, element) => {
                let element = element.get().copy(alloc)?;
                Ok(Ty::Array(*count, Boxed::new(alloc, element)?))
            }
            Ty::Struct(packed, fields) => {
                let mut all = List::new(alloc);
                for field in fields.as_slice() {
                    all.push(field.copy(alloc)?)?;
                }
                Ok(Ty::Struct(*packed, all))
            }
            Ty::Named(number) => Ok(Ty::Named(*number)),
        }
    }
}

impl Duplicate for Ty {
    fn duplicate(&self, alloc: Global) -> Result<Ty, NoMemory> {
        self.copy(alloc)
    }
}
