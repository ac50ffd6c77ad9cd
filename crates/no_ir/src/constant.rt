ghost use Rattle.std.specs.Prelude.{◌≡◌, IfOk};

use crate::duplicate::Duplicate;
use crate::{Bytes, NoMemory, Ty};
use sqlite_items::Items as List;
use std::alloc::Global;

/// What a place begins at.
#[derive(Debug, Drop)]
pub enum Symbol {
    /// The module's global of this number.
    Global(u32),
    /// The module's function of this number.
    Function(u32),
    /// A name that the module does not define.
    Unknown(Bytes),
}

impl Symbol {
    /// An equal symbol.
    pub fn copy(&self, alloc: Global) -> Result<Symbol, NoMemory>
        ensures { IfOk result (λ s. s ≡ self.now) }
    {
        match self {
            Symbol::Global(number) => Ok(Symbol::Global(*number)),
            Symbol::Function(number) => Ok(Symbol::Function(*number)),
            Symbol::Unknown(name) => Ok(Symbol::Unknown(name.duplicate(alloc)?)),
        }
    }
}

/// An address inside a symbol: a bare name, or a constant `getelementptr`.
#[derive(Debug, Drop)]
pub struct Place {
    pub symbol: Symbol,
    /// The type that the indices step through, or `Void` at a bare name.
    pub base: Ty,
    /// The constant indices in order, sign-extended; none at a bare name.
    pub indices: List<i64>,
}

impl Place {
    /// An equal place.
    pub fn copy(&self, alloc: Global) -> Result<Place, NoMemory>
        ensures { IfOk result (λ p. p ≡ self.now) }
    {
        let symbol = self.symbol.copy(alloc)?;
        let base = self.base.copy(alloc)?;
        let indices = self.indices.duplicate(alloc)?;
        Ok(Place {
            symbol,
            base,
            indices,
        })
    }
}

/// A constant (LLVM Language Reference, "Constants"). Its type is that of its place.
#[derive(Debug, Drop)]
pub enum Const {
    /// `null`, `zeroinitializer`, and `undef` and `poison` of types that are no integers.
    Zero,
    /// An integer, as a number below 2 to the power of its type's width.
    Int(u64),
    /// The bytes of a `c` string.
    Str(Bytes),
    /// The elements of an array.
    Array(List<Const>),
    /// The fields of a struct.
    Struct(List<Const>),
    /// An address.
    Address(Place),
    /// An address as an integer, of `ptrtoint`.
    AddressAsInt(Place),
    /// An integer as an address, of `inttoptr`.
    IntAsPtr(u64),
}

impl Const {
    /// An equal constant.
    #[cycle(constants)]
    pub fn copy(&self, alloc: Global) -> Result<Const, NoMemory>
        ensures { IfOk result (λ c. c ≡ self.now) }
    {
        match self {
            Const::Zero => Ok(Const::Zero),
            Const::Int(number) => Ok(Const::Int(*number)),
            Const::Str(bytes) => Ok(Const::Str(bytes.duplicate(alloc)?)),
            Const::Array(elements) => Ok(Const::Array(copy_members(alloc, elements.as_slice())?)),
            Const::Struct(fields) => Ok(Const::Struct(copy_members(alloc, fields.as_slice())?)),
            Const::Address(place) => Ok(Const::Address(place.copy(alloc)?)),
            Const::AddressAsInt(place) => Ok(Const::AddressAsInt(place.copy(alloc)?)),
            Const::IntAsPtr(number) => Ok(Const::IntAsPtr(*number)),
        }
    }
}

/// Equal elements or fields.
#[cycle(constants)]
fn copy_members(alloc: Global, members: &[Const]) -> Result<List<Const>, NoMemory>
    ensures { IfOk result (λ all. all ≡ members.now) }
{
    let mut all = List::new(alloc);
    for member in members {
        all.push(member.copy(alloc)?)?;
    }
    Ok(all)
}

impl Duplicate for Const {
    fn duplicate(&self, alloc: Global) -> Result<Const, NoMemory> {
        self.copy(alloc)
    }
}
