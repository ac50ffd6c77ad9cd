ghost use Rattle.std.specs.Prelude.{◌≡◌, IfOk};

use crate::duplicate::Duplicate;
use crate::{Const, NoMemory, Ty};
use sqlite_items::Items as List;
use std::alloc::Global;

/// A binary operator on integers (LLVM Language Reference, "Binary Operations" and "Bitwise Binary Operations").
#[derive(Clone, Copy, Debug, PartialEq, Eq)]
pub enum BinOp {
    Add,
    Sub,
    Mul,
    UDiv,
    URem,
    SDiv,
    SRem,
    Shl,
    LShr,
    AShr,
    And,
    Or,
    Xor,
}

/// A comparison of `icmp`.
#[derive(Clone, Copy, Debug, PartialEq, Eq)]
pub enum Pred {
    Eq,
    Ne,
    Ugt,
    Uge,
    Ult,
    Ule,
    Sgt,
    Sge,
    Slt,
    Sle,
}

/// A conversion (LLVM Language Reference, "Conversion Operations").
#[derive(Clone, Copy, Debug, PartialEq, Eq)]
pub enum CastOp {
    Trunc,
    ZExt,
    SExt,
    PtrToInt,
    IntToPtr,
    BitCast,
}

/// What an instruction reads: a register of its function by number, or a constant.
#[derive(Debug, Drop)]
pub enum Operand {
    Reg(u32),
    Const(Const),
}

impl Operand {
    /// An equal operand.
    pub fn copy(&self, alloc: Global) -> Result<Operand, NoMemory>
        ensures { IfOk result (λ o. o ≡ self.now) }
    {
        match self {
            Operand::Reg(register) => Ok(Operand::Reg(*register)),
            Operand::Const(constant) => Ok(Operand::Const(constant.copy(alloc)?)),
        }
    }
}

impl Duplicate for Operand {
    fn duplicate(&self, alloc: Global) -> Result<Operand, NoMemory> {
        self.copy(alloc)
    }
}

/// What an instruction does. Labels and registers are numbers of its function's lists.
#[derive(Debug, Drop)]
pub enum Op {
    /// The operator, the width of both operands, and these.
    Binary(BinOp, u8, Operand, Operand),
    /// The comparison, the type of both operands, and these.
    Compare(Pred, Ty, Operand, Operand),
    /// The conversion, the type and the operand that it takes, and the type that it gives.
    Cast(CastOp, Ty, Operand, Ty),
    /// The type and the operand.
    Freeze(Ty, Operand),
    /// The condition, the type of both choices, the choice where it is true, and the other.
    Select(Operand, Ty, Operand, Operand),
    /// The type, and for each predecessor's label the operand.
    Phi(Ty, List<(Operand, u32)>),
    /// The type, the width and operand of a stated count, and a stated alignment.
    Alloca(Ty, Option<(u8, Operand)>, Option<u32>),
    /// Whether it is volatile, the type that is loaded, and the address.
    Load(bool, Ty, Operand),
    /// Whether it is volatile, the type that is stored, its value, and the address.
    Store(bool, Ty, Operand, Operand),
    /// The type that the indices step through, the base address, and width and operand of each index.
    Gep(Ty, Operand, List<(u8, Operand)>),
    /// The type of the result, the callee, and type and operand of each argument.
    Call(Ty, Operand, List<(Ty, Operand)>),
    /// The label.
    Br(u32),
    /// The condition, the label where it is true, and the other.
    CondBr(Operand, u32, u32),
    /// The width, the operand, the label of the default, and number and label of each case.
    Switch(u8, Operand, u32, List<(u64, u32)>),
    /// The type and the value that are returned, none for `ret void`.
    Ret(Option<(Ty, Operand)>),
    Unreachable,
}

/// One instruction.
#[derive(Debug, Drop)]
pub struct Instr {
    /// The register that it assigns.
    pub result: Option<u32>,
    /// Whether the partition made it, in which case it costs nothing.
    pub inserted: bool,
    pub op: Op,
}

impl Instr {
    /// An equal instruction.
    pub fn copy(&self, alloc: Global) -> Result<Instr, NoMemory>
        ensures { IfOk result (λ i. i ≡ self.now) }
    {
        let op = self.op.copy(alloc)?;
        Ok(Instr {
            result: self.result,
            inserted: self.inserted,
            op,
        })
    }
}

impl Duplicate for Instr {
    fn duplicate(&self, alloc: Global) -> Result<Instr, NoMemory> {
        self.copy(alloc)
    }
}
