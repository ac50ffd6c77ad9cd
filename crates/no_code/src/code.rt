use no_ir::List;

/// One instruction of decoded code.
///
/// A slot below `2^31` is a register of the frame, and the slot after the last register takes what nobody reads; one from
/// `2^31` on is a constant of the code's table. Where an instruction has a result, its slot comes first, behind widths.
#[derive(Clone, Copy)]
pub enum Cell {
    /// No instruction: what stands before the first one and behind the last, and where a label leads that no block has.
    Nothing,
    /// A phi, which is assigned on the edge that enters its block.
    Phi,
    /// The width, the result, and two operands.
    Add(u8, u32, u32, u32),
    Sub(u8, u32, u32, u32),
    Mul(u8, u32, u32, u32),
    UDiv(u8, u32, u32, u32),
    URem(u8, u32, u32, u32),
    SDiv(u8, u32, u32, u32),
    SRem(u8, u32, u32, u32),
    Shl(u8, u32, u32, u32),
    LShr(u8, u32, u32, u32),
    AShr(u8, u32, u32, u32),
    And(u8, u32, u32, u32),
    Or(u8, u32, u32, u32),
    Xor(u8, u32, u32, u32),
    /// The width of the operands, the result, and two operands.
    Eq(u8, u32, u32, u32),
    Ne(u8, u32, u32, u32),
    Ugt(u8, u32, u32, u32),
    Uge(u8, u32, u32, u32),
    Ult(u8, u32, u32, u32),
    Ule(u8, u32, u32, u32),
    Sgt(u8, u32, u32, u32),
    Sge(u8, u32, u32, u32),
    Slt(u8, u32, u32, u32),
    Sle(u8, u32, u32, u32),
    /// The width of the operand and that of the result, the result, and the operand.
    Trunc(u8, u8, u32, u32),
    ZExt(u8, u8, u32, u32),
    SExt(u8, u8, u32, u32),
    PtrToInt(u8, u8, u32, u32),
    IntToPtr(u8, u8, u32, u32),
    BitCast(u8, u8, u32, u32),
    /// The result, and the operand: `freeze`.
    Copy(u32, u32),
    /// The result, the condition, and two operands.
    Select(u32, u32, u32, u32),
    /// The result, the count, how far two values are apart, and the alignment.
    Alloca(u32, u32, u32, u32),
    /// The width, the result, and the address.
    Load(u8, u32, u32),
    /// The width, the value, and the address.
    Store(u8, u32, u32),
    /// The result, the base address, and the range of steps.
    Gep(u32, u32, u32, u32),
    /// The result, the number of the function, and the range of arguments.
    Call(u32, u32, u32, u32),
    /// The result, the range of arguments, and before them the callee with the kind of the result.
    CallAt(u32, u32, u32),
    /// The edge.
    Br(u32),
    /// The condition, the edge where it is true, and the other.
    CondBr(u32, u32, u32),
    /// The operand, the edge of the default, and the range of cases.
    Switch(u32, u32, u32, u32),
    /// The value.
    Ret(u32),
    /// `ret void`.
    Leave,
    Unreachable,
}

/// Where the instruction of a cell stands, and whether the partition made it, in which case it costs nothing.
#[derive(Clone, Copy)]
pub struct Place {
    pub function: u32,
    pub block: u32,
    pub at: u32,
    pub inserted: bool,
}

/// What a phi is given on an edge: its slot, and the slot that is read. All slots of an edge are read before one is written.
#[derive(Clone, Copy)]
pub struct Move {
    pub into: u32,
    pub from: u32,
}

/// Where a branch goes: the cell behind the phis of the block, and the range of moves.
#[derive(Clone, Copy)]
pub struct Edge {
    pub target: u32,
    pub from: u32,
    pub to: u32,
}

/// A number of a switch, and its edge.
#[derive(Clone, Copy)]
pub struct Case {
    pub number: u64,
    pub edge: u32,
}

/// What a type of a parameter, an argument or a result is.
#[derive(Clone, Copy)]
pub enum Kind {
    Void,
    /// An integer of this width.
    Int(u8),
    Ptr,
    /// An array, a struct or a named type, which none of them has in an accepted module.
    Other,
}

/// A slot and the kind of its type: an argument, or a parameter.
#[derive(Clone, Copy)]
pub struct Argument {
    pub slot: u32,
    pub kind: Kind,
}

/// One index of a `getelementptr`.
#[derive(Clone, Copy)]
pub enum Step {
    /// The width of the index, its slot, and how many bytes it leads for each of its units.
    Index(u8, u32, u32),
    /// How many bytes a field stands behind the beginning of its struct.
    Field(u32),
}

/// A function: its first cell, how many registers it has, its result, and the range of its parameters.
#[derive(Clone, Copy)]
pub struct Home {
    pub start: u32,
    pub registers: u32,
    pub result: Kind,
    pub from: u32,
    pub to: u32,
}

/// A decoded program. Each range is one of a table beside the cells.
#[derive(Drop)]
pub struct Code {
    pub cells: List<Cell>,
    /// Where the instruction of each cell stands.
    pub places: List<Place>,
    /// A home for each function, in order.
    pub homes: List<Home>,
    pub constants: List<u64>,
    pub edges: List<Edge>,
    pub moves: List<Move>,
    pub arguments: List<Argument>,
    pub steps: List<Step>,
    pub cases: List<Case>,
}
