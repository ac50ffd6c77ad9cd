//! The one spelling of modules that are built by hand, by the rules of docs/LANGUAGE.md, "Canonical text". Printing takes
//! every module, so these are not all ones that the verifier accepts. Each is printed from a copy.
use no_ir::{
    BinOp, Block, Boxed, Bytes, CastOp, Const, Function, GlobalVar, Instr, List, Module, NoMemory,
    Op, Operand, Place, Pred, Symbol, Ty,
};
use no_print::print;
use std::alloc::Global;
use std::test::*;

fn bytes(alloc: Global, text: &[u8]) -> Result<Bytes, NoMemory> {
    Ok(List::from_vec(Vec::from_slice(alloc, text)?))
}

fn names(alloc: Global, texts: &[&str]) -> Result<List<Bytes>, NoMemory> {
    let mut all = List::new(alloc);
    for text in texts {
        all.push(bytes(alloc, text.as_bytes())?)?;
    }
    Ok(all)
}

/// The type of an array.
fn array(alloc: Global, count: u64, element: Ty) -> Result<Ty, NoMemory> {
    Ok(Ty::Array(count, Boxed::new(alloc, element)?))
}

/// A module's two named types: a struct, and a packed one that has the first.
fn types(alloc: Global) -> Result<List<(Bytes, Ty)>, NoMemory> {
    let pair = Ty::Struct(false, List::from_vec(vec![in alloc; Ty::Int(8), Ty::Ptr]?));
    let tight = List::from_vec(vec![in alloc; Ty::Int(16), Ty::Named(0)]?);
    let mut all = List::new(alloc);
    all.push((bytes(alloc, b"pair".as_slice())?, pair))?;
    all.push((bytes(alloc, b"a b".as_slice())?, Ty::Struct(true, tight)))?;
    Ok(all)
}

/// A global that may be written and states no alignment.
fn global(alloc: Global, name: &str, ty: Ty, init: Const) -> Result<GlobalVar, NoMemory> {
    Ok(GlobalVar {
        name: bytes(alloc, name.as_bytes())?,
        constant: false,
        ty,
        init,
        align: None,
    })
}

/// A constant place inside a symbol.
fn place(alloc: Global, symbol: Symbol, base: Ty, indices: &[i64]) -> Result<Place, NoMemory> {
    Ok(Place {
        symbol,
        base,
        indices: List::from_vec(Vec::from_slice(alloc, indices)?),
    })
}

/// A global of each form of a constant that is no address, but for structs.
fn plain(alloc: Global, all: &mut List<GlobalVar>) -> Result<(), NoMemory> {
    all.push(global(alloc, "flag", Ty::Int(1), Const::Int(1))?)?;
    all.push(GlobalVar {
        name: bytes(alloc, b"least".as_slice())?,
        constant: true,
        ty: Ty::Int(8),
        init: Const::Int(128),
        align: Some(4),
    })?;
    all.push(global(alloc, "null", Ty::Ptr, Const::Zero)?)?;
    let long = array(alloc, 4, Ty::Int(64))?;
    all.push(global(alloc, "zeros", long, Const::Zero)?)?;
    let text = Const::Str(bytes(alloc, b"a\"\\\0\xe9".as_slice())?);
    let five = array(alloc, 5, Ty::Int(8))?;
    all.push(global(alloc, "\"quote\"", five, text)?)?;
    let elements = vec![in alloc; Const::Int(1), Const::Int(65_535)]?;
    let two = array(alloc, 2, Ty::Int(16))?;
    let list = Const::Array(List::from_vec(elements));
    all.push(global(alloc, "list", two, list)?)?;
    let none = array(alloc, 0, Ty::Int(8))?;
    all.push(global(alloc, "none", none, Const::Array(List::new(alloc)))?)?;
    Ok(())
}

/// Globals of the two named types, and of an empty one.
fn structs(alloc: Global, all: &mut List<GlobalVar>) -> Result<(), NoMemory> {
    let five = place(alloc, Symbol::Global(5), Ty::Void, &[])?;
    let pair = vec![in alloc; Const::Int(1), Const::Address(five)]?;
    let pair = Const::Struct(List::from_vec(pair));
    all.push(global(alloc, "pair", Ty::Named(0), pair)?)?;
    let tight = vec![in alloc; Const::Int(2), Const::Zero]?;
    let tight = Const::Struct(List::from_vec(tight));
    all.push(global(alloc, "tight", Ty::Named(1), tight)?)?;
    let empty = Ty::Struct(false, List::new(alloc));
    all.push(global(alloc, "empty", empty, Const::Struct(List::new(alloc)))?)?;
    Ok(())
}

/// A global of each form of an address.
fn addresses(alloc: Global, all: &mut List<GlobalVar>) -> Result<(), NoMemory> {
    let field = place(alloc, Symbol::Global(7), Ty::Named(0), &[0, 1])?;
    all.push(global(alloc, "field", Ty::Ptr, Const::Address(field))?)?;
    let other = Symbol::Unknown(bytes(alloc, b"other".as_slice())?);
    let far = place(alloc, other, Ty::Int(8), &[2_147_483_648])?;
    all.push(global(alloc, "far", Ty::Ptr, Const::Address(far))?)?;
    let call = place(alloc, Symbol::Function(0), Ty::Void, &[])?;
    all.push(global(alloc, "number", Ty::Int(64), Const::AddressAsInt(call))?)?;
    all.push(global(alloc, "fixed", Ty::Ptr, Const::IntAsPtr(65_536))?)?;
    Ok(())
}

/// A declared function whose parameters have these types.
fn declared(alloc: Global, name: &str, gives: Ty, types: Vec<Ty>) -> Result<Function, NoMemory> {
    let mut params = List::new(alloc);
    for ty in types {
        params.push((0, ty))?;
    }
    Ok(Function {
        name: bytes(alloc, name.as_bytes())?,
        result: gives,
        params,
        bound: false,
        device_address: None,
        registers: List::new(alloc),
        labels: List::new(alloc),
        blocks: List::new(alloc),
    })
}

/// A module of types, globals and declared functions.
fn tables(alloc: Global) -> Result<Module, NoMemory> {
    let mut globals = List::new(alloc);
    plain(alloc, &mut globals)?;
    structs(alloc, &mut globals)?;
    addresses(alloc, &mut globals)?;
    let mut functions = List::new(alloc);
    functions.push(declared(alloc, "puts", Ty::Int(32), vec![in alloc; Ty::Ptr]?)?)?;
    let pair = vec![in alloc; Ty::Int(8), array(alloc, 2, Ty::Int(32))?]?;
    let mut pinned = declared(alloc, "a b", Ty::Void, pair)?;
    pinned.bound = true;
    pinned.device_address = Some(7);
    functions.push(pinned)?;
    Ok(Module {
        layout: bytes(alloc, b"E-\"\n".as_slice())?,
        types: types(alloc)?,
        globals,
        functions,
    })
}

const TABLES: &str = r#"target datalayout = "E-\22\0A"
%pair = type { i8, ptr }
%"a b" = type <{ i16, %pair }>
@flag = global i1 true
@least = constant i8 -128, align 4
@null = global ptr null
@zeros = global [4 x i64] zeroinitializer
@"\22quote\22" = global [5 x i8] c"a\22\5C\00\E9"
@list = global [2 x i16] [i16 1, i16 -1]
@none = global [0 x i8] []
@pair = global %pair { i8 1, ptr @list }
@tight = global %"a b" { i16 2, %pair zeroinitializer }
@empty = global {} {}
@field = global ptr getelementptr (%pair, ptr @pair, i32 0, i32 1)
@far = global ptr getelementptr (i8, ptr @other, i64 2147483648)
@number = global i64 ptrtoint (ptr @puts to i64)
@fixed = global ptr inttoptr (i64 65536 to ptr)

declare i32 @puts(ptr)

declare void @"a b"(i8, [2 x i32]) "machine-bound" "no.addr"="7"
"#;

#[test]
fn globals_and_declarations_are_spelled(rt: HostRuntime) -> Result<(), NoMemory> {
    let alloc = rt.alloc();
    let text = print(alloc, &tables(alloc)?.copy(alloc)?)?;
    assert!(rt; text.as_slice() == TABLES.as_bytes());
    Ok(())
}

fn number(n: u64) -> Operand {
    Operand::Const(Const::Int(n))
}

/// An instruction that assigns a register.
fn gives(register: u32, op: Op) -> Instr {
    Instr {
        result: Some(register),
        inserted: false,
        op,
    }
}

/// An instruction that assigns none.
fn does(op: Op) -> Instr {
    Instr {
        result: None,
        inserted: false,
        op,
    }
}

/// The name of the module's only global.
fn named(alloc: Global) -> Result<Operand, NoMemory> {
    let place = place(alloc, Symbol::Global(0), Ty::Void, &[])?;
    Ok(Operand::Const(Const::Address(place)))
}

/// Forms of values, of which the second is marked as inserted.
fn values(alloc: Global, all: &mut List<Instr>) -> Result<(), NoMemory> {
    all.push(gives(4, Op::Freeze(Ty::Int(32), number(0))))?;
    let mut chosen = gives(
        5,
        Op::Select(Operand::Reg(3), Ty::Int(8), number(1), number(255)),
    );
    chosen.inserted = true;
    all.push(chosen)?;
    let edges = vec![in alloc; (number(1), 0), (Operand::Reg(0), 1)]?;
    all.push(gives(6, Op::Phi(Ty::Int(32), List::from_vec(edges))))?;
    let callee = place(alloc, Symbol::Function(0), Ty::Void, &[])?;
    let callee = Operand::Const(Const::Address(callee));
    let args = vec![in alloc; (Ty::Int(32), number(1)), (Ty::Ptr, Operand::Reg(1))]?;
    all.push(gives(7, Op::Call(Ty::Int(32), callee, List::from_vec(args))))?;
    let none = List::new(alloc);
    all.push(does(Op::Call(Ty::Void, Operand::Reg(1), none)))?;
    Ok(())
}

/// Forms over memory.
fn memory(alloc: Global, all: &mut List<Instr>) -> Result<(), NoMemory> {
    all.push(gives(2, Op::Alloca(Ty::Int(8), None, None)))?;
    let four = Some((32, number(4)));
    all.push(gives(2, Op::Alloca(Ty::Int(8), four, Some(2))))?;
    all.push(gives(2, Op::Load(false, Ty::Int(8), Operand::Reg(1))))?;
    all.push(gives(2, Op::Load(true, Ty::Ptr, named(alloc)?)))?;
    all.push(does(Op::Store(false, Ty::Int(8), number(1), Operand::Reg(1))))?;
    let null = Operand::Const(Const::Zero);
    all.push(does(Op::Store(true, Ty::Ptr, null, named(alloc)?)))?;
    let indices = vec![in alloc; (32, number(0)), (64, Operand::Reg(0))]?;
    let indices = List::from_vec(indices);
    all.push(gives(
        2,
        Op::Gep(array(alloc, 2, Ty::Int(32))?, Operand::Reg(1), indices),
    ))?;
    Ok(())
}

/// Forms that end a block.
fn ends(alloc: Global, all: &mut List<Instr>) -> Result<(), NoMemory> {
    all.push(does(Op::Br(0)))?;
    all.push(does(Op::CondBr(Operand::Reg(3), 0, 1)))?;
    let none = List::new(alloc);
    all.push(does(Op::Switch(32, Operand::Reg(0), 0, none)))?;
    let cases = List::from_vec(vec![in alloc; (1, 1), (255, 0)]?);
    all.push(does(Op::Switch(8, Operand::Reg(0), 0, cases)))?;
    all.push(does(Op::Ret(None)))?;
    all.push(does(Op::Ret(Some((Ty::Int(32), Operand::Reg(0))))))?;
    all.push(does(Op::Unreachable))?;
    Ok(())
}

/// A module of one global and one function of two blocks.
fn forms(alloc: Global) -> Result<Module, NoMemory> {
    let mut globals = List::new(alloc);
    globals.push(global(alloc, "g", Ty::Ptr, Const::Zero)?)?;
    let mut first = List::new(alloc);
    values(alloc, &mut first)?;
    memory(alloc, &mut first)?;
    let mut second = List::new(alloc);
    ends(alloc, &mut second)?;
    let mut blocks = List::new(alloc);
    blocks.push(Block {
        label: 0,
        instrs: first,
    })?;
    blocks.push(Block {
        label: 1,
        instrs: second,
    })?;
    let params = vec![in alloc; (0, Ty::Int(32)), (1, Ty::Ptr)]?;
    let function = Function {
        name: bytes(alloc, b"f".as_slice())?,
        result: Ty::Int(32),
        params: List::from_vec(params),
        bound: false,
        device_address: None,
        registers: names(alloc, &["a", "p q", "m", "c", "0", "1", "2", "3"])?,
        labels: names(alloc, &["x", "y z"])?,
        blocks,
    };
    let mut functions = List::new(alloc);
    functions.push(function)?;
    Ok(Module {
        layout: List::new(alloc),
        types: List::new(alloc),
        globals,
        functions,
    })
}

const FORMS: &str = r#"target datalayout = ""
@g = global ptr null

define i32 @f(i32 %a, ptr %"p q") {
x:
  %0 = freeze i32 0
  %1 = select i1 %c, i8 1, i8 -1, !no.x !0
  %2 = phi i32 [ 1, %x ], [ %a, %"y z" ]
  %3 = call i32 @f(i32 1, ptr %"p q")
  call void %"p q"()
  %m = alloca i8
  %m = alloca i8, i32 4, align 2
  %m = load i8, ptr %"p q"
  %m = load volatile ptr, ptr @g
  store i8 1, ptr %"p q"
  store volatile ptr null, ptr @g
  %m = getelementptr [2 x i32], ptr %"p q", i32 0, i64 %a
"y z":
  br label %x
  br i1 %c, label %x, label %"y z"
  switch i32 %a, label %x [ ]
  switch i8 %a, label %x [ i8 1, label %"y z" i8 -1, label %x ]
  ret void
  ret i32 %a
  unreachable
}
!0 = !{}
"#;

#[test]
fn each_form_is_spelled(rt: HostRuntime) -> Result<(), NoMemory> {
    let alloc = rt.alloc();
    let text = print(alloc, &forms(alloc)?.copy(alloc)?)?;
    assert!(rt; text.as_slice() == FORMS.as_bytes());
    Ok(())
}

const OPERATORS: [BinOp; 13] = [
    BinOp::Add,
    BinOp::Sub,
    BinOp::Mul,
    BinOp::UDiv,
    BinOp::URem,
    BinOp::SDiv,
    BinOp::SRem,
    BinOp::Shl,
    BinOp::LShr,
    BinOp::AShr,
    BinOp::And,
    BinOp::Or,
    BinOp::Xor,
];

const COMPARISONS: [Pred; 10] = [
    Pred::Eq,
    Pred::Ne,
    Pred::Ugt,
    Pred::Uge,
    Pred::Ult,
    Pred::Ule,
    Pred::Sgt,
    Pred::Sge,
    Pred::Slt,
    Pred::Sle,
];

/// Each operator, comparison and conversion.
fn operations(alloc: Global) -> Result<List<Instr>, NoMemory> {
    let mut all = List::new(alloc);
    for op in OPERATORS {
        all.push(gives(2, Op::Binary(op, 8, Operand::Reg(0), number(255))))?;
    }
    for pred in COMPARISONS {
        let left = Operand::Reg(0);
        all.push(gives(2, Op::Compare(pred, Ty::Ptr, left, Operand::Reg(1))))?;
    }
    for (op, from, to) in [
        (CastOp::Trunc, 64, 1),
        (CastOp::ZExt, 8, 16),
        (CastOp::SExt, 16, 32),
    ] {
        let number = Operand::Reg(0);
        all.push(gives(2, Op::Cast(op, Ty::Int(from), number, Ty::Int(to))))?;
    }
    let number = Operand::Reg(1);
    all.push(gives(2, Op::Cast(CastOp::PtrToInt, Ty::Ptr, number, Ty::Int(32))))?;
    let address = Operand::Reg(0);
    all.push(gives(2, Op::Cast(CastOp::IntToPtr, Ty::Int(64), address, Ty::Ptr)))?;
    let address = Operand::Reg(1);
    all.push(gives(2, Op::Cast(CastOp::BitCast, Ty::Ptr, address, Ty::Ptr)))?;
    Ok(all)
}

/// A module of one function of one block.
fn words(alloc: Global) -> Result<Module, NoMemory> {
    let mut blocks = List::new(alloc);
    blocks.push(Block {
        label: 0,
        instrs: operations(alloc)?,
    })?;
    let function = Function {
        name: bytes(alloc, b"".as_slice())?,
        result: Ty::Void,
        params: List::new(alloc),
        bound: true,
        device_address: None,
        registers: names(alloc, &["a", "b", "r"])?,
        labels: names(alloc, &["..."])?,
        blocks,
    };
    let mut functions = List::new(alloc);
    functions.push(function)?;
    Ok(Module {
        layout: bytes(alloc, b"e".as_slice())?,
        types: List::new(alloc),
        globals: List::new(alloc),
        functions,
    })
}

const WORDS: &str = r#"target datalayout = "e"

define void @""() "machine-bound" {
"...":
  %r = add i8 %a, -1
  %r = sub i8 %a, -1
  %r = mul i8 %a, -1
  %r = udiv i8 %a, -1
  %r = urem i8 %a, -1
  %r = sdiv i8 %a, -1
  %r = srem i8 %a, -1
  %r = shl i8 %a, -1
  %r = lshr i8 %a, -1
  %r = ashr i8 %a, -1
  %r = and i8 %a, -1
  %r = or i8 %a, -1
  %r = xor i8 %a, -1
  %r = icmp eq ptr %a, %b
  %r = icmp ne ptr %a, %b
  %r = icmp ugt ptr %a, %b
  %r = icmp uge ptr %a, %b
  %r = icmp ult ptr %a, %b
  %r = icmp ule ptr %a, %b
  %r = icmp sgt ptr %a, %b
  %r = icmp sge ptr %a, %b
  %r = icmp slt ptr %a, %b
  %r = icmp sle ptr %a, %b
  %r = trunc i64 %a to i1
  %r = zext i8 %a to i16
  %r = sext i16 %a to i32
  %r = ptrtoint ptr %b to i32
  %r = inttoptr i64 %a to ptr
  %r = bitcast ptr %b to ptr
}
"#;

#[test]
fn each_operator_is_spelled(rt: HostRuntime) -> Result<(), NoMemory> {
    let alloc = rt.alloc();
    let text = print(alloc, &words(alloc)?.copy(alloc)?)?;
    assert!(rt; text.as_slice() == WORDS.as_bytes());
    Ok(())
}
