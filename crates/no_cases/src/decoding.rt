use no_code::{Cell, Code, Kind, decode};
use no_ir::{
    BinOp, Block, Bytes, Const, Function, GlobalVar, Instr, List, Module, NoMemory, Op, Operand,
    Place, Pred, Symbol, Ty,
};
use no_layout::Layout;
use std::alloc::Global;
use std::test::*;

/// Empty names: decoded code has none.
fn names(alloc: Global, count: u32) -> Result<List<Bytes>, NoMemory> {
    let mut all = List::new(alloc);
    for _ in 0..count {
        all.push(List::new(alloc))?;
    }
    Ok(all)
}

fn instr(register: Option<u32>, op: Op) -> Instr {
    Instr {
        result: register,
        inserted: false,
        op,
    }
}

/// The block of label 0: `%2 = add i32 %0, 5`, `%3 = icmp slt i32 %2, %1` and `br i1 %3, label 0, label 1`.
fn first(alloc: Global) -> Result<Block, NoMemory> {
    let mut instrs = List::new(alloc);
    let five = Operand::Const(Const::Int(5));
    let sum = Op::Binary(BinOp::Add, 32, Operand::Reg(0), five);
    instrs.push(instr(Some(2), sum))?;
    let less = Op::Compare(Pred::Slt, Ty::Int(32), Operand::Reg(2), Operand::Reg(1));
    instrs.push(instr(Some(3), less))?;
    instrs.push(instr(None, Op::CondBr(Operand::Reg(3), 0, 1)))?;
    Ok(Block { label: 0, instrs })
}

/// The block of label 1: `%4 = phi i32 [ %2, 0 ]`, `store i32 %4, ptr @g` and `ret i32 %4`, where `@g` is global 0.
fn second(alloc: Global) -> Result<Block, NoMemory> {
    let mut instrs = List::new(alloc);
    let edges = vec![in alloc; (Operand::Reg(2), 0)]?;
    let phi = Op::Phi(Ty::Int(32), List::from_vec(edges));
    instrs.push(instr(Some(4), phi))?;
    let place = Place {
        symbol: Symbol::Global(0),
        base: Ty::Void,
        indices: List::new(alloc),
    };
    let address = Operand::Const(Const::Address(place));
    let store = Op::Store(false, Ty::Int(32), Operand::Reg(4), address);
    instrs.push(instr(None, store))?;
    let end = Op::Ret(Some((Ty::Int(32), Operand::Reg(4))));
    instrs.push(instr(None, end))?;
    Ok(Block { label: 1, instrs })
}

/// A function of both blocks, with two parameters and five registers.
fn function(alloc: Global) -> Result<Function, NoMemory> {
    let params = vec![in alloc; (0, Ty::Int(32)), (1, Ty::Int(32))]?;
    let blocks = vec![in alloc; first(alloc)?, second(alloc)?]?;
    Ok(Function {
        name: List::new(alloc),
        result: Ty::Int(32),
        params: List::from_vec(params),
        bound: false,
        device_address: None,
        registers: names(alloc, 5)?,
        labels: names(alloc, 2)?,
        blocks: List::from_vec(blocks),
    })
}

/// The decoded module of that function, whose global 0 is at 0x20000.
fn decoded(alloc: Global) -> Result<Option<Code>, NoMemory> {
    let functions = vec![in alloc; function(alloc)?]?;
    let global = GlobalVar {
        name: List::new(alloc),
        constant: false,
        ty: Ty::Int(32),
        init: Const::Zero,
        align: None,
    };
    let globals = vec![in alloc; global]?;
    let program = Module {
        layout: List::new(alloc),
        types: List::new(alloc),
        globals: List::from_vec(globals),
        functions: List::from_vec(functions),
    };
    let Ok(layout) = Layout::read(b"E-p:32:32-i64:64".as_slice()) else {
        return Ok(None);
    };
    let Ok(sizes) = layout.sizes(alloc, &program.types) else {
        return Ok(None);
    };
    Ok(Some(decode(alloc, &program, &layout, &sizes, &[0x20000])?))
}

#[test]
fn a_function_is_decoded(rt: HostRuntime) -> Result<(), Fail> {
    let code = decoded(rt.alloc())?.ok_or("a layout with sizes")?;
    let cells = code.cells.as_slice();
    assert_eq!(rt; cells.len(), 8);
    assert!(rt; matches!(cells[0], Cell::Nothing));
    assert!(rt; matches!(cells[1], Cell::Add(32, 2, 0, 0x8000_0000)));
    assert!(rt; matches!(cells[2], Cell::Slt(32, 3, 2, 1)));
    assert!(rt; matches!(cells[3], Cell::CondBr(3, 0, 1)));
    assert!(rt; matches!(cells[4], Cell::Phi));
    assert!(rt; matches!(cells[5], Cell::Store(32, 4, 0x8000_0001)));
    assert!(rt; matches!(cells[6], Cell::Ret(4)));
    assert!(rt; matches!(cells[7], Cell::Nothing));
    assert_eq!(rt; code.constants.as_slice(), [5, 0x20000].as_slice());
    Ok(())
}

#[test]
fn tables_stand_beside_the_cells(rt: HostRuntime) -> Result<(), Fail> {
    let code = decoded(rt.alloc())?.ok_or("a layout with sizes")?;
    let homes = code.homes.as_slice();
    assert_eq!(rt; homes.len(), 1);
    assert!(rt; homes[0].start == 1 && homes[0].registers == 5);
    assert!(rt; homes[0].from == 0 && homes[0].to == 2);
    assert!(rt; matches!(homes[0].result, Kind::Int(32)));
    let arguments = code.arguments.as_slice();
    assert_eq!(rt; arguments.len(), 2);
    assert!(rt; arguments[0].slot == 0 && arguments[1].slot == 1);
    assert!(rt; matches!(arguments[1].kind, Kind::Int(32)));
    let edges = code.edges.as_slice();
    assert_eq!(rt; edges.len(), 2);
    assert!(rt; edges[0].target == 1 && edges[0].from == 0 && edges[0].to == 0);
    assert!(rt; edges[1].target == 5 && edges[1].from == 0 && edges[1].to == 1);
    let moves = code.moves.as_slice();
    assert_eq!(rt; moves.len(), 1);
    assert!(rt; moves[0].into == 4 && moves[0].from == 2);
    let places = code.places.as_slice();
    assert_eq!(rt; places.len(), 8);
    assert!(rt; places[5].function == 0 && places[5].block == 1 && places[5].at == 1);
    assert!(rt; code.steps.is_empty() && code.cases.is_empty());
    Ok(())
}
