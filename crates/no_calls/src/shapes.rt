ghost use Rattle.std.specs.Prelude.{◌≡◌, ◌++◌, ◌∷◌, IfOk, OnOk, map};
ghost use Rattle.no_calls.specs.Shapes.{call_shape, function_shape, is_proper, result_code, scalar_code, type_code};
ghost use Rattle.no_ir.specs.declared.types.Ty.{Ty};
ghost use Rattle.no_ir.specs.declared.instruction.Operand.{Operand as Argument};

use no_ir::{Function, NoMemory, Operand, Ty};
use no_module::{Scalar, is_void};
use std::alloc::Global;

/// The code of a type that is none of values.
const NO_CODE: u8 = 3;

fn scalar_code(scalar: Option<Scalar>) -> u8
    ensures { result ≡ scalar_code scalar }
{
    match scalar {
        None => NO_CODE,
        Some(Scalar::Ptr) => 0,
        Some(Scalar::Int(width)) => width,
    }
}

fn type_code(t: &Ty) -> u8
    ensures { result ≡ type_code t.now }
{
    scalar_code(Scalar::of(t))
}

fn result_code(t: &Ty) -> u8
    ensures { result ≡ result_code t.now }
{
    if is_void(t) { 2 } else { type_code(t) }
}

/// The shape of a call: codes of its result and of its arguments.
pub(crate) fn call_shape(alloc: Global, t: &Ty, args: &[(Ty, Operand)]) -> Result<Vec<u8>, NoMemory>
    ensures { IfOk result (λ shape. shape.items ≡ call_shape t.now args.now) }
{
    let mut shape = Vec::new(alloc);
    shape.push(result_code(t))?;
    for arg in args {
        shape.push(type_code(&arg.0))?;
    }
    Ok(shape)
}

/// The shape of a function: codes of its result and of its parameters.
pub(crate) fn function_shape(alloc: Global, function: &Function) -> Result<Vec<u8>, NoMemory>
    ensures { IfOk result (λ shape. shape.items ≡ function_shape function.now) }
{
    let mut shape = Vec::new(alloc);
    shape.push(result_code(&function.result))?;
    for param in function.params.as_slice() {
        shape.push(type_code(&param.1))?;
    }
    Ok(shape)
}

/// Whether each type of a shape is one of values.
pub(crate) fn is_proper(shape: &[u8]) -> bool
    ensures { result ≡ is_proper shape.now }
{
    !shape.contains(&NO_CODE)
}
