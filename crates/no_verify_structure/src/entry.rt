ghost use Rattle.std.specs.Prelude.{◌≡◌};
ghost use Rattle.std.specs.List.{list_any};
ghost use Rattle.no_verify_structure.specs.Entry.{entry_of, is_i32, is_main, is_ptr, main_parameters};

use crate::finding::whole;
use no_ir::{Function, Module, Role, Ty};
use no_module::is_declared;
use no_verify_types::FaultPlace;

fn is_i32(t: &Ty) -> bool
    ensures { result ≡ is_i32 t.now }
{
    matches!(t, Ty::Int(w) if *w == 32)
}

fn is_ptr(t: &Ty) -> bool
    ensures { result ≡ is_ptr t.now }
{
    matches!(t, Ty::Ptr)
}

fn main_parameters(params: &[(u32, Ty)]) -> bool
    ensures { result ≡ main_parameters params.now }
{
    match params {
        [] => true,
        [count, words] => is_i32(&count.1) && is_ptr(&words.1),
        _ => false,
    }
}

fn is_main(function: &Function) -> bool
    ensures { result ≡ is_main function.now }
{
    function.name.as_slice() == b"main".as_slice()
        && (!is_declared(function)
            && (is_i32(&function.result) && main_parameters(function.params.as_slice())))
}

fn has_main(functions: &[Function]) -> bool
    ensures { result ≡ list_any is_main functions.now }
{
    for function in functions {
        if is_main(function) {
            return true;
        }
    }
    false
}

/// The place 0, 0, 0 where a source has no function `main` that is defined as `i32 ()` or `i32 (i32, ptr)`.
pub fn entry_fault(program: &Module, role: Role) -> Option<FaultPlace>
    ensures { result ≡ entry_of program.now role }
{
    match role {
        Role::Part => None,
        Role::Source => {
            if has_main(program.functions.as_slice()) {
                None
            } else {
                Some(whole())
            }
        }
    }
}
