ghost use Rattle.std.specs.Prelude.{◌≡◌, map};
ghost use Rattle.no_verify_types.specs.Addresses.{indices_lead, inner_lead};
ghost use Rattle.no_verify_types.specs.Typing.{field_in, stated_field};

use crate::addresses::{field_below, part};
use crate::operands::number_of;
use no_ir::{Module, Operand, Ty};
use no_module::resolved;

fn field_in(number: Option<u64>) -> Option<u32>
    ensures { result ≡ field_in number }
{
    match number {
        Some(number) => field_below(number),
        None => None,
    }
}

/// The number of a field, where an index states one: a constant of 32 bits.
fn stated_field(index: &(u8, Operand)) -> Option<u32>
    ensures { result ≡ stated_field index.now }
{
    if index.0 == 32 {
        field_in(number_of(&index.1))
    } else {
        None
    }
}

/// Whether the indices of an instruction lead somewhere.
pub(crate) fn path_leads(program: &Module, base: &Ty, indices: &[(u8, Operand)]) -> bool
    ensures { result ≡ indices_lead program.now.types base.now (map stated_field indices.now) }
{
    match indices {
        [] => true,
        [_, others @ ..] => inner_leads(program, base, others),
    }
}

fn inner_leads(program: &Module, base: &Ty, indices: &[(u8, Operand)]) -> bool
    ensures { result ≡ inner_lead program.now.types base.now (map stated_field indices.now) }
{
    let mut at = base;
    for index in indices {
        match part(resolved(program, at), stated_field(index)) {
            None => return false,
            Some(next) => at = next,
        }
    }
    true
}
