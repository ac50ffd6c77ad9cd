ghost use Rattle.std.specs.Prelude.{◌≡◌, Bool, map, true};
ghost use Rattle.std.specs.List.{list_all};
ghost use Rattle.no_module.specs.Left.{operands_left};
ghost use Rattle.no_verify_structure.specs.Parts.{constant_keeps, operand_keeps, operands_keep};

use no_ir::{Const, Op, Operand, Place};
use no_module::Operands;

/// A rule on what operands name: registers, and addresses in constants.
pub(crate) trait NameRule {
    ghost use Rattle.std.specs.Prelude.{◌≡◌, ℕ, Bool, true};
    ghost use Rattle.no_ir.specs.declared.constant.Place.{Place};

    /// What has to hold before the rule is asked.
    ghost ready: { Self → Bool };

    ghost registers: { Self → ℕ → Bool };

    ghost places: { Self → Place → Bool };

    fn keeps_register(&self, register: u32) -> bool
        requires { ready self.now ≡ true }
        ensures { result ≡ registers self.now register };

    fn keeps_place(&self, place: &Place) -> bool
        requires { ready self.now ≡ true }
        ensures { result ≡ places self.now place.now };
}

/// Whether each address in a constant keeps a rule.
#[cycle(constants)]
pub(crate) fn constant_keeps<T: NameRule>(rule: &T, constant: &Const) -> bool
    requires { T.ready rule.now ≡ true }
    ensures { result ≡ constant_keeps (T.places rule.now) constant.now }
{
    match constant {
        Const::Array(elements) => constants_keep(rule, elements.as_slice()),
        Const::Struct(fields) => constants_keep(rule, fields.as_slice()),
        Const::Address(place) => rule.keeps_place(place),
        Const::AddressAsInt(place) => rule.keeps_place(place),
        _ => true,
    }
}

#[cycle(constants)]
fn constants_keep<T: NameRule>(rule: &T, constants: &[Const]) -> bool
    requires { T.ready rule.now ≡ true }
    ensures { result ≡ list_all (λ (keeps : Bool). keeps) (map (constant_keeps (T.places rule.now)) constants.now) }
{
    for constant in constants {
        if !constant_keeps(rule, constant) {
            return false;
        }
    }
    true
}

/// Whether an operand keeps a rule.
pub(crate) fn operand_keeps<T: NameRule>(rule: &T, operand: &Operand) -> bool
    requires { T.ready rule.now ≡ true }
    ensures { result ≡ operand_keeps (T.registers rule.now) (T.places rule.now) operand.now }
{
    match operand {
        Operand::Reg(register) => rule.keeps_register(*register),
        Operand::Const(constant) => constant_keeps(rule, constant),
    }
}

/// Whether all operands of an instruction keep a rule.
pub(crate) fn operands_keep<T: NameRule>(rule: &T, op: &Op) -> bool
    requires { T.ready rule.now ≡ true }
    ensures { result ≡ operands_keep (T.registers rule.now) (T.places rule.now) op.now }
{
    each_keeps(rule, Operands::of(op))
}

/// Whether each operand that is left keeps a rule.
pub(crate) fn each_keeps<T: NameRule>(rule: &T, operands: Operands<'_>) -> bool
    requires { T.ready rule.now ≡ true }
    ensures { result ≡ list_all (operand_keeps (T.registers rule.now) (T.places rule.now)) (operands_left operands.entry) }
{
    let mut left = operands;
    while let Some((operand, more)) = left.split_first() {
        if !operand_keeps(rule, operand) {
            return false;
        }
        left = more;
    }
    true
}
