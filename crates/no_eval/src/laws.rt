ghost use Rattle.std.specs.Prelude.{ℕ, ◌^◌, ◌<◌, IfOk};
ghost use Rattle.no_ir.specs.declared.instruction.BinOp.{BinOp};
ghost use Rattle.no_ir.specs.declared.instruction.CastOp.{CastOp};
ghost use Rattle.no_eval.specs.Binary.{binary_of};
ghost use Rattle.no_eval.specs.Cast.{cast_of, GoesBetween};

/// What the definitions give is a number of the width that it should have. The call does nothing: its contract is a
/// law over all operands.
pub fn results_are_within()
    ensures binary { (op : BinOp) (w a b : ℕ) → a < 2 ^ w → b < 2 ^ w → IfOk (binary_of op w a b) (λ number. number < 2 ^ w) }
    ensures cast { (op : CastOp) (from to a : ℕ) → GoesBetween op from to → a < 2 ^ from → cast_of op from to a < 2 ^ to }
{}
