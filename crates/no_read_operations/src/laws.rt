ghost use Rattle.std.specs.Prelude.{ℕ, Bool, List};
ghost use Rattle.no_ir.specs.declared.function.Role.{Role};
ghost use Rattle.no_ir.specs.declared.instruction.BinOp.{BinOp};
ghost use Rattle.no_ir.specs.declared.instruction.CastOp.{CastOp};
ghost use Rattle.no_ir.specs.declared.instruction.Op.{Op};
ghost use Rattle.no_read_rules.specs.Rules.{none, Good};
ghost use Rattle.no_read_rules.specs.Scope.{Meaning};
ghost use Rattle.no_read_operations.specs.Ends.{is_comma, finish};
ghost use Rattle.no_read_operations.specs.Simple.{binary, cast_form, compare, freeze, select};
ghost use Rattle.no_read_operations.specs.Memory.{load, store, address, alloca};
ghost use Rattle.no_read_operations.specs.Flow.{ret, br, switch, phi};

/// Forms are read exactly: what was read is meant by the tokens that were taken, and what tokens mean is read from them, unless a
/// comma follows, with which the end of a form goes on.
#[tactic(auto, using(crate::proofs::FormLaws::binary_good, crate::proofs::FormLaws::cast_good, crate::proofs::FormLaws::compare_good, crate::proofs::FormLaws::freeze_good, crate::proofs::FormLaws::select_good, crate::proofs::FormLaws::load_good, crate::proofs::FormLaws::store_good, crate::proofs::FormLaws::ret_good, crate::proofs::FormLaws::br_good, crate::proofs::FormLaws::switch_good, crate::proofs::FormLaws::address_good, crate::proofs::FormLaws::alloca_good, crate::proofs::FormLaws::phi_good, crate::proofs::FormLaws::finish_good))]
pub fn forms_are_exact()
    ensures binaries { (m : Meaning) (op : BinOp) → Good none (binary m op) }
    ensures casts { (m : Meaning) (op : CastOp) → Good none (cast_form m op) }
    ensures compares { (m : Meaning) → Good none (compare m) }
    ensures freezes { (m : Meaning) → Good none (freeze m) }
    ensures selects { (m : Meaning) → Good none (select m) }
    ensures loads { (m : Meaning) → Good none (load m) }
    ensures stores { (m : Meaning) → Good none (store m) }
    ensures returns { (m : Meaning) → Good none (ret m) }
    ensures branches { (m : Meaning) → Good none (br m) }
    ensures switches { (m : Meaning) → Good none (switch m) }
    ensures addresses { (m : Meaning) (role : Role) → Good (is_comma m.text) (address m role) }
    ensures allocas { (m : Meaning) (role : Role) → Good (is_comma m.text) (alloca m role) }
    ensures phis { (m : Meaning) (role : Role) → Good (is_comma m.text) (phi m role) }
    ensures ends { (text : List ℕ) (role : Role) (aligns : Bool) (op : Op) → Good (is_comma text) (finish text role aligns op) }
{}
