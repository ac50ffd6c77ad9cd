ghost use Rattle.std.specs.Prelude.{ℕ, List, ◌++◌, codes};
ghost use Rattle.no_ir.specs.declared.function.Block.{Block};
ghost use Rattle.no_ir.specs.declared.function.Role.{Role};
ghost use Rattle.no_lex.specs.declared.token.Token.{Token};
ghost use Rattle.no_read_rules.specs.Scope.{Meaning};
ghost use Rattle.no_read_registers.specs.declared.locals.Locals.{Locals};
ghost use Rattle.no_read_instructions.specs.Instructions.{an_instr};
ghost use Rattle.no_read_functions.specs.Blocks.{body};
ghost use Rattle.no_print.specs.Modules.{blocks_pieces};
ghost use Rattle.no_print.specs.Pieces.{lined, sign};
ghost use Rattle.no_round_trip.specs.Spells.{AreBytes, TypesFit, Spells, over, spelled_by};
ghost use Rattle.no_round_trip.specs.States.{Like, Follows, IsFine, named_by};

/// The body of a function that was read from a text of bytes is read again where it is spelled, in any other text, where names
/// mean the same: whatever tokens stand as its pieces and the closing bracket are read to the same blocks.
///
/// The second text names every register, parameter and label in writing, where the first may have left names out. So the
/// states in which the two are read have the same registers and labels, but any counters. What the first text's head named is
/// named by bytes, and keeps its numbers to the end.
pub fn bodies_mean_again()
    ensures { (m : Meaning) (text : List ℕ) (role : Role) (s t z : Locals) (tokens : List Token) (blocks : List Block) → AreBytes m.text → TypesFit m.types → IsFine s → Like s z → (body m.text (an_instr m role)).means s tokens blocks t → Follows s t × (u : Locals) × Like t u × Spells text (body text (an_instr (over m text) role)) z (blocks_pieces (spelled_by m) (named_by t) blocks ++ sign lined (codes "}")) blocks u }
{}
