ghost use Rattle.std.specs.Prelude.{ℕ, ◌≤◌, List, [], ◌∷◌, ◌++◌, length};
ghost use Rattle.no_ir.specs.declared.function.Module.{Module};
ghost use Rattle.no_print.specs.Pieces.{Piece, written};
ghost use Rattle.no_print.specs.Modules.{module_pieces, module_text};
ghost use Rattle.no_round_trip.specs.Fits.{Fits};
ghost use Rattle.no_round_trip.specs.Lexed.{PartsAs, LexesAs};

/// What is written from pieces that fit, and a line feed, parts into tokens that are these pieces one for one.
///
/// Pieces fit where each is blanks and a token, and where no two run together: behind a token stands a blank, a sign of one
/// byte, or the end, or the token is such a sign or a label itself. The mark `c` stands directly before a string.
pub fn pieces_lex_back()
    ensures { (pieces : List Piece) → Fits pieces → PartsAs (written pieces ++ 10 ∷ []) pieces }
{}

/// The pieces that a module is spelled with fit, whatever its names, numbers and types are.
pub fn modules_fit()
    ensures { (m : Module) → Fits (module_pieces m) }
{}

/// The text of a module that isn't longer than a limit parts into tokens that are the module's pieces one for one.
pub fn a_module_lexes()
    ensures { (limit : ℕ) (m : Module) → length (module_text m) ≤ limit → LexesAs limit (module_text m) (module_pieces m) }
{}
