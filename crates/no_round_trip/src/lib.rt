//! The round trip: the text that a module is printed as reads to the module again.
//!
//! No function here does anything: each carries laws as its clauses. The argument has eight steps, each in a file of its own;
//! the lemmas of a step are in the files of `proofs` that begin with the words behind it.
//!
//! 1. `lexing` (`Lex`): a module is spelled as a list of pieces, each of which is blanks and one token. The pieces of every module
//!    fit: no token runs into the next. So its text splits into tokens that are these pieces one for one. From here on nothing
//!    is said of bytes: tokens *stand as* pieces.
//! 2. `spelling` (`Word`): a name, a string and a number are read from their spellings as what they were; for names and strings
//!    the lemmas are those of `no_names`.
//! 3. `types` (`Rule`, `Type`): a rule of the grammar *spells* a value as pieces where whatever tokens stand as these pieces are read
//!    by it to this value. There is one lemma for each way to make a rule, and then one for each rule: here for types.
//! 4. `constants` (`Const`): the same for constants and the places that they name.
//! 5. `bodies` (`Body`): the same for instructions and blocks. The first text may leave registers and labels without a name, the
//!    printed one names all of them; so both are read in states that have the same names and any counters.
//! 6. `modules` (`Top`): the same for globals, heads, groups of attributes and all forms of a text, where the names of types,
//!    globals and functions mean the same in both texts.
//! 7. `definitions` (`Lift`): and they do mean the same: the definitions of named types are lifted out of the printed text with
//!    the same names, types and numbers, and what is left stands as the rest of the module.
//! 8. `printed` (`Back`): the steps put together. The names of globals and functions are those of the module in both texts
//!    (`names_are_the_modules` of the reader), so a printed module reads back.
#![tactic(auto)]

mod bodies;
mod constants;
mod definitions;
mod lexing;
mod modules;
mod printed;
mod spelling;
mod types;

pub use bodies::bodies_mean_again;
pub use constants::{constants_mean_again, places_mean_again};
pub use definitions::definitions_lift_again;
pub use lexing::{a_module_lexes, modules_fit, pieces_lex_back};
pub use modules::modules_mean_again;
pub use printed::printed_modules_read_back;
pub use spelling::{names_mean_again, numbers_mean_again};
pub use types::types_mean_again;
