ghost use Rattle.no_round_trip.specs.ReadBack.{PrintedReadBack};

use crate::definitions::definitions_lift_again;
use crate::lexing::a_module_lexes;
use crate::modules::modules_mean_again;
use no_read_names::names_are_the_modules;

/// If the tokens of a text of bytes read to a module, the text that the module is printed as reads to the same module in the same
/// role, where it is within the role's limit: 16,777,216 bytes of a source, and 268,435,456 of a part.
pub fn printed_modules_read_back()
    ensures { PrintedReadBack }
{
    a_module_lexes();
    definitions_lift_again();
    modules_mean_again();
    names_are_the_modules();
}
