ghost use Rattle.std.specs.Prelude.{◌≡◌, ℕ, List};
ghost use Rattle.no_read_attributes.specs.declared.marks.Mark.{Mark};
ghost use Rattle.no_read_toplevel.specs.declared.tops.Top.{Top};
ghost use Rattle.no_read_toplevel.specs.Grouping.{nothing_set, set_by_all, found_in, all_grouped, no_groups};
ghost use Rattle.no_read_toplevel.specs.Modules.{with_marks};
ghost use Rattle.no_read_toplevel.specs.WrittenOut.{written_out};

/// What a function's attributes set is what they set with each group written out: a group stands for the attributes of all its
/// definitions in the order of the text, wherever they stand, and one that isn't defined for none.
#[tactic(auto, using(crate::proofs::WrittenLaws::written_out_is))]
pub fn groups_are_written_out()
    ensures { (text : List ℕ) (all : List Top) (marks : List Mark) → with_marks text (found_in (all_grouped text no_groups all)) nothing_set marks ≡ set_by_all nothing_set (written_out text all marks) }
{}
