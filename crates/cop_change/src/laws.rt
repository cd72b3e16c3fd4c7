//! Laws of changes.

ghost use Rattle.std.specs.Prelude.{◌≡◌, ℕ, true, List, [], All};
ghost use Rattle.cop_change.specs.declared.change.Change.{Change};
ghost use Rattle.cop_change.specs.Applied.{lines_of, applied};
ghost use Rattle.cop_change.specs.Told.{are_told, IsOfLine};

/// A text with no changes applied to it is the text.
#[tactic(auto, using(crate::proofs::ApplyLemmas::applied_nothing))]
pub fn no_change_changes_nothing()
    ensures { (text : List ℕ) → applied text [] ≡ text }
{}

/// Where changes tell what stood there, each is of a line of the text, and tells its text without its end, or nothing where it adds a line.
#[tactic(auto, using(crate::proofs::ToldLemmas::told_changes))]
pub fn told_changes_are_of_their_lines()
    ensures { (text : List ℕ) (changes : List Change) → are_told text changes ≡ true → All (IsOfLine 1 (lines_of text)) changes }
{}
