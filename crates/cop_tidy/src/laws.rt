//! Laws of what stands against a text, and of lines that are in no change.

ghost use Rattle.std.specs.Prelude.{◌≡◌, ℕ, ◌+◌, ◌∷◌, ◌++◌, List, None};
ghost use Rattle.cop_change.specs.declared.change.Change.{Change};
ghost use Rattle.cop_change.specs.Applied.{here, lines_with};
ghost use Rattle.cop_eds_hazards.specs.Hazards.{hazard_of};
ghost use Rattle.cop_tidy_reading.specs.declared.words.Words.{Words};
ghost use Rattle.cop_tidy.specs.Accepted.{IsAccepted};
ghost use Rattle.cop_tidy.specs.Identified.{AreIdentified};
ghost use Rattle.cop_tidy.specs.Meant.{IsMeant};
ghost use Rattle.cop_tidy.specs.Standing.{is_leaving, Stands};

/// Nothing stands against a text that is accepted, has no hazard, in whose dictionaries each PDO's record has an identifier, and that means what it is
/// read as.
#[tactic(auto, using(crate::proofs::StandingLemmas::none_against))]
pub fn nothing_stands_against_a_safe_text()
    ensures { (words : Words) (text : List ℕ) → IsAccepted text → hazard_of (is_leaving words) text ≡ None → AreIdentified 1 text → AreIdentified 127 text
        → IsMeant words text text → Stands words text None }
{}

/// Where the first change is of another line than this one, this line stands as it was, and then the others come.
#[tactic(auto, using(crate::proofs::LineLemmas::untold_stands))]
pub fn a_line_in_no_change_stands()
    ensures { (newline : List ℕ) (place : ℕ) (raw : List ℕ) (raws : List (List ℕ)) (changes : List Change) → here place changes ≡ 0
        → lines_with newline place (raw ∷ raws) changes ≡ raw ++ lines_with newline (place + 1) raws changes }
{}
