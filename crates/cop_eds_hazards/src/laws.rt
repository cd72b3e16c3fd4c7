//! What the lists of hazards and the first hazard have to do with one another.

ghost use Rattle.std.specs.Prelude.{◌≡◌, ℕ, List, false};
ghost use Rattle.cop_eds_hazards.specs.Hazards.{hazard_of};
ghost use Rattle.cop_eds_hazards.specs.Every.{hazards_of, first_of};

/// The first hazard of a text, where no section is left as it is, is the first of all.
#[tactic(auto, using(crate::proofs::EveryLemmas::first_is))]
pub fn the_first_hazard_is_the_first_of_all()
    ensures { (text : List ℕ) → hazard_of false text ≡ first_of (hazards_of text) }
{}
