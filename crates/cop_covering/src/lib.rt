//! Whether a refusal file is whole: it has a refusal of each rate that a plan refuses.
#![tactic(auto)]

mod coverings;

pub use coverings::covers_slower;
