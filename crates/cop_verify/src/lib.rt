//! The devices of a planned network are asked over a port whether they are as planned: who they are, what the plan relies on in them and what it
//! sets. Nothing is written to them, and their machine may run.
#![tactic(auto)]

mod checks;
mod laws;
mod telling;
mod verifying;

pub use cop_survey::Reason;
pub use laws::{planned_ones_answered, reads_alone};
pub use telling::{are_planned, verify_answer};
pub use verifying::{Verified, Way, verify, verify_planned};
