//! Whether a network passes as it stands: each PDO keeps the identifier that its device has for it by its EDS file.
#![tactic(auto)]

mod answers;
mod faults;
mod identifiers;
mod laws;
mod renaming;
mod standing;

pub use answers::{Answer, answer_at};
pub use faults::StandingFault;
pub use laws::what_stands_can_be_planned;
pub use standing::{Standing, slowest, standing_streams, tested_as_is};
