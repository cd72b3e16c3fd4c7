//! Changes of a text's lines.
#![tactic(auto)]

mod applying;
mod change;
mod laws;
mod listing;

pub use applying::applied;
pub use change::{Cause, Change};
pub use laws::{no_change_changes_nothing, told_changes_are_of_their_lines};
pub use listing::are_told;
