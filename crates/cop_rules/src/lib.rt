//! The rules by their numbers, and what the columns of the tables want.
#![tactic(auto)]

mod columns;
mod explanations;

pub use columns::{header, header_with_deadline, name_of, wanted};
pub use explanations::{Explanation, NONE_LISTED, explained};
