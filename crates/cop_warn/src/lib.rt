//! What is worth a look before one relies on the plan of a network: where its tables and its devices say different things.
#![tactic(auto)]

mod devices;
mod finding;
mod limits;
mod makers;
mod numbers;
mod receivers;
mod rows;
mod warning;

pub use finding::warnings_of;
pub use numbers::{natural_at, word_at};
pub use warning::Warning;
