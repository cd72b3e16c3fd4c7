//! Traces that are judged while they are read.
#![tactic(auto)]

mod breaking;
mod bus;
mod found;
mod lines;
mod pieces;
mod reading;
mod rings;
mod rules;
mod syncs;
mod watching;

pub use found::{Broken, Found, Seen};
pub use pieces::seen_in_pieces;
pub use reading::TraceWatch;
pub use watching::Watch;
