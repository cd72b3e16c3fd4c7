//! Devices over an adapter that speaks slcan are asked what they have, whether their machine runs or not, and nothing else is sent.
#![tactic(auto)]

mod asking;
mod reaching;
mod surveying;

pub use asking::{ask_all, wait};
pub use reaching::{Reached, Reason, reach};
pub use surveying::{Surveyed, survey};
