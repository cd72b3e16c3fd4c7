//! What a plan's bus carries: its messages, and the signals in them.
#![tactic(auto)]

mod bus;
mod laws;
mod places;
mod takers;

pub use bus::{Message, messages, receivers, sent_signals};
pub use laws::decoded_is_unpacked;
pub use places::{Kind, Signal, signals};
