//! Nodes are heard to be operational over an adapter that speaks slcan, or not.
#![tactic(auto)]

mod attending;

pub use attending::{Awaited, Heartbeats, Presence, attend};
