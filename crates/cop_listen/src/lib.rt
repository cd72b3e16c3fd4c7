//! A bus is listened to over an adapter that speaks slcan, and no frame is sent.
#![tactic(auto)]

mod listening;

pub use listening::{Listened, Listener, listen};
