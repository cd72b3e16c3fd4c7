//! Which EDS files fit a device on a bus: by the device's type and identity, which both of them tell.
#![tactic(auto)]

mod fitting;
mod identity;

pub use fitting::{is_chosen, places};
pub use identity::{Identity, Node, stated};
