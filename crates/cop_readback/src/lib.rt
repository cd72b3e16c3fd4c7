//! The settings of nodes are read back after their boot over a port, and only then are the nodes started.
#![tactic(auto)]

mod reading;
mod session;

pub use reading::is_wanted;
pub use session::{Reach, ReadBack, boot_and_read_back};
