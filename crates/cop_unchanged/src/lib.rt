//! What the devices of a machine need when another plan takes the place of theirs.
#![tactic(auto)]

mod laws;

pub use laws::same_nodes_need_no_boot;
