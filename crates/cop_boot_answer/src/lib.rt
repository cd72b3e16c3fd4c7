//! What is said of a boot, as a value: the state of each node, whether the nodes were started, and what heartbeats said then. Its text is made
//! of it.
#![tactic(auto)]

mod answers;
mod states;

pub use answers::{BootAnswer, NodeLine};
pub use states::{Detail, State};
