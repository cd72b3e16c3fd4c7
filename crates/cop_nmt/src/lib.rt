//! The states of a node, and the frames and timers that tell of them.
#![tactic(auto)]

mod consumer;
mod fixed;
mod producer;
mod states;

pub use consumer::Consumer;
pub use fixed::{boot_up, command, emcy, heartbeat, sync};
pub use producer::Producer;
pub use states::{Command, Effect, NodeState, Service, state_after};
