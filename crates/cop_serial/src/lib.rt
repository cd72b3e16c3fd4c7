//! The boot of the devices at the port of a CAN adapter, the questions whether they are as planned and who is there, single values of theirs, and
//! NMT commands to them. The port is a serial line, or standard
//! streams in its place.
#![tactic(auto)]

mod commanding;
mod finding;
mod fitting;
mod heard;
mod machines;
mod naming;
mod scanning;
mod serial;
mod telling;
mod transferring;
mod verifying;
mod watching;

pub use commanding::command_nodes;
pub use finding::find_nodes;
pub use machines::boot_machine;
pub use scanning::scan_bus;
pub use telling::answer;
pub use transferring::carry_transfer;
pub use verifying::verify_machine;
pub use watching::watch_port;
