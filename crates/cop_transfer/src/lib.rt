//! One value of an object of a node is read or written over an adapter that speaks slcan, whole or in segments (CiA 301, "Service data object").
#![tactic(auto)]

mod carrying;
mod exchanging;
mod laws;
mod reading_each;
mod transferring;

pub use carrying::End;
pub use cop_sdo::{Address, ClientFault};
pub use cop_survey::Reason;
pub use laws::clients_ask_their_node;
pub use reading_each::{EachRead, NodeValue, read_each};
pub use transferring::{ReadValue, Transferred, read, write};
