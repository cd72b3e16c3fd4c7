//! The concise form of a node's settings, as a manager of a network is given it (CiA 302-3, object 1F22h).
#![tactic(auto)]

mod forming;
mod laws;

pub use forming::concise;
pub use laws::concise_is_read_again;
