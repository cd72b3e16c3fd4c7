//! The boot of a planned network over a port: from the bytes of tables and files to what became of each device.
#![tactic(auto)]

mod commissioning;
mod heartbeats;
mod identities;
mod readings;
mod relied;
mod restoring;
mod senders;
mod sessions;
mod told;
mod unended;

pub use commissioning::{
    Approach, Commissioned, Watch, commission, commission_planned, meant_nodes,
};
pub use cop_live::{Command, Runner};
pub use cop_readback::Reach;
pub use identities::add_identity;
pub use readings::is_set_again;
pub use relied::add_relied;
pub use told::{question_about, switches_off};
