//! Tables to start from: what the EDS files of its devices say of a network, as rows of a table of nodes and of a table of PDOs.
#![tactic(auto)]

mod frames;
mod laws;
mod offers;
mod receivers;
mod rows;
mod senders;
mod start;
mod tables;

pub use cop_written::{Device, Frame, Row};
pub use laws::{each_sender_has_a_row, nodes_count_up, tables_are_read};
pub use offers::{Offer, Pace, offered};
pub use senders::Sender;
pub use start::{Source, Start};
pub use tables::{Tables, first_tables};
