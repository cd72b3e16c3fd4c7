//! The tables of a network as texts, which are read again as the rows that they were made of.
#![tactic(auto)]

mod laws;
mod nodes;
mod pdos;
mod records;

pub use laws::{node_texts_are_read, pdo_texts_are_read};
pub use nodes::{Device, Frame, Text, node_text};
pub use pdos::{Consumers, Row, pdo_text};
