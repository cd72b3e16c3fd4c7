//! A plan as a CAN database (DBC): the text that says what each message of its bus carries.
#![tactic(auto)]

mod comments;
mod contents;
mod fixed;
mod identifiers;
mod labels;
mod text;

pub use text::dbc;
