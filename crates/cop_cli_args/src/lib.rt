//! The words of the command line, their help, and what they ask for.
#![tactic(auto)]

mod commands;
mod machine_words;
mod mistakes;
mod reading;
mod subcommands;
mod words;

pub use reading::read_request;
