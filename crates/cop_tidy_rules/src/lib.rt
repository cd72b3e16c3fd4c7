//! The changes by which a maker's EDS text comes into the form that the strict reading takes.
#![tactic(auto)]

mod compact;
mod keys;
mod lines;
mod lists;
mod names;
mod numbers;
mod outline;
mod pdos;
mod rates;
mod repeats;
mod respelling;
mod row;
mod rules;
mod standard;
mod text;
mod types;
mod unlisted;
mod values;

pub use rules::changes_for;
