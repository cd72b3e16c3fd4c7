//! Tests of the public items of CSV tables and of the tables of nodes and of PDOs, in a crate of their own so that each
//! library is proved once.

#![tactic(auto)]

#[cfg(test)]
mod rows;
#[cfg(test)]
mod settings;
#[cfg(test)]
mod tables;
