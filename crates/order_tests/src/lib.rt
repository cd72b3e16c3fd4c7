//! Tests of the words of the command line, in a crate of their own so that each library is proved once.

#![tactic(auto)]

#[cfg(test)]
mod orders;
