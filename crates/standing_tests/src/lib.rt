//! Tests of networks as they stand, in a crate of their own so that each library is proved once.

#![tactic(auto)]

#[cfg(test)]
mod standings;
