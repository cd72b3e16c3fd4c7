//! Tests of the engines, from the bytes of tables and files to the bytes of an answer, in a crate of their own so that
//! each library is proved once.

#![tactic(auto)]

#[cfg(test)]
mod engine;
