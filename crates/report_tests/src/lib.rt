//! Tests of the numbers and the page of a report, in a crate of their own so that each library is proved once.

#![tactic(auto)]

#[cfg(test)]
mod reports;
