//! Tests of the simulator: plays of behaviours, sinks, and what ends a run. They stand in a crate of their own so that each library is proved
//! once.

#![tactic(auto)]

#[cfg(test)]
mod simulator;
