//! Tests of devices, the boot manager and schedules, in a crate of their own so that each library is proved once.

#![tactic(auto)]

#[cfg(test)]
mod boots;
