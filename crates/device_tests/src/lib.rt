//! Tests of the public items of what a device says on the bus, frames, NMT and SDO, in a crate of their own so that each
//! library is proved once.

#![tactic(auto)]

#[cfg(test)]
mod frames;
#[cfg(test)]
mod nmt;
#[cfg(test)]
mod sdo;
