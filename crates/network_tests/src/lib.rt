//! Tests of networks and of DCF files, in a crate of their own so that each library is proved once.

#![tactic(auto)]

#[cfg(test)]
mod dcf;
#[cfg(test)]
mod disturbed;
#[cfg(test)]
mod networks;
#[cfg(test)]
mod settings;
#[cfg(test)]
mod tables;
