//! Tests of the response-time test, and of the bus: legal runs, traces and their judges. They stand in a crate of their own so that each
//! library is proved once.

#![tactic(auto)]

#[cfg(test)]
mod bus;
#[cfg(test)]
mod response_times;
#[cfg(test)]
mod syncs;
#[cfg(test)]
mod watched;
