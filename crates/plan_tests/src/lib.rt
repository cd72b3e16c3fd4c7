//! Tests of refusals and plans: evidence, files of refusals, orders, margins and both ranges of identifiers. They stand in a crate of their own
//! so that each library is proved once.

#![tactic(auto)]

#[cfg(test)]
mod anew;
#[cfg(test)]
mod causes;
#[cfg(test)]
mod margins;
#[cfg(test)]
mod misses;
#[cfg(test)]
mod plans;
#[cfg(test)]
mod ranges;
#[cfg(test)]
mod refusals;
