//! Tests of the words on a fault, on refused rates and of warnings, in a crate of their own so that each library is proved once.

#![tactic(auto)]

#[cfg(test)]
mod further;
#[cfg(test)]
mod records;
#[cfg(test)]
mod refusals;
#[cfg(test)]
mod settings;
#[cfg(test)]
mod warnings;
#[cfg(test)]
mod words;
