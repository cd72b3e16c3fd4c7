//! Tests of project files, in a crate of their own so that the library is proved once.

#![tactic(auto)]

#[cfg(test)]
mod files;
#[cfg(test)]
mod words;
