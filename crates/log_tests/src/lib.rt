//! Tests of the public items of logs of a real bus, in a crate of their own so that the library is proved once.

#![tactic(auto)]

#[cfg(test)]
mod books;
#[cfg(test)]
mod forms;
#[cfg(test)]
mod lines;
#[cfg(test)]
mod logs;
#[cfg(test)]
mod pieces;
