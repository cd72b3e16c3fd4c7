//! Tests of the public items of EDS texts, dictionaries and PDOs' mappings, in a crate of their own so that each library is
//! proved once.

#![tactic(auto)]

#[cfg(test)]
mod asking;
#[cfg(test)]
mod dictionaries;
#[cfg(test)]
mod differences;
#[cfg(test)]
mod eds;
#[cfg(test)]
mod pdos;
#[cfg(test)]
mod settings;
#[cfg(test)]
mod values;
