//! Tests of what is done over a port: of listening before a boot and by itself, of questions, of the boot of a planned network and of one node alone, of what is read back, of
//! devices that are verified, of scans, of values, and of NMT commands. The port gives what a script has.

#![tactic(auto)]

#[cfg(test)]
mod asking;
#[cfg(test)]
mod boots;
#[cfg(test)]
mod commanding;
#[cfg(test)]
mod hearing;
#[cfg(test)]
mod identities;
#[cfg(test)]
mod listening;
#[cfg(test)]
mod reaches;
#[cfg(test)]
mod readings;
#[cfg(test)]
mod scanning;
#[cfg(test)]
mod scripts;
#[cfg(test)]
mod values;
#[cfg(test)]
mod verifying;
