//! One NMT command is given over an adapter that speaks slcan, whether nodes run or not.
#![tactic(auto)]

mod commanding;

pub use commanding::{Command, Commanded, give};
pub use cop_survey::Reason;
