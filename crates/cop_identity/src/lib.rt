//! Devices over an adapter that speaks slcan are asked who they are.
#![tactic(auto)]

mod asking;
mod questions;
mod telling;

pub use asking::{Exchange, Outcome, answer_from, ask, ask_all, has_other};
pub use cop_sdo::Address;
pub use questions::{Answer, Demand, Question, limit_of, number_of, request_of};
pub use telling::{reset_and_ask, told_at};
