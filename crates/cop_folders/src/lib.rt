//! What is done with folders: tables to start from are made of the EDS files of one, for each file or for each node on a bus, and the plans
//! of two are compared.
#![tactic(auto)]

mod comparing;
mod devices;
mod meeting;
mod notes;
mod starting;
mod telling;
mod usable;

pub use comparing::compare_plans;
pub use meeting::{check_free_out, start_at_bus};
pub use starting::start_tables;
