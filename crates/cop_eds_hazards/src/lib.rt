//! What an EDS text that is read leaves implicit, so that a device does more than its dictionary says.
#![tactic(auto)]

mod brackets;
mod compact;
mod counted;
mod every;
mod hazards;
mod laws;
mod left_out;
mod listed;
mod records;
mod spelling;
mod stated;
mod tests;
mod text;

pub use counted::miscounts;
pub use every::all_hazards;
pub use hazards::{Hazard, first_hazard};
pub use laws::the_first_hazard_is_the_first_of_all;
pub use left_out::LEFT_OUT;
pub use listed::listed_indexes;
pub use records::index_at;
