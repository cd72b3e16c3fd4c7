//! What a plan guarantees of the runs of its streams, and the simulator of them.
#![tactic(auto)]

mod behaviours;
mod choosing;
mod cues;
mod drawing;
mod due;
mod faults;
mod guarantee;
mod laws;
mod offers;
mod playing;
mod scripts;
mod seats;
mod simulating;
mod sinks;
mod stages;
mod syncs;
mod traces;
mod turns;

pub use behaviours::{Behaviour, Offer};
pub use drawing::{Seeded, seeded_obeys};
pub use faults::SimFault;
pub use guarantee::{plan_guarantee, plans_keep, plans_keep_through_errors, plans_run};
pub use laws::{play_is_one, plays_are_kept};
pub use scripts::Scripted;
pub use simulating::{simulate, simulate_into, simulate_over};
pub use sinks::{Sink, Steps};
pub use traces::{TraceSink, traces_are_written};
