//! The numbers of a plan's report: loads, times, refused rates and the bus over time.
#![tactic(auto)]

mod delays;
mod errors;
mod figures;
mod frames;
mod loads;
mod refused;
mod timelines;
mod times;
mod unsorted;

pub use delays::{Breakdown, Delay, breakdowns_of};
pub use errors::{Tight, error_cost, tightest};
pub use figures::{Figures, figures_of};
pub use frames::{FrameTimes, SyncTimes};
pub use loads::Load;
pub use refused::{Failing, FailingFrame, Reason, RefusedRate};
pub use timelines::{Lane, MOST_SHOWN, Timeline, timeline_of};
pub use times::PdoTimes;
pub use unsorted::{Unsorted, unsorted_of};
