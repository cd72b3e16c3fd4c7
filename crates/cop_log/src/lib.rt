//! Logs of a real bus, and what they show of a plan.
#![tactic(auto)]

mod anchors;
mod answers;
mod bounds;
mod clocks;
mod crowding;
mod faults;
mod findings;
mod laws;
mod measures;
mod naming;
mod reader;
mod reading;
mod reports;
mod rising;
mod scenes;
mod told;
mod watcher;
mod watches;
mod watching;

pub use anchors::{Anchor, Pile, Top};
pub use answers::watch;
pub use bounds::bounds_of;
pub use clocks::Clock;
pub use crowding::least_ticks;
pub use faults::LogFault;
pub use findings::Finding;
pub use laws::{evidence_convicts, kept_time_is_a_log};
pub use reader::{Found, LogReader};
pub use reading::read_log;
pub use reports::watch_log;
pub use scenes::Scene;
pub use told::Told;
pub use watcher::Watcher;
