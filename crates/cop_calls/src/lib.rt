//! What each subcommand does with files and standard streams. What is answered comes from the engines.
#![tactic(auto)]

mod boots;
mod checking;
mod exporting;
mod judging;
mod plans;
mod reporting;
mod rooms;
mod runs;
mod standings;
mod streams;
mod watching;

pub use boots::boot;
pub use checking::{Wanted, check};
pub use exporting::export;
pub use judging::judge;
pub use plans::plan;
pub use reporting::write_report;
pub use rooms::room;
pub use runs::{Drawn, run};
pub use standings::test_as_is;
pub use streams::test;
pub use watching::watch_bus;
