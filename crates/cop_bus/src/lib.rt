//! Runs of the bus and their traces, and what the response-time test says of them.
#![tactic(auto)]

mod anchors;
mod bus;
mod ends;
mod entries;
mod faults;
mod id_sets;
mod judging;
mod last_line;
mod lateness;
mod laws;
mod lines;
mod pending;
mod piecewise;
mod queues;
mod ranking;
mod reading;
mod rings;
mod rules;
mod runs;
mod steps;
mod syncs;
mod transfers;
mod writing;

pub use anchors::Anchor;
pub use bus::{Bus, Instance, Started};
pub use entries::{Entry, EntryFault, content_in, entry_in};
pub use faults::BusFault;
pub use judging::judge;
pub use lateness::first_late;
pub use laws::{
    busy_period, clean_is_legal, grown_is_lawful, none_late_is_on_time, passing_is_on_time,
    passing_waits_bounded, started_is_on_time,
};
pub use piecewise::TraceWriter;
pub use queues::{First, Queues};
pub use ranking::{Rank, Ranking};
pub use reading::{is_header, read_trace};
pub use rings::{Full, Ring, most_of, rings_of};
pub use runs::{Run, Trace};
pub use steps::{Content, Step};
pub use syncs::{ended_syncs_are_of_the_run, numbers_apart, spread_by_sync, syncs_respond};
pub use transfers::{Transfer, transfers_of};
pub use writing::write_trace;
