//! What an inhibit time keeps: one of at least the period keeps the period, and one of at most the period keeps the jitter.
#![tactic(auto)]

mod laws;

pub use laws::{held_plans_keep, held_streams_obey, ready_within_are_queued_within};
