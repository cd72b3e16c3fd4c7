//! Runs of the bus in which transfers are disturbed.
#![tactic(auto)]

mod laws;

pub use laws::{
    an_error_is_met, disturbed_is_legal, few_wait_through_errors, kept_through_errors, obeys_still,
    on_time_through_errors, rare_obeys, rare_windows, runs_through_errors, spaced_are_rare,
    started_on_time_through_errors, undisturbed_is_legal,
};
