//! The planner: the slowest rate, and the identifiers.
#![tactic(auto)]

mod assigning;
mod caps;
mod choices;
mod filling;
mod laws;
mod margins;
mod planning;
mod plans;

pub use assigning::{Outcome, assign, can_assign};
pub use choices::{Asked, Choice, Kept};
pub use filling::Count;
pub use laws::{
    fillings_give_the_order, fillings_leave_the_greatest, no_assignment_is_on_time,
    no_assignment_leaves_more_than_a_cap, one_keeps_no_more_than_the_margin, one_outcome,
    order_is_unique, planned_streams_are_distinct, refusals_are_writable,
    some_assignment_passes_exactly,
};
pub use margins::assign_with_margin;
pub use planning::plan;
pub use plans::Plan;
