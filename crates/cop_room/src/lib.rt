//! How far each number of a plan can go: what asks more of a bus passes less.
#![tactic(auto)]

mod anew;
mod changing;
mod laws;
mod limits;
mod misses;
mod more;
mod numbers;
mod rooms;
mod rows;
mod trials;

pub use anew::room_anew;
pub use laws::{
    changed_streams_are_harder, changes_get_harder, fewer_plans_pass, fewer_streams_pass,
    greatest_response_decides, harder_assignments_pass_less, harder_places_pass_less,
    harder_places_respond_later, harder_plans_pass_less, harder_streams_pass_less,
    harder_sync_responds_later, limit_by_neighbours, planned_numbers_pass,
};
pub use misses::{Miss, Stretch, nearest_miss};
pub use rooms::{Room, room_of};
pub use rows::RowRoom;
