//! Settings of a device: values for its objects, and whether it takes them one after the other.
#![tactic(auto)]

mod asking;
mod laws;
mod setting;
mod trying;

pub use asking::{AskFault, ask};
pub use laws::{
    apart_are_accepted, every_off_is_taken, payloads_stay, taken_are_accepted, taken_are_numbers,
};
pub use setting::{Setting, SettingList, Width};
pub use trying::{Trouble, Untaken, try_all};
