//! The boot manager: it gives each node its settings by SDO, and starts the network when all are ready.
#![tactic(auto)]

mod bus;
mod device;
mod driving;
mod end;
mod input;
mod laws;
mod manager;
mod member;
mod schedule;
mod turn;

pub use cop_setup::{Setting, Width, apart_are_accepted};
pub use device::Device;
pub use driving::drive;
pub use end::End;
pub use input::Input;
pub use laws::{
    asked_values_are_there, networks_take_their_settings, nothing_else_is_sent,
    nothing_else_is_set, plan_is_accepted, planned_payloads, planned_pdos_exist,
    ready_devices_have_what_their_dcf_says, ready_nodes_are_configured, setups_are_taken,
    switched_off_then_on,
};
pub use manager::{Manager, can_manage};
pub use schedule::{Boot, run_schedule};
pub use turn::Turn;
