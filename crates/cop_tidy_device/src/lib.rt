//! What a maker's EDS text says a device is, and whether a dictionary is that of the device.
#![tactic(auto)]

mod device;
mod laws;
mod look;

pub use device::{Bytes, Device, DeviceObject, Value};
pub use laws::two_nodes_decide;
pub use look::is_dictionary_of;
