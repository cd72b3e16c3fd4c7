//! From the table of nodes, the table of PDOs and the EDS files of the devices to the network: its dictionaries, its rates
//! and the streams of its bus.
#![tactic(auto)]

mod asking;
mod devices;
mod eds_files;
mod equipping;
mod faults;
mod fixed;
mod frames;
mod making;
mod networks;
mod pdos;
mod rates;
mod settings;
mod shelf;
mod signals;
mod strays;
mod tables;
mod uses;

pub use cop_rows::{
    Consumer, Consumers, DeviceRow, FrameKind, FrameRow, Name, NodeTable, PdoRow, PdoTable,
};
pub use cop_setup::{AskFault, Setting};
pub use eds_files::EdsFiles;
pub use faults::{DevicePdo, PlanFault, ReceiveFault, Refusal, Rule, SyncFault, Table};
pub use making::{network, network_of_files};
pub use networks::Network;
pub use rates::all_rates;
pub use settings::{every_at, whole_of};
pub use tables::{read_nodes, read_pdos, read_settings};
