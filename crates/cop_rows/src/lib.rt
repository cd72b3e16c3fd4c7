//! The tables of a network: its nodes, its PDOs, and the settings that are asked of its devices.
#![tactic(auto)]

mod fields;
mod names;
mod node_rows;
mod node_table;
mod nodes;
mod pdo_rows;
mod pdo_table;
mod pdos;
mod refusals;
mod setting_rows;
mod settings;

pub use names::{Name, is_name};
pub use node_table::{DeviceRow, FrameKind, FrameRow, NodeTable};
pub use nodes::read_nodes;
pub use pdo_table::{Consumer, Consumers, PdoRow, PdoTable};
pub use pdos::read_pdos;
pub use refusals::{Column, Refusal, RowFault, Rule};
pub use setting_rows::{SettingRow, SettingRows};
pub use settings::read_settings;
