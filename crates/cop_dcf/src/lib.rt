//! What a plan sets in each node, and the DCF text that says so.
#![tactic(auto)]

mod hexadecimal;
mod identifiers;
mod key_line;
mod laws;
mod node_settings;
mod section_keys;
mod writing;

pub use cop_setup::{Setting, Width};
pub use laws::{
    dcf_keeps_other_lines, dcf_says_its_node, node_round_trip, round_trip, settings_fit,
    settings_have_objects,
};
pub use node_settings::settings;
pub use writing::write;
