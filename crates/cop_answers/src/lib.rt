//! What is answered on what was read for an order: plans and judgements of bytes, and what is said of them and of faults, in words, on
//! a page and in a document. Nothing here reads or writes a file.
#![tactic(auto)]

mod booting;
mod bus_plans;
mod checking;
mod distances;
mod documents;
mod explaining;
mod identities;
mod log_rules;
mod masters;
mod notes;
mod pages;
mod project_rules;
mod rooms;
mod rules;
mod spots;
mod standing_rules;
mod standings;
mod texts;
mod trace_forms;
mod verifying;
mod warning_rules;
mod warnings;

pub use booting::{ABSENT, ERRONEOUS, GARBLED, RUNNING, UNLISTED, UNOPENED, boot_notes};
pub use bus_plans::{BusPlan, bus_plan_of};
pub use checking::status_after_check;
pub use distances::distances_table;
pub use documents::{fault_text, plan_text};
pub use explaining::{EdsText, refused_eds, words_on_file, words_on_network, words_on_refusal};
pub use identities::identity_notes;
pub use masters::{NamedFile, concise_files, sync_maker};
pub use notes::{Notes, plan_notes};
pub use pages::{Sources, page_text, timeline};
pub use rooms::{anew_of, anew_text, misses_of, misses_text, room_text};
pub use rules::{explained_line, page_of_rules, words_of_rule};
pub use standing_rules::NO_IDENTIFIER;
pub use standings::{standing_reason, standing_text, standing_words, uncounted_pdos};
pub use texts::{Inputs, Tables, Texts, beside};
pub use verifying::verify_notes;
pub use warnings::{findings, status_after};
