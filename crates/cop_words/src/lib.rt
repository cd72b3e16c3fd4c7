//! What canplan says in words: which rule a record breaks and where it stands, why rates are refused, and what is warned of.
#![tactic(auto)]

mod consumers;
mod deadlines;
mod devices;
mod fields;
mod findings;
mod further;
mod hazards;
mod left_outs;
mod mappings;
mod margins;
mod names;
mod networks;
mod owners;
mod paces;
mod parameters;
mod pdos;
mod places;
mod questions;
mod rates;
mod refusals;
mod refused_files;
mod reports;
mod separators;
mod settings;
mod warnings;
mod words;

pub use findings::{EdsLine, Finding, finding_words, findings_of};
pub use further::further_words;
pub use margins::{margin_words, others_words};
pub use networks::{Network, network_words};
pub use places::{Place, line_at, record_at};
pub use questions::{maker_words, question_words};
pub use refusals::{refused_words, uncovered_words};
pub use reports::late_words;
pub use words::{Source, record_words, rule_words};
