//! What one line of a maker's EDS text is: numbers, words, names of sections and keys in all their spellings, and values in a type.
#![tactic(auto)]

mod amounts;
mod blanks;
mod bytes;
mod choices;
mod keys;
mod kinds;
mod names;
mod numerals;
mod typed;
mod words;

pub use amounts::{amount_meant, is_no_value};
pub use blanks::{bare, bare_text, loose_start};
pub use choices::{Digits, Unlisted};
pub use keys::{Key, key_meant};
pub use kinds::{LineKind, kind_meant, stated_key, stated_value};
pub use names::{ListName, SectionName, is_read, section_name};
pub use numerals::{Unclear, flag_meant, is_no, is_yes, number_meant};
pub use typed::{Signed, limit_stated, number_of_pattern, typed_limit, typed_value};
pub use words::{access_meant, data_type_meant, object_type_meant};
