//! EDS files as makers ship them, rewritten into texts that the strict reading takes for the device that the maker described.
#![tactic(auto)]

mod fault;
mod identifying;
mod judging;
mod keeping;
mod laws;
mod meaning;
mod sparing;
mod taking;
mod telling;
mod tidying;

pub use cop_bytes::TextChange;
pub use cop_change::{Cause, Change};
pub use cop_eds::Access;
pub use cop_tidy_reading::{About, Digits, Unlisted, Words};
pub use fault::{Question, Refusal, TidyFault};
pub use judging::Left;
pub use laws::{a_line_in_no_change_stands, nothing_stands_against_a_safe_text};
pub use telling::told;
pub use tidying::{Tidied, tidy};
