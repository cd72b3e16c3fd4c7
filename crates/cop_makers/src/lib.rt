//! EDS files as makers ship them, made such that plan reads them.
#![tactic(auto)]

mod folders;
mod tidying;
mod words;

pub use tidying::carry_tidy;
pub use words::mend_words;
