//! What is done to the bytes of an EDS file as makers ship it before they are read as lines.
#![tactic(auto)]

mod change;
mod ends;
mod padding;
mod plain;
mod preparing;
mod utf16;

pub use change::TextChange;
pub use preparing::{Readable, prepared};
