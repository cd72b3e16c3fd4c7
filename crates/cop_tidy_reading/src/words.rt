//! The choices that were made where a text leaves two meanings open.

use cop_eds::Access;
use cop_frame::Rate;
use cop_tidy_lines::{Digits, Unlisted};
use std::alloc::Global;

/// The choices that were made. Where one is not made and would be needed, a question is asked.
#[derive(Debug, Drop)]
pub struct Words {
    pub digits: Option<Digits>,
    /// The access of objects that state none.
    pub access: Option<Access>,
    pub unlisted: Option<Unlisted>,
    /// The rates of a device that states none; empty where none are chosen.
    pub rates: Vec<Rate>,
}

impl Words {
    /// No choice is made.
    pub fn none(alloc: Global) -> Words {
        Words {
            digits: None,
            access: None,
            unlisted: None,
            rates: Vec::new(alloc),
        }
    }
}
