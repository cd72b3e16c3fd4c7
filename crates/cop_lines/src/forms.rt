//! The forms of logs.

use crate::numbers::Base;

/// Where the columns of a PEAK log stand, by their numbers from 0. The data stand behind the length.
#[derive(Clone, Copy, PartialEq, Eq, Debug)]
pub struct Layout {
    pub stamp: usize,
    /// What a line tells of, where there is a column for it.
    pub kind: Option<usize>,
    /// The channel, where there is a column for it.
    pub bus: Option<usize>,
    pub id: usize,
    pub len: usize,
}

/// The form of a log.
#[derive(Clone, Copy, PartialEq, Eq, Debug)]
pub enum Form {
    /// No line that says it was read.
    Unknown,
    /// That of `candump -L` and `candump -l`.
    Log,
    /// Columns as candump writes them with `-t`.
    Columns,
    /// Vector's .asc.
    Vector { base: Base, are_distances: bool },
    /// PEAK's .trc.
    Peak { layout: Layout },
}
