//! The entries from which others are counted.

use cop_lines::Entry;

/// An entry of a log with its number, and the number of entries of its stream from it on.
#[derive(Clone, Copy, PartialEq, Eq, Debug)]
pub struct Anchor {
    pub from: u64,
    pub entry: Entry,
    pub count: u64,
}

/// An entry of a log with its number, and the least ticks of the transfers after it.
#[derive(Clone, Copy, PartialEq, Eq, Debug)]
pub struct Pile {
    pub from: u64,
    pub entry: Entry,
    pub ticks: u128,
}

/// An entry of a log with its number.
#[derive(Clone, Copy, PartialEq, Eq, Debug)]
pub struct Top {
    pub from: u64,
    pub entry: Entry,
}
