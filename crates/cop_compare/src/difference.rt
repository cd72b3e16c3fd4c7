//! A difference between two dictionaries.

/// How what two dictionaries have at an address differs.
#[derive(Clone, Copy, Debug, PartialEq, Eq)]
pub enum Change {
    /// Both have an entry, with other values.
    Value,
    /// Both have an entry with the same value, and another description: type, access, mapping or limits.
    Description,
    /// The new one has no entry.
    Gone,
    /// The old one has no entry.
    New,
}

/// An address at which two dictionaries are not alike.
#[derive(Clone, Copy, Debug, PartialEq, Eq)]
pub struct Difference {
    pub index: u16,
    pub sub: u8,
    pub change: Change,
}
