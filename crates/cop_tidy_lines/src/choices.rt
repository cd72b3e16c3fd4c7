//! Choices where a text leaves two meanings open.

/// How decimal digits are read that would read otherwise as octal.
#[derive(Clone, Copy, Debug, PartialEq, Eq)]
pub enum Digits {
    /// As CiA 306 says.
    Octal,
    /// As people write them.
    Decimal,
}

/// What becomes of the sections that no list names.
#[derive(Clone, Copy, Debug, PartialEq, Eq)]
pub enum Unlisted {
    /// They are listed.
    Add,
    /// They stay as they are.
    Leave,
}
