//! What was changed in the bytes of a text before they are read as lines.

/// What was changed in the bytes before they were read as lines.
#[derive(Clone, Copy, Debug, PartialEq, Eq)]
pub enum TextChange {
    /// UTF-16 became UTF-8.
    Decoded,
    /// So many bytes of an end mark or padding were cut.
    Cut(usize),
    /// So many CR became LF.
    OldEnds(usize),
    /// So many runs of CR before LF became one CR.
    LongEnds(usize),
}
