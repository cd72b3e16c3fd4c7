//! In which form an answer is given.

/// In which form an answer is given.
#[derive(Clone, Copy, PartialEq, Eq)]
pub enum Form {
    /// Its lines.
    Lines,
    /// Its lines, and in words what is to be said of them.
    Told,
    /// A document in JSON.
    Document,
}
