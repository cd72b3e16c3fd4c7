//! The clock of a log.

/// What is taken of a log's clock: distances between two stamps are wrong by at most so many microseconds, and by so many parts in
/// a million.
#[derive(Clone, Copy, PartialEq, Eq, Debug)]
pub struct Clock {
    pub error: u32,
    pub drift: u32,
}
