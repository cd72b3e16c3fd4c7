//! What a log shows.

/// What no legal run shows in which all streams obey. Entries count from 0.
#[derive(Clone, Copy, PartialEq, Eq, Debug)]
pub enum Finding {
    /// The entry's identifier is none of the plan.
    Unknown { at: u64 },
    /// The entry has another number of bytes than its stream.
    Length { at: u64 },
    /// Two entries of a stream, so many instances apart, come too soon one after the other.
    Soon { from: u64, to: u64, count: u64 },
    /// The transfers after the first entry, up to the second, do not fit between them.
    Crowded { from: u64, to: u64 },
    /// The clock of the log falls from the first entry to the second by more than it may be wrong.
    Fallen { from: u64, to: u64 },
}
