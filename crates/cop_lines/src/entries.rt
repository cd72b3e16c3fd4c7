//! The entries of a log.

/// A frame that was seen on the bus: the number of its line in the log, 0 for a line that is read by itself; the microsecond of its end by the
/// clock of the log; its identifier as SocketCAN has it (bit 31 for 29-bit identifiers, bit 30 for remote frames, bit 29 for error frames);
/// and the number of its data bytes.
#[derive(Clone, Copy, PartialEq, Eq, Debug)]
pub struct Entry {
    pub line: u64,
    pub at: u64,
    pub id: u32,
    pub len: u8,
}

/// The data of a frame: bytes past the length are 0.
#[derive(Clone, Copy, PartialEq, Eq, Debug)]
pub struct Content {
    pub body: [u8; 8],
    pub len: u8,
}

/// An entry and the data bytes of its frame: bytes past its length are 0.
#[derive(Clone, Copy, PartialEq, Eq, Debug)]
pub struct Message {
    pub entry: Entry,
    pub body: [u8; 8],
}
