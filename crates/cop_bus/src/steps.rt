//! The steps of a trace.

/// What an instance's frame is: its length in bits, and its data bytes, of which the first `len` count.
#[derive(Clone, Copy, PartialEq, Eq, Debug)]
pub struct Content {
    pub body: [u8; 8],
    pub bits: u32,
    pub len: u8,
}

/// A step of a trace. Moments are in ticks. The identifier stands first, where it takes no room of its own: the fields lie in
/// the order in which they are written, behind the tag.
#[derive(Clone, Copy, PartialEq, Eq, Debug)]
pub enum Step {
    /// The transfer that runs ends.
    End {
        id: u16,
        at: u64,
    },
    /// An instance is queued, in answer to its event.
    Queue {
        id: u16,
        at: u64,
        event: u64,
        frame: Content,
    },
    /// The next instance of a stream starts its transfer.
    Start {
        id: u16,
        at: u64,
    },
}
