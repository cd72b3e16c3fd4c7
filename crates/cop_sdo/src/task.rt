//! What a client is in the middle of, and what comes of an answer.

use crate::address::Address;
use cop_frame::Frame;

#[derive(Clone, Copy)]
pub enum Task {
    Idle,
    /// A download with its bytes is out.
    Giving {
        at: Address,
    },
    /// A download in segments is out.
    Beginning {
        at: Address,
    },
    /// A segment is out, with this toggle and all bytes before a place.
    Sending {
        at: Address,
        sent: usize,
        toggle: bool,
    },
    Asking {
        at: Address,
    },
    /// The next segment of an upload has this toggle.
    Receiving {
        at: Address,
        size: Option<usize>,
        toggle: bool,
    },
}

/// What comes of an answer, if the client doesn't abort.
#[derive(Clone, Copy)]
pub enum Reaction {
    Send([u8; 8]),
    Done,
    Aborted(u32),
}

/// What comes of a frame.
#[derive(Clone, Copy, Debug, PartialEq, Eq)]
pub enum Progress {
    Send(Frame),
    Done,
    /// The client aborts, by this frame with this code.
    Ended(Frame, u32),
    Aborted(u32),
    Ignored,
}
