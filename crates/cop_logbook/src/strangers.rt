//! Identifiers in a log that no stream of the plan has.

use crate::seen::Seen;
use std::alloc::AllocError;

/// An identifier that no stream has, as SocketCAN has it, and what was seen of it.
#[derive(Clone, Copy)]
pub struct Stranger {
    pub id: u32,
    pub seen: Seen,
}

impl Stranger {
    /// Adds its line.
    pub(crate) fn write(&self, text: &mut String) -> Result<(), AllocError> {
        let (id, frames, line) = (self.id, self.seen.frames, self.seen.first_line);
        if id < 2048 {
            write!(
                text,
                "unknown {id:03X}h frames {frames} first in line {line}\n"
            )
        } else {
            write!(
                text,
                "unknown {id:08X}h frames {frames} first in line {line}\n"
            )
        }
    }
}
