//! What comes from the bus beside what a boot waits for: errors that devices tell, and commands of another manager.

use cop_frame::Frame;
use cop_frame::identifiers::EMCY;
use cop_logbook::Emergency;
use cop_slcan::{Reader, Said};

/// An NMT command (CiA 301, "NMT"): its number, and its node, 0 for all.
#[derive(Clone, Copy, PartialEq, Eq)]
pub struct NmtCommand {
    pub number: u8,
    pub node: u8,
}

/// What was heard, and the commands that were written.
#[derive(Drop)]
pub struct Heard {
    read: Reader,
    wrote: Reader,
    /// The first error that each node told.
    emergencies: [Option<Emergency>; 128],
    /// For which node a command was written last, by its number.
    commanded: [Option<u8>; 256],
    /// The first command that was not written here before.
    pub foreign: Option<NmtCommand>,
}

/// The NMT command that a frame is.
fn command_of(frame: &Frame) -> Option<NmtCommand> {
    if frame.id == 0 && frame.len == 2 {
        Some(NmtCommand {
            number: frame.body[0],
            node: frame.body[1],
        })
    } else {
        None
    }
}

/// The error that a frame tells. Code 0 tells that an error is gone.
fn emergency_of(frame: &Frame) -> Option<Emergency> {
    let node = frame.id.checked_sub(EMCY)?;
    let [low, high, register, ..] = frame.body;
    let code = u16::from(high) << 8 | u16::from(low);
    if node >= 1 && node <= 127 && frame.len == 8 && code != 0 {
        Some(Emergency {
            node: node as u8,
            code,
            register,
        })
    } else {
        None
    }
}

impl Heard {
    /// Nothing yet.
    pub fn nothing() -> Heard {
        Heard {
            read: Reader::new(),
            wrote: Reader::new(),
            emergencies: [None; 128],
            commanded: [None; 256],
            foreign: None,
        }
    }

    /// The first error that a node told.
    pub fn emergency(&self, node: u8) -> Option<Emergency> {
        self.emergencies.get(usize::from(node)).copied().flatten()
    }

    fn note_frame(&mut self, frame: &Frame) {
        if let Some(emergency) = emergency_of(frame)
            && let Some(first) = self.emergencies.get_mut(usize::from(emergency.node))
            && first.is_none()
        {
            *first = Some(emergency);
        }
        if let Some(command) = command_of(frame)
            && self.foreign.is_none()
            && self.commanded[usize::from(command.number)] != Some(command.node)
        {
            self.foreign = Some(command);
        }
    }

    /// Notes what was read. An adapter may give back what was written to it, so a command that was written before is nobody else's.
    pub fn note_read(&mut self, bytes: &[u8]) {
        for byte in bytes {
            if let Some(Said::Heard(frame)) = self.read.take(*byte) {
                self.note_frame(&frame);
            }
        }
    }

    /// Notes what was written.
    pub fn note_written(&mut self, bytes: &[u8]) {
        for byte in bytes {
            if let Some(Said::Heard(frame)) = self.wrote.take(*byte)
                && let Some(command) = command_of(&frame)
            {
                self.commanded[usize::from(command.number)] = Some(command.node);
            }
        }
    }
}
