//! What is worth a word in a log, and breaks nothing: commands, boot-ups, emergencies and SDO aborts.

use crate::abort_codes::abort_words;
use crate::emergency_codes::emergency_words;
use cop_frame::identifiers::{EMCY, HEARTBEAT, NMT, SDO_REQUEST, SDO_RESPONSE};
use std::alloc::{AllocError, Global};

/// How many words of a kind are kept.
const MOST: u64 = 20;

/// A frame that is told.
#[derive(Clone, Copy)]
pub enum Notice {
    /// A command of the NMT master to a node, or to all for 0 (CiA 301, 7.2.8.3.1).
    Command {
        command: u8,
        node: u8,
    },
    /// A node has booted up (CiA 301, 7.2.8.3.3).
    BootUp {
        node: u8,
    },
    /// An emergency (CiA 301, 7.2.7).
    Emergency {
        node: u8,
        code: u16,
    },
    /// An SDO transfer was aborted at the server of a node, by it or by its client (CiA 301, 7.2.4.3.17).
    Abort {
        node: u8,
        is_client: bool,
        index: u16,
        sub: u8,
        code: u32,
    },
}

/// How many frames of each kind were noticed.
#[derive(Clone, Copy)]
pub struct Counts {
    pub commands: u64,
    pub boot_ups: u64,
    pub emergencies: u64,
    pub aborts: u64,
}

/// What was noticed: how many of each kind, and the first of each with their lines.
#[derive(Drop)]
pub struct Notices {
    kept: Vec<(u64, Notice)>,
    counts: [u64; 4],
}

fn kind_of(notice: Notice) -> usize {
    match notice {
        Notice::Command { .. } => 0,
        Notice::BootUp { .. } => 1,
        Notice::Emergency { .. } => 2,
        Notice::Abort { .. } => 3,
    }
}

/// What a command of the NMT master says (CiA 301, 7.2.8.3.1).
pub fn command_words(command: u8) -> &'static str {
    match command {
        1 => "start",
        2 => "stop",
        128 => "enter pre-operational",
        129 => "reset node",
        130 => "reset communication",
        _ => "an unknown command",
    }
}

/// What a frame of a node is, by its function code and its data.
fn notice_of(function: u16, node: u8, data: &[u8]) -> Option<Notice> {
    match (function, data) {
        (NMT, [command, named, ..]) if node == 0 => Some(Notice::Command {
            command: *command,
            node: *named,
        }),
        (HEARTBEAT, [0]) if node != 0 => Some(Notice::BootUp { node }),
        (EMCY, [low, high, ..]) if node != 0 => Some(Notice::Emergency {
            node,
            code: u16::from_le_bytes([*low, *high]),
        }),
        (SDO_RESPONSE | SDO_REQUEST, [0x80, low, high, sub, a, b, c, d]) if node != 0 => Some(
            Notice::Abort {
                node,
                is_client: function == SDO_REQUEST,
                index: u16::from_le_bytes([*low, *high]),
                sub: *sub,
                code: u32::from_le_bytes([*a, *b, *c, *d]),
            },
        ),
        _ => None,
    }
}

fn write_notice(text: &mut String, line: u64, notice: Notice) -> Result<(), AllocError> {
    match notice {
        Notice::Command { command, node } => {
            let words = command_words(command);
            if node == 0 {
                write!(text, "line {line}: NMT {words}, all nodes\n")
            } else {
                write!(text, "line {line}: NMT {words}, node {node}\n")
            }
        }
        Notice::BootUp { node } => write!(text, "line {line}: node {node} boots up\n"),
        Notice::Emergency { node, code } => {
            let words = emergency_words(code);
            write!(
                text,
                "line {line}: EMCY of node {node}, code {code:04X}h: {words}\n"
            )
        }
        Notice::Abort {
            node,
            is_client,
            index,
            sub,
            code,
        } => {
            let side = if is_client { "client" } else { "server" };
            let words = abort_words(code);
            write!(
                text,
                "line {line}: SDO abort by the {side} at node {node}, {index:04X}h sub {sub}, {code:08X}h: {words}\n"
            )
        }
    }
}

/// Adds how many there are of a kind of which not all are kept.
fn write_count(text: &mut String, words: &str, count: u64) -> Result<(), AllocError> {
    if count > MOST {
        write!(text, "{words} {count}\n")?;
    }
    Ok(())
}

impl Notices {
    /// Nothing yet.
    pub(crate) fn new(alloc: Global) -> Notices {
        Notices {
            kept: Vec::new(alloc),
            counts: [0; 4],
        }
    }

    /// Looks at a data frame with an 11-bit identifier.
    pub(crate) fn note(&mut self, line: u64, id: u16, data: &[u8]) -> Result<(), AllocError> {
        let Some(notice) = notice_of(id & 0x780, (id % 128) as u8, data) else {
            return Ok(());
        };
        let Some(count) = self.counts.get_mut(kind_of(notice)) else {
            return Ok(());
        };
        *count = count.saturating_add(1);
        if *count <= MOST {
            self.kept.push((line, notice))?;
        }
        Ok(())
    }

    /// Those that are told, each with its line: the first of each kind, in the order of the log.
    pub fn told(&self) -> &[(u64, Notice)] {
        &self.kept
    }

    /// How many there are of each kind.
    pub fn counts(&self) -> Counts {
        let [commands, boot_ups, emergencies, aborts] = self.counts;
        Counts {
            commands,
            boot_ups,
            emergencies,
            aborts,
        }
    }

    /// Adds a line for each, and how many there are of each kind of which not all are kept.
    pub(crate) fn write(&self, text: &mut String) -> Result<(), AllocError> {
        for (line, notice) in &self.kept {
            write_notice(text, *line, *notice)?;
        }
        let counts = self.counts();
        write_count(text, "NMT commands", counts.commands)?;
        write_count(text, "boot-ups", counts.boot_ups)?;
        write_count(text, "EMCYs", counts.emergencies)?;
        write_count(text, "SDO aborts", counts.aborts)
    }
}
