//! What is said of a boot of the devices at a port.

use cop_boot_answer::{BootAnswer, NodeLine, State};
use cop_frame::Rate;
use cop_logbook::abort_words;
use std::alloc::{AllocError, Global};

/// The number of the rule that nobody runs on the machine.
pub const RUNNING: u8 = 100;

/// The number of the rule that the node that is booted alone, or that is the manager, has a device.
pub const ABSENT: u8 = 101;

/// The number of the rule that the adapter hears no errors where it hears no frame.
pub const ERRONEOUS: u8 = 102;

/// The number of the rule that lines which come while it is listened are frames, one at least.
pub const GARBLED: u8 = 103;

/// The number of the rule that the adapter takes the rate and is opened.
pub const UNOPENED: u8 = 104;

/// The number of the rule that the PDO whose numbers are asked for alone has a row.
pub const UNLISTED: u8 = 105;

/// What the rule of a number says, and what is right. Nothing for a number that is no rule of a machine, or of a choice among its rows.
pub fn machine_rule_words(number: u8) -> &'static str {
    match number {
        RUNNING => {
            "it runs: its heartbeat says operational, or SYNC or a PDO comes; no frame was sent\nstop the machine, or give --take-over where it may be reset\n"
        }
        ABSENT => {
            "it has no device row in the table of nodes; nothing was done\ngive --only or --manager the number of a node that has one\n"
        }
        ERRONEOUS => {
            "no frame was heard in 2 s, and the adapter's flags tell of errors on the bus; no frame was sent\nlook at the bit rate that is set in the devices, which may be another, and at wires and termination\n"
        }
        GARBLED => {
            "lines came from the adapter, and none of them is a frame of 11 bits; no frame was sent\nlook at the speed of the serial line, at the port, and at what is on the bus (frames of 29 bits are none)\n"
        }
        UNOPENED => {
            "the adapter refuses the bit rate (S) or to be opened (O); no frame was sent\ngive --rates with rates that it has, or take another adapter\n"
        }
        UNLISTED => {
            "the TPDO of --anew has no row in the table of PDOs\ngive --anew the node and the TPDO of a row, as 42.1\n"
        }
        _ => "",
    }
}

/// Whether a number is that of a rule of a machine, or of a choice among its rows.
pub fn is_machine_rule(number: u8) -> bool {
    !machine_rule_words(number).is_empty()
}

/// What is said of a refusal by a rule of a machine, where it has such a place.
pub fn machine_words(alloc: Global, number: u8, place: u64) -> Result<Vec<u8>, AllocError> {
    let rule = machine_rule_words(number);
    let words = match number {
        RUNNING if place == 0 => format!(in alloc; "some node: {rule}")?,
        RUNNING | ABSENT | UNLISTED => format!(in alloc; "node {place}: {rule}")?,
        GARBLED => format!(in alloc; "{place} lines: {rule}")?,
        _ => String::from_str(alloc, rule)?,
    };
    Ok(words.into_bytes())
}

/// What is said behind the words of a code by which a boot gives a setting up itself.
fn own_words(code: u32) -> &'static str {
    match code {
        0x0504_0001 => {
            "; canplan gives the setting up with this code where another answer comes than its confirmation: a late one, or that of another device with this number or to another client"
        }
        _ => "",
    }
}

/// What is said of a node, if its line alone does not say enough: what a value that differs may come from, what was not heard, and the code of
/// an abort in words.
fn line_words(alloc: Global, line: NodeLine) -> Result<String, AllocError> {
    let text = line.text(alloc)?;
    let said = text.trim_end();
    match line.state {
        State::Differs { .. } => format!(in alloc;
            "{said}: the plan has another value there, which it confirmed if it was set, and this is what it has. If it was not set, the device has the value of another machine: restore its defaults (1011h)\n"
        ),
        State::Late => format!(in alloc;
            "{said}: no heartbeat said that it is operational for one and a half of its time\n"
        ),
        State::Unheard => format!(in alloc;
            "{said}: no heartbeat said that it is operational, and one and a half of its time had not passed yet: give --watch more seconds\n"
        ),
        State::Aborted { code, .. } => {
            let (words, own) = (abort_words(code), own_words(code));
            format!(in alloc; "{said}: {words}{own}\n")
        }
        _ => Ok(String::new(alloc)),
    }
}

/// What is said of nodes.
fn push_words(notes: &mut Vec<u8>, alloc: Global, lines: &[NodeLine]) -> Result<(), AllocError> {
    for line in lines {
        notes.extend_from_slice(line_words(alloc, *line)?.as_bytes())?;
    }
    Ok(())
}

/// What is said where no node answered.
pub(crate) fn silence_words(alloc: Global, rate: Rate) -> Result<String, AllocError> {
    let kbits = rate.kbits();
    format!(in alloc;
        "no node answered at {kbits} kbit/s, the plan's rate: look at the rate that is set in the devices, at supply, wires and termination, and at the adapter's flags (its command F)\n"
    )
}

/// What is said below the lines of a boot: the codes of aborts in words, what differs, and what to look at where no node was heard.
pub fn boot_notes(alloc: Global, answer: &BootAnswer, rate: Rate) -> Result<Vec<u8>, AllocError> {
    let mut notes = Vec::new(alloc);
    push_words(&mut notes, alloc, &answer.nodes)?;
    push_words(&mut notes, alloc, &answer.heartbeats)?;
    if answer.nodes.iter().all(|line| line.state == State::Silent) {
        notes.extend_from_slice(silence_words(alloc, rate)?.as_bytes())?;
    }
    Ok(notes)
}
