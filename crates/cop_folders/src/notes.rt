//! What is told of tables to start from: what is left out, and each guess.

use cop_dict::{Dictionary, Direction};
use cop_eds::Refusal;
use cop_fitting::Node;
use cop_pdo::payload;
use cop_start::{Offer, Pace, Row, Sender, Source, Start, Tables, offered};
use std::alloc::{AllocError, Global};
use std::str;

/// Lines that are told.
#[derive(Drop)]
pub(crate) struct Notes {
    alloc: Global,
    text: String,
}

impl Notes {
    pub(crate) fn new(alloc: Global) -> Notes {
        Notes {
            alloc,
            text: String::new(alloc),
        }
    }

    pub(crate) fn alloc(&self) -> Global {
        self.alloc
    }

    pub(crate) fn into_bytes(self) -> Vec<u8> {
        self.text.into_bytes()
    }

    /// That a file is left out, and why.
    pub(crate) fn left(&mut self, name: &str, why: &str) -> Result<(), AllocError> {
        let line = format!(in self.alloc; "{name}: left out, {why}\n")?;
        self.text.push_str(&line)
    }

    /// That a file is left out since plan refuses it, and what tidy does with it.
    pub(crate) fn refused(
        &mut self,
        name: &str,
        refused: Refusal,
        tidy: &str,
    ) -> Result<(), AllocError> {
        let (number, line) = (refused.rule.number(), refused.line);
        let line = format!(in self.alloc;
            "{name}: left out, refused {number} at line {line}; canplan tidy {tidy}\n"
        )?;
        self.text.push_str(&line)
    }

    /// That tidy mended a file that plan refuses.
    pub(crate) fn mended(&mut self, name: &str, refused: Refusal) -> Result<(), AllocError> {
        let (number, line) = (refused.rule.number(), refused.line);
        let line = format!(in self.alloc;
            "{name}: refused {number} at line {line}, written as canplan tidy mends it\n"
        )?;
        self.text.push_str(&line)
    }

    /// That a node is left out since the one file that fits is refused for it.
    pub(crate) fn refused_for(
        &mut self,
        node: u8,
        name: &str,
        refused: Refusal,
    ) -> Result<(), AllocError> {
        let (number, line) = (refused.rule.number(), refused.line);
        let line = format!(in self.alloc;
            "node {node}: left out, {name} is refused {number} at line {line} for it\n"
        )?;
        self.text.push_str(&line)
    }

    /// That a node is left out since no file fits what its device told.
    pub(crate) fn unfitted(&mut self, one: Node) -> Result<(), AllocError> {
        let node = one.node;
        write!(self.text, "node {node}: left out, no file fits")?;
        push_told(&mut self.text, "vendor", one.told.vendor)?;
        push_told(&mut self.text, "product", one.told.product)?;
        self.text.push_str("\n")
    }

    /// That a node is left out since more than one file fits.
    pub(crate) fn several(&mut self, node: u8, names: &str) -> Result<(), AllocError> {
        let line = format!(in self.alloc; "node {node}: left out, several files fit: {names}\n")?;
        self.text.push_str(&line)
    }
}

/// Adds a number that a device told, of eight hexadecimal digits, behind its name.
fn push_told(text: &mut String, name: &str, told: Option<u32>) -> Result<(), AllocError> {
    match told {
        Some(number) => write!(text, " {name} {number:08X}"),
        None => write!(text, " {name} -"),
    }
}

/// From where a period comes.
fn source_of(alloc: Global, sender: &Sender) -> Result<String, AllocError> {
    let (period, every) = (sender.period, sender.every);
    match sender.pace {
        Pace::Sync if every == 1 => String::from_str(alloc, "sent by each SYNC"),
        Pace::Sync => format!(in alloc; "sent after {every} SYNCs"),
        Pace::Inhibit => format!(in alloc; "period {period}, its inhibit time"),
        Pace::Timer => format!(in alloc; "period {period}, its event timer"),
        Pace::Guess => format!(in alloc; "period {period}, a guess"),
    }
}

/// The objects that a TPDO moves, each with its bits.
fn push_objects(text: &mut String, dict: &Dictionary, tpdo: u16) -> Result<(), AllocError> {
    if tpdo == 0 || tpdo > 512 {
        return Ok(());
    }
    if let Ok(mapping) = payload(dict, Direction::Transmit, tpdo) {
        for mapped in mapping.entries() {
            let (index, sub, bits) = (mapped.index, mapped.sub, mapped.bits);
            write!(text, " {index:04X}.{sub:02X}/{bits}")?;
        }
    }
    Ok(())
}

/// Who takes a PDO.
fn push_takers(text: &mut String, row: &Row) -> Result<(), AllocError> {
    if row.consumers.as_slice().is_empty() {
        return text.push_str("; nobody takes its identifier\n");
    }
    text.push_str("; taken by")?;
    for consumer in row.consumers.as_slice() {
        let (node, rpdo) = (consumer.node, consumer.rpdo);
        write!(text, " {node}.{rpdo}")?;
    }
    text.push_str("\n")
}

/// Why a TPDO that is there has no row.
fn why_not(offer: Offer) -> Option<&'static str> {
    match offer {
        Offer::Off => Some("off in the file"),
        Offer::Unmapped => Some("its mapping cannot be used"),
        Offer::Untimed => Some("plans take transmission types 1 to 240, 254 and 255"),
        Offer::Absent | Offer::Sends { .. } => None,
    }
}

/// The file of a device, and its TPDOs that have no rows.
fn tell_device(notes: &mut Notes, source: &Source) -> Result<(), AllocError> {
    let node = source.node();
    let file = str::from_utf8(source.file()).unwrap_or("");
    let line = format!(in notes.alloc; "node {node}: {file}\n")?;
    notes.text.push_str(&line)?;
    for tpdo in 1..513_u16 {
        if let Some(why) = why_not(offered(source.dictionary(), tpdo)) {
            let line = format!(in notes.alloc; "pdo {node}.{tpdo}: left out, {why}\n")?;
            notes.text.push_str(&line)?;
        }
    }
    Ok(())
}

/// The line of a row.
fn tell_row(
    notes: &mut Notes,
    start: &Start,
    sender: &Sender,
    row: &Row,
) -> Result<(), AllocError> {
    let (node, tpdo) = (sender.node, sender.tpdo);
    let source = source_of(notes.alloc, sender)?;
    let mut line = format!(in notes.alloc; "pdo {node}.{tpdo}: {source};")?;
    if let Some(source) = start.sources().iter().find(|source| source.node() == node) {
        push_objects(&mut line, source.dictionary(), tpdo)?;
    }
    push_takers(&mut line, row)?;
    notes.text.push_str(&line)
}

/// How many periods of rows are guesses.
fn guesses(tables: &Tables) -> usize {
    tables
        .senders
        .iter()
        .take(tables.rows.len())
        .filter(|sender| sender.pace == Pace::Guess)
        .count()
}

/// Tells the devices, what has no row and why, each row with the source of its period, and how many are guesses.
pub(crate) fn tell_rows(
    notes: &mut Notes,
    start: &Start,
    tables: &Tables,
) -> Result<(), AllocError> {
    for source in start.sources() {
        tell_device(notes, source)?;
    }
    for (sender, row) in tables.senders.iter().zip(tables.rows.iter()) {
        tell_row(notes, start, sender, row)?;
    }
    let (devices, rows, guesses) = (tables.devices.len(), tables.rows.len(), guesses(tables));
    let left = tables.senders.len().saturating_sub(rows);
    if left != 0 {
        let line = format!(in notes.alloc; "left out {left} PDOs more: a table has 512 at most\n")?;
        notes.text.push_str(&line)?;
    }
    let line = format!(in notes.alloc;
        "devices {devices}, PDOs {rows}, guessed periods {guesses}\n"
    )?;
    notes.text.push_str(&line)
}
