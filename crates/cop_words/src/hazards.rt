//! What is said of what EDS texts leave implicit.

use crate::devices::{accepted, text_named};
use crate::findings::{EdsLine, Finding};
use crate::left_outs::push_left_out;
use crate::names::Devices;
use crate::owners::push_owner;
use crate::parameters::push_parameters;
use crate::words::push_shown;
use cop_eds::Eds;
use cop_eds_hazards::{Hazard, all_hazards, index_at, miscounts};
use cop_net::{DeviceRow, NodeTable};
use std::alloc::{AllocError, Global};
use std::collections::BTreeSet;
use std::{fmt, str};

/// A device's EDS text, with the first row that names it, and how many other rows do.
#[derive(Clone, Copy)]
pub(crate) struct Text<'t, 's, 'n> {
    pub eds: &'t Eds<'s>,
    pub row: &'n DeviceRow,
    pub others: usize,
}

/// The bytes of a line by its number, from 1.
pub(crate) fn line_of<'a>(eds: &Eds<'a>, number: usize) -> &'a [u8] {
    let Some(place) = number.checked_sub(1) else {
        return b"";
    };
    match eds.lines().get(place) {
        Some(line) => eds
            .source()
            .get(line.from as usize..line.to as usize)
            .unwrap_or(b""),
        None => b"",
    }
}

/// What stands between the brackets of a header.
fn name_in(line: &[u8]) -> &[u8] {
    let inside = match line {
        [b'[', rest @ ..] => rest,
        _ => line,
    };
    inside.split(|byte| *byte == b']').next().unwrap_or(inside)
}

/// The object of a section by which a device does something on the bus: TPDO 2 of 1801h.
#[derive(Clone, Copy)]
struct ObjectName(u64);

impl fmt::Display for ObjectName {
    fn fmt<W: fmt::Write>(&self, f: &mut fmt::Formatter<W>) -> fmt::Result {
        let number = (self.0 & 0x1FF).saturating_add(1);
        let kind = match self.0 {
            0x1005 | 0x1006 => return f.write_str("SYNC"),
            0x1014 | 0x1015 => return f.write_str("EMCY"),
            0x1016 => return f.write_str("The watch on heartbeats"),
            0x1017 => return f.write_str("The heartbeat"),
            0x1400..=0x15FF => "RPDO",
            0x1600..=0x17FF => "The mapping of RPDO",
            0x1800..=0x19FF => "TPDO",
            0x1A00..=0x1BFF => "The mapping of TPDO",
            _ => return f.write_str("The SDO server"),
        };
        write!(f, "{kind} {number}")
    }
}

/// What becomes of an object that no list names.
fn unseen(index: u64) -> &'static str {
    if matches!(index, 0x1400..=0x15FF | 0x1800..=0x19FF) {
        "it is not switched off"
    } else {
        "a plan neither sees nor sets it"
    }
}

/// Bytes of a text as they may be shown.
pub(crate) fn shown(alloc: Global, bytes: &[u8]) -> Result<String, AllocError> {
    let mut said = Vec::new(alloc);
    push_shown(&mut said, bytes)?;
    match str::from_utf8(&said) {
        Ok(said) => String::from_str(alloc, said),
        Err(_) => Ok(String::new(alloc)),
    }
}

/// What is said of a section by which a device does something on the bus.
fn object_words(
    alloc: Global,
    text: Text<'_, '_, '_>,
    hazard: Hazard,
) -> Result<String, AllocError> {
    let name = name_in(line_of(text.eds, hazard.line));
    let index = index_at(text.eds, hazard.line).unwrap_or(0);
    let (object, devices) = (ObjectName(index), Devices(text));
    let section = shown(alloc, name)?;
    if hazard.number == 80 {
        let unseen = unseen(index);
        return format!(in alloc;
            "{object} of {devices} stands in [{section}], which no list names: {unseen}. canplan tidy --unlisted add lists it"
        );
    }
    format!(in alloc;
        "{object} of {devices} has no UNSIGNED32 at sub 1 of [{section}]: it is not switched off. Describe the record (ObjectType=9) and its sub 1 as the device has them"
    )
}

/// What is said of a line that states something which is not as it is read.
fn line_words(alloc: Global, text: Text<'_, '_, '_>, hazard: Hazard) -> Result<String, AllocError> {
    let line = shown(alloc, line_of(text.eds, hazard.line))?;
    let devices = Devices(text);
    match hazard.number {
        82 => format!(in alloc;
            "by {line} {devices} may have PDOs that no section describes: they are not switched off. canplan tidy writes them out"
        ),
        83 => format!(in alloc;
            "{line} stands behind the number of entries of its list: nothing reads it. canplan tidy counts it"
        ),
        84 => format!(in alloc;
            "{line} is spelled otherwise than CiA 306 says: nothing reads that section. canplan tidy respells it if the name has one reading; else correct it, or make the section a comment"
        ),
        _ => format!(in alloc;
            "{line} is more than the lists of {devices} name: the number is wrong, or PDOs are not switched off: correct it, or list the PDOs that the device has"
        ),
    }
}

/// A hazard of a text as a finding.
fn finding_of(
    alloc: Global,
    text: Text<'_, '_, '_>,
    hazard: Hazard,
) -> Result<Finding, AllocError> {
    let words = match hazard.number {
        80 | 81 => object_words(alloc, text, hazard)?,
        _ => line_words(alloc, text, hazard)?,
    };
    let file = str::from_utf8(text.row.eds.as_bytes()).unwrap_or("");
    Ok(Finding {
        number: Some(hazard.number),
        node: Some(text.row.node),
        record: Some(text.row.place),
        at: Some(EdsLine {
            file: String::from_str(alloc, file)?,
            line: hazard.line,
        }),
        words,
    })
}

/// Adds hazards of a text. An object that no list names is told at its first section alone.
fn push_hazards(
    findings: &mut Vec<Finding>,
    alloc: Global,
    text: Text<'_, '_, '_>,
    hazards: &[Hazard],
) -> Result<(), AllocError> {
    let mut told = BTreeSet::new(alloc);
    for hazard in hazards {
        if hazard.number == 80 && !told.insert(index_at(text.eds, hazard.line))? {
            continue;
        }
        findings.push(finding_of(alloc, text, *hazard)?)?;
    }
    Ok(())
}

/// Adds what an EDS text leaves implicit.
fn push_text(
    findings: &mut Vec<Finding>,
    alloc: Global,
    text: Text<'_, '_, '_>,
) -> Result<(), AllocError> {
    push_hazards(findings, alloc, text, &all_hazards(alloc, text.eds)?)?;
    push_hazards(findings, alloc, text, &miscounts(alloc, text.eds)?)?;
    push_parameters(findings, alloc, text)?;
    push_owner(findings, alloc, text)?;
    push_left_out(findings, alloc, text)
}

/// How many rows name the same EDS file as one.
fn rows_with(nodes: &NodeTable, row: &DeviceRow) -> usize {
    nodes
        .devices()
        .iter()
        .filter(|other| other.eds.as_bytes() == row.eds.as_bytes())
        .count()
}

/// Adds what the EDS texts of a network leave implicit, each text once, by the first row that names it.
pub(crate) fn push_texts(
    findings: &mut Vec<Finding>,
    alloc: Global,
    eds_files: &[(String, Vec<u8>)],
    nodes: &NodeTable,
) -> Result<(), AllocError> {
    let mut known = BTreeSet::new(alloc);
    for row in nodes.devices() {
        if !known.insert(row.eds.as_bytes())? {
            continue;
        }
        let Some(text) = text_named(eds_files, row.eds.as_bytes()) else {
            continue;
        };
        if let Some(eds) = accepted(alloc, text)? {
            let others = rows_with(nodes, row).saturating_sub(1);
            push_text(
                findings,
                alloc,
                Text {
                    eds: &eds,
                    row,
                    others,
                },
            )?;
        }
    }
    Ok(())
}
