//! The devices of a network, as their EDS files describe them.

use crate::hazards::line_of;
use crate::networks::Network;
use crate::places::line_at;
use crate::words::push_place;
use cop_dict::{Dictionary, build};
use cop_eds::{Eds, EdsFault, parse, value_of};
use cop_net::{DeviceRow, NodeTable};
use std::alloc::{AllocError, Global};

/// The text of the first file of a name.
pub(crate) fn text_named<'a>(files: &'a [(String, Vec<u8>)], name: &[u8]) -> Option<&'a [u8]> {
    match files {
        [] => None,
        [file, rest @ ..] => {
            if file.0.as_bytes() == name {
                Some(file.1.as_slice())
            } else {
                text_named(rest, name)
            }
        }
    }
}

/// The row of a node's device.
pub(crate) fn row_of(nodes: &NodeTable, node: u8) -> Option<&DeviceRow> {
    nodes.devices().iter().find(|row| row.node == node)
}

/// A text whose form and objects are accepted. Nothing where it is refused.
pub(crate) fn accepted<'a>(alloc: Global, text: &'a [u8]) -> Result<Option<Eds<'a>>, AllocError> {
    match parse(alloc, text) {
        Ok(eds) => Ok(Some(eds)),
        Err(EdsFault::Refused(_)) => Ok(None),
        Err(EdsFault::Memory) => Err(AllocError),
    }
}

/// The name of the product that a text is of, by its section DeviceInfo; nothing if it names none, or is refused.
pub(crate) fn product_of<'a>(alloc: Global, text: &'a [u8]) -> Result<&'a [u8], AllocError> {
    let Some(eds) = accepted(alloc, text)? else {
        return Ok(b"");
    };
    let Some(section) = eds.section(b"DeviceInfo") else {
        return Ok(b"");
    };
    match eds.key_line(section, b"ProductName") {
        Some(line) => Ok(value_of(line_of(&eds, line))),
        None => Ok(b""),
    }
}

/// A device: its EDS text, and the dictionary that it gives the node.
#[derive(Drop)]
pub(crate) struct Device<'a> {
    pub eds: Eds<'a>,
    pub dictionary: Dictionary,
}

fn device_by<'a>(alloc: Global, eds: Eds<'a>, node: u8) -> Result<Option<Device<'a>>, AllocError> {
    match build(alloc, &eds, node) {
        Ok(dictionary) => Ok(Some(Device { eds, dictionary })),
        Err(EdsFault::Refused(_)) => Ok(None),
        Err(EdsFault::Memory) => Err(AllocError),
    }
}

/// The device of a node. Nothing where it has no row, or no EDS text that is accepted.
pub(crate) fn device_of<'a>(
    alloc: Global,
    files: Network<'a>,
    nodes: &NodeTable,
    node: u8,
) -> Result<Option<Device<'a>>, AllocError> {
    let Some(row) = row_of(nodes, node) else {
        return Ok(None);
    };
    let Some(text) = text_named(files.eds_files, row.eds.as_bytes()) else {
        return Ok(None);
    };
    match accepted(alloc, text)? {
        Some(eds) => device_by(alloc, eds, node),
        None => Ok(None),
    }
}

/// The line of the value at an index and a sub.
fn value_line(eds: &Eds<'_>, index: u16, sub: u8) -> Option<usize> {
    let section = eds.object(index, sub)?;
    match eds.key_line(section, b"ParameterValue") {
        Some(line) => Some(line),
        None => eds.key_line(section, b"DefaultValue"),
    }
}

/// The line of the data type at an index and a sub.
fn type_line(eds: &Eds<'_>, index: u16, sub: u8) -> Option<usize> {
    eds.key_line(eds.object(index, sub)?, b"DataType")
}

/// Adds a line of a device's EDS text, where there is one.
fn push_line(
    words: &mut Vec<u8>,
    alloc: Global,
    eds: &Eds<'_>,
    line: Option<usize>,
) -> Result<(), AllocError> {
    match line.and_then(|line| line_at(eds.source(), line)) {
        Some(place) => push_place(words, alloc, "its EDS file", &place),
        None => Ok(()),
    }
}

/// Adds the line of a device's EDS text that gives the value at an index and a sub, where there is one.
pub(crate) fn push_value_line(
    words: &mut Vec<u8>,
    alloc: Global,
    eds: &Eds<'_>,
    index: u16,
    sub: u8,
) -> Result<(), AllocError> {
    push_line(words, alloc, eds, value_line(eds, index, sub))
}

/// Adds the line of a device's EDS text that gives the data type at an index and a sub, where there is one.
pub(crate) fn push_type_line(
    words: &mut Vec<u8>,
    alloc: Global,
    eds: &Eds<'_>,
    index: u16,
    sub: u8,
) -> Result<(), AllocError> {
    push_line(words, alloc, eds, type_line(eds, index, sub))
}
