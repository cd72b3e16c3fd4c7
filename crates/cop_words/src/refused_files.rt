//! The EDS files that are refused besides the first one.

use crate::devices::text_named;
use crate::networks::Network;
use crate::places::line_at;
use crate::words::{push_place, push_rule};
use cop_dict::build;
use cop_eds::{EdsFault, parse};
use cop_net::{DeviceRow, NodeTable, Refusal, read_nodes};
use std::alloc::{AllocError, Global};
use std::str;

/// Reads a text as the EDS file of a node, and keeps nothing of it.
fn read(alloc: Global, text: &[u8], node: u8) -> Result<(), EdsFault> {
    let eds = parse(alloc, text)?;
    build(alloc, &eds, node)?;
    Ok(())
}

/// Whether no device before this one has its file.
fn is_first(nodes: &NodeTable, device: &DeviceRow) -> bool {
    let file = device.eds.as_bytes();
    match nodes
        .devices()
        .iter()
        .find(|other| other.eds.as_bytes() == file)
    {
        Some(first) => first.place == device.place,
        None => false,
    }
}

/// Adds that the EDS file of a device is refused: the device's record, the line, and the rule.
fn push_refused(
    words: &mut Vec<u8>,
    alloc: Global,
    device: &DeviceRow,
    text: &[u8],
    broken: cop_eds::Refusal,
) -> Result<(), AllocError> {
    let record = device.place;
    let begin = format!(in alloc; "also refused 43 {record}\n")?;
    words.extend_from_slice(begin.as_bytes())?;
    let name = str::from_utf8(device.eds.as_bytes()).unwrap_or("?");
    if let Some(place) = line_at(text, broken.line) {
        push_place(words, alloc, name, &place)?;
    }
    push_rule(words, alloc, broken.rule.number())
}

/// Adds what the EDS file of a device breaks, if it is refused.
fn push_device(
    words: &mut Vec<u8>,
    alloc: Global,
    files: Network<'_>,
    device: &DeviceRow,
) -> Result<(), AllocError> {
    let Some(text) = text_named(files.eds_files, device.eds.as_bytes()) else {
        return Ok(());
    };
    match read(alloc, text, device.node) {
        Ok(()) => Ok(()),
        Err(EdsFault::Refused(broken)) => push_refused(words, alloc, device, text, broken),
        Err(EdsFault::Memory) => Err(AllocError),
    }
}

/// Adds what each EDS file breaks that is refused besides that of the first refusal. A file of several devices is told once.
pub(crate) fn push_refused_files(
    words: &mut Vec<u8>,
    alloc: Global,
    files: Network<'_>,
    first: &Refusal,
) -> Result<(), AllocError> {
    let Ok(nodes) = read_nodes(alloc, files.nodes.text) else {
        return Ok(());
    };
    for device in nodes.devices() {
        if device.place != first.place && is_first(&nodes, device) {
            push_device(words, alloc, files, device)?;
        }
    }
    Ok(())
}
