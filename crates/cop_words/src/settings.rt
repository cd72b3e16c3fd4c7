//! What is said of a setting that a device does not take.

use crate::devices::device_of;
use crate::networks::Network;
use crate::words::push_shown;
use cop_logbook::abort_words;
use cop_net::{AskFault, NodeTable};
use cop_table::{Record, Records};
use std::alloc::{AllocError, Global};
use std::str;

/// An object of which a value is asked, and why the device does not have it.
#[derive(Clone, Copy)]
pub(crate) struct Asked {
    pub index: u16,
    pub sub: u8,
    pub fault: AskFault,
}

/// The number that decimal digits are.
fn number(text: &[u8]) -> Option<u8> {
    str::from_utf8(text).ok()?.parse().ok()
}

/// The node of a record of the table of settings.
pub(crate) fn node_of_setting(alloc: Global, settings: &[u8], record: u64) -> Option<u8> {
    let mut rows = Records::new(alloc, settings);
    let mut row = Record::new(alloc);
    // The header stands at place 0.
    for _ in 0..record {
        rows.read(&mut row).ok()?;
    }
    if rows.read(&mut row).ok()? {
        number(row.field(1))
    } else {
        None
    }
}

/// Why a device does not have the value that is asked of it.
fn cause(fault: AskFault) -> &'static str {
    match fault {
        AskFault::NoObject => "the device has no such object",
        AskFault::NoNumbers => "its values are no numbers of 1, 2 or 4 bytes",
        AskFault::NoSuchNumber => "its type has not this number",
        AskFault::Aborted(abort) => abort_words(abort.code()),
    }
}

/// Adds which object it is, by its name, and why it does not have the value that is asked of it.
pub(crate) fn push_asked(
    words: &mut Vec<u8>,
    alloc: Global,
    files: Network<'_>,
    nodes: &NodeTable,
    node: u8,
    asked: Asked,
) -> Result<(), AllocError> {
    let (index, sub, cause) = (asked.index, asked.sub, cause(asked.fault));
    let begin = format!(in alloc; "object {index:04X}h sub {sub}")?;
    words.extend_from_slice(begin.as_bytes())?;
    if let Some(device) = device_of(alloc, files, nodes, node)?
        && let Some(section) = device.eds.object(index, sub)
        && let Some(name) = device.eds.value(section, b"ParameterName")
    {
        words.extend_from_slice(b" is ")?;
        push_shown(words, name)?;
    }
    words.extend_from_slice(b": ")?;
    words.extend_from_slice(cause.as_bytes())?;
    words.push(b'\n')?;
    Ok(())
}
