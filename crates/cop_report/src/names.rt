//! The names that EDS files give objects.

use cop_eds::{Eds, EdsFault, parse};
use cop_net::{DeviceRow, Network};
use std::alloc::{AllocError, Global};
use std::str;

/// The EDS files of a network by their names, read.
#[derive(Drop)]
pub(crate) struct Names<'a> {
    files: Vec<(&'a str, Eds<'a>)>,
}

/// A text of an EDS file: in UTF-8, or else each byte a character, as ISO 8859-1 has them.
fn text_of(alloc: Global, bytes: &[u8]) -> Result<String, AllocError> {
    if let Ok(text) = str::from_utf8(bytes) {
        return String::from_str(alloc, text);
    }
    let mut text = String::new(alloc);
    for byte in bytes {
        text.push(char::from(*byte))?;
    }
    Ok(text)
}

/// The row of a device.
fn row_of<'a>(network: &'a Network<'_>, node: u8) -> Option<&'a DeviceRow> {
    network.devices().iter().find(|row| row.node == node)
}

impl<'a> Names<'a> {
    /// Reads files by their names. A file that is refused gives no names.
    pub(crate) fn new(
        alloc: Global,
        files: &'a [(String, Vec<u8>)],
    ) -> Result<Names<'a>, AllocError> {
        let mut read = Vec::new(alloc);
        for (name, text) in files {
            match parse(alloc, text) {
                Ok(eds) => read.push((name.as_str(), eds))?,
                Err(EdsFault::Memory) => return Err(AllocError),
                Err(EdsFault::Refused(_)) => {}
            }
        }
        Ok(Names { files: read })
    }

    /// The name that the file of this name gives an object.
    fn label(&self, file: &[u8], index: u16, sub: u8) -> Option<&'a [u8]> {
        for (name, eds) in &self.files {
            if name.as_bytes() == file {
                let section = eds.object(index, sub)?;
                return eds.value(section, b"ParameterName");
            }
        }
        None
    }

    /// The name of an object of a node: by its EDS file, or else by its index and sub.
    pub(crate) fn name_of(
        &self,
        alloc: Global,
        network: &Network<'_>,
        node: u8,
        index: u16,
        sub: u8,
    ) -> Result<String, AllocError> {
        if let Some(row) = row_of(network, node) {
            if let Some(label) = self.label(row.eds.as_bytes(), index, sub) {
                return text_of(alloc, label);
            }
        }
        format!(in alloc; "{index:04X}h sub {sub}")
    }
}
