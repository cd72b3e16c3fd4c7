//! The names that EDS files give objects.

use cop_eds::{Eds, EdsFault, parse};
use std::alloc::{AllocError, Global};
use std::str;

/// The EDS files of a network, read.
#[derive(Drop)]
pub(crate) struct Labels<'a> {
    files: Vec<(&'a str, Eds<'a>)>,
}

/// A text of an EDS file: in UTF-8, or else each byte a character, as ISO 8859-1 has them.
pub(crate) fn text_of(alloc: Global, bytes: &[u8]) -> Result<String, AllocError> {
    if let Ok(text) = str::from_utf8(bytes) {
        return String::from_str(alloc, text);
    }
    let mut text = String::new(alloc);
    for byte in bytes {
        text.push(char::from(*byte))?;
    }
    Ok(text)
}

impl<'a> Labels<'a> {
    /// Reads files by their names.
    pub(crate) fn new(
        alloc: Global,
        files: &'a [(String, Vec<u8>)],
    ) -> Result<Labels<'a>, AllocError> {
        let mut read = Vec::new(alloc);
        for (name, text) in files {
            match parse(alloc, text) {
                Ok(eds) => read.push((name.as_str(), eds))?,
                Err(EdsFault::Memory) => return Err(AllocError),
                Err(EdsFault::Refused(_)) => {}
            }
        }
        Ok(Labels { files: read })
    }

    /// The name that the file of this name gives an object.
    pub(crate) fn label(&self, file: &[u8], index: u16, sub: u8) -> Option<&'a [u8]> {
        for (name, eds) in &self.files {
            if name.as_bytes() == file {
                let section = eds.object(index, sub)?;
                return eds.value(section, b"ParameterName");
            }
        }
        None
    }
}
