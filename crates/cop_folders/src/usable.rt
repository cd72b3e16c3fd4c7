//! EDS files that a table of nodes may name.

use crate::devices::described;
use crate::notes::Notes;
use cop_dict::Dictionary;
use cop_eds::{EdsFault, Refusal};
use cop_rows::is_name;
use cop_tidy::{TidyFault, Words, tidy};
use std::alloc::AllocError;

/// A file that plan reads, with what it describes for a node.
#[derive(Drop)]
pub(crate) struct Usable {
    pub text: Vec<u8>,
    pub dictionary: Dictionary,
    /// What plan refused in it, if tidy mended it.
    pub refused: Option<Refusal>,
}

/// What tidy makes of a refused text, if it asks nothing and the file may be written anew. Otherwise it is noted why not.
fn mended(
    notes: &mut Notes,
    name: &str,
    text: &[u8],
    node: u8,
    is_copied: bool,
    refused: Refusal,
) -> Result<Option<Usable>, AllocError> {
    let alloc = notes.alloc();
    let tidied = match tidy(alloc, text, &Words::none(alloc)) {
        Ok(tidied) => tidied,
        Err(TidyFault::Refused(_)) => {
            notes.refused(name, refused, "asks")?;
            return Ok(None);
        }
        Err(TidyFault::Memory) => return Err(AllocError),
    };
    if !is_copied {
        notes.refused(name, refused, "mends it")?;
        return Ok(None);
    }
    match described(alloc, &tidied.text, node) {
        Ok(dictionary) => Ok(Some(Usable {
            text: tidied.text,
            dictionary,
            refused: Some(refused),
        })),
        Err(EdsFault::Refused(_)) => {
            notes.refused(name, refused, "does not mend it")?;
            Ok(None)
        }
        Err(EdsFault::Memory) => Err(AllocError),
    }
}

/// A file with what it describes for a node, if plan reads it, or as tidy mends it. Otherwise it is noted why not.
pub(crate) fn made_usable(
    notes: &mut Notes,
    name: &str,
    text: Vec<u8>,
    node: u8,
    is_copied: bool,
) -> Result<Option<Usable>, AllocError> {
    if !is_name(name.as_bytes()) {
        notes.left(
            name,
            "a table takes no file of this name: 1 to 40 letters, digits, blanks, _, - and .",
        )?;
        return Ok(None);
    }
    match described(notes.alloc(), &text, node) {
        Ok(dictionary) => Ok(Some(Usable {
            text,
            dictionary,
            refused: None,
        })),
        Err(EdsFault::Refused(refusal)) => mended(notes, name, &text, node, is_copied, refusal),
        Err(EdsFault::Memory) => Err(AllocError),
    }
}
