//! What is said of an EDS file that is made one that plan reads, and which names such files may have.

use cop_net::{PlanFault, read_nodes};
use cop_tidy::{Question, Refusal, Tidied, TidyFault, Words, tidy};
use std::alloc::{AllocError, Global};

/// Of a text that is rewritten in vain: what still stands against it.
pub(crate) fn left_words(alloc: Global, refusal: Refusal) -> Result<Option<String>, AllocError> {
    match refusal.question {
        Question::Left(0) => Ok(Some(String::from_str(
            alloc,
            "the device would be another one\n",
        )?)),
        Question::Left(number) => Ok(Some(format!(in alloc; "what is left is {number}\n")?)),
        _ => Ok(None),
    }
}

/// Of an EDS file that plan refuses: whether it can be mended, and how.
pub fn mend_words(alloc: Global, name: &str, text: &[u8]) -> Result<String, AllocError> {
    match tidy(alloc, text, &Words::none(alloc)) {
        Ok(_) => format!(in alloc; "canplan tidy {name} OUT.eds makes of it one that is read\n"),
        Err(TidyFault::Refused(refusal)) => {
            let (number, line) = (refusal.question.number(), refusal.line);
            format!(in alloc; "canplan tidy {name} OUT.eds is refused, too: {number} {line}\n")
        }
        Err(TidyFault::Memory) => Err(AllocError),
    }
}

/// Whether the table of nodes takes a name for an EDS file.
pub(crate) fn is_taken(alloc: Global, name: &str) -> Result<bool, AllocError> {
    let table = format!(in alloc; "row,node,name,eds,period,jitter\ndevice,1,Device,{name},0,0\n")?;
    match read_nodes(alloc, table.as_bytes()) {
        Ok(table) => Ok(match table.devices() {
            [row] => row.eds.as_bytes() == name.as_bytes(),
            _ => false,
        }),
        Err(PlanFault::Refused(_)) => Ok(false),
        Err(PlanFault::Memory) => Err(AllocError),
    }
}

/// The last part of a path.
pub(crate) fn last_part(path: &str) -> &str {
    path.rsplit('/').next().unwrap_or(path)
}

/// Whether nothing was changed.
pub(crate) fn is_same(tidied: &Tidied) -> bool {
    tidied.changes.is_empty() && tidied.text_changes.is_empty()
}
