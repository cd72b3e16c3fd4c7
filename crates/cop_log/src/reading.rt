//! A log as a whole text.

ghost use Rattle.std.specs.Prelude.{Ok};
ghost use Rattle.cop_table.specs.Reading.{Gives};
ghost use Rattle.cop_log.specs.Reading.{entries_with, log_in, fault_of_text, name_of};

use crate::faults::LogFault;
use crate::reader::LogReader;
use cop_lines::{Entry, Message};
use std::alloc::Global;

// Puts an entry behind those before it.
fn note(message: Option<Message>, log: &mut Vec<Entry>) -> Result<(), LogFault>
    ensures { Gives (λ _. log.new.items) fault_of_text result (Ok (entries_with log.old.items message)) }
{
    if let Some(message) = message {
        if log.push(message.entry).is_err() {
            return Err(LogFault::Memory);
        }
    }
    Ok(())
}

/// The entries of a channel in a log of any form, or the first line that is wrong, or want of memory. [`LogReader::new`] says what the
/// channel and `are_distances` are. A last line that has no end is left out.
pub fn read_log(
    alloc: Global,
    channel: Option<Vec<u8>>,
    are_distances: bool,
    text: &[u8],
) -> Result<Vec<Entry>, LogFault>
    ensures { Gives (λ log. log.items) fault_of_text result (log_in (record { channel = name_of channel; are_distances = are_distances }) text.now) }
{
    let mut log = Vec::new(alloc);
    let mut reader = LogReader::new(alloc, channel, are_distances);
    let mut rest = text;
    'frames: while let Some(found) = reader.next(rest)? {
        note(Some(found.message), &mut log)?;
        rest = found.rest;
    }
    Ok(log)
}
