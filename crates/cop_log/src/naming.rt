//! Watching the identifiers and lengths of entries.

ghost use Rattle.cop_log.specs.Watching.{IsNamed};

use cop_lines::Entry;
use cop_rta::StreamSet;

/// What the plan says of an entry's identifier and length.
#[derive(Clone, Copy, PartialEq, Eq, Debug)]
pub(crate) enum Naming {
    Known,
    Unknown,
    Length,
}

/// Seeks an entry's stream by its identifier.
pub(crate) fn naming_of(streams: &StreamSet, entry: &Entry) -> Naming
    ensures { IsNamed streams.now entry.now result }
{
    let _distinct = streams.streams();
    let Ok(id) = u16::try_from(entry.id) else {
        return Naming::Unknown;
    };
    match streams.place_of(id) {
        None => Naming::Unknown,
        Some(place) => {
            let stream = &streams.streams()[place];
            if stream.bytes == entry.len {
                Naming::Known
            } else {
                Naming::Length
            }
        }
    }
}
