//! The error frames of a log as disturbed transfers.

ghost use Rattle.std.specs.Prelude.{◌≡◌};
ghost use Rattle.cop_logbook.specs.ErrorFrames.{is_error, tested_id, tested_entry};

use cop_frame::DISTURBED;
use cop_lines::Entry;
use cop_rta::Stream;

/// An identifier that no stream can have.
const NONE: u32 = 2048;

/// Whether an identifier is that of an error frame.
pub(crate) fn is_error(id: u32) -> bool
    ensures { result ≡ is_error id }
{
    id / 0x2000_0000 % 2 == 1
}

/// An identifier of the bus as one of a tested set, where NMT's is 001h.
#[tactic(auto, unfolding(crate::specs::ErrorFrames::tested_id))]
fn tested_id(id: u32) -> u32
    ensures { result ≡ tested_id id }
{
    if id == 0 {
        1
    } else if id == 1 {
        NONE
    } else {
        id
    }
}

/// An entry of a log as one of a set of streams: where it counts disturbed transfers as a stream, an error frame is one of these.
pub(crate) fn tested_entry(errors: Option<Stream>, entry: &Entry) -> Entry
    ensures { result ≡ tested_entry errors entry.now }
{
    if errors.is_none() {
        return *entry;
    }
    let (line, at) = (entry.line, entry.at);
    if is_error(entry.id) {
        return Entry {
            line,
            at,
            id: 0,
            len: DISTURBED,
        };
    }
    Entry {
        line,
        at,
        id: tested_id(entry.id),
        len: entry.len,
    }
}
