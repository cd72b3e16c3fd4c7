//! Streams of the bus and of the sets that are tested.

ghost use Rattle.std.specs.Prelude.{◌≡◌, ◌≤◌, ◌<◌};
ghost use Rattle.cop_rta.specs.Entries.{entry_of};
ghost use Rattle.cop_rta.specs.Errors.{errors_stream, up, down, is_errors};
ghost use Rattle.cop_rta.specs.UpLemmas.{up_id, down_id};

use crate::errors::Errors;
use crate::streams::Stream;
use cop_frame::DISTURBED;

impl Errors {
    /// Their stream, which is above all others. It has no deadline.
    pub fn stream(self) -> Stream
        ensures { result ≡ errors_stream self }
    {
        Stream {
            id: 0,
            bytes: DISTURBED,
            period: self.period,
            jitter: self.jitter,
            deadline: None,
            every: 0,
        }
    }
}

/// Whether a stream is that of disturbed transfers.
pub(crate) fn is_errors(stream: &Stream) -> bool
    ensures { result ≡ is_errors stream.now }
{
    stream.id == 0 && stream.bytes == DISTURBED && stream.deadline.is_none() && stream.every == 0
}

/// The identifier that counts for a stream of the bus where transfers may be disturbed.
#[tactic(auto, unfolding(crate::specs::UpLemmas::up_id))]
fn up_id(id: u16) -> u16
    ensures { result ≡ up_id id }
{
    if id == 0 { 1 } else { id }
}

/// The identifier of a stream on the bus.
#[tactic(auto, unfolding(crate::specs::UpLemmas::down_id))]
fn down_id(id: u16) -> u16
    ensures { result ≡ down_id id }
{
    if id == 1 { 0 } else { id }
}

/// The stream under another identifier.
fn with_id(stream: &Stream, id: u16) -> Stream
    requires range { id < 2048 }
    requires synchronous { 1 ≤ stream.now.every → 385 ≤ id }
    ensures { entry_of result ≡ record (entry_of stream.now) { id = id } }
{
    let Stream {
        bytes,
        period,
        jitter,
        deadline,
        every,
        ..
    } = *stream;
    Stream {
        id,
        bytes,
        period,
        jitter,
        deadline,
        every,
    }
}

/// A stream of the bus as one of a tested set: NMT counts as 001h.
pub(crate) fn up(stream: &Stream) -> Stream
    ensures { result ≡ up stream.now }
{
    with_id(stream, up_id(stream.id))
}

/// A stream of a tested set as it is on the bus.
pub(crate) fn down(stream: &Stream) -> Stream
    ensures { result ≡ down stream.now }
{
    with_id(stream, down_id(stream.id))
}
