//! Streams under given identifiers.

ghost use Rattle.std.specs.Prelude.{◌≡◌, ◌≢◌, ℕ, ◌<◌, ◌≤◌, ◌++◌, ◌∷◌, [], false, length, get_or, IfOk, OnOk, All};
ghost use Rattle.cop_rta.specs.declared.streams.Stream.{Stream};
ghost use Rattle.cop_rta.specs.Streams.{has_id};
ghost use Rattle.cop_cert.specs.Assignments.{least_id, id_under};
ghost use Rattle.cop_plan.specs.Values.{id_of, timing_of, HaveIds};

use cop_rta::{SetFault, Stream, StreamSet};
use std::alloc::{AllocError, Global};

/// The stream under another identifier.
fn with_id(stream: &Stream, id: u16) -> Stream
    requires range { id < 2048 }
    requires synchronous { 1 ≤ stream.now.every → least_id ≤ id }
    ensures id { result.id ≡ id }
    ensures timing { timing_of result ≡ timing_of stream.now }
{
    let Stream {
        bytes,
        period,
        jitter,
        deadline,
        every,
        ..
    } = *stream;
    Stream {
        id,
        bytes,
        period,
        jitter,
        deadline,
        every,
    }
}

/// The identifier that a stream gets: a PDO that of its number, another stream its own.
fn id_at(streams: &[Stream], ids: &[u16], k: usize) -> u16
    requires index { k < length streams.now }
    requires range { All (λ id. id < 2048) ids.now }
    requires permitted { All (λ id. least_id ≤ id) ids.now }
    ensures id { result ≡ id_under streams.now (length ids.now) (id_of ids.now) k }
    ensures range { result < 2048 }
    ensures synchronous { (stream : Stream) → 1 ≤ (get_or streams.now k stream).every → least_id ≤ result }
{
    if k < ids.len() { ids[k] } else { streams[k].id }
}

/// Puts a stream at the end, which is known to be possible.
fn add(set: &mut StreamSet, stream: Stream) -> Result<(), AllocError>
    requires new { has_id set.old stream.id ≡ false }
    requires room { length set.old < 1100 }
    ensures { OnOk result (set.new ≡ set.old ++ stream ∷ []) }
{
    match set.push(stream) {
        Ok(()) => Ok(()),
        Err(SetFault::Memory) => Err(AllocError),
        Err(SetFault::Repeated) => unreachable!(),
        Err(SetFault::Full) => unreachable!(),
    }
}

/// The streams under the identifiers of the PDOs, which come first; the others keep theirs.
pub(crate) fn renamed(alloc: Global, set: &StreamSet, ids: &[u16]) -> Result<StreamSet, AllocError>
    requires range { All (λ id. id < 2048) ids.now }
    requires permitted { All (λ id. least_id ≤ id) ids.now }
    requires apart { (p k : ℕ) → p < length ids.now → k < length set.now → p ≢ k → id_of ids.now p ≢ id_under set.now (length ids.now) (id_of ids.now) k }
    ensures { IfOk result (HaveIds set.now (length ids.now) (id_of ids.now)) }
{
    let streams = set.streams();
    let mut renamed = StreamSet::new(alloc);
    for (k, stream) in streams.iter().enumerate() {
        add(&mut renamed, with_id(stream, id_at(streams, ids, k)))?;
    }
    Ok(renamed)
}
