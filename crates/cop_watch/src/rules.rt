//! The rules of a step that ask neither what runs nor what waits.

ghost use Rattle.std.specs.Prelude.{◌≡◌, ◌+◌, ◌≤◌, ℕ, true, Some, IfSome};
ghost use Rattle.cop_bus.specs.declared.steps.Step.TheVariants.{Queue};
ghost use Rattle.cop_bus.specs.Judge.{stream_of, is_of_length};
ghost use Rattle.cop_watch.specs.Rules.{Obeys, IsOfLength, is_after};
ghost use Rattle.cop_watch.specs.Syncs.{ObeysSync};
ghost use Rattle.cop_watch.specs.Breaking.{HangsAt, IsMarkBefore, is_far as is_far_by, is_timely, instance_rule};

use crate::syncs::{EndedSync, Syncs};
use cop_bus::Content;
use cop_frame::{least_bits, worst_bits};
use cop_rta::{Stream, StreamSet};

/// Whether a step of a moment and a rank may stand behind another.
pub(crate) fn is_after(before: u64, rank_before: u8, at: u64, rank: u8) -> bool
    ensures { result ≡ is_after before rank_before at rank }
{
    before < at || (before == at && rank_before <= rank)
}

fn is_later(period: u64, before: Option<u64>, event: u64) -> bool
    ensures { result ≡ true → (v : ℕ) → before ≡ Some v → v + period ≤ event }
{
    match before {
        Some(before) => u128::from(before) + u128::from(period) <= u128::from(event),
        None => true,
    }
}

fn is_of_length(stream: &Stream, frame: &Content) -> bool
    ensures length { result ≡ true → IsOfLength stream.now frame.now }
    ensures exact { result ≡ is_of_length (Some stream.now) (Queue 0 0 0 frame.now) }
{
    least_bits(stream.bytes) <= frame.bits
        && frame.bits <= worst_bits(stream.bytes)
        && frame.len == stream.bytes
}

/// Whether a stream that is not synchronous may queue an instance, by the event of the one before.
pub(crate) fn obeys(
    stream: &Stream,
    before: Option<u64>,
    at: u64,
    event: u64,
    frame: &Content,
) -> bool
    ensures { result ≡ true → Obeys stream.now before at event frame.now }
{
    stream.every == 0
        && is_later(stream.period, before, event)
        && event <= at
        && u128::from(at) <= u128::from(event) + u128::from(stream.jitter)
        && is_of_length(stream, frame)
}

fn is_far(stream: &Stream, before: Option<u64>, mark: u64, number: u64) -> bool
    ensures { result ≡ true → (v : ℕ) → before ≡ Some v → mark + stream.now.every ≤ number }
{
    match before {
        Some(_) => u128::from(mark) + u128::from(stream.every) <= u128::from(number),
        None => true,
    }
}

/// The number of the SYNC on which an instance hangs that a synchronous stream may queue, by the event of the one before and the number
/// of the SYNC that has it; none where it may not, or that SYNC is not recalled.
pub(crate) fn sync_obeyed(
    stream: &Stream,
    before: Option<u64>,
    mark: u64,
    syncs: &Syncs,
    at: u64,
    event: u64,
    frame: &Content,
) -> Option<u64>
    requires { 1 ≤ stream.now.every }
    ensures { IfSome result (ObeysSync stream.now before mark syncs.now at event frame.now) }
{
    let sync = syncs.of_event(event)?;
    if is_far(stream, before, mark, sync.mark)
        && sync.from <= at
        && u128::from(at) <= u128::from(sync.from) + u128::from(stream.jitter)
        && is_of_length(stream, frame)
    {
        return Some(sync.mark);
    }
    None
}

/// What an instance of a stream with an event hangs on: its own event, or the SYNC that has the event, or nothing, if no SYNC has it.
/// Where the outer answer is none, that SYNC may be one that is recalled no more.
pub(crate) fn hang_of(stream: &Stream, syncs: &Syncs, event: u64) -> Option<Option<EndedSync>>
    ensures { IfSome result (HangsAt stream.now syncs.now event) }
{
    if stream.every == 0 {
        return Some(Some(EndedSync {
            event,
            mark: event,
            from: event,
        }));
    }
    match syncs.of_event(event) {
        Some(sync) => Some(Some(sync)),
        None => {
            if syncs.has_none(event) {
                Some(None)
            } else {
                None
            }
        }
    }
}

/// The mark of what the instance before hangs on, by its event and the number of the SYNC that has it.
pub(crate) fn mark_before(stream: &Stream, before: Option<u64>, mark: u64) -> Option<u64>
    ensures { IsMarkBefore stream.now before mark result }
{
    match before {
        Some(event) => {
            if stream.every == 0 {
                Some(event)
            } else {
                Some(mark)
            }
        }
        None => None,
    }
}

fn is_far_by(gap: u64, before: Option<u64>, hang: Option<EndedSync>) -> bool
    ensures { result ≡ is_far_by gap before hang }
{
    match (before, hang) {
        (Some(before), Some(hang)) => {
            u128::from(before) + u128::from(gap) <= u128::from(hang.mark)
        }
        (None, _) | (_, None) => true,
    }
}

fn is_timely(jitter: u64, hang: Option<EndedSync>, at: u64) -> bool
    ensures { result ≡ is_timely jitter hang at }
{
    match hang {
        Some(hang) => {
            hang.from <= at && u128::from(at) <= u128::from(hang.from) + u128::from(jitter)
        }
        None => false,
    }
}

/// The least of rules 62 to 64 that an instance breaks, by what it hangs on and the mark of the one before; if it breaks none, what is
/// next.
pub(crate) fn instance_rule(
    stream: &Stream,
    before: Option<u64>,
    hang: Option<EndedSync>,
    at: u64,
    frame: &Content,
    next: Option<u8>,
) -> Option<u8>
    ensures { result ≡ instance_rule stream.now before hang at frame.now next }
{
    let gap = if stream.every == 0 {
        stream.period
    } else {
        u64::from(stream.every)
    };
    if !is_far_by(gap, before, hang) {
        Some(62)
    } else if !is_timely(stream.jitter, hang, at) {
        Some(63)
    } else if !is_of_length(stream, frame) {
        Some(64)
    } else {
        next
    }
}

/// The stream of the set that has the identifier.
pub(crate) fn stream_of(streams: &StreamSet, id: u16) -> Option<Stream>
    ensures { result ≡ stream_of streams.now id }
{
    match streams.place_of(id) {
        Some(place) => Some(streams.streams()[place]),
        None => None,
    }
}
