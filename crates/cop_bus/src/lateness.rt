//! The first late instance of a judged trace.

ghost use Rattle.std.specs.Prelude.{◌≡◌};
ghost use Rattle.cop_frame.specs.Rate.{ticks_of};
ghost use Rattle.cop_bus.specs.Late.{IsSent, first_late, has_ended, misses, is_late, start_at};

use crate::judging::stream_of;
use crate::rules::id_of;
use crate::runs::Run;
use crate::steps::Step;
use cop_rta::{Stream, StreamSet};

/// The number, from 1, of the queue step of the first instance that has not ended by its deadline, where that is
/// not after the trace. No memory is taken.
pub fn first_late(run: &Run<'_>) -> Option<usize>
    ensures { result ≡ first_late (ticks_of run.now.rate) run.now.streams.now run.now.trace.now.until run.now.trace.now.steps.items }
{
    first_late_step(
        run.streams,
        run.rate.ticks_per_bit(),
        run.trace.until,
        &run.trace.steps,
        &run.links,
    )
}

/// The moment of the start at a place of a trace, if one stands there.
pub(crate) fn start_at(steps: &[Step], place: usize) -> Option<u64>
    ensures { result ≡ start_at steps.now place }
{
    match steps.get(place) {
        Some(Step::Start { at, .. }) => Some(*at),
        _ => None,
    }
}

fn first_late_step(
    streams: &StreamSet,
    ticks: u32,
    until: u64,
    steps: &[Step],
    links: &[usize],
) -> Option<usize>
    requires { IsSent steps.now links.now }
    ensures { result ≡ first_late ticks streams.now until steps.now }
{
    for i in 0..steps.len() {
        let step = &steps[i];
        let stream = stream_of(streams, id_of(step));
        let start = start_at(steps, links[i]);
        if is_late(ticks, until, stream, start, step) {
            return Some(i + 1);
        }
    }
    None
}

fn has_ended(ticks: u32, bits: u32, by: u128, start: Option<u64>) -> bool
    ensures { result ≡ has_ended ticks bits by start }
{
    match start {
        Some(start) => u128::from(start) + u128::from(bits) * u128::from(ticks) <= by,
        None => false,
    }
}

fn misses(
    ticks: u32,
    until: u64,
    event: u64,
    bits: u32,
    deadline: Option<u64>,
    start: Option<u64>,
) -> bool
    ensures { result ≡ misses ticks until event bits deadline start }
{
    match deadline {
        Some(deadline) => {
            let by = u128::from(event) + u128::from(deadline);
            by <= u128::from(until) && !has_ended(ticks, bits, by, start)
        }
        None => false,
    }
}

fn is_late(ticks: u32, until: u64, stream: Option<Stream>, start: Option<u64>, step: &Step) -> bool
    ensures { result ≡ is_late ticks until stream start step.now }
{
    match stream {
        Some(stream) => match step {
            Step::Queue { event, frame, .. } => {
                misses(ticks, until, *event, frame.bits, stream.deadline, start)
            }
            Step::Start { .. } => false,
            Step::End { .. } => false,
        },
        None => false,
    }
}
