//! The rules of a trace, each as a test of one step.

ghost use Rattle.std.specs.Prelude.{◌≡◌, ℕ, ◌<◌, IfSome, List};
ghost use Rattle.cop_bus.specs.declared.steps.Step.{Step};
ghost use Rattle.cop_bus.specs.Tables.{AreAnchors};
ghost use Rattle.cop_bus.specs.Trace.{at_of, rank_of, bits_of};
ghost use Rattle.cop_bus.specs.Judge.{is_period_later, is_queued_in_time, is_of_length, fits_transfer, not_before, id_of, is_soon_queued, is_unfinished};

use crate::ends::Syncs;
use crate::steps::Step;
use cop_frame::{least_bits, worst_bits};
use cop_rta::Stream;

// The length of what a step queues.
pub(crate) fn bits(step: Option<Step>) -> u32
    ensures { result ≡ bits_of step }
{
    match step {
        Some(Step::Queue { frame, .. }) => frame.bits,
        Some(Step::Start { .. }) => 0,
        Some(Step::End { .. }) => 0,
        None => 0,
    }
}

pub(crate) fn at_of(step: &Step) -> u64
    ensures { result ≡ at_of step.now }
{
    match step {
        Step::Queue { at, .. } => *at,
        Step::Start { at, .. } => *at,
        Step::End { at, .. } => *at,
    }
}

pub(crate) fn id_of(step: &Step) -> u16
    ensures { result ≡ id_of step.now }
{
    match step {
        Step::Queue { id, .. } => *id,
        Step::Start { id, .. } => *id,
        Step::End { id, .. } => *id,
    }
}

// Ends come first at a moment, then queues, then starts.
pub(crate) fn rank_of(step: &Step) -> u8
    ensures { result ≡ rank_of step.now }
{
    match step {
        Step::End { .. } => 0,
        Step::Queue { .. } => 1,
        Step::Start { .. } => 2,
    }
}

pub(crate) fn not_before(x: &Step, y: &Step) -> bool
    ensures { result ≡ not_before x.now y.now }
{
    at_of(x) < at_of(y) || (at_of(x) == at_of(y) && rank_of(x) <= rank_of(y))
}

pub(crate) fn is_period_later(
    stream: Option<Stream>,
    before: Option<u64>,
    syncs: &Syncs,
    step: &Step,
) -> bool
    ensures { (steps : List Step) (i : ℕ) → IfSome stream (λ k. AreAnchors k steps i syncs.now) → result ≡ is_period_later stream before steps i step.now }
{
    let Some(stream) = stream else {
        return true;
    };
    let Some(before) = before else {
        return true;
    };
    match step {
        Step::Queue { event, .. } => {
            if stream.every == 0 {
                u128::from(before) + u128::from(stream.period) <= u128::from(*event)
            } else {
                syncs.are_apart(stream.every, before, *event)
            }
        }
        Step::Start { .. } => true,
        Step::End { .. } => true,
    }
}

pub(crate) fn is_queued_in_time(stream: Option<Stream>, syncs: &Syncs, step: &Step) -> bool
    ensures { (steps : List Step) (i : ℕ) → IfSome stream (λ k. AreAnchors k steps i syncs.now) → result ≡ is_queued_in_time stream steps i step.now }
{
    let Some(stream) = stream else {
        return true;
    };
    match step {
        Step::Queue { at, event, .. } => {
            if stream.every == 0 {
                *event <= *at && u128::from(*at) <= u128::from(*event) + u128::from(stream.jitter)
            } else {
                syncs.is_in_time(stream.jitter, *event, *at)
            }
        }
        Step::Start { .. } => true,
        Step::End { .. } => true,
    }
}

pub(crate) fn is_of_length(stream: Option<Stream>, step: &Step) -> bool
    ensures { result ≡ is_of_length stream step.now }
{
    match stream {
        Some(stream) => match step {
            Step::Queue { frame, .. } => {
                least_bits(stream.bytes) <= frame.bits
                    && frame.bits <= worst_bits(stream.bytes)
                    && frame.len == stream.bytes
            }
            Step::Start { .. } => true,
            Step::End { .. } => true,
        },
        None => true,
    }
}

pub(crate) fn fits_transfer(running: Option<(u16, u128)>, step: &Step) -> bool
    ensures { result ≡ fits_transfer running step.now }
{
    match running {
        None => match step {
            Step::Queue { .. } => true,
            Step::Start { .. } => true,
            Step::End { .. } => false,
        },
        Some((stream, end)) => match step {
            Step::Queue { at, .. } => u128::from(*at) < end,
            Step::Start { .. } => false,
            Step::End { at, id } => stream == *id && end == u128::from(*at),
        },
    }
}

pub(crate) fn is_soon_queued(ticks: u32, at: u64, instance: Option<Step>) -> bool
    ensures { result ≡ is_soon_queued ticks at instance }
{
    match instance {
        Some(step) => u128::from(at_of(&step)) < u128::from(at) + u128::from(ticks),
        None => false,
    }
}

pub(crate) fn is_unfinished(until: u64, running: Option<(u16, u128)>) -> bool
    ensures { result ≡ is_unfinished until running }
{
    match running {
        None => true,
        Some((_, end)) => u128::from(until) < end,
    }
}
