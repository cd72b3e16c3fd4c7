//! Traces of the bus, and runs that were judged.

ghost use Rattle.cop_frame.specs.Rate.{ticks_of};
ghost use Rattle.std.specs.Prelude.{◌≡◌, None};
ghost use Rattle.cop_bus.specs.Judge.{first_broken};
ghost use Rattle.cop_bus.specs.Late.{IsSent};

use crate::steps::Step;
use cop_frame::Rate;
use cop_rta::StreamSet;

/// The steps of a run, up to a moment.
#[derive(Drop)]
pub struct Trace {
    pub until: u64,
    pub steps: Vec<Step>,
}

/// A trace that was judged: it breaks no rule, and so is that of a legal run at the rate in which each stream of the
/// set obeys ([`clean_is_legal`](crate::clean_is_legal)).
#[derive(Drop)]
pub struct Run<'a> {
    pub streams: &'a StreamSet,
    pub trace: &'a Trace,
    pub rate: Rate,
    // For each queue step the place of the start that sends its instance, if one does.
    pub(crate) links: Vec<usize>,
    ghost moments: { IsSent trace.now.steps.items links.items },
    ghost clean: { first_broken (ticks_of rate) streams.now trace.now.until trace.now.steps.items ≡ None },
}
