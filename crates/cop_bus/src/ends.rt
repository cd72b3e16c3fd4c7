//! The SYNCs of a trace that have ended, as the judge comes to know them.

ghost use Rattle.std.specs.Prelude.{◌≡◌, ◌<◌, ◌+◌, ℕ, List, Some, None, OnOk};
ghost use Rattle.std.specs.BTreeMap.{get};
ghost use Rattle.std.specs.Ordering.{nat_cmp};
ghost use Rattle.cop_bus.specs.declared.steps.Step.{Step};
ghost use Rattle.cop_bus.specs.Ends.{anchor_if, event_in, or_next, sync_anchor};
ghost use Rattle.cop_bus.specs.Judge.{are_apart, is_in_time};
ghost use Rattle.cop_bus.specs.Tables.{AreSyncs};

use crate::anchors::{Anchor, are_apart, is_in_time};
use crate::steps::Step;
use std::alloc::{AllocError, Global};
use std::collections::BTreeMap;

/// What is known of the SYNCs of a trace.
#[derive(Drop)]
pub(crate) struct Syncs {
    // For each event the first SYNC with it that has ended.
    anchors: BTreeMap<u64, Anchor>,
    // How many have ended.
    number: u64,
    // The event of the one that was sent last.
    sent: u64,
}

// The event of what a step queues.
fn event_in(step: Option<Step>) -> Option<u64>
    ensures { result ≡ event_in step }
{
    match step {
        Some(Step::Queue { event, .. }) => Some(event),
        Some(Step::Start { .. }) => None,
        Some(Step::End { .. }) => None,
        None => None,
    }
}

impl Syncs {
    pub(crate) fn new(alloc: Global) -> Syncs
        ensures { (tau : ℕ) (steps : List Step) → AreSyncs tau steps 0 result }
    {
        Syncs {
            anchors: BTreeMap::new(alloc),
            number: 0,
            sent: 0,
        }
    }

    /// Notes which SYNC is sent.
    pub(crate) fn send(&mut self, instance: Option<Step>)
        ensures rest { (self.new.anchors ≡ self.old.anchors) × (self.new.number ≡ self.old.number) }
        ensures sent { (event : ℕ) → event_in instance ≡ Some event → self.new.sent ≡ event }
    {
        if let Some(event) = event_in(instance) {
            self.sent = event;
        }
    }

    /// Notes that the one that was sent last ends.
    pub(crate) fn end(&mut self, at: u64) -> Result<(), AllocError>
        requires { self.old.number < 18446744073709551615 }
        ensures number { OnOk result (self.new.number ≡ self.old.number + 1) }
        ensures anchors { OnOk result ((event : ℕ) → get nat_cmp self.new.anchors event ≡ or_next (get nat_cmp self.old.anchors event) (anchor_if event self.old.number (Some (record { event = self.old.sent; at = at })))) }
    {
        if self.anchors.get(&self.sent).is_none() {
            let anchor = Anchor {
                mark: self.number,
                from: at,
            };
            if self.anchors.insert(self.sent, anchor).is_err() {
                return Err(AllocError);
            }
        }
        self.number += 1;
        Ok(())
    }

    // The first of the SYNCs with this event that have ended.
    fn found(&self, event: u64) -> Option<Anchor>
        ensures { result ≡ get nat_cmp self.now.anchors event }
    {
        self.anchors.get(&event).copied()
    }

    /// Whether the SYNC of an event comes so many numbers at least after that of the event before. Traces without synchronous streams
    /// are judged faster where this is no part of the judge's loop.
    #[cold]
    #[inline(never)]
    pub(crate) fn are_apart(&self, every: u8, before: u64, event: u64) -> bool
        ensures { (steps : List Step) (i : ℕ) → ((e : ℕ) → get nat_cmp self.now.anchors e ≡ sync_anchor steps i e)
            → result ≡ are_apart every (sync_anchor steps i before) (sync_anchor steps i event) }
    {
        are_apart(u64::from(every), self.found(before), self.found(event))
    }

    /// Whether an instance with this event is queued from its SYNC's end to the latency after it.
    #[cold]
    #[inline(never)]
    pub(crate) fn is_in_time(&self, latency: u64, event: u64, at: u64) -> bool
        ensures { (steps : List Step) (i : ℕ) → ((e : ℕ) → get nat_cmp self.now.anchors e ≡ sync_anchor steps i e)
            → result ≡ is_in_time latency (sync_anchor steps i event) at }
    {
        is_in_time(latency, self.found(event), at)
    }
}
