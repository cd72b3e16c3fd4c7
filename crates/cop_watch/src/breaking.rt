//! The rule that a step breaks which may not come.

ghost use Rattle.std.specs.Prelude.{◌≡◌, ◌<◌, true, None, IfSome, length, slice_index, slice_index_or};
ghost use Rattle.cop_bus.specs.declared.steps.Step.{Step};
ghost use Rattle.cop_watch.specs.Found.{Breaks};
ghost use Rattle.cop_watch.specs.Breaking.{IsIdleTo, IsMarkBefore, BreaksThen, BreaksAtStart};

use crate::bus::Bus;
use crate::rings::{lower_waits, none_lower, none_waits};
use crate::rules::{hang_of, instance_rule, is_after, mark_before, stream_of};
use crate::watching::Watch;
use cop_bus::{Content, Step};
use cop_rta::Stream;

impl Watch<'_> {
    /// The rule that a step breaks which may not come, whatever steps follow. Where the answer is none, it may hang on those.
    pub(crate) fn rule_of(&self, step: &Step) -> Option<u8>
        ensures { IfSome result (Breaks self.now step.now) }
    {
        match step {
            Step::Queue {
                id,
                at,
                event,
                frame,
            } => self.rule_of_queue(*id, *at, *event, frame),
            Step::Start { id, at } => self.rule_of_start(*id, *at),
            Step::End { id, at } => self.rule_of_end(*id, *at),
        }
    }

    fn rule_of_queue(&self, id: u16, at: u64, event: u64, frame: &Content) -> Option<u8>
        ensures { IfSome result (Breaks self.now (Step.Queue id at event frame.now)) }
    {
        if self.bus.is_joining() {
            return None;
        }
        if !is_after(self.at, self.rank, at, 1) {
            return self.rule_of_order();
        }
        let stream = match stream_of(self.streams, id) {
            Some(stream) => stream,
            None => return Some(61),
        };
        let place = usize::from(id);
        if place >= self.last.len() || place >= self.marks.len() {
            return None;
        }
        let before = self.mark_at(&stream, place);
        match hang_of(&stream, &self.syncs, event) {
            Some(hang) => {
                let next = self.rule_of_moment(at);
                instance_rule(&stream, before, hang, at, frame, next)
            }
            None => None,
        }
    }

    fn rule_of_start(&self, id: u16, at: u64) -> Option<u8>
        ensures { IfSome result (Breaks self.now (Step.Start id at)) }
    {
        if self.bus.is_joining() {
            return None;
        }
        if !is_after(self.at, self.rank, at, 2) {
            return self.rule_of_order();
        }
        if stream_of(self.streams, id).is_none() {
            return Some(61);
        }
        if !self.bus.is_idle() {
            return Some(65);
        }
        if none_waits(&self.waiting) {
            return Some(66);
        }
        self.rule_of_sender(id, at)
    }

    fn rule_of_end(&self, id: u16, at: u64) -> Option<u8>
        ensures { IfSome result (Breaks self.now (Step.End id at)) }
    {
        if self.bus.is_joining() {
            return None;
        }
        if !is_after(self.at, self.rank, at, 0) {
            return self.rule_of_order();
        }
        if stream_of(self.streams, id).is_none() {
            return Some(61);
        }
        if self.bus.ends(id, at) {
            None
        } else {
            Some(65)
        }
    }

    // Rule 60: there is a step behind which this one may not stand.
    fn rule_of_order(&self) -> Option<u8>
        ensures { IfSome result (λ rule. (rule ≡ 60) × (0 < self.now.taken)) }
    {
        if self.taken > 0 { Some(60) } else { None }
    }

    // The mark of what the instance before hangs on, of the stream at a place.
    fn mark_at(&self, stream: &Stream, place: usize) -> Option<u64>
        requires last { place < length self.now.last.items }
        requires marks { place < length self.now.marks.items }
        ensures { IsMarkBefore stream.now (slice_index_or self.now.last.items place None) (slice_index self.now.marks.items place) result }
    {
        mark_before(stream, self.last[place], self.marks[place])
    }

    // Whether some instance waits while nothing is sent, from the last step to a later moment.
    fn is_idle_to(&self, at: u64) -> bool
        ensures { result ≡ true → IsIdleTo self.now at }
    {
        self.taken > 0 && self.bus.is_idle() && self.at < at && none_lower(&self.waiting, 0)
    }

    // Rules 65 and 68 of a moment.
    fn rule_of_moment(&self, at: u64) -> Option<u8>
        ensures { IfSome result (BreaksThen self.now at) }
    {
        if self.is_idle_to(at) {
            return Some(68);
        }
        match self.bus {
            Bus::Sending { end, .. } => {
                if end <= u128::from(at) {
                    Some(65)
                } else {
                    None
                }
            }
            Bus::Idle | Bus::Joining { .. } => None,
        }
    }

    // Rules 67 and 68 of a start, where the stream has an instance that waits.
    fn rule_of_sender(&self, id: u16, at: u64) -> Option<u8>
        ensures { IfSome result (BreaksAtStart self.now id at) }
    {
        let place = usize::from(id);
        if place >= self.rings.len() || self.rings[place].is_empty() {
            return None;
        }
        if lower_waits(&self.waiting, id) {
            return Some(67);
        }
        if none_lower(&self.waiting, id) && self.is_idle_to(at) {
            Some(68)
        } else {
            None
        }
    }
}
