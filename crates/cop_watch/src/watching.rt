//! A trace that is watched, step by step.

ghost use Rattle.std.specs.Prelude.{◌≡◌, ◌<◌, ◌-◌, ◌^◌, ◌++◌, ◌∷◌, [], ℕ, List, IfOk, IfSome, None, true, length, slice_index, slice_index_or};
ghost use Rattle.cop_frame.specs.Rate.{ticks_of};
ghost use Rattle.cop_rta.specs.declared.streams.Stream.{Stream as Model};
ghost use Rattle.cop_bus.specs.declared.steps.Step.{Step};
ghost use Rattle.cop_bus.specs.Trace.{at_of};
ghost use Rattle.cop_watch.specs.Knowing.{sent};
ghost use Rattle.cop_watch.specs.Rings.{ring_of};
ghost use Rattle.cop_watch.specs.Found.{Follows, Finds, Decides};
ghost use Rattle.cop_watch.specs.Syncs.{MayCome};
ghost use Rattle.cop_watch.specs.Watching.{HasTaken, MayQueue, MayStart, MayEnd, IsOpen};

use crate::bus::{Bus, sending};
use crate::found::{Broken, Found, Seen};
use crate::rings::{Ring, none_lower, none_waits, take_first, wait};
use crate::rules::{is_after, obeys, stream_of, sync_obeyed};
use crate::syncs::{Syncs, end_first, keep_event};
use cop_bus::{Content, Step};
use cop_frame::Rate;
use cop_frame::identifiers::SYNC;
use cop_rta::{Stream, StreamSet};
use std::alloc::{AllocError, Global};
use std::collections::{BTreeSet, VecDeque};

/// How many identifiers streams can have.
const IDS: usize = 2048;

/// What is known of the steps of a trace that were taken so far. It keeps none of them: its memory grows with what waits alone, of which
/// it has at most 1,024 instances of each stream.
#[derive(Drop)]
pub struct Watch<'a> {
    pub(crate) streams: &'a StreamSet,
    pub(crate) ticks: u32,
    // Each identifier's last event, and of a synchronous stream the number of the SYNC that has it.
    pub(crate) last: Vec<Option<u64>>,
    pub(crate) marks: Vec<u64>,
    pub(crate) syncs: Syncs,
    // The events of the SYNCs that wait or run, first come first.
    pub(crate) events: VecDeque<u64>,
    // Each identifier's instances that wait, and those of which some do.
    pub(crate) rings: Vec<Ring>,
    pub(crate) waiting: BTreeSet<u16>,
    pub(crate) bus: Bus,
    // The moment and the rank of the last step.
    pub(crate) at: u64,
    pub(crate) rank: u8,
    pub(crate) sent: u64,
    // How many steps were taken, and the first that breaks a rule.
    pub(crate) taken: u64,
    pub(crate) broken: Option<Broken>,
}

/// Whether a step was taken.
#[derive(Clone, Copy)]
enum Took {
    All,
    /// It may not come, and the watch is as before.
    Nothing,
    /// It may come, but memory is wanting or there is no room.
    Part,
}

impl<'a> Watch<'a> {
    /// A trace of no step yet.
    pub fn new(alloc: Global, streams: &'a StreamSet, rate: Rate) -> Result<Watch<'a>, AllocError>
        ensures { IfOk result (Follows (ticks_of rate) streams.now []) }
    {
        Ok(Watch {
            streams,
            ticks: rate.ticks_per_bit(),
            last: no_events(alloc)?,
            marks: vec![in alloc; 0; IDS]?,
            syncs: Syncs::new(alloc)?,
            events: VecDeque::new(alloc),
            rings: rings(alloc)?,
            waiting: BTreeSet::new(alloc),
            bus: Bus::Idle,
            at: 0,
            rank: 0,
            sent: 0,
            taken: 0,
            broken: None,
        })
    }

    /// How many instances were sent.
    pub fn sent(&self) -> u64
        ensures { (tau : ℕ) (streams : List Model) (steps : List Step) → HasTaken tau streams steps self.now → result ≡ sent steps }
    {
        self.sent
    }

    /// Takes the next step, and tells what is found. Once a step breaks a rule, that step and its rule are found of each that follows.
    /// Where nothing is known, nothing more is to be taken. More instances of a stream wait than there is room for, or memory is wanting.
    /// Or an instance hangs on another SYNC than the 65 that ended last. Or the rule hangs on the queue step of a joiner that is still to
    /// come.
    pub fn take(&mut self, step: &Step) -> Found
        ensures { (tau : ℕ) (streams : List Model) (steps : List Step)
            → Follows tau streams steps self.old → Finds tau streams (steps ++ step.now ∷ []) result self.new }
    {
        match self.broken {
            Some(broken) => return Found::Broken(broken),
            None => {}
        }
        if self.taken == u64::MAX {
            return Found::Unknown;
        }
        match self.take_step(step) {
            Took::All => Found::Taken,
            Took::Nothing => self.look(step),
            Took::Part => Found::Unknown,
        }
    }

    fn take_step(&mut self, step: &Step) -> Took
        requires { self.old.taken < 2 ^ 64 - 1 }
        ensures all { result ≡ Took.All → (tau : ℕ) (streams : List Model) (steps : List Step)
            → HasTaken tau streams steps self.old → HasTaken tau streams (steps ++ step.now ∷ []) self.new }
        ensures nothing { result ≡ Took.Nothing → self.new ≡ self.old }
        ensures unbroken { self.new.broken ≡ self.old.broken }
    {
        match step {
            Step::Queue {
                id,
                at,
                event,
                frame,
            } => self.take_queue(*id, *at, *event, frame),
            Step::Start { id, at } => self.take_start(*id, *at),
            Step::End { id, at } => self.take_end(*id, *at),
        }
    }

    /// What is seen of the trace of the steps that were taken, up to a moment. Where the answer is none, nothing is known of it.
    pub fn finish(&self, until: u64) -> Option<Seen>
        ensures { (tau : ℕ) (streams : List Model) (steps : List Step)
            → Follows tau streams steps self.now → IfSome result (Decides tau streams until steps) }
    {
        match self.broken {
            Some(broken) => {
                if broken.from <= until {
                    Some(Seen::Broken {
                        step: broken.step,
                        rule: broken.rule,
                    })
                } else {
                    None
                }
            }
            None => self.end(until),
        }
    }

    // The same where no step breaks a rule. The end counts as a step.
    fn end(&self, until: u64) -> Option<Seen>
        ensures { (tau : ℕ) (streams : List Model) (steps : List Step)
            → HasTaken tau streams steps self.now → IfSome result (Decides tau streams until steps) }
    {
        if until < self.at || self.taken == u64::MAX {
            return None;
        }
        let lawful = Seen::Lawful { sent: self.sent };
        let step = self.taken + 1;
        match self.bus {
            Bus::Idle => {
                if until <= self.at || none_waits(&self.waiting) {
                    Some(lawful)
                } else if self.taken > 0 && none_lower(&self.waiting, 0) {
                    Some(Seen::Broken { step, rule: 68 })
                } else {
                    None
                }
            }
            Bus::Sending { end, .. } => {
                if u128::from(until) < end {
                    Some(lawful)
                } else {
                    Some(Seen::Broken { step, rule: 65 })
                }
            }
            Bus::Joining { .. } => None,
        }
    }

    // What is found of a step that may not come.
    fn look(&mut self, step: &Step) -> Found
        requires { self.old.taken < 2 ^ 64 - 1 }
        ensures { (tau : ℕ) (streams : List Model) (steps : List Step)
            → HasTaken tau streams steps self.old → Finds tau streams (steps ++ step.now ∷ []) result self.new }
    {
        match self.rule_of(step) {
            Some(rule) => {
                let broken = Broken {
                    step: self.taken + 1,
                    rule,
                    from: self.at.max(moment_of(step)),
                };
                self.broken = Some(broken);
                Found::Broken(broken)
            }
            None => Found::Unknown,
        }
    }

    // Whether a queue step may come at a moment, by what the bus does and what waits.
    fn is_open(&self, at: u64) -> bool
        ensures { result ≡ true → IsOpen self.now.ticks self.now.at self.now.waiting self.now.bus at }
    {
        match self.bus {
            Bus::Idle => at <= self.at || none_waits(&self.waiting),
            Bus::Sending { end, .. } => u128::from(at) < end,
            Bus::Joining { start, .. } => {
                u128::from(at) < u128::from(start) + u128::from(self.ticks)
            }
        }
    }

    // Whether a queue step may come: the number of the SYNC on which a synchronous instance hangs, and 0 for another.
    fn may_queue(&self, id: u16, at: u64, event: u64, frame: &Content) -> Option<u64>
        ensures { IfSome result (MayQueue self.now id at event frame.now) }
    {
        let place = usize::from(id);
        if place >= self.last.len() || place >= self.rings.len() || place >= self.marks.len() {
            return None;
        }
        if !is_after(self.at, self.rank, at, 1) || !self.is_open(at) {
            return None;
        }
        match stream_of(self.streams, id) {
            Some(stream) => self.may_come(&stream, place, at, event, frame),
            None => None,
        }
    }

    // Whether the stream at a place may queue an instance, by those before it.
    fn may_come(
        &self,
        stream: &Stream,
        place: usize,
        at: u64,
        event: u64,
        frame: &Content,
    ) -> Option<u64>
        requires last { place < length self.now.last.items }
        requires marks { place < length self.now.marks.items }
        ensures { IfSome result (MayCome stream.now (slice_index_or self.now.last.items place None) (slice_index self.now.marks.items place) self.now.syncs at event frame.now) }
    {
        let last = self.last[place];
        if stream.every > 0 {
            return sync_obeyed(
                stream,
                last,
                self.marks[place],
                &self.syncs,
                at,
                event,
                frame,
            );
        }
        if obeys(stream, last, at, event, frame) {
            return Some(0);
        }
        None
    }

    fn may_start(&self, id: u16, at: u64) -> bool
        ensures { result ≡ true → MayStart self.now id at }
    {
        usize::from(id) < self.rings.len()
            && self.sent < u64::MAX
            && self.bus.is_idle()
            && at <= self.at
            && is_after(self.at, self.rank, at, 2)
            && none_lower(&self.waiting, id)
            && stream_of(self.streams, id).is_some()
    }

    fn may_end(&self, id: u16, at: u64) -> bool
        ensures { result ≡ true → MayEnd self.now id at }
    {
        self.bus.ends(id, at)
            && is_after(self.at, self.rank, at, 0)
            && stream_of(self.streams, id).is_some()
    }

    fn take_queue(&mut self, id: u16, at: u64, event: u64, frame: &Content) -> Took
        requires { self.old.taken < 2 ^ 64 - 1 }
        ensures all { result ≡ Took.All → (tau : ℕ) (streams : List Model) (steps : List Step)
            → HasTaken tau streams steps self.old → HasTaken tau streams (steps ++ Step.Queue id at event frame.now ∷ []) self.new }
        ensures nothing { result ≡ Took.Nothing → self.new ≡ self.old }
        ensures unbroken { self.new.broken ≡ self.old.broken }
    {
        let mark = match self.may_queue(id, at, event, frame) {
            Some(mark) => mark,
            None => return Took::Nothing,
        };
        let place = usize::from(id);
        self.taken += 1;
        self.at = at;
        self.rank = 1;
        self.last[place] = Some(event);
        self.marks[place] = mark;
        if !keep_event(&mut self.events, id, event) {
            return Took::Part;
        }
        match self.bus.joined(id) {
            Some(start) => {
                self.bus = sending(id, start, frame.bits, self.ticks);
                Took::All
            }
            None => all_or_part(wait(&mut self.rings, &mut self.waiting, id, frame.bits)),
        }
    }

    fn take_start(&mut self, id: u16, at: u64) -> Took
        requires { self.old.taken < 2 ^ 64 - 1 }
        ensures all { result ≡ Took.All → (tau : ℕ) (streams : List Model) (steps : List Step)
            → HasTaken tau streams steps self.old → HasTaken tau streams (steps ++ Step.Start id at ∷ []) self.new }
        ensures nothing { result ≡ Took.Nothing → self.new ≡ self.old }
        ensures unbroken { self.new.broken ≡ self.old.broken }
    {
        if !self.may_start(id, at) {
            return Took::Nothing;
        }
        self.taken += 1;
        self.at = at;
        self.rank = 2;
        self.sent += 1;
        self.bus = match take_first(&mut self.rings, &mut self.waiting, id) {
            Some(bits) => sending(id, at, bits, self.ticks),
            None => Bus::Joining { id, start: at },
        };
        Took::All
    }

    fn take_end(&mut self, id: u16, at: u64) -> Took
        requires { self.old.taken < 2 ^ 64 - 1 }
        ensures all { result ≡ Took.All → (tau : ℕ) (streams : List Model) (steps : List Step)
            → HasTaken tau streams steps self.old → HasTaken tau streams (steps ++ Step.End id at ∷ []) self.new }
        ensures nothing { result ≡ Took.Nothing → self.new ≡ self.old }
        ensures unbroken { self.new.broken ≡ self.old.broken }
    {
        if !self.may_end(id, at) {
            return Took::Nothing;
        }
        self.taken += 1;
        self.at = at;
        self.rank = 0;
        self.bus = Bus::Idle;
        if id == SYNC {
            return all_or_part(end_first(&mut self.syncs, &mut self.events, at));
        }
        Took::All
    }
}

// A step that may come was taken, or was not.
fn all_or_part(all: bool) -> Took
    ensures all { result ≡ Took.All → all ≡ true }
    ensures part { result ≡ Took.Nothing → ⊥ }
{
    if all { Took::All } else { Took::Part }
}

// The moment of a step.
fn moment_of(step: &Step) -> u64
    ensures { result ≡ at_of step.now }
{
    match step {
        Step::Queue { at, .. } | Step::Start { at, .. } | Step::End { at, .. } => *at,
    }
}

// The last events of all identifiers, of which none has one.
fn no_events(alloc: Global) -> Result<Vec<Option<u64>>, AllocError>
    ensures { IfOk result (λ last. (id : ℕ) → slice_index_or last.items id None ≡ None) }
{
    Ok(vec![in alloc; None; IDS]?)
}

// The rings of all identifiers, in which none waits.
fn rings(alloc: Global) -> Result<Vec<Ring>, AllocError>
    ensures { IfOk result (λ rings. (id : ℕ) → ring_of rings.items id ≡ []) }
{
    let mut rings = Vec::with_capacity(alloc, IDS)?;
    for _ in 0..IDS {
        rings.push(Ring::new(alloc))?;
    }
    Ok(rings)
}
