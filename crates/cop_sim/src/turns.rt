//! The simulator's turns, each of which takes a step.

ghost use Rattle.std.specs.Prelude.{◌≡◌, ℕ, ◌-◌, ◌≤◌, ◌<◌, ◌^◌, List, true, false, Some, None, suc, length, get_or, slice_get, slice_set, OnOk, OnErr, IfErr};
ghost use Rattle.cop_bus.specs.declared.steps.Step.{Step};
ghost use Rattle.cop_bus.specs.declared.steps.Step.TheVariants as steps;
ghost use Rattle.cop_sim.specs.Play.{queued_at, queue_step, obeys};
ghost use Rattle.cop_sim.specs.declared.behaviours.Offer.{Offer};
ghost use Rattle.cop_rta.specs.declared.streams.Stream.{Stream};
ghost use Rattle.cop_sim.specs.Cues.{from_of};
ghost use Rattle.cop_sim.specs.Syncs.{with_event, noted_cue, is_awaited};
ghost use Rattle.cop_sim.specs.Seats.{next_at, answer_of, IsCued};
ghost use Rattle.cop_sim.specs.Stages.{at_hand, AreSized, instance_of, IsPut, IsFull, IsQueued, QueueFault, InstanceFault, IsCuedPlace, AreCued, CueFault, IsEnded, EndFault, IsStarted, IsAt, IsTurned};
ghost use Rattle.cop_sim.specs.declared.faults.SimFault.TheVariants as faults;

use crate::behaviours::{Behaviour, Offer};
use crate::choosing::{Sent, choose};
use crate::due::Due;
use crate::faults::SimFault;
use crate::playing::{Event, hand, next_event};
use crate::seats::ask;
use crate::sinks::Sink;
use crate::stages::Stage;
use cop_bus::{Full, Instance, Queues, Step};
use cop_plan::Plan;
use cop_rta::Stream;

// Asks the behaviour at a place for the answer after those that are queued, if what it waits for has come.
// Inlined as `ask` is.
#[inline(always)]
fn ask_at<B: Behaviour>(
    stream: &Stream,
    until: u64,
    behaviours: &mut Vec<B>,
    stage: &mut Stage,
    place: usize,
    before: Option<Offer>,
) -> Result<(), SimFault>
    requires ids { place < length stage.old.offers.ids }
    requires next { place < length stage.old.offers.next }
    requires queued { place < length stage.old.queued.items }
    requires behaviours { place < length behaviours.old.items }
    requires until { until ≤ 4000000000 }
    ensures stage { OnOk result (at_hand stage.new ≡ record (at_hand stage.old) { next = slice_set stage.old.offers.next place (next_at stage.new.offers.next place) }) }
    ensures asked { OnOk result ((b : _) → slice_get behaviours.old.items place ≡ Some b → (c : _) × (behaviours.new.items ≡ slice_set behaviours.old.items place c)
        × IsCued B.offer B.agrees (noted_cue stage.old.syncs stream.now (get_or stage.old.queued.items place 0)) b c
        × (next_at stage.new.offers.next place ≡ answer_of B.offer until (noted_cue stage.old.syncs stream.now (get_or stage.old.queued.items place 0)) before b)) }
    ensures obeys { OnOk result ((o : Offer) → next_at stage.new.offers.next place ≡ Some o
        → obeys stream.now before (from_of (noted_cue stage.old.syncs stream.now (get_or stage.old.queued.items place 0)) o) o ≡ true) }
    ensures fault { IfErr result (λ fault. (n : ℕ) × (fault ≡ faults.Disobeys place n) × (n ≡ get_or stage.old.queued.items place 0) × ((b : _) → slice_get behaviours.old.items place ≡ Some b →
        (o : Offer) × (answer_of B.offer until (noted_cue stage.old.syncs stream.now n) before b ≡ Some o) × (obeys stream.now before (from_of (noted_cue stage.old.syncs stream.now n) o) o ≡ false))) }
{
    let number = stage.queued[place];
    let cue = stage.syncs.cue(stream, number);
    match ask(behaviours, place, stream, cue, before, until) {
        Ok(offer) => {
            stage.offers.set(place, offer);
            Ok(())
        }
        Err(_) => Err(SimFault::Disobeys {
            stream: place,
            instance: number,
        }),
    }
}

// Asks the behaviour at a place, if its next answer waits for the SYNC that has just ended.
fn ask_waiting_at<B: Behaviour>(
    stream: &Stream,
    until: u64,
    behaviours: &mut Vec<B>,
    stage: &mut Stage,
    place: usize,
) -> Result<(), SimFault>
    requires ids { place < length stage.old.offers.ids }
    requires next { place < length stage.old.offers.next }
    requires queued { place < length stage.old.queued.items }
    requires behaviours { place < length behaviours.old.items }
    requires until { until ≤ 4000000000 }
    ensures stage { OnOk result (at_hand stage.new ≡ record (at_hand stage.old) { next = slice_set stage.old.offers.next place (next_at stage.new.offers.next place) }) }
    ensures asked { OnOk result ((b : _) → slice_get behaviours.old.items place ≡ Some b → (c : _) × (behaviours.new.items ≡ slice_set behaviours.old.items place c)
        × IsCuedPlace B.offer B.agrees until stage.old.syncs stream.now (get_or stage.old.queued.items place 0) (next_at stage.old.offers.next place) (next_at stage.new.offers.next place) b c) }
    ensures fault { IfErr result (λ fault. (n : ℕ) × (fault ≡ faults.Disobeys place n) × (n ≡ get_or stage.old.queued.items place 0) × ((b : _) → slice_get behaviours.old.items place ≡ Some b →
        (is_awaited stage.old.syncs stream.now n ≡ true) × ((o : Offer) × (answer_of B.offer until (noted_cue stage.old.syncs stream.now n) None b ≡ Some o) × (obeys stream.now None (from_of (noted_cue stage.old.syncs stream.now n) o) o ≡ false)))) }
{
    let number = stage.queued[place];
    if stage.syncs.is_awaited(stream, number) {
        ask_at(stream, until, behaviours, stage, place, None)
    } else {
        Ok(())
    }
}

// Asks each behaviour whose next answer waits for the SYNC that has just ended, in the order of the streams.
fn ask_waiting<B: Behaviour>(
    streams: &[Stream],
    until: u64,
    behaviours: &mut Vec<B>,
    stage: &mut Stage,
) -> Result<(), SimFault>
    requires sized { AreSized (length streams.now) (at_hand stage.old) }
    requires behaviours { length behaviours.old.items ≡ length streams.now }
    requires until { until ≤ 4000000000 }
    ensures asked { OnOk result (AreCued B.offer B.agrees until streams.now (at_hand stage.old) (at_hand stage.new) behaviours.old.items behaviours.new.items (length streams.now)) }
    ensures fault { IfErr result (λ fault. CueFault B.offer until streams.now (at_hand stage.old) behaviours.old.items fault) }
{
    for i in 0..streams.len() {
        ask_waiting_at(&streams[i], until, behaviours, stage, i)?;
    }
    Ok(())
}

/// The transfer that runs ends, and of those that waited for the SYNC that it may be the behaviours are asked.
pub(crate) fn end_transfer<B: Behaviour, S: Sink>(
    streams: &[Stream],
    until: u64,
    behaviours: &mut Vec<B>,
    stage: &mut Stage,
    at: u64,
    id: u16,
    sink: &mut S,
) -> Result<(), SimFault>
    requires sized { AreSized (length streams.now) (at_hand stage.old) }
    requires behaviours { length behaviours.old.items ≡ length streams.now }
    requires until { until ≤ 4000000000 }
    requires works { S.has_failed sink.old ≡ false }
    ensures stage { OnOk result (IsEnded B.offer B.agrees until streams.now at id (at_hand stage.old) (at_hand stage.new) behaviours.old.items behaviours.new.items) }
    ensures taken { OnOk result (S.takes sink.old (steps.End id at) sink.new) }
    ensures works { OnOk result (S.has_failed sink.new ≡ false) }
    ensures fault { IfErr result (λ fault. EndFault B.offer S.takes until streams.now at id (at_hand stage.old) behaviours.old.items sink.old sink.new fault) }
    ensures failed { IfErr result (λ fault. fault ≡ faults.Sink → S.has_failed sink.new ≡ true) }
{
    hand(sink, Step::End { at, id })?;
    stage.running = None;
    stage.now = at;
    stage.syncs.ended(id, at)?;
    if stage.syncs.is_noted(id) {
        ask_waiting(streams, until, behaviours, stage)?;
    }
    Ok(())
}

// Lets an instance wait in the ring of its place, unless it is the joiner's that was sent.
fn put(
    waiting: &mut Queues,
    joined: &mut Option<usize>,
    place: usize,
    instance: Instance,
) -> Result<(), Full>
    requires { place < length waiting.old }
    ensures put { OnOk result (IsPut waiting.old joined.old place instance waiting.new joined.new) }
    ensures full { OnErr result (IsFull waiting.old joined.old place) }
{
    if *joined == Some(place) {
        *joined = None;
        return Ok(());
    }
    waiting.queue(place, instance)
}

// The instance of an offer, whose moment fits 64 bits.
fn instance_of(due: &Due) -> Instance
    ensures { queued_at due.now.offer < 2 ^ 64 → result ≡ instance_of due.now }
{
    let Offer {
        event,
        delay,
        frame,
    } = due.offer;
    Instance {
        at: event.saturating_add(delay),
        id: due.id,
        event,
        frame,
    }
}

fn queue_step(instance: &Instance) -> Step
    ensures { result ≡ steps.Queue instance.now.id instance.now.at instance.now.event instance.now.frame }
{
    Step::Queue {
        at: instance.at,
        id: instance.id,
        event: instance.event,
        frame: instance.frame,
    }
}

// The offer at hand of a stream is queued.
fn queue_instance<S: Sink>(stage: &mut Stage, due: Due, sink: &mut S) -> Result<(), SimFault>
    requires rings { due.place < length stage.old.waiting }
    requires queued { due.place < length stage.old.queued.items }
    requires works { S.has_failed sink.old ≡ false }
    ensures put { OnOk result (queued_at due.offer < 2 ^ 64 → IsPut stage.old.waiting stage.old.joined due.place (instance_of due) stage.new.waiting stage.new.joined) }
    ensures offers { OnOk result (stage.new.offers ≡ stage.old.offers) }
    ensures running { OnOk result (stage.new.running ≡ stage.old.running) }
    ensures now { OnOk result (queued_at due.offer < 2 ^ 64 → stage.new.now ≡ queued_at due.offer) }
    ensures queued { OnOk result ((n : ℕ) × (stage.new.queued.items ≡ slice_set stage.old.queued.items due.place n)
        × (get_or stage.old.queued.items due.place 0 < 2 ^ 64 - 1 → n ≡ suc (get_or stage.old.queued.items due.place 0))) }
    ensures syncs { OnOk result (stage.new.syncs ≡ with_event stage.old.syncs due.id due.offer.event) }
    ensures taken { OnOk result (queued_at due.offer < 2 ^ 64 → S.takes sink.old (queue_step due.id due.offer) sink.new) }
    ensures works { OnOk result (S.has_failed sink.new ≡ false) }
    ensures fault { IfErr result (λ fault. InstanceFault S.takes due (at_hand stage.old) sink.old sink.new fault) }
    ensures failed { IfErr result (λ fault. fault ≡ faults.Sink → S.has_failed sink.new ≡ true) }
{
    let place = due.place;
    let instance = instance_of(&due);
    if put(&mut stage.waiting, &mut stage.joined, place, instance).is_err() {
        return Err(SimFault::Backlog { id: due.id });
    }
    hand(sink, queue_step(&instance))?;
    stage.now = instance.at;
    stage.queued[place] = stage.queued[place].saturating_add(1);
    stage.syncs.queued(due.id, due.offer.event)?;
    Ok(())
}

/// The offer at hand of a stream is queued, and its behaviour is asked for the next.
pub(crate) fn queue_offer<B: Behaviour, S: Sink>(
    streams: &[Stream],
    until: u64,
    behaviours: &mut Vec<B>,
    stage: &mut Stage,
    due: Due,
    sink: &mut S,
) -> Result<(), SimFault>
    requires sized { AreSized (length streams.now) (at_hand stage.old) }
    requires behaviours { length behaviours.old.items ≡ length streams.now }
    requires place { due.place < length streams.now }
    requires until { until ≤ 4000000000 }
    requires works { S.has_failed sink.old ≡ false }
    ensures queued { OnOk result (IsQueued B.offer B.agrees until streams.now due (at_hand stage.old) (at_hand stage.new) behaviours.old.items behaviours.new.items) }
    ensures obeys { OnOk result ((o : Offer) (k : Stream) → next_at stage.new.offers.next due.place ≡ Some o
        → slice_get streams.now due.place ≡ Some k
        → obeys k (Some due.offer) (from_of (noted_cue stage.new.syncs k (get_or stage.new.queued.items due.place 0)) o) o ≡ true) }
    ensures taken { OnOk result (queued_at due.offer ≤ until → S.takes sink.old (queue_step due.id due.offer) sink.new) }
    ensures works { OnOk result (S.has_failed sink.new ≡ false) }
    ensures fault { IfErr result (λ fault. QueueFault B.offer S.takes until streams.now due (at_hand stage.old) behaviours.old.items sink.old sink.new fault) }
    ensures failed { IfErr result (λ fault. fault ≡ faults.Sink → S.has_failed sink.new ≡ true) }
{
    queue_instance(stage, due, sink)?;
    let place = due.place;
    let stream = &streams[place];
    ask_at(stream, until, behaviours, stage, place, Some(due.offer))
}

// The length of a joiner's frame.
fn bits_of(offer: Option<Offer>) -> u32
    ensures { (o : Offer) → offer ≡ Some o → result ≡ o.frame.bits }
{
    match offer {
        Some(offer) => offer.frame.bits,
        None => 0,
    }
}

/// The transfer of a stream's first instance that waits starts, or else that of its next offer, which joins.
pub(crate) fn start_transfer<S: Sink>(
    stage: &mut Stage,
    ticks: u32,
    sent: Sent,
    sink: &mut S,
) -> Result<(), SimFault>
    requires rings { sent.place < length stage.old.waiting }
    requires next { sent.place < length stage.old.offers.next }
    requires early { stage.old.now ≤ 4000000000 }
    requires works { S.has_failed sink.old ≡ false }
    ensures started { OnOk result (IsStarted ticks sent (at_hand stage.old) (at_hand stage.new)) }
    ensures taken { OnOk result (S.takes sink.old (steps.Start sent.id stage.old.now) sink.new) }
    ensures works { OnOk result (S.has_failed sink.new ≡ false) }
    ensures fault { IfErr result (λ fault. fault ≡ faults.Sink) }
    ensures failed { OnErr result (S.has_failed sink.new ≡ true) }
{
    let place = sent.place;
    let now = stage.now;
    hand(
        sink,
        Step::Start {
            at: now,
            id: sent.id,
        },
    )?;
    let bits = match stage.waiting.take(place) {
        Some(instance) => instance.frame.bits,
        None => {
            stage.joined = Some(place);
            bits_of(stage.offers.next()[place])
        }
    };
    stage.running = Some((now + u64::from(bits) * u64::from(ticks), sent.id));
    Ok(())
}

/// One turn: the next step is taken, and `false` says that none is left.
pub(crate) fn turn<B: Behaviour, S: Sink>(
    plan: &Plan,
    until: u64,
    behaviours: &mut Vec<B>,
    stage: &mut Stage,
    sink: &mut S,
) -> Result<bool, SimFault>
    requires sized { AreSized (length plan.now.streams) (at_hand stage.old) }
    requires behaviours { length behaviours.old.items ≡ length plan.now.streams }
    requires until { until ≤ 4000000000 }
    requires early { stage.old.now ≤ 4000000000 }
    requires works { S.has_failed sink.old ≡ false }
    ensures works { OnOk result (S.has_failed sink.new ≡ false) }
    ensures turned { (firsts : List _) (steps : List Step) → IsAt B.offer B.agrees plan.now until firsts behaviours.old.items (at_hand stage.old) steps → length steps < 2 ^ 64 - 1
        → IsTurned B.offer B.agrees S.takes plan.now until firsts behaviours.new.items (at_hand stage.new) (S.has_failed sink.new) sink.old sink.new steps result }
{
    let streams = plan.streams().streams();
    let ticks = plan.rate().ticks_per_bit();
    let now = stage.now;
    let first = stage.offers.first();
    match next_event(stage.running, first, stage.waiting.any_waits(), now, until) {
        Event::End { at, id } => { end_transfer(streams, until, behaviours, stage, at, id, sink)? }
        Event::Queue { due } => queue_offer(streams, until, behaviours, stage, due, sink)?,
        Event::Start => match choose(
            streams,
            &stage.offers,
            &stage.waiting,
            behaviours,
            ticks,
            now,
            first,
        ) {
            Some(sent) => start_transfer(stage, ticks, sent, sink)?,
            None => return Ok(false),
        },
        Event::Nothing => return Ok(false),
    }
    Ok(true)
}
