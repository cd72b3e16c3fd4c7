//! The judge of a trace.

ghost use Rattle.std.specs.Prelude.{◌≡◌, ◌<◌, ◌≤◌, ℕ, List, All, Any, Some, None, true, false, suc, length, slice_index, OnOk, IfOk, IfErr};
ghost use Rattle.cop_frame.specs.Rate.{ticks_of};
ghost use Rattle.cop_rta.specs.declared.streams.Stream.{Stream};
ghost use Rattle.cop_bus.specs.declared.steps.Step.{Step};
ghost use Rattle.cop_bus.specs.Judge.{IsFaultOf, first_broken, stream_of, id_of, is_in_order, has_one_to_send, is_lowest, is_not_idle, broken_in_turn, broken_by, broken_at_end};
ghost use Rattle.cop_bus.specs.Trace.{IsLegalTrace, running as running_spec, after, step_at, nth_that, is_queue, is_start, count_to};
ghost use Rattle.cop_bus.specs.Tables.{AreSyncs, AreTables, IsWaiting, IsUnsent, IsNext, IsLast, ahead_after, next_after, unsent_after, links_after, last_after};
ghost use Rattle.cop_bus.specs.Late.{IsSent};

use crate::ends::Syncs;
use crate::faults::BusFault;
use crate::pending::{any_waits, lower_waits, note_waiting};
use crate::rules::{
    at_of, bits, fits_transfer, id_of, is_of_length, is_period_later, is_queued_in_time,
    is_soon_queued, is_unfinished, not_before,
};
use crate::runs::{Run, Trace};
use crate::steps::Step;
use cop_frame::Rate;
use cop_frame::identifiers::SYNC;
use cop_rta::{Stream, StreamSet};
use std::alloc::{AllocError, Global};
use std::collections::BTreeSet;

// How many identifiers a trace can name.
const IDS: usize = 65536;

/// Takes a trace that breaks none of the rules of legal runs. Its steps stand by moment; of one moment ends come
/// first, then queues, then starts. The rules:
///
/// - 60: moments don't fall, none is after the end, and the order of one moment
/// - 61: the identifier is in the set
/// - 62: each event of a stream is a period at least after the one before; of a synchronous stream the SYNC that has the
///   event is so many numbers at least after the one before
/// - 63: an instance is queued from its event to the jitter after it; of a synchronous stream from the end of the SYNC that
///   has its event to the latency after that. An event that no ended SYNC has breaks this rule alone
/// - 64: its frame has a length, and the number of data bytes, of a frame of the stream
/// - 65: no start while a transfer runs; each end is of the transfer that runs and at its moment; none is missing
/// - 66: at a start some instance waits, and the stream has one to send, queued less than a bit time after it
/// - 67: at a start none with a lower identifier waits
/// - 68: none waits at an earlier tick at which no transfer runs
pub fn judge<'a>(
    alloc: Global,
    streams: &'a StreamSet,
    rate: Rate,
    trace: &'a Trace,
) -> Result<Run<'a>, BusFault>
    ensures ok { IfOk result (λ run. (run.streams.now ≡ streams.now) × (run.trace.now ≡ trace.now) × (run.rate ≡ rate)) }
    ensures clean { OnOk result (first_broken (ticks_of rate) streams.now trace.now.until trace.now.steps.items ≡ None) }
    ensures legal { OnOk result (IsLegalTrace (ticks_of rate) streams.now trace.now.until trace.now.steps.items) }
    ensures err { IfErr result (λ fault. IsFaultOf (first_broken (ticks_of rate) streams.now trace.now.until trace.now.steps.items) fault) }
{
    let links = check_steps(
        alloc,
        streams,
        rate.ticks_per_bit(),
        trace.until,
        &trace.steps,
    )?;
    let _distinct = streams.streams();
    Ok(Run {
        streams,
        trace,
        rate,
        links,
    })
}

// For each queue step the place of the start that sends its instance, if the trace breaks no rule; else the first step
// that breaks one, and the least rule that it breaks.
fn check_steps(
    alloc: Global,
    streams: &StreamSet,
    ticks: u32,
    until: u64,
    steps: &[Step],
) -> Result<Vec<usize>, BusFault>
    ensures ok { OnOk result (first_broken ticks streams.now until steps.now ≡ None) }
    ensures sent { IfOk result (λ links. IsSent steps.now links.items) }
    ensures err { IfErr result (λ fault. IsFaultOf (first_broken ticks streams.now until steps.now) fault) }
{
    let linked = link_all(alloc, steps)?;
    let mut links = linked.next;
    let mut running = None;
    let mut tables = Tables {
        last: no_events(alloc)?,
        unsent: linked.first,
        waiting: BTreeSet::new(alloc),
        syncs: Syncs::new(alloc),
    };
    let is_synced = is_any_synchronous(streams.streams());
    for i in 0..steps.len() {
        match broken_by(streams, ticks, until, steps, i, running, &tables) {
            Some(number) => return Err(BusFault::Refused {
                place: i + 1,
                number,
            }),
            None => {}
        }
        note_transfer(steps, i, ticks, &tables.unsent, &mut running);
        note_event(&steps[i], &mut tables.last);
        note_sync(is_synced, steps, i, &tables.unsent, &mut tables.syncs)?;
        send(&steps[i], i, &mut links, &mut tables.unsent);
        note_waiting(&steps[i], &tables.unsent, i, &mut tables.waiting)?;
    }
    match broken_at_end(until, steps, running, &tables.waiting) {
        Some(number) => Err(BusFault::Refused {
            place: steps.len() + 1,
            number,
        }),
        None => Ok(links),
    }
}

// What the judge knows after the steps so far, beside the transfer that runs.
#[derive(Drop)]
struct Tables {
    // Each stream's last event.
    last: Vec<Option<u64>>,
    // The place of each stream's first instance that is not sent.
    unsent: Vec<usize>,
    // The identifiers of which an instance waits.
    waiting: BTreeSet<u16>,
    // Which SYNCs have ended. Where no stream is synchronous nothing is noted there.
    syncs: Syncs,
}

// For each identifier the place of its first queue step, and for each queue step that of the stream's next;
// the number of steps where there is none.
#[derive(Drop)]
struct Links {
    first: Vec<usize>,
    next: Vec<usize>,
}

fn link_all(alloc: Global, steps: &[Step]) -> Result<Links, AllocError>
    ensures first { IfOk result (λ links. IsUnsent steps.now 0 links.first.items) }
    ensures next { IfOk result (λ links. IsNext steps.now 0 links.next.items) }
{
    let mut first = vec![in alloc; steps.len(); IDS]?;
    let mut next = vec![in alloc; steps.len(); steps.len()]?;
    let mut i = steps.len();
    while i > 0 {
        i -= 1;
        link(&steps[i], i, &mut first, &mut next);
    }
    Ok(Links { first, next })
}

// Takes a queue step, which stands before those that are taken, into the tables.
fn link(step: &Step, i: usize, ahead: &mut Vec<usize>, next: &mut Vec<usize>)
    requires ids { length ahead.old.items ≡ 65536 }
    requires i { i < length next.old.items }
    ensures ahead { ahead.new.items ≡ ahead_after step.now i ahead.old.items }
    ensures next { next.new.items ≡ next_after step.now i ahead.old.items next.old.items }
    ensures fits { id_of step.now < 65536 }
{
    let id = usize::from(id_of(step));
    match step {
        Step::Queue { .. } => {
            next[i] = ahead[id];
            ahead[id] = i;
        }
        Step::Start { .. } => {}
        Step::End { .. } => {}
    }
}

fn no_events(alloc: Global) -> Result<Vec<Option<u64>>, AllocError>
    ensures { (steps : List _) → IfOk result (λ last. IsLast steps 0 last.items) }
{
    Ok(vec![in alloc; None; IDS]?)
}

// Notes the event of what the step queues.
fn note_event(step: &Step, last: &mut Vec<Option<u64>>)
    requires { length last.old.items ≡ 65536 }
    ensures { last.new.items ≡ last_after step.now last.old.items }
{
    match step {
        Step::Queue { id, event, .. } => last[usize::from(*id)] = Some(*event),
        Step::Start { .. } => {}
        Step::End { .. } => {}
    }
}

// Whether some stream is synchronous.
fn is_any_synchronous(streams: &[Stream]) -> bool
    ensures none { result ≡ false → All (λ k. k.every ≡ 0) streams.now }
    ensures some { result ≡ true → Any (λ k. 1 ≤ k.every) streams.now }
{
    for stream in streams {
        if 0 < stream.every {
            return true;
        }
    }
    false
}

// Notes what step number `i`, which breaks no rule, does to SYNC, where some stream is synchronous.
fn note_sync(
    is_synced: bool,
    steps: &[Step],
    i: usize,
    unsent: &[usize],
    syncs: &mut Syncs,
) -> Result<(), AllocError>
    requires i { i < length steps.now }
    requires unsent { IsUnsent steps.now i unsent.now }
    requires number { is_synced ≡ true → syncs.old.number < 18446744073709551615 }
    ensures { (tau : ℕ) (streams : List Stream) (until : ℕ) → is_synced ≡ true → broken_by tau streams until steps.now i (step_at steps.now i) ≡ None → AreSyncs tau steps.now i syncs.old
        → OnOk result (AreSyncs tau steps.now (suc i) syncs.new) }
{
    if is_synced {
        note_sync_step(steps, i, unsent, syncs)
    } else {
        Ok(())
    }
}

// The same where one is. Traces without synchronous streams are judged faster where this is no part of the judge's loop.
#[cold]
#[inline(never)]
fn note_sync_step(
    steps: &[Step],
    i: usize,
    unsent: &[usize],
    syncs: &mut Syncs,
) -> Result<(), AllocError>
    requires i { i < length steps.now }
    requires unsent { IsUnsent steps.now i unsent.now }
    requires number { syncs.old.number < 18446744073709551615 }
    ensures { (tau : ℕ) (streams : List Stream) (until : ℕ) → broken_by tau streams until steps.now i (step_at steps.now i) ≡ None → AreSyncs tau steps.now i syncs.old
        → OnOk result (AreSyncs tau steps.now (suc i) syncs.new) }
{
    match steps[i] {
        Step::Queue { .. } => Ok(()),
        Step::Start { id, .. } => {
            if id == SYNC {
                syncs.send(unsent_of(steps, unsent, SYNC));
            }
            Ok(())
        }
        Step::End { id, at } => { if id == SYNC { syncs.end(at) } else { Ok(()) } }
    }
}

// Notes that a start, which is step number `i`, sends its stream's first unsent instance: this one is linked to the
// start, and the next one it was linked to is now the first.
fn send(step: &Step, i: usize, links: &mut Vec<usize>, unsent: &mut Vec<usize>)
    requires ids { length unsent.old.items ≡ 65536 }
    requires some { (at id : ℕ) → step.now ≡ Step.Start id at → slice_index unsent.old.items id < length links.old.items }
    ensures unsent { unsent.new.items ≡ unsent_after step.now links.old.items unsent.old.items }
    ensures links { links.new.items ≡ links_after step.now i unsent.old.items links.old.items }
{
    match step {
        Step::Queue { .. } => {}
        Step::Start { id, .. } => {
            let id = usize::from(*id);
            let sent = unsent[id];
            unsent[id] = links[sent];
            links[sent] = i;
        }
        Step::End { .. } => {}
    }
}

// The stream's first unsent instance in the whole trace.
fn unsent_of(steps: &[Step], unsent: &[usize], id: u16) -> Option<Step>
    requires { length unsent.now ≡ 65536 }
    ensures { (i : ℕ) → IsUnsent steps.now i unsent.now → result ≡ nth_that (is_queue id) (count_to (is_start id) steps.now i) steps.now }
{
    let place = unsent[usize::from(id)];
    if place < steps.len() {
        Some(steps[place])
    } else {
        None
    }
}

// Notes the transfer that runs after step number `i`.
fn note_transfer(
    steps: &[Step],
    i: usize,
    ticks: u32,
    unsent: &[usize],
    running: &mut Option<(u16, u128)>,
)
    requires i { i < length steps.now }
    requires unsent { IsUnsent steps.now i unsent.now }
    ensures { running.new ≡ after ticks steps.now i (step_at steps.now i) running.old }
{
    match steps[i] {
        Step::Queue { .. } => {}
        Step::Start { at, id } => {
            let bits = bits(unsent_of(steps, unsent, id));
            *running = Some((id, u128::from(at) + u128::from(bits) * u128::from(ticks)));
        }
        Step::End { .. } => *running = None,
    }
}

fn is_in_order(steps: &[Step], i: usize, until: u64) -> bool
    requires { i < length steps.now }
    ensures { result ≡ is_in_order until steps.now i (step_at steps.now i) }
{
    let step = &steps[i];
    if i == 0 {
        at_of(step) <= until
    } else {
        at_of(step) <= until && not_before(&steps[i - 1], step)
    }
}

fn has_one_to_send(
    ticks: u32,
    steps: &[Step],
    i: usize,
    unsent: &[usize],
    waiting: &BTreeSet<u16>,
) -> bool
    requires i { i < length steps.now }
    requires unsent { IsUnsent steps.now i unsent.now }
    ensures { (streams : List Stream) → IsWaiting streams steps.now i waiting.now → result ≡ has_one_to_send ticks streams steps.now i (step_at steps.now i) }
{
    match steps[i] {
        Step::Queue { .. } => true,
        Step::Start { at, id } => {
            any_waits(waiting) && is_soon_queued(ticks, at, unsent_of(steps, unsent, id))
        }
        Step::End { .. } => true,
    }
}

fn is_lowest(steps: &[Step], i: usize, waiting: &BTreeSet<u16>) -> bool
    requires { i < length steps.now }
    ensures { (streams : List Stream) → IsWaiting streams steps.now i waiting.now → result ≡ is_lowest streams steps.now i (step_at steps.now i) }
{
    match steps[i] {
        Step::Queue { .. } => true,
        Step::Start { id, .. } => !lower_waits(waiting, id),
        Step::End { .. } => true,
    }
}

fn is_not_idle(
    steps: &[Step],
    i: usize,
    running: Option<(u16, u128)>,
    moment: u64,
    waiting: &BTreeSet<u16>,
) -> bool
    requires { i ≤ length steps.now }
    ensures { (streams : List Stream) → IsWaiting streams steps.now i waiting.now → result ≡ is_not_idle streams steps.now i running moment }
{
    if i == 0 {
        return true;
    }
    match running {
        None => moment <= at_of(&steps[i - 1]) || !any_waits(waiting),
        Some(_) => true,
    }
}

// The least rule that step number `i` breaks of those that ask what runs and what waits.
fn broken_in_turn(
    ticks: u32,
    steps: &[Step],
    i: usize,
    running: Option<(u16, u128)>,
    unsent: &[usize],
    waiting: &BTreeSet<u16>,
) -> Option<u8>
    requires i { i < length steps.now }
    requires unsent { IsUnsent steps.now i unsent.now }
    ensures { (streams : List Stream) → IsWaiting streams steps.now i waiting.now → result ≡ broken_in_turn ticks streams steps.now i running (step_at steps.now i) }
{
    let step = &steps[i];
    if !fits_transfer(running, step) {
        Some(65)
    } else if !has_one_to_send(ticks, steps, i, unsent, waiting) {
        Some(66)
    } else if !is_lowest(steps, i, waiting) {
        Some(67)
    } else if !is_not_idle(steps, i, running, at_of(step), waiting) {
        Some(68)
    } else {
        None
    }
}

// The least rule that step number `i` breaks.
fn broken_by(
    streams: &StreamSet,
    ticks: u32,
    until: u64,
    steps: &[Step],
    i: usize,
    running: Option<(u16, u128)>,
    tables: &Tables,
) -> Option<u8>
    requires i { i < length steps.now }
    requires running { running ≡ running_spec ticks steps.now i }
    requires tables { AreTables ticks streams.now steps.now i tables.now }
    ensures least { result ≡ broken_by ticks streams.now until steps.now i (step_at steps.now i) }
    ensures fits { id_of (step_at steps.now i) < 65536 }
{
    let step = &steps[i];
    let id = id_of(step);
    let stream = stream_of(streams, id);
    if !is_in_order(steps, i, until) {
        Some(60)
    } else if stream.is_none() {
        Some(61)
    } else if !is_period_later(stream, tables.last[usize::from(id)], &tables.syncs, step) {
        Some(62)
    } else if !is_queued_in_time(stream, &tables.syncs, step) {
        Some(63)
    } else if !is_of_length(stream, step) {
        Some(64)
    } else {
        broken_in_turn(ticks, steps, i, running, &tables.unsent, &tables.waiting)
    }
}

// The least rule that is broken at the trace's end.
fn broken_at_end(
    until: u64,
    steps: &[Step],
    running: Option<(u16, u128)>,
    waiting: &BTreeSet<u16>,
) -> Option<u8>
    ensures { (streams : List Stream) (ticks : ℕ) → IsWaiting streams steps.now (length steps.now) waiting.now → running ≡ running_spec ticks steps.now (length steps.now)
        → result ≡ broken_at_end ticks streams until steps.now }
{
    if !is_unfinished(until, running) {
        Some(65)
    } else if !is_not_idle(steps, steps.len(), running, until, waiting) {
        Some(68)
    } else {
        None
    }
}

// The stream of the set that has the identifier.
pub(crate) fn stream_of(streams: &StreamSet, id: u16) -> Option<Stream>
    ensures { result ≡ stream_of streams.now id }
{
    match streams.place_of(id) {
        Some(place) => Some(streams.streams()[place]),
        None => None,
    }
}
