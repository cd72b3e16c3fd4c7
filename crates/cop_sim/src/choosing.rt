//! Who is sent at a start.

ghost use Rattle.std.specs.Prelude.{◌≡◌, ◌^◌, ◌<◌, ◌==◌, length, IfSome, Some};
ghost use Rattle.cop_sim.specs.Play.{queued_at};
ghost use Rattle.cop_sim.specs.Seats.{joins_with, may_be_sent, IsDueSoFar, IsChosenSoFar, is_due_before, is_lower, lower_of, sent_first};
ghost use Rattle.cop_sim.specs.Hands.{AreTheirs};

use crate::behaviours::{Behaviour, Offer};
use crate::due::Due;
use crate::offers::Offers;
use crate::seats::queued_at;
use cop_bus::{First, Queues, Ring};
use cop_rta::Stream;

/// The stream that is sent, by its place.
#[derive(Clone, Copy)]
pub(crate) struct Sent {
    pub place: usize,
    pub id: u16,
}

// Whether an offer joins the start at a moment, where so many instances of its stream wait.
fn joins_with<B: Behaviour>(
    behaviour: &B,
    ticks: u32,
    now: u64,
    waiting: usize,
    next: Option<Offer>,
) -> bool
    requires { now < 2 ^ 33 }
    ensures { result ≡ joins_with (B.agrees behaviour.now) ticks now waiting next }
{
    match next {
        Some(offer) => {
            let at = queued_at(&offer);
            let start = u128::from(now);
            if waiting == 0 && start < at && at < start + u128::from(ticks) {
                behaviour.joins(now, at as u64)
            } else {
                false
            }
        }
        None => false,
    }
}

fn may_be_sent<B: Behaviour>(
    behaviour: &B,
    ticks: u32,
    now: u64,
    waiting: usize,
    next: Option<Offer>,
) -> bool
    requires { now < 2 ^ 33 }
    ensures { result ≡ may_be_sent (B.agrees behaviour.now) ticks now waiting next }
{
    0 < waiting || joins_with(behaviour, ticks, now, waiting, next)
}

fn is_lower(id: u16, than: Option<Sent>) -> bool
    ensures { result ≡ is_lower id than }
{
    match than {
        Some(sent) => id < sent.id,
        None => true,
    }
}

// The chosen one, or another stream that may be sent if its identifier is lower.
fn lower_of(chosen: Option<Sent>, place: usize, id: u16, may: bool) -> Option<Sent>
    ensures { result ≡ lower_of chosen place id may }
{
    if may && is_lower(id, chosen) {
        Some(Sent { place, id })
    } else {
        chosen
    }
}

// The lowest of the streams of which an instance waits or joins, all of which are looked at.
fn choose_of_all<B: Behaviour>(
    streams: &[Stream],
    next: &[Option<Offer>],
    rings: &[Ring],
    behaviours: &Vec<B>,
    ticks: u32,
    now: u64,
) -> Option<Sent>
    requires early { now < 2 ^ 33 }
    requires next { length next.now ≡ length streams.now }
    requires rings { length rings.now ≡ length streams.now }
    requires behaviours { length behaviours.now.items ≡ length streams.now }
    ensures { IsChosenSoFar B.agrees streams.now next.now rings.now behaviours.now.items ticks now (length streams.now) result }
{
    let mut chosen = None;
    for i in 0..streams.len() {
        let id = streams[i].id;
        let may = may_be_sent(&behaviours[i], ticks, now, rings[i].len(), next[i]);
        chosen = lower_of(chosen, i, id, may);
    }
    chosen
}

fn sent_first(first: Option<First>) -> Option<Sent>
    ensures { result ≡ sent_first first }
{
    match first {
        Some(first) => Some(Sent {
            place: first.place,
            id: first.id,
        }),
        None => None,
    }
}

fn is_due_before(due: Option<Due>, moment: u128) -> bool
    ensures { result ≡ is_due_before due moment }
{
    match due {
        Some(due) => queued_at(&due.offer) < moment,
        None => false,
    }
}

/// The lowest of the streams of which an instance waits or joins, by the first offer at hand. Where that is queued a bit
/// time after the start or later no stream joins, and none but the first that waits is looked at.
pub(crate) fn choose<B: Behaviour>(
    streams: &[Stream],
    offers: &Offers,
    waiting: &Queues,
    behaviours: &Vec<B>,
    ticks: u32,
    now: u64,
    first: Option<Due>,
) -> Option<Sent>
    requires early { now < 2 ^ 33 }
    requires next { length offers.now.next ≡ length streams.now }
    requires rings { length waiting.now ≡ length streams.now }
    requires behaviours { length behaviours.now.items ≡ length streams.now }
    ensures within { IfSome result (λ s. s.place < length streams.now) }
    ensures chosen { IsDueSoFar streams.now offers.now.next (length offers.now.next) first → AreTheirs streams.now waiting.now
        → IsChosenSoFar B.agrees streams.now offers.now.next waiting.now behaviours.now.items ticks now (length streams.now) result }
{
    if is_due_before(first, u128::from(now) + u128::from(ticks)) {
        choose_of_all(
            streams,
            offers.next(),
            waiting.rings(),
            behaviours,
            ticks,
            now,
        )
    } else {
        sent_first(waiting.lowest())
    }
}
