//! The offers at hand.

ghost use Rattle.std.specs.Prelude.{◌≡◌, ℕ, ◌<◌, List, None, IfOk, IfSome, length, map, replicate, slice_set};
ghost use Rattle.cop_rta.specs.declared.streams.Stream.{Stream};
ghost use Rattle.cop_sim.specs.Hands.{offer_rank, IsEarly};
ghost use Rattle.cop_sim.specs.Seats.{next_at, IsDueSoFar};

use crate::behaviours::Offer;
use crate::due::Due;
use crate::seats::queued_at;
use cop_bus::{Rank, Ranking};
use cop_rta::Stream;
use std::alloc::{AllocError, Global};
use std::marker::Model;

/// The next offer of each stream, by place, and their ranks.
#[derive(Drop)]
pub(crate) struct Offers {
    ids: Vec<u16>,
    next: Vec<Option<Offer>>,
    ranking: Ranking,
}

impl Model for Offers {
    ghost use Rattle.cop_sim.specs.Hands.{OffersValue, AreRanked};

    ghost Value = { OffersValue };

    ghost view = { λ o. record { ids = o.ids.items; next = o.next.items } };

    ghost invariant = { λ o. AreRanked o.ids.items o.next.items o.ranking };
}

// The rank of an offer of the stream at a place.
fn rank_of(ids: &[u16], place: usize, offer: Option<Offer>) -> Option<Rank>
    requires place { place < length ids.now }
    requires early { IsEarly offer }
    ensures { result ≡ offer_rank ids.now place offer }
{
    match offer {
        Some(offer) => Some(Rank {
            at: queued_at(&offer) as u32,
            id: ids[place],
            place,
        }),
        None => None,
    }
}

impl Offers {
    /// No offer of any of the streams.
    pub(crate) fn new(alloc: Global, streams: &[Stream]) -> Result<Offers, AllocError>
        ensures { IfOk result (λ o. o ≡ record { ids = map (λ k. k.id) streams.now; next = replicate (length streams.now) None }) }
    {
        Ok(Offers {
            ids: ids_of(alloc, streams)?,
            next: vec![in alloc; None; streams.len()]?,
            ranking: Ranking::new(alloc, streams.len())?,
        })
    }

    /// The offers, by place.
    pub(crate) fn next(&self) -> &[Option<Offer>]
        ensures { result.now ≡ self.now.next }
    {
        &self.next
    }

    /// The first of them: at one moment that of the lowest identifier.
    pub(crate) fn first(&self) -> Option<Due>
        ensures within { IfSome result (λ d. d.place < length self.now.next) }
        ensures first { (streams : List Stream) → self.now.ids ≡ map (λ k. k.id) streams → IsDueSoFar streams self.now.next (length self.now.next) result }
    {
        let rank = self.ranking.first()?;
        let offer = self.next[rank.place]?;
        Some(Due {
            place: rank.place,
            id: rank.id,
            offer,
        })
    }

    /// Puts another offer, or none, in the place of one.
    pub(crate) fn set(&mut self, place: usize, offer: Option<Offer>)
        requires ids { place < length self.old.ids }
        requires next { place < length self.old.next }
        requires early { IsEarly offer }
        ensures { self.new ≡ record self.old { next = slice_set self.old.next place offer } }
    {
        self.next[place] = offer;
        self.ranking.set(place, rank_of(&self.ids, place, offer));
    }
}

fn ids_of(alloc: Global, streams: &[Stream]) -> Result<Vec<u16>, AllocError>
    ensures { IfOk result (λ ids. ids.items ≡ map (λ k. k.id) streams.now) }
{
    let mut ids = Vec::new(alloc);
    for stream in streams {
        ids.push(stream.id)?;
    }
    Ok(ids)
}

/// The offers of streams, by place.
pub(crate) fn offers_of(
    alloc: Global,
    streams: &[Stream],
    next: &[Option<Offer>],
) -> Result<Offers, AllocError>
    requires count { length next.now ≡ length streams.now }
    requires early { (i : ℕ) → IsEarly (next_at next.now i) }
    ensures { IfOk result (λ o. o ≡ record { ids = map (λ k. k.id) streams.now; next = next.now }) }
{
    let mut offers = Offers::new(alloc, streams)?;
    for i in 0..next.len() {
        offers.set(i, next[i]);
    }
    Ok(offers)
}
