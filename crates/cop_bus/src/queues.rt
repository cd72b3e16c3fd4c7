//! The instances that wait, and the first of their streams.

ghost use Rattle.std.specs.Prelude.{◌≡◌, ◌≢◌, ℕ, ◌≤◌, ◌<◌, ◌∷◌, ◌++◌, [], ◌↔◌, IfOk, OnOk, OnErr, IsOk, Some, drop, length, slice_get, slice_set};
ghost use Rattle.cop_rta.specs.Streams.{AreDistinct};
ghost use Rattle.cop_bus.specs.Rings.{any_in, rings_of, RingValue};
ghost use Rattle.cop_bus.specs.Queues.{AreListed, IsLowestOf};

use crate::bus::Instance;
use crate::id_sets::IdSet;
use crate::rings::{Full, Ring, rings_of};
use cop_rta::{Stream, StreamSet};
use std::alloc::{AllocError, Global};
use std::marker::Model;

/// A stream of which an instance waits: its place, and its identifier.
#[derive(Clone, Copy, PartialEq, Eq, Debug)]
pub struct First {
    pub place: usize,
    pub id: u16,
}

/// The ring of each stream, by place, and the identifiers of those in which an instance waits.
#[derive(Drop)]
pub struct Queues {
    rings: Vec<Ring>,
    // Where the ring of each identifier stands, up to the greatest of them.
    places: Vec<usize>,
    waiting: IdSet,
}

impl Model for Queues {
    ghost use Rattle.std.specs.Prelude.{List};
    ghost use Rattle.cop_bus.specs.Rings.{RingValue};
    ghost use Rattle.cop_bus.specs.Queues.{AreQueued};

    ghost Value = { List RingValue };

    ghost view = { λ q. q.rings.items };

    ghost invariant = { λ q. AreQueued q.rings.items q.places.items q.waiting };
}

// Puts a place down for an identifier.
fn put_place(places: &mut Vec<usize>, id: u16, place: usize) -> Result<(), AllocError>
    ensures here { OnOk result (slice_get places.new.items id ≡ Some place) }
    ensures others { OnOk result ((k i : ℕ) → k ≢ id → slice_get places.old.items k ≡ Some i → slice_get places.new.items k ≡ Some i) }
    ensures few { OnOk result (length places.old.items ≤ 65536 → length places.new.items ≤ 65536) }
{
    let id = usize::from(id);
    if places.len() <= id {
        places.resize(id + 1, 0)?;
    }
    places[id] = place;
    Ok(())
}

// Where the stream of each identifier stands.
fn places_of(alloc: Global, streams: &[Stream]) -> Result<Vec<usize>, AllocError>
    requires { AreDistinct streams.now }
    ensures listed { IfOk result (λ places. AreListed streams.now (length streams.now) places.items) }
    ensures few { IfOk result (λ places. length places.items ≤ 65536) }
{
    let mut places = Vec::new(alloc);
    for i in 0..streams.len() {
        put_place(&mut places, streams[i].id, i)?;
    }
    Ok(places)
}

impl Queues {
    /// The rings of streams, in which nothing waits, with as many places as [`most_of`](crate::most_of) says.
    pub fn new(alloc: Global, streams: &StreamSet) -> Result<Queues, AllocError>
        ensures { IfOk result (λ q. q ≡ rings_of streams.now) }
    {
        let streams = streams.streams();
        let places = places_of(alloc, streams)?;
        Ok(Queues {
            rings: rings_of(alloc, streams)?,
            waiting: IdSet::with_room(alloc, places.len())?,
            places,
        })
    }

    /// The rings, by place.
    pub fn rings(&self) -> &[Ring]
        ensures { result.now ≡ self.now }
    {
        &self.rings
    }

    /// Whether some instance waits.
    pub fn any_waits(&self) -> bool
        ensures { result ≡ any_in self.now }
    {
        self.waiting.lowest().is_some()
    }

    /// The stream with the lowest identifier of which an instance waits.
    pub fn lowest(&self) -> Option<First>
        ensures { IsLowestOf self.now result }
    {
        let id = self.waiting.lowest()?;
        Some(First {
            place: self.places[id],
            id: id as u16,
        })
    }

    /// Lets an instance wait in the ring of its place.
    pub fn queue(&mut self, place: usize, instance: Instance) -> Result<(), Full>
        requires { place < length self.old }
        ensures room { (r : RingValue) → slice_get self.old place ≡ Some r → (IsOk result ↔ (length r.waiting < r.most)) }
        ensures ok { (r : RingValue) → slice_get self.old place ≡ Some r → OnOk result (self.new ≡ slice_set self.old place (record r { waiting = r.waiting ++ instance ∷ [] })) }
        ensures err { OnErr result (self.new ≡ self.old) }
    {
        self.rings[place].queue(instance)?;
        self.waiting.insert(self.rings[place].id());
        Ok(())
    }

    /// Takes the first instance out of the ring of a place.
    pub fn take(&mut self, place: usize) -> Option<Instance>
        requires { place < length self.old }
        ensures value { (r : RingValue) → slice_get self.old place ≡ Some r → result ≡ slice_get r.waiting 0 }
        ensures rest { (r : RingValue) → slice_get self.old place ≡ Some r → self.new ≡ slice_set self.old place (record r { waiting = drop 1 r.waiting }) }
        ensures count { length self.new ≡ length self.old }
    {
        let first = self.rings[place].take();
        if self.rings[place].len() == 0 {
            self.waiting.remove(self.rings[place].id());
        }
        first
    }
}
