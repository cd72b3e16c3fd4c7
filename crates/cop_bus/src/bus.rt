//! The bus itself: instances wait in rings, and the one with the lowest identifier is sent.

ghost use Rattle.std.specs.Prelude.{◌≡◌, ◌≢◌, ◌+◌, ◌^◌, ◌<◌, ◌≤◌, ◌∷◌, ◌++◌, [], ◌↔◌, All, AllPairs, Any, OnOk, OnErr, IfOk, IfSome, IfNone, IsOk, None, Some, true, false, ℕ, ◌*◌, length, slice_get, slice_set};
ghost use Rattle.cop_frame.specs.Rate.{ticks_of};
ghost use Rattle.cop_rta.specs.Streams.{AreDistinct};
ghost use Rattle.cop_bus.specs.Bus.{ArePlaced, AreQueuedBy, IsLowestAt, Starts, is_lower, without_first};
ghost use Rattle.cop_bus.specs.declared.bus.Instance.{Instance as Seen};
ghost use Rattle.cop_bus.specs.Queues.{IsLowest};
ghost use Rattle.cop_bus.specs.Rings.{RingValue, rings_of};

use crate::queues::{First, Queues};
use crate::rings::{Full, Ring};
use crate::steps::Content;
use cop_frame::Rate;
use cop_rta::{Stream, StreamSet};
use std::alloc::{AllocError, Global};
use std::collections::BTreeMap;
use std::marker::Model;

/// An instance of a stream: the moments at which it is queued and of its event, in ticks, and its frame.
#[derive(Clone, Copy, PartialEq, Eq, Debug)]
pub struct Instance {
    pub at: u64,
    pub id: u16,
    pub event: u64,
    pub frame: Content,
}

/// A transfer that starts: its identifier, and whether it is a joiner's.
#[derive(Clone, Copy, PartialEq, Eq, Debug)]
pub struct Started {
    pub id: u16,
    pub joined: bool,
}

/// A bus: the ring of each stream with the instances that wait, which an ordered map finds by the identifier, and the
/// transfer that runs. All memory is taken when it is made.
#[derive(Drop)]
pub struct Bus {
    rate: Rate,
    places: BTreeMap<u16, usize>,
    queues: Queues,
    running: Option<(u64, u16)>,
}

impl Model for Bus {
    ghost use Rattle.cop_bus.specs.Bus.{Bus as Seen, ArePlaced};

    ghost Value = { Seen };

    ghost view = { λ b. record { rate = b.rate; rings = b.queues; running = b.running } };

    ghost invariant = { λ b. ArePlaced b.places b.queues };
}

// Where the stream of each identifier stands.
fn places_of(alloc: Global, streams: &[Stream]) -> Result<BTreeMap<u16, usize>, AllocError>
    requires { AreDistinct streams.now }
    ensures { IfOk result (λ places. ArePlaced places (rings_of streams.now)) }
{
    let mut places = BTreeMap::new(alloc);
    for i in 0..streams.len() {
        match places.insert(streams[i].id, i) {
            Ok(_) => {}
            Err(_) => return Err(AllocError),
        }
    }
    Ok(places)
}

impl Bus {
    /// A bus on which nothing waits or runs, with room for as many instances of each stream of the set as
    /// [`most_of`](crate::most_of) says.
    pub fn with_rings(alloc: Global, streams: &StreamSet, rate: Rate) -> Result<Bus, AllocError>
        ensures bus { IfOk result (λ bus. bus ≡ record { rate = rate; rings = rings_of streams.now; running = None }) }
        ensures queued { IfOk result (λ bus. (now : ℕ) → AreQueuedBy bus.rings now) }
    {
        Ok(Bus {
            rate,
            places: places_of(alloc, streams.streams())?,
            queues: Queues::new(alloc, streams)?,
            running: None,
        })
    }

    /// The rate at which frames are sent.
    pub fn rate(&self) -> Rate
        ensures { result ≡ self.now.rate }
    {
        self.rate
    }

    /// The rings, in the order of the set.
    pub fn rings(&self) -> &[Ring]
        ensures { result.now ≡ self.now.rings }
    {
        self.queues.rings()
    }

    /// Whether a stream of the identifier is in the set.
    pub fn has_stream(&self, id: u16) -> bool
        ensures there { result ≡ true → Any (λ r. r.id ≡ id) self.now.rings }
        ensures none { result ≡ false → All (λ r. r.id ≢ id) self.now.rings }
    {
        match self.places.get(&id) {
            Some(place) => self.queues.rings()[*place].id() == id,
            None => false,
        }
    }

    /// The moment at which the transfer that runs ends, and its identifier.
    pub fn running(&self) -> Option<(u64, u16)>
        ensures { result ≡ self.now.running }
    {
        self.running
    }

    /// Lets an instance wait behind the others of its stream, which is in the set. It takes no memory. `Err` where the
    /// stream's ring is full: nothing has changed.
    pub fn queue(&mut self, instance: Instance) -> Result<(), Full>
        requires { Any (λ r. r.id ≡ instance.id) self.old.rings }
        ensures room { (place : ℕ) (r : RingValue) → slice_get self.old.rings place ≡ Some r → r.id ≡ instance.id → (IsOk result ↔ (length r.waiting < r.most)) }
        ensures ok { (place : ℕ) (r : RingValue) → slice_get self.old.rings place ≡ Some r → r.id ≡ instance.id
            → OnOk result (self.new ≡ record self.old { rings = slice_set self.old.rings place (record r { waiting = r.waiting ++ instance ∷ [] }) }) }
        ensures err { OnErr result (self.new ≡ self.old) }
        ensures running { self.new.running ≡ self.old.running }
        ensures queued { (now : ℕ) → instance.at ≤ now → AreQueuedBy self.old.rings now → AreQueuedBy self.new.rings now }
    {
        match self.places.get(&instance.id) {
            Some(place) => {
                let place = *place;
                self.queues.queue(place, instance)
            }
            None => Err(Full {}),
        }
    }

    /// Starts the transfer of the lowest identifier among the instances that wait and the joiners, at the moment `now`
    /// in ticks; of those of one stream the one that waits longest. A joiner is queued after the start, less than a
    /// bit time, and is not to be queued once it is sent. `None` where nothing waits, also with joiners.
    pub fn start(&mut self, now: u64, joiners: &[Instance]) -> Option<Started>
        requires idle { self.old.running ≡ None }
        requires early { now < 2 ^ 63 }
        requires queued { AreQueuedBy self.old.rings now }
        requires soon { All (λ j. (now < j.at) × (j.at < now + ticks_of self.old.rate)) joiners.now }
        requires none_waits { All (λ j. All (λ r. r.id ≡ j.id → r.waiting ≡ []) self.old.rings) joiners.now }
        requires distinct { AllPairs (λ j k. j.id ≢ k.id) joiners.now }
        ensures starts { Starts self.old now joiners.now self.new result }
        ensures queued { (now : ℕ) → AreQueuedBy self.old.rings now → AreQueuedBy self.new.rings now }
    {
        match self.queues.lowest() {
            Some(first) => Some(self.start_first(now, first, joiners)),
            None => None,
        }
    }

    // Starts the lowest of the joiners, or else the first instance of a ring.
    fn start_first(&mut self, now: u64, first: First, joiners: &[Instance]) -> Started
        requires early { now < 2 ^ 63 }
        requires first { IsLowest self.old.rings first }
        ensures { Starts self.old now joiners.now self.new (Some result) }
    {
        let id = first.id;
        match lowest_below(joiners, id) {
            Some(joiner) => {
                self.running = Some(transfer(self.rate, now, joiner.id, joiner.frame.bits));
                Started {
                    id: joiner.id,
                    joined: true,
                }
            }
            None => {
                let bits = take_bits(&mut self.queues, first.place);
                self.running = Some(transfer(self.rate, now, id, bits));
                Started { id, joined: false }
            }
        }
    }

    /// Ends the transfer that runs: its moment and identifier. `None` where none runs.
    pub fn end(&mut self) -> Option<(u64, u16)>
        ensures transfer { result ≡ self.old.running }
        ensures idle { self.new ≡ record self.old { running = None } }
    {
        self.running.take()
    }
}

// Takes the first instance out of the ring of a place: how many bits its frame has.
fn take_bits(queues: &mut Queues, place: usize) -> u32
    requires { place < length queues.old }
    ensures bits { (r : RingValue) (y : Seen) → slice_get queues.old place ≡ Some r → slice_get r.waiting 0 ≡ Some y → result ≡ y.frame.bits }
    ensures rest { (r : RingValue) → slice_get queues.old place ≡ Some r → queues.new ≡ slice_set queues.old place (without_first r) }
{
    match queues.take(place) {
        Some(sent) => sent.frame.bits,
        None => 0,
    }
}

// A transfer of so many bits that starts at a moment: the moment of its end, and its identifier.
fn transfer(rate: Rate, now: u64, id: u16, bits: u32) -> (u64, u16)
    requires { now < 2 ^ 63 }
    ensures { result ≡ record { 0 = now + bits * ticks_of rate; 1 = id } }
{
    (now + u64::from(bits) * u64::from(rate.ticks_per_bit()), id)
}

// An instance of a list, at its place there.
#[derive(Clone, Copy)]
struct Found {
    place: usize,
    instance: Instance,
}

fn is_lower(instance: &Instance, than: Option<Found>) -> bool
    ensures { result ≡ is_lower instance.now than }
{
    match than {
        Some(lowest) => instance.id < lowest.instance.id,
        None => true,
    }
}

// The first instance with the lowest identifier.
fn lowest(instances: &[Instance]) -> Option<Found>
    ensures none { IfNone result (instances.now ≡ []) }
    ensures some { IfSome result (λ l. IsLowestAt instances.now l.place l.instance) }
{
    let mut found = None;
    for i in 0..instances.len() {
        if is_lower(&instances[i], found) {
            found = Some(Found {
                place: i,
                instance: instances[i],
            });
        }
    }
    found
}

// The same, if its identifier is lower than another.
fn lowest_below(instances: &[Instance], id: u16) -> Option<Instance>
    ensures none { IfNone result (All (λ x. id ≤ x.id) instances.now) }
    ensures some { IfSome result (λ x. (x.id < id) × ((place : ℕ) × IsLowestAt instances.now place x)) }
{
    match lowest(instances) {
        Some(lowest) => {
            if lowest.instance.id < id {
                Some(lowest.instance)
            } else {
                None
            }
        }
        None => None,
    }
}
