//! The instances that wait on a bus, in rings.

ghost use Rattle.std.specs.Prelude.{◌≡◌, ◌+◌, ◌<◌, ◌∷◌, ◌++◌, [], ◌↔◌, IfOk, OnOk, OnErr, IsOk, Some, None, drop, length, slice_get, ◌||◌};
ghost use Rattle.cop_rta.specs.Ranges.{first_range, second_range};
ghost use Rattle.cop_bus.specs.Rings.{is_within, most_of, rings_of, RingValue};

use crate::bus::Instance;
use circular_buffer::HeapCircularBuffer;
use cop_rta::{IdRange, Stream};
use std::alloc::{AllocError, Global};
use std::marker::Model;

/// The instances of a stream that wait, first come first.
#[derive(Drop)]
pub struct Ring {
    id: u16,
    waiting: HeapCircularBuffer<Instance>,
}

impl Model for Ring {
    ghost use Rattle.cop_bus.specs.Rings.{RingValue};

    ghost Value = { RingValue };

    ghost view = { λ r. record { id = r.id; waiting = r.waiting.items; most = r.waiting.capacity } };
}

/// No room for another instance.
#[derive(Clone, Copy, PartialEq, Eq, Debug)]
pub struct Full {}

impl Ring {
    /// A ring with no instance and so many places.
    pub fn new(alloc: Global, id: u16, most: usize) -> Result<Ring, AllocError>
        ensures { IfOk result (λ r. r ≡ record { id = id; waiting = []; most = most }) }
    {
        Ok(Ring {
            id,
            waiting: HeapCircularBuffer::with_capacity(alloc, most)?,
        })
    }

    pub fn id(&self) -> u16
        ensures { result ≡ self.now.id }
    {
        self.id
    }

    /// How many instances wait.
    pub fn len(&self) -> usize
        ensures { result ≡ length self.now.waiting }
    {
        self.waiting.len()
    }

    /// Lets an instance wait behind the others. `Err` where the ring is full: nothing has changed.
    pub fn queue(&mut self, instance: Instance) -> Result<(), Full>
        ensures room { IsOk result ↔ (length self.old.waiting < self.old.most) }
        ensures ok { OnOk result (self.new ≡ record self.old { waiting = self.old.waiting ++ instance ∷ [] }) }
        ensures err { OnErr result (self.new ≡ self.old) }
    {
        // In a ring in which none waits the place before is taken: it is the one that was freed last, so that instances which
        // come one by one go through one place, and not through all of a long ring.
        let put = if self.waiting.is_empty() {
            self.waiting.try_push_front(instance)
        } else {
            self.waiting.try_push_back(instance)
        };
        match put {
            Ok(()) => Ok(()),
            Err(_) => Err(Full {}),
        }
    }

    /// Takes out the instance that has waited longest.
    pub fn take(&mut self) -> Option<Instance>
        ensures value { result ≡ slice_get self.old.waiting 0 }
        ensures rest { self.new ≡ record self.old { waiting = drop 1 self.old.waiting } }
    {
        self.waiting.pop_front()
    }
}

// Whether an identifier is one that a PDO may have.
fn is_pdo_id(id: u16) -> bool
    ensures { result ≡ (is_within first_range id || is_within second_range id) }
{
    IdRange::FIRST.contains(id) || IdRange::SECOND.contains(id)
}

/// How many instances of a stream may wait: of one with a PDO's identifier, of either range, and a deadline as many as periods
/// begin within it; of any other 64.
pub fn most_of(stream: &Stream) -> usize
    ensures { result ≡ most_of stream.now }
{
    if is_pdo_id(stream.id) {
        match stream.deadline {
            Some(deadline) => deadline.div_ceil(stream.period) as usize,
            None => 64,
        }
    } else {
        64
    }
}

/// The rings of streams, in their order.
pub fn rings_of(alloc: Global, streams: &[Stream]) -> Result<Vec<Ring>, AllocError>
    ensures { IfOk result (λ rings. rings.items ≡ rings_of streams.now) }
{
    let mut rings = Vec::new(alloc);
    for stream in streams {
        rings.push(Ring::new(alloc, stream.id, most_of(stream))?)?;
    }
    Ok(rings)
}
