//! Sets of streams of which a number is changed.

ghost use Rattle.std.specs.Prelude.{◌≡◌, ◌<◌, ◌≤◌, ◌++◌, ◌∷◌, [], false, length, IfOk, OnOk};
ghost use Rattle.cop_rta.specs.Streams.{has_id};
ghost use Rattle.cop_room.specs.Changes.{AreChanged};
ghost use Rattle.cop_room.specs.Numbers.{change_of, AreInRange};

use crate::numbers::{Number, changed};
use cop_rta::{SetFault, Stream, StreamSet};
use std::alloc::{AllocError, Global};

/// Puts a stream at the end, which is known to be possible.
pub(crate) fn add(set: &mut StreamSet, stream: Stream) -> Result<(), AllocError>
    requires new { has_id set.old stream.id ≡ false }
    requires room { length set.old < 1100 }
    ensures { OnOk result (set.new ≡ set.old ++ stream ∷ []) }
{
    match set.push(stream) {
        Ok(()) => Ok(()),
        Err(SetFault::Memory) => Err(AllocError),
        Err(SetFault::Repeated) => unreachable!(),
        Err(SetFault::Full) => unreachable!(),
    }
}

/// The same streams, where a number has some place in its range.
pub(crate) fn with_number(
    alloc: Global,
    set: &StreamSet,
    number: Number,
    place: u64,
) -> Result<StreamSet, AllocError>
    requires place { place ≤ 60000000000 }
    requires range { AreInRange (change_of number place) set.now }
    ensures { IfOk result (AreChanged (change_of number place) set.now) }
{
    let mut other = StreamSet::new(alloc);
    for (k, stream) in set.streams().iter().enumerate() {
        add(&mut other, changed(stream, k, number, place))?;
    }
    Ok(other)
}
