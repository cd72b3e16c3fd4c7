//! One more PDO.

ghost use Rattle.std.specs.Prelude.{◌≡◌, ◌↔◌, ℕ, ◌+◌, ◌*◌, ◌<◌, ◌≤◌, IsTrue, ◌++◌, ◌∷◌, [], false, length, IfOk, MatchOption};
ghost use Rattle.cop_rta.specs.declared.streams.Stream.{Stream};
ghost use Rattle.cop_rta.specs.Ranges.{IsPermitted};
ghost use Rattle.cop_rta.specs.Streams.{has_id};
ghost use Rattle.cop_room.specs.Room.{next_id, HasPlace, IsOneMore, IsMoreRoom, HasNoMore};

use crate::changing::add;
use crate::limits::{least, start_from};
use crate::numbers::Number;
use cop_frame::Rate;
use cop_rta::{IdRange, Stream, StreamSet};
use std::alloc::{AllocError, Global};

/// How many PDOs can be planned at most.
const MOST_PDOS: usize = 512;

/// The longest period, in microseconds.
const LONGEST_PERIOD: u64 = 60_000_000;

/// The identifier behind the last one of the PDOs.
#[tactic(auto, using(cop_rta::specs::SumsLemmas::steps))]
fn next_id(streams: &[Stream], pdos: usize) -> u16
    requires { pdos ≤ length streams.now }
    ensures { result ≡ next_id streams.now pdos }
{
    let mut last: u16 = 0;
    for k in 0..pdos {
        last = last.max(streams[k].id);
    }
    last.max(IdRange::FIRST.least - 1) + 1
}

/// Whether a PDO may have an identifier, where there are so many PDOs.
fn is_permitted(pdos: usize, id: u16) -> bool
    ensures { IsTrue result ↔ IsPermitted pdos id }
{
    IdRange::FIRST.contains(id)
        || pdos <= usize::from(IdRange::SECOND.count) && IdRange::SECOND.contains(id)
}

/// Whether one more PDO can have the identifier behind the last one.
fn has_place(set: &StreamSet, pdos: usize, id: u16) -> bool
    requires count { pdos ≤ length set.now }
    requires id { id ≡ next_id set.now pdos }
    ensures { IsTrue result ↔ HasPlace set.now pdos }
{
    pdos < MOST_PDOS && set.len() < StreamSet::MOST && is_permitted(pdos + 1, id) && !set.has_id(id)
}

/// A PDO of 8 bytes without jitter, with a period and a deadline of 60 s.
fn one_more(id: u16) -> Stream
    requires { id < 2048 }
    ensures { IsOneMore id result }
{
    Stream {
        id,
        bytes: 8,
        period: 4 * LONGEST_PERIOD,
        jitter: 0,
        deadline: Some(4 * LONGEST_PERIOD),
        every: 0,
    }
}

/// The streams with one more before them.
fn with_one(alloc: Global, set: &StreamSet, one: Stream) -> Result<StreamSet, AllocError>
    requires new { has_id set.now one.id ≡ false }
    requires room { length set.now < 1100 }
    ensures { IfOk result (λ more. more ≡ one ∷ set.now) }
{
    let mut more = StreamSet::new(alloc);
    add(&mut more, one)?;
    for stream in set.streams() {
        add(&mut more, *stream)?;
    }
    Ok(more)
}

/// The least period in microseconds, and deadline alike, of one more PDO of 8 bytes without jitter, with the identifier behind the last one,
/// so that it passes and each of the others still does; none where there is no such identifier, or it fails with 60 s too.
pub(crate) fn room_for_more(
    alloc: Global,
    set: &StreamSet,
    pdos: usize,
    rate: Rate,
) -> Result<Option<u64>, AllocError>
    requires { pdos ≤ length set.now }
    ensures { IfOk result (λ found. MatchOption found (HasNoMore rate set.now pdos) (IsMoreRoom rate set.now pdos)) }
{
    let id = next_id(set.streams(), pdos);
    if !has_place(set, pdos, id) {
        return Ok(None);
    }
    let more = with_one(alloc, set, one_more(id))?;
    let pace = Number::Pace(0);
    let (count, most) = (pdos + 1, LONGEST_PERIOD);
    let start = start_from(alloc, &more, count, rate, pace, 100, most, 0, 0)?;
    let least = least(alloc, &more, count, rate, pace, 100, most, start)?;
    Ok(least)
}
