//! How far a number can go towards the first place of its range.

ghost use Rattle.std.specs.Prelude.{ℕ, ◌≡◌, ◌+◌, ◌-◌, ◌<◌, ◌≤◌, IfOk, IfSome, MatchOption, length};
ghost use Rattle.cop_room.specs.Keeping.{AllStillPass, Holds, IsLeastLimit};
ghost use Rattle.cop_room.specs.Numbers.{change_of, AreInRange};
ghost use Rattle.cop_room.specs.Room.{CanFall};

use crate::changing::with_number;
use crate::numbers::Number;
use crate::trials::{failing, keeps};
use cop_frame::Rate;
use cop_rta::StreamSet;
use std::alloc::{AllocError, Global};

/// Whether one stream passes with a number at some place.
fn passes_at(
    alloc: Global,
    set: &StreamSet,
    pdos: usize,
    rate: Rate,
    number: Number,
    index: usize,
    place: u64,
) -> Result<bool, AllocError>
    requires place { place ≤ 60000000 }
    requires range { AreInRange (change_of number place) set.now }
{
    let other = with_number(alloc, set, number, place)?;
    Ok(index >= other.len() || keeps(&other, pdos, rate, index))
}

/// The first place of some with which one stream passes, whatever the others do: where the search for all begins, which tries it.
fn alone(
    alloc: Global,
    set: &StreamSet,
    pdos: usize,
    rate: Rate,
    number: Number,
    index: usize,
    from: u64,
    to: u64,
) -> Result<u64, AllocError>
    requires to { to ≤ 60000000 }
    requires range { (x : ℕ) → from ≤ x → x ≤ to → AreInRange (change_of number x) set.now }
    ensures { from ≤ to → IfOk result (λ place. (from ≤ place) × (place ≤ to)) }
{
    let mut low = from;
    let mut high = to;
    if from < to && passes_at(alloc, set, pdos, rate, number, index, from)? {
        return Ok(from);
    }
    while low < high {
        let middle = low + (high - low) / 2;
        if passes_at(alloc, set, pdos, rate, number, index, middle)? {
            high = middle;
        } else {
            low = middle + 1;
        }
    }
    Ok(high)
}

/// Where a search begins, and which stream is tried before all others. From any start the same limit is found.
#[derive(Clone, Copy)]
pub(crate) struct Start {
    pub(crate) place: u64,
    pub(crate) suspect: usize,
}

/// The first place, from one on, with which a stream that is tight passes alone and the row. The row comes second: far before the places where the
/// tight one passes, the row alone can fill the bus, and then its test looks at very many instances.
pub(crate) fn start_from(
    alloc: Global,
    set: &StreamSet,
    pdos: usize,
    rate: Rate,
    number: Number,
    first: u64,
    now: u64,
    row: usize,
    tight: usize,
) -> Result<Start, AllocError>
    requires order { first ≤ now }
    requires now { now ≤ 60000000 }
    requires range { (x : ℕ) → first ≤ x → x ≤ now → AreInRange (change_of number x) set.now }
{
    let others = alone(alloc, set, pdos, rate, number, tight, first, now)?;
    let place = alone(alloc, set, pdos, rate, number, row, others, now)?;
    let suspect = if place > others { row } else { tight };
    Ok(Start { place, suspect })
}

/// The first place of a number with which each PDO and each SDO frame with a deadline passes, all else as it is; none where they fail with the
/// place that it has now. `Err` is want of memory.
///
/// A stream that failed is tried before all others, and where it passes alone the next trial is.
pub(crate) fn least(
    alloc: Global,
    set: &StreamSet,
    pdos: usize,
    rate: Rate,
    number: Number,
    first: u64,
    now: u64,
    start: Start,
) -> Result<Option<u64>, AllocError>
    requires count { pdos ≤ length set.now }
    requires order { first ≤ now }
    requires now { now ≤ 60000000 }
    requires range { (x : ℕ) → first ≤ x → x ≤ now → AreInRange (change_of number x) set.now }
    ensures within { IfOk result (λ least. IfSome least (λ x. x ≤ now)) }
    ensures exact { IfOk result (λ least. MatchOption least (Holds (AllStillPass rate pdos) (change_of number now) set.now → ⊥) (λ x. IsLeastLimit (AllStillPass rate pdos) (change_of number) set.now first x)) }
{
    let mut low = first;
    let mut high = now + 1;
    let mut suspect = start.suspect;
    let mut next = start.place;
    while low < high {
        let place = next.min(high - 1).max(low);
        let other = with_number(alloc, set, number, place)?;
        match failing(alloc, &other, pdos, rate, suspect)? {
            None => {
                high = place;
                next = place.saturating_sub(1);
            }
            Some(found) => {
                low = place + 1;
                suspect = found;
                next = alone(alloc, set, pdos, rate, number, found, low, high.min(now))?;
            }
        }
    }
    Ok(if high <= now { Some(high) } else { None })
}

/// The same, and the place that the number has now where they fail with that.
pub(crate) fn least_or_now(
    alloc: Global,
    set: &StreamSet,
    pdos: usize,
    rate: Rate,
    number: Number,
    first: u64,
    now: u64,
    start: Start,
) -> Result<u64, AllocError>
    requires count { pdos ≤ length set.now }
    requires order { first ≤ now }
    requires now { now ≤ 60000000 }
    requires range { (x : ℕ) → first ≤ x → x ≤ now → AreInRange (change_of number x) set.now }
    ensures within { IfOk result (λ x. x ≤ now) }
    ensures exact { IfOk result (CanFall (AllStillPass rate pdos) (change_of number) set.now first now) }
{
    match least(alloc, set, pdos, rate, number, first, now, start)? {
        Some(least) => Ok(least),
        None => Ok(now),
    }
}
