//! How far the numbers of a row go where all identifiers are chosen anew.

ghost use Rattle.std.specs.Prelude.{ℕ, ◌≡◌, ◌*◌, ◌<◌, ◌≤◌, IfOk, MatchOption, length};
ghost use Rattle.cop_rta.specs.Test.{of_stream};
ghost use Rattle.cop_plan.specs.Plans.{CanAssign};
ghost use Rattle.cop_room.specs.Anew.{CanStillAssign};
ghost use Rattle.cop_room.specs.Changes.{at_row, with_period, with_jitter, with_bytes, with_deadline};
ghost use Rattle.cop_room.specs.Keeping.{CanBePlanned, Fails, Holds};
ghost use Rattle.cop_room.specs.Numbers.{change_of, AreInRange};
ghost use Rattle.cop_room.specs.Room.{CanFall, CanRise, GoesAlone, period_now, jitter_now, deadline_now, bytes_now};
ghost use Rattle.cop_room.specs.Whole.{AreInMicroseconds, AreLimitsAlone};

use crate::changing::with_number;
use crate::misses::planned_at;
use crate::numbers::{LONGEST_JITTER, MOST_BYTES, Number};
use crate::rows::{RowRoom, bytes_of, deadline_of, is_synchronous, jitter_of, period_of};
use cop_frame::Rate;
use cop_plan::Plan;
use cop_rta::StreamSet;
use std::alloc::{AllocError, Global};

/// The plan with a number at some place, if some assignment passes with it.
fn planned_anew(
    alloc: Global,
    set: &StreamSet,
    pdos: usize,
    rate: Rate,
    number: Number,
    place: u64,
) -> Result<Option<Plan>, AllocError>
    requires place { place ≤ 60000000 }
    requires range { AreInRange (change_of number place) set.now }
    requires can { CanStillAssign (change_of number place) set.now pdos }
    ensures { IfOk result (λ plan. MatchOption plan (Fails (CanBePlanned rate pdos) (change_of number place) set.now) (λ _. Holds (CanBePlanned rate pdos) (change_of number place) set.now)) }
{
    let other = with_number(alloc, set, number, place)?;
    planned_at(alloc, &other, pdos, rate)
}

/// The first place of a number with which some assignment passes, all else as it is; where none passes with the place that it has now, that. The
/// search tries `start` first, and then halves: from any start the same place is found.
fn least_anew(
    alloc: Global,
    set: &StreamSet,
    pdos: usize,
    rate: Rate,
    number: Number,
    first: u64,
    now: u64,
    start: u64,
) -> Result<u64, AllocError>
    requires count { pdos ≤ length set.now }
    requires order { first ≤ now }
    requires now { now ≤ 60000000 }
    requires range { (x : ℕ) → first ≤ x → x ≤ now → AreInRange (change_of number x) set.now }
    requires can { (x : ℕ) → CanStillAssign (change_of number x) set.now pdos }
    ensures within { IfOk result (λ x. x ≤ now) }
    ensures exact { IfOk result (CanFall (CanBePlanned rate pdos) (change_of number) set.now first now) }
{
    let mut low = first;
    let mut high = now + 1;
    let mut next = start;
    while low < high {
        let place = next.min(high - 1).max(low);
        match planned_anew(alloc, set, pdos, rate, number, place)? {
            Some(_) => high = place,
            None => low = place + 1,
        }
        next = low + high.saturating_sub(low) / 2;
    }
    Ok(if high <= now { high } else { now })
}

/// The least period of a row; none where it is synchronous.
fn least_period(
    alloc: Global,
    set: &StreamSet,
    pdos: usize,
    rate: Rate,
    row: usize,
) -> Result<Option<u64>, AllocError>
    requires can { CanAssign set.now pdos }
    requires row { row < pdos }
    ensures { IfOk result (λ found. MatchOption found (1 ≤ of_stream (λ s. s.every) set.now row)
        (λ x. (of_stream (λ s. s.every) set.now row ≡ 0) × CanFall (CanBePlanned rate pdos) (λ y. at_row row (with_period (4 * y))) set.now 100 (period_now set.now row) x)) }
{
    if is_synchronous(set.streams(), row) {
        return Ok(None);
    }
    let now = period_of(set.streams(), row);
    let period = Number::Period(row);
    let least = least_anew(alloc, set, pdos, rate, period, 100, now, now / 2)?;
    Ok(Some(least))
}

/// The greatest jitter of a row. It is less than the deadline, so that is tried first.
fn greatest_jitter(
    alloc: Global,
    set: &StreamSet,
    pdos: usize,
    rate: Rate,
    row: usize,
) -> Result<u64, AllocError>
    requires can { CanAssign set.now pdos }
    requires row { row < pdos }
    ensures { IfOk result (CanRise (CanBePlanned rate pdos) (λ y. at_row row (with_jitter (4 * y))) set.now 60000000 (jitter_now set.now row)) }
{
    let now = jitter_of(set.streams(), row);
    let deadline = deadline_of(set.streams(), row);
    let below = LONGEST_JITTER - now;
    let jitter = Number::Jitter(row);
    let start = LONGEST_JITTER.saturating_sub(deadline);
    let left = least_anew(alloc, set, pdos, rate, jitter, 0, below, start)?;
    Ok(LONGEST_JITTER - left)
}

/// The least deadline of a row.
fn least_deadline(
    alloc: Global,
    set: &StreamSet,
    pdos: usize,
    rate: Rate,
    row: usize,
) -> Result<u64, AllocError>
    requires can { CanAssign set.now pdos }
    requires row { row < pdos }
    ensures { IfOk result (CanFall (CanBePlanned rate pdos) (λ y. at_row row (with_deadline (4 * y))) set.now 1 (deadline_now set.now row)) }
{
    let now = deadline_of(set.streams(), row);
    if now == 0 {
        return Ok(0);
    }
    let deadline = Number::Deadline(row);
    let least = least_anew(alloc, set, pdos, rate, deadline, 1, now, now / 2)?;
    Ok(least)
}

/// The most bytes of a row.
fn most_bytes(
    alloc: Global,
    set: &StreamSet,
    pdos: usize,
    rate: Rate,
    row: usize,
) -> Result<u8, AllocError>
    requires can { CanAssign set.now pdos }
    requires row { row < pdos }
    ensures { IfOk result (CanRise (CanBePlanned rate pdos) (λ y. at_row row (with_bytes y)) set.now 8 (bytes_now set.now row)) }
{
    let now = bytes_of(set.streams(), row);
    let below = MOST_BYTES - now;
    let bytes = Number::Bytes(row);
    let left = least_anew(alloc, set, pdos, rate, bytes, 0, below, 0)?;
    Ok((MOST_BYTES - left) as u8)
}

/// How far each number of a PDO can go where the identifiers of all PDOs are chosen anew at a rate, the numbers of all other streams as they are. The
/// first `pdos` streams are the PDOs. Each is a limit: with it some assignment passes, and with no further number of its range does one.
/// That one passes with the numbers as they are, in whole microseconds, is so of each plan of tables. `Err` is want of memory.
pub fn room_anew(
    alloc: Global,
    set: &StreamSet,
    pdos: usize,
    rate: Rate,
    row: usize,
) -> Result<RowRoom, AllocError>
    requires can { CanAssign set.now pdos }
    requires row { row < pdos }
    ensures room { IfOk result (GoesAlone (CanBePlanned rate pdos) set.now row) }
    ensures limits { AreInMicroseconds set.now → CanBePlanned rate pdos set.now → IfOk result (AreLimitsAlone (CanBePlanned rate pdos) set.now row) }
{
    Ok(RowRoom {
        period: least_period(alloc, set, pdos, rate, row)?,
        jitter: greatest_jitter(alloc, set, pdos, rate, row)?,
        deadline: least_deadline(alloc, set, pdos, rate, row)?,
        bytes: most_bytes(alloc, set, pdos, rate, row)?,
    })
}
