//! How far the numbers of a row go alone.

ghost use Rattle.std.specs.Prelude.{ℕ, ◌≡◌, ◌*◌, ◌/◌, ◌<◌, ◌≤◌, IfOk, MatchOption, length};
ghost use Rattle.std.specs.Bool.{OnTrue, OnFalse};
ghost use Rattle.cop_rta.specs.Test.{of_stream};
ghost use Rattle.cop_room.specs.Changes.{at_row, with_period, with_jitter, with_bytes, with_deadline};
ghost use Rattle.cop_room.specs.Keeping.{AllStillPass};
ghost use Rattle.cop_room.specs.Room.{CanFall, CanRise, IsRowRoom, period_now, jitter_now, deadline_now, bytes_now};

use crate::limits::{Start, least_or_now, start_from};
use crate::numbers::{LONGEST_JITTER, MOST_BYTES, Number};
use cop_frame::Rate;
use cop_rta::{Stream, StreamSet};
use std::alloc::{AllocError, Global};

/// How far each number of a row of the table of PDOs can go, all else as it is, so that each PDO and each SDO frame with a deadline still passes
/// under the identifiers of the plan. Times are in microseconds.
#[derive(Clone, Copy, PartialEq, Eq, Debug)]
pub struct RowRoom {
    /// The least period, 100 at least; none of a synchronous row, which follows SYNC.
    pub period: Option<u64>,
    /// The greatest jitter, 60 s at most.
    pub jitter: u64,
    /// The least deadline, 1 at least.
    pub deadline: u64,
    /// The most bytes, 8 at most.
    pub bytes: u8,
}

/// What the test of the plan shows of a row, by which its searches begin.
#[derive(Clone, Copy)]
pub(crate) struct Seen {
    /// What its greatest response leaves of its deadline, in ticks.
    pub(crate) left: u64,
    /// The stream that fails first, as a rule, if the row asks more.
    pub(crate) tight: usize,
}

/// Whether a stream is synchronous.
#[tactic(auto, using(cop_rta::specs::SumsLemmas::of_stream_read))]
pub(crate) fn is_synchronous(streams: &[Stream], row: usize) -> bool
    requires { row < length streams.now }
    ensures yes { OnTrue result (1 ≤ of_stream (λ s. s.every) streams.now row) }
    ensures no { OnFalse result (of_stream (λ s. s.every) streams.now row ≡ 0) }
{
    streams[row].every > 0
}

/// The period of a stream in microseconds.
#[tactic(auto, using(cop_rta::specs::SumsLemmas::of_stream_read))]
pub(crate) fn period_of(streams: &[Stream], row: usize) -> u64
    requires { row < length streams.now }
    ensures value { result ≡ period_now streams.now row }
    ensures least { 100 ≤ result }
    ensures most { result ≤ 60000000 }
{
    streams[row].period / 4
}

/// The jitter of a stream in microseconds.
#[tactic(auto, using(cop_rta::specs::SumsLemmas::of_stream_read))]
pub(crate) fn jitter_of(streams: &[Stream], row: usize) -> u64
    requires { row < length streams.now }
    ensures value { result ≡ jitter_now streams.now row }
    ensures most { result ≤ 60000000 }
{
    streams[row].jitter / 4
}

/// The deadline of a stream in microseconds, 0 where it has none.
pub(crate) fn deadline_of(streams: &[Stream], row: usize) -> u64
    requires { row < length streams.now }
    ensures value { result ≡ deadline_now streams.now row }
    ensures most { result ≤ 60000000 }
{
    streams[row].deadline.unwrap_or(0) / 4
}

/// The bytes of a stream, 8 at most.
#[tactic(auto, using(cop_rta::specs::SumsLemmas::of_stream_read))]
pub(crate) fn bytes_of(streams: &[Stream], row: usize) -> u64
    requires { row < length streams.now }
    ensures value { result ≡ bytes_now streams.now row }
    ensures most { result ≤ 8 }
{
    u64::from(streams[row].bytes).min(MOST_BYTES)
}

/// The least period of a row; none where it is synchronous.
fn least_period(
    alloc: Global,
    set: &StreamSet,
    pdos: usize,
    rate: Rate,
    row: usize,
    seen: Seen,
) -> Result<Option<u64>, AllocError>
    requires count { pdos ≤ length set.now }
    requires row { row < pdos }
    ensures { IfOk result (λ found. MatchOption found (1 ≤ of_stream (λ s. s.every) set.now row)
        (λ x. (of_stream (λ s. s.every) set.now row ≡ 0) × CanFall (AllStillPass rate pdos) (λ y. at_row row (with_period (4 * y))) set.now 100 (period_now set.now row) x)) }
{
    if is_synchronous(set.streams(), row) {
        return Ok(None);
    }
    let now = period_of(set.streams(), row);
    let period = Number::Period(row);
    let start = start_from(alloc, set, pdos, rate, period, 100, now, row, seen.tight)?;
    let least = least_or_now(alloc, set, pdos, rate, period, 100, now, start)?;
    Ok(Some(least))
}

/// The greatest jitter of a row.
fn greatest_jitter(
    alloc: Global,
    set: &StreamSet,
    pdos: usize,
    rate: Rate,
    row: usize,
    seen: Seen,
) -> Result<u64, AllocError>
    requires count { pdos ≤ length set.now }
    requires row { row < pdos }
    ensures { IfOk result (CanRise (AllStillPass rate pdos) (λ y. at_row row (with_jitter (4 * y))) set.now 60000000 (jitter_now set.now row)) }
{
    let now = jitter_of(set.streams(), row);
    let below = LONGEST_JITTER - now;
    let jitter = Number::Jitter(row);
    // By as much as the jitter grows the response does, at least.
    let first = below.saturating_sub(seen.left / 4);
    let start = start_from(
        alloc, set, pdos, rate, jitter, first, below, row, seen.tight,
    )?;
    let left = least_or_now(alloc, set, pdos, rate, jitter, 0, below, start)?;
    Ok(LONGEST_JITTER - left)
}

/// The least deadline of a row.
fn least_deadline(
    alloc: Global,
    set: &StreamSet,
    pdos: usize,
    rate: Rate,
    row: usize,
    seen: Seen,
) -> Result<u64, AllocError>
    requires count { pdos ≤ length set.now }
    requires row { row < pdos }
    ensures { IfOk result (CanFall (AllStillPass rate pdos) (λ y. at_row row (with_deadline (4 * y))) set.now 1 (deadline_now set.now row)) }
{
    let now = deadline_of(set.streams(), row);
    if now == 0 {
        return Ok(0);
    }
    let deadline = Number::Deadline(row);
    // The greatest response is the least deadline.
    let start = Start {
        place: now.saturating_sub(seen.left / 4),
        suspect: row,
    };
    let least = least_or_now(alloc, set, pdos, rate, deadline, 1, now, start)?;
    Ok(least)
}

/// The most bytes of a row.
fn most_bytes(
    alloc: Global,
    set: &StreamSet,
    pdos: usize,
    rate: Rate,
    row: usize,
    seen: Seen,
) -> Result<u8, AllocError>
    requires count { pdos ≤ length set.now }
    requires row { row < pdos }
    ensures { IfOk result (CanRise (AllStillPass rate pdos) (λ y. at_row row (with_bytes y)) set.now 8 (bytes_now set.now row)) }
{
    let now = bytes_of(set.streams(), row);
    let below = MOST_BYTES - now;
    let bytes = Number::Bytes(row);
    let start = start_from(alloc, set, pdos, rate, bytes, 0, below, row, seen.tight)?;
    let left = least_or_now(alloc, set, pdos, rate, bytes, 0, below, start)?;
    Ok((MOST_BYTES - left) as u8)
}

/// How far the numbers of a row go alone. The first `pdos` streams are the PDOs. `Err` is want of memory.
pub(crate) fn room_of_row(
    alloc: Global,
    set: &StreamSet,
    pdos: usize,
    rate: Rate,
    row: usize,
    seen: Seen,
) -> Result<RowRoom, AllocError>
    requires count { pdos ≤ length set.now }
    requires row { row < pdos }
    ensures { IfOk result (IsRowRoom rate set.now pdos row) }
{
    Ok(RowRoom {
        period: least_period(alloc, set, pdos, rate, row, seen)?,
        jitter: greatest_jitter(alloc, set, pdos, rate, row, seen)?,
        deadline: least_deadline(alloc, set, pdos, rate, row, seen)?,
        bytes: most_bytes(alloc, set, pdos, rate, row, seen)?,
    })
}
