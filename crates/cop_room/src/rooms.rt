//! How far each number of a plan goes.

ghost use Rattle.std.specs.Prelude.{ℕ, ◌≡◌, ◌↔◌, ◌*◌, ◌<◌, ◌≤◌, IsTrue, Some, slice_get, IfOk, MatchOption, length};
ghost use Rattle.cop_rta.specs.Greatest.{AreSynced};
ghost use Rattle.cop_rta.specs.Streams.{place_of_id};
ghost use Rattle.cop_rta.specs.Test.{of_stream, sync_id};
ghost use Rattle.cop_cert.specs.Causes.{HasSynchronous};
ghost use Rattle.cop_room.specs.declared.rows.RowRoom.{RowRoom};
ghost use Rattle.cop_room.specs.Changes.{with_periods, with_times};
ghost use Rattle.cop_room.specs.Keeping.{AllStillPass};
ghost use Rattle.cop_room.specs.Room.{CanFall, IsRowRoom, IsSyncRoom, IsRoom};
ghost use Rattle.cop_room.specs.Whole.{AreInMicroseconds, AreLimits};

use crate::limits::{least_or_now, start_from};
use crate::more::room_for_more;
use crate::numbers::Number;
use crate::rows::{RowRoom, Seen, period_of, room_of_row};
use cop_frame::Rate;
use cop_frame::identifiers::SYNC;
use cop_plan::Plan;
use cop_rta::{Stream, StreamSet, Verdict, response_of, verdicts_by_id};
use std::alloc::{AllocError, Global};

/// How far the numbers of a plan go, so that each PDO and each SDO frame with a deadline still passes under the identifiers of the plan. Times are in
/// microseconds.
#[derive(Drop)]
pub struct Room {
    /// What each row can do alone, in the order of the table.
    pub rows: Vec<RowRoom>,
    /// The least period of SYNC, 100 at least, which all synchronous rows follow; none where no row is synchronous.
    pub sync: Option<u64>,
    /// In so many thousandths all periods pass at once, the deadlines as they are.
    pub periods: u64,
    /// In so many thousandths all periods and deadlines pass at once: as where the time of a bit grows by the inverse.
    pub clock: u64,
    /// The least period of one more PDO of 8 bytes without jitter, whose deadline is its period, with the identifier behind the last one; none
    /// where there is no such identifier, or it fails with 60 s too.
    pub more: Option<u64>,
}

/// The thousandths that all is at as it is.
const WHOLE: u64 = 1000;

/// Whether some PDO is synchronous.
#[tactic(auto, using(cop_rta::specs::SumsLemmas::of_stream_read))]
fn has_synchronous(streams: &[Stream], pdos: usize) -> bool
    requires { pdos ≤ length streams.now }
    ensures { IsTrue result ↔ HasSynchronous streams.now pdos }
{
    for p in 0..pdos {
        if streams[p].every > 0 {
            return true;
        }
    }
    false
}

/// The least period of SYNC with all synchronous rows; none where no PDO is synchronous.
fn sync_room(
    alloc: Global,
    set: &StreamSet,
    pdos: usize,
    rate: Rate,
) -> Result<Option<u64>, AllocError>
    requires count { pdos ≤ length set.now }
    requires synced { AreSynced set.now }
    ensures { IfOk result (λ found. MatchOption found (HasSynchronous set.now pdos → (i : ℕ) → place_of_id set.now sync_id ≡ Some i → ⊥) (IsSyncRoom rate set.now pdos)) }
{
    if !has_synchronous(set.streams(), pdos) {
        return Ok(None);
    }
    let Some(sync) = set.place_of(SYNC) else {
        return Ok(None);
    };
    let now = period_of(set.streams(), sync);
    let period = Number::SyncPeriod;
    let start = start_from(alloc, set, pdos, rate, period, 100, now, sync, sync)?;
    let least = least_or_now(alloc, set, pdos, rate, period, 100, now, start)?;
    Ok(Some(least))
}

/// The fewest thousandths in which all periods pass.
fn least_periods(alloc: Global, set: &StreamSet, pdos: usize, rate: Rate) -> Result<u64, AllocError>
    requires { pdos ≤ length set.now }
    ensures { IfOk result (CanFall (AllStillPass rate pdos) with_periods set.now 1 1000) }
{
    let parts = Number::Periods;
    let start = start_from(alloc, set, pdos, rate, parts, 1, WHOLE, 0, 0)?;
    let least = least_or_now(alloc, set, pdos, rate, parts, 1, WHOLE, start)?;
    Ok(least)
}

/// The fewest thousandths in which all periods and deadlines pass.
fn least_times(alloc: Global, set: &StreamSet, pdos: usize, rate: Rate) -> Result<u64, AllocError>
    requires { pdos ≤ length set.now }
    ensures { IfOk result (CanFall (AllStillPass rate pdos) with_times set.now 1 1000) }
{
    let parts = Number::Times;
    let start = start_from(alloc, set, pdos, rate, parts, 1, WHOLE, 0, 0)?;
    let least = least_or_now(alloc, set, pdos, rate, parts, 1, WHOLE, start)?;
    Ok(least)
}

/// What is left of a deadline by what the test says.
fn left_of(stream: &Stream, verdict: Verdict) -> u64 {
    stream
        .deadline
        .unwrap_or(u64::MAX)
        .saturating_sub(response_of(verdict))
}

/// Of the streams below a row, that with the least left of its deadline; the row itself where there is none.
fn tightest_below(streams: &[Stream], verdicts: &[Verdict], row: usize) -> usize
    requires { row < length streams.now }
{
    let id = streams[row].id;
    let mut tightest = row;
    let mut least = u64::MAX;
    for (index, (stream, verdict)) in streams.iter().zip(verdicts).enumerate() {
        let left = left_of(stream, *verdict);
        if stream.id > id && left < least {
            tightest = index;
            least = left;
        }
    }
    tightest
}

/// What the test of the plan shows of a row.
fn seen_of(streams: &[Stream], verdicts: &[Verdict], row: usize) -> Seen
    requires row { row < length streams.now }
    requires verdicts { length verdicts.now ≡ length streams.now }
{
    Seen {
        left: left_of(&streams[row], verdicts[row]),
        tight: tightest_below(streams, verdicts, row),
    }
}

/// What each row can do alone.
fn rooms_of_rows(
    alloc: Global,
    set: &StreamSet,
    pdos: usize,
    rate: Rate,
) -> Result<Vec<RowRoom>, AllocError>
    requires { pdos ≤ length set.now }
    ensures count { IfOk result (λ rows. length rows.items ≡ pdos) }
    ensures each { IfOk result (λ rows. (p : ℕ) → p < pdos → (row : RowRoom) × (slice_get rows.items p ≡ Some row) × IsRowRoom rate set.now pdos p row) }
{
    let streams = set.streams();
    let verdicts = verdicts_by_id(alloc, set, rate)?;
    let mut rows = Vec::new(alloc);
    for row in 0..pdos {
        let seen = seen_of(streams, &verdicts, row);
        rows.push(room_of_row(alloc, set, pdos, rate, row, seen)?)?;
    }
    Ok(rows)
}

/// How far each number of streams goes, of which the first `pdos` are the PDOs.
fn room_of_streams(
    alloc: Global,
    set: &StreamSet,
    pdos: usize,
    rate: Rate,
) -> Result<Room, AllocError>
    requires count { pdos ≤ length set.now }
    requires synced { AreSynced set.now }
    ensures { IfOk result (IsRoom rate set.now pdos) }
{
    Ok(Room {
        rows: rooms_of_rows(alloc, set, pdos, rate)?,
        sync: sync_room(alloc, set, pdos, rate)?,
        periods: least_periods(alloc, set, pdos, rate)?,
        clock: least_times(alloc, set, pdos, rate)?,
        more: room_for_more(alloc, set, pdos, rate)?,
    })
}

/// How far each number of a plan can go, all else as it is, the identifiers too. Each is a limit: with it each PDO and each SDO frame with a
/// deadline passes, and with no further number of its range. That they pass with the plan's own numbers is no premise where its times are
/// whole microseconds, as those of tables are. `Err` is want of memory.
pub fn room_of(alloc: Global, plan: &Plan) -> Result<Room, AllocError>
    ensures room { IfOk result (IsRoom plan.now.rate plan.now.streams (length plan.now.ids)) }
    ensures limits { AreInMicroseconds plan.now.streams → IfOk result (AreLimits plan.now.rate plan.now.streams (length plan.now.ids)) }
{
    let pdos = plan.ids().len();
    let set = plan.streams();
    let _ = set.streams();
    room_of_streams(alloc, set, pdos, plan.rate())
}
