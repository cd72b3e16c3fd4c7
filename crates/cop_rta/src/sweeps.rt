//! The response-time test of all streams of a bus.

ghost use Rattle.std.specs.Prelude.{◌≡◌, ◌+◌, ◌<◌, ◌≤◌, ℕ, length, set, get_or, true, false, IfOk, IfSome, IfNone};
ghost use Rattle.cop_rta.specs.declared.verdicts.Verdict.TheVariants.{Long};
ghost use Rattle.cop_rta.specs.Test.{ahead_of, is_flagged, flagged_place, place_of, place_by_id, horizon, IsBusyTime};
ghost use Rattle.cop_rta.specs.Verdict.{IsJudged};
ghost use Rattle.cop_rta.specs.Waits.{IsBelowBusy};
ghost use Rattle.cop_rta.specs.Paces.{IsRow};
ghost use Rattle.cop_rta.specs.Placing.{IsLast};

use crate::above::Above;
use crate::demands::{Busy, longest_below};
use crate::judging::judged;
use crate::paces::Pace;
use crate::rates::{AtRate, Clock};
use crate::sets::StreamSet;
use crate::verdicts::Verdict;
use cop_frame::Rate;
use std::alloc::{AllocError, Global};

/// What is known of the stream that was judged last, which is next above: its longest transfer, the longest from below
/// it, its busy time, if it is within the horizon, and a number that the wait of its first instance is not below.
#[derive(Clone, Copy)]
pub(crate) struct Last {
    pub(crate) cost: u64,
    pub(crate) from_below: u64,
    pub(crate) busy: Option<u64>,
    pub(crate) wait: u64,
}

// A verdict, and what is then known.
#[derive(Clone, Copy)]
struct Swept {
    verdict: Verdict,
    last: Last,
}

// Where the search may begin for the wait of the first instance of a stream: it has one transfer more above it than the
// last one, and less below it at most.
fn wait_after(last: Option<Last>, from_below: u64) -> u64
    requires last { IfSome last (λ last. (last.cost ≤ 66400) × (last.wait ≤ horizon)) }
    requires below { from_below ≤ 66400 }
    ensures room { IfSome last (λ last. last.from_below ≤ from_below + last.cost → result + last.from_below ≡ last.wait + (from_below + last.cost)) }
    ensures none { IfSome last (λ last. from_below + last.cost < last.from_below → result ≡ 0) }
    ensures first { IfNone last (result ≡ 0) }
{
    let Some(last) = last else {
        return 0;
    };
    match (from_below + last.cost).checked_sub(last.from_below) {
        Some(room) => last.wait + room,
        None => 0,
    }
}

// The busy time of a stream, which is not below that of the last one.
fn time_after(busy: &Busy<'_>, last: Option<Last>) -> Option<u64>
    requires from { IfSome last (λ last. IfSome last.busy (λ t. (1 ≤ t) × IsBelowBusy (place_of busy.now) t)) }
    requires long { IfSome last (λ last. IfNone last.busy ((t : ℕ) → IsBusyTime (place_of busy.now) t → horizon < t)) }
    ensures found { IfSome result (IsBusyTime (place_of busy.now)) }
    ensures within { IfSome result (λ t. t ≤ horizon) }
    ensures none { IfNone result ((t : ℕ) → IsBusyTime (place_of busy.now) t → horizon < t) }
{
    match last {
        None => busy.time(),
        Some(last) => busy.time_from(last.busy?),
    }
}

// Flags one more stream, and judges it with those that were flagged above it. The paces of all these stand in a row.
fn judge_next(
    streams: &StreamSet,
    clock: Clock,
    above: &mut [bool],
    row: &[Pace],
    index: usize,
    last: Option<Last>,
) -> Swept
    requires size { length above.old ≡ length streams.now }
    requires index { index < length streams.now }
    requires ahead { clock.ahead ≡ ahead_of streams.now clock.rate }
    requires unflagged { is_flagged above.old index ≡ false }
    requires few { length row.now ≤ 2048 }
    requires row { IsRow streams.now clock.ahead (set above.old index true) row.now }
    requires last { IfSome last (IsLast (record { streams = streams.now; flags = above.old; rate = clock.rate })) }
    ensures above { above.new ≡ set above.old index true }
    ensures judged { IsJudged (flagged_place streams.now (set above.old index true) index clock.rate) result.verdict }
    ensures last { IsLast (record { streams = streams.now; flags = set above.old index true; rate = clock.rate }) result.last }
{
    above[index] = true;
    let flagged = Above::flagged(above);
    let from_below = longest_below(streams.streams(), &flagged, index, clock.rate);
    let busy = Busy::in_row(streams, clock, flagged, row, index, from_below);
    let from = wait_after(last, from_below);
    let time = time_after(&busy, last);
    let judged = judged(&busy, time, from);
    Swept {
        verdict: judged.verdict,
        last: Last {
            cost: busy.cost(),
            from_below,
            busy: time,
            wait: judged.wait,
        },
    }
}

/// The response-time test of each stream, in the order of the set, with the lower identifiers above it. `Err` is want of
/// memory.
///
/// It goes by rising identifier: no busy time is less than that of the stream before, and the first wait seldom is.
pub fn verdicts_by_id(
    alloc: Global,
    set: &StreamSet,
    rate: Rate,
) -> Result<Vec<Verdict>, AllocError>
    ensures count { IfOk result (λ verdicts. length verdicts.items ≡ length set.now) }
    ensures judged { IfOk result (λ verdicts. (k : ℕ) → k < length set.now → IsJudged (place_by_id set.now k rate) (get_or verdicts.items k Long)) }
{
    let clock = AtRate::new(set, rate).clock();
    let count = set.streams().len();
    let mut above = vec![in alloc; false; count]?;
    let mut verdicts = vec![in alloc; Verdict::Long; count]?;
    let mut row = Vec::new(alloc);
    let mut last = None;
    for id in 0..2048 {
        if let Some(index) = set.place_of(id) {
            row.push(set.paces()[index].after(clock.ahead))?;
            let swept = judge_next(set, clock, &mut above, &row, index, last);
            verdicts[index] = swept.verdict;
            last = Some(swept.last);
        }
    }
    Ok(verdicts)
}
