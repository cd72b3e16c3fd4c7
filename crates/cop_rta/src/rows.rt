//! The paces of some streams in a row.

ghost use Rattle.std.specs.Prelude.{◌≡◌, ◌+◌, ◌*◌, ◌^◌, ◌<◌, ◌≤◌, ℕ, true, IsTrue, IfSome, length, get_or, set, sum_by};
ghost use Rattle.cop_rta.specs.Test.{is_flagged};
ghost use Rattle.cop_rta.specs.Paces.{last_time, bits_in, most_ahead, flags_above, IsRow};

use crate::above::Above;
use crate::paces::Pace;
use crate::sets::StreamSet;
use arrayvec::ArrayVec;

/// Room for the paces of a set, which takes no memory.
pub(crate) type Row = ArrayVec<Pace, { StreamSet::MOST }>;

/// Fills a row with the paces of the streams that are above, with what is ahead of latencies.
pub(crate) fn fill(row: &mut Row, set: &StreamSet, above: &Above<'_>, ahead: u64)
    requires flags { length above.now ≡ length set.now }
    requires ahead { ahead ≤ most_ahead }
    ensures { IsRow set.now ahead above.now row.new.items }
{
    row.clear();
    for (k, pace) in set.paces().iter().enumerate() {
        if above.has(k) {
            row.push(pace.after(ahead));
        }
    }
}

// Where a row has a pace, sought from a number down.
fn position_of(row: &[Pace], pace: &Pace, from: usize) -> Option<usize>
    requires { from < 2048 }
    ensures { IfSome result (λ at. (at < length row.now) × (get_or row.now at pace.now ≡ pace.now)) }
{
    let count = row.len().min(from + 1);
    for done in 0..count {
        let at = count - 1 - done;
        if row[at] == *pace {
            return Some(at);
        }
    }
    None
}

// Takes a pace out of a row that has it, sought from a number down. Whether it was found.
fn take(row: &mut Row, pace: &Pace, from: usize) -> bool
    requires { from < 2048 }
    ensures { IsTrue result → (time : ℕ) → sum_by (bits_in time) row.new.items + bits_in time pace.now ≡ sum_by (bits_in time) row.old.items }
{
    let Some(at) = position_of(row.as_slice(), pace, from) else {
        return false;
    };
    row.swap_remove(at);
    true
}

/// Puts one more stream below, and takes its pace out of the row of those that are above. A row that was filled in order, and from
/// which later streams were taken alone, has the pace at the stream's own number.
pub(crate) fn lower(
    row: &mut Row,
    streams: &StreamSet,
    below: &mut [bool],
    index: usize,
    ahead: u64,
)
    requires flags { length below.old ≡ length streams.now }
    requires index { index < length streams.now }
    requires above { is_flagged (flags_above true below.old) index ≡ true }
    requires ahead { ahead ≤ most_ahead }
    requires row { IsRow streams.now ahead (flags_above true below.old) row.old.items }
    ensures below { below.new ≡ set below.old index true }
    ensures row { IsRow streams.now ahead (flags_above true below.new) row.new.items }
{
    let pace = streams.paces()[index].after(ahead);
    let is_taken = take(row, &pace, index);
    below[index] = true;
    if !is_taken {
        fill(row, streams, &Above::unflagged(below), ahead);
    }
}

/// How many bits all of some streams send within a time at most.
pub(crate) fn total(row: &[Pace], time: u64) -> u64
    requires time { time ≤ last_time }
    requires few { length row.now ≤ 2048 }
    ensures value { result ≡ sum_by (bits_in time) row.now }
    ensures most { result ≤ length row.now * 2 ^ 36 }
{
    let mut total = 0;
    for pace in row {
        total += pace.bits_within(time);
    }
    total
}
