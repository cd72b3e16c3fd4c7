//! A place of an order: some streams are below it, and each of the others may get it.

ghost use Rattle.std.specs.Prelude.{◌≡◌, ◌↔◌, ◌+◌, ◌<◌, ◌≤◌, length, set, not, true, false, IsTrue};
ghost use Rattle.cop_rta.specs.Test.{Passes, is_flagged, of_stream, cost_of, ahead_of};
ghost use Rattle.cop_rta.specs.Sums.{sum_where};
ghost use Rattle.cop_rta.specs.Verdict.{IsJudged, IsPass};
ghost use Rattle.cop_rta.specs.Waits.{IsBelowWait};
ghost use Rattle.cop_rta.specs.Paces.{flags_above, IsRow};
ghost use Rattle.cop_rta.specs.Placing.{Flags, place_in, longest_of, once_each, HasOneAbove, IsSharedTime};

use crate::above::Above;
use crate::demands::{Busy, cost, longest_below};
use crate::judging::{is_on_time, judged};
use crate::paces::Pace;
use crate::rates::AtRate;
use crate::rows::{Row, fill, lower};
use crate::sets::StreamSet;
use crate::verdicts::Verdict;
use cop_frame::Rate;
use std::marker::Model;

// The first stream that is above.
fn first_above(above: &Above<'_>, count: usize) -> usize
    requires count { count ≡ length above.now }
    requires some { HasOneAbove above.now }
    ensures inside { result < count }
    ensures above { is_flagged above.now result ≡ true }
{
    for k in 0..count {
        if above.has(k) {
            return k;
        }
    }
    unreachable!()
}

// One transfer of each stream that is above.
#[tactic(auto, using(crate::specs::SumsLemmas::steps))]
fn costs_above(set: &StreamSet, above: &Above<'_>, rate: Rate) -> u64
    requires { length above.now ≡ length set.now }
    ensures value { result ≡ sum_where (is_flagged above.now) (of_stream (cost_of rate) set.now) (length set.now) }
    ensures most { result ≤ 73040000 }
{
    let streams = set.streams();
    let mut total = 0;
    for (k, stream) in streams.iter().enumerate() {
        if above.has(k) {
            total += cost(stream, rate);
        }
    }
    total
}

// The busy time, which is the same for all streams that are above, if it is within the horizon. It is no less than what
// is known without its equation: the longest transfer from below, and one transfer of each.
fn shared_time(
    at: &AtRate<'_>,
    below: &[bool],
    from_below: u64,
    costs: u64,
    row: &[Pace],
) -> Option<u64>
    requires size { length below.now ≡ length at.now.streams }
    requires some { HasOneAbove (flags_above true below.now) }
    requires blocking { from_below ≡ longest_of (record { streams = at.now.streams; flags = flags_above true below.now; rate = at.now.rate }) }
    requires most { from_below ≤ 66400 }
    requires costs { costs ≡ once_each (record { streams = at.now.streams; flags = flags_above true below.now; rate = at.now.rate }) }
    requires costs_most { costs ≤ 73040000 }
    requires few { length row.now ≤ 2048 }
    requires row { IsRow at.now.streams (ahead_of at.now.streams at.now.rate) (flags_above true below.now) row.now }
    ensures { IsSharedTime (record { streams = at.now.streams; flags = flags_above true below.now; rate = at.now.rate }) result }
{
    let above = Above::unflagged(below);
    let (set, clock) = (at.set(), at.clock());
    let index = first_above(&above, set.len());
    let busy = Busy::in_row(set, clock, above, row, index, from_below);
    busy.time_from(from_below + costs)
}

/// A place at a rate, with some streams below it. Each of the others is judged there with the rest of them above it. What
/// their equations have in common is kept: the longest transfer from below, the sum of one transfer of each of the
/// others, their busy time, and their paces in a row. No memory is taken. Contracts see the streams, flags of those that are not below, and the
/// rate.
#[derive(Drop)]
pub struct Place<'a, 'b> {
    at: AtRate<'a>,
    below: &'b mut [bool],
    from_below: u64,
    costs: u64,
    // The paces of the others.
    row: Row,
    // The busy time of each of the others, if it is within the horizon.
    busy: Option<u64>,
}

impl<'a, 'b> Model for Place<'a, 'b> {
    ghost use Rattle.std.specs.Prelude.{true};
    ghost use Rattle.cop_rta.specs.Paces.{flags_above};
    ghost use Rattle.cop_rta.specs.Placing.{Flags, IsPlaced};

    ghost Value = { Flags };

    ghost view = { λ p. record { streams = p.at.streams; flags = flags_above true p.below.now; rate = p.at.rate } };

    ghost invariant = { λ p. IsPlaced (record { streams = p.at.streams; flags = flags_above true p.below.now; rate = p.at.rate }) p.from_below p.costs p.row.items p.busy };
}

impl<'a, 'b> Place<'a, 'b> {
    /// The place above the flagged streams. Some stream is not below it.
    pub fn new(set: &'a StreamSet, below: &'b mut [bool], rate: Rate) -> Place<'a, 'b>
        requires flags { length below.old ≡ length set.now }
        requires some { HasOneAbove (flags_above true below.old) }
        ensures { result ≡ record { streams = set.now; flags = flags_above true below.old; rate = rate } }
    {
        Place::among(&AtRate::new(set, rate), below)
    }

    /// The same in a set at a rate: what all its places have in common is not sought anew.
    pub fn among(at: &AtRate<'a>, below: &'b mut [bool]) -> Place<'a, 'b>
        requires flags { length below.old ≡ length at.now.streams }
        requires some { HasOneAbove (flags_above true below.old) }
        ensures { result ≡ record { streams = at.now.streams; flags = flags_above true below.old; rate = at.now.rate } }
    {
        let (set, clock) = (at.set(), at.clock());
        let above = Above::unflagged(below);
        let index = first_above(&above, set.len());
        let from_below = longest_below(set.streams(), &above, index, clock.rate);
        let costs = costs_above(set, &above, clock.rate);
        let mut row = Row::new();
        fill(&mut row, set, &above, clock.ahead);
        let busy = shared_time(at, below, from_below, costs, row.as_slice());
        Place {
            at: at.again(),
            below,
            from_below,
            costs,
            row,
            busy,
        }
    }

    /// Whether a stream is below.
    pub fn is_below(&self, index: usize) -> bool
        requires { index < length self.now.streams }
        ensures { result ≡ not (is_flagged self.now.flags index) }
    {
        let _ = &self.at;
        self.below[index]
    }

    /// The equations of a stream that is not below.
    pub fn equations(&self, index: usize) -> Busy<'_>
        requires index { index < length self.now.streams }
        requires above { is_flagged self.now.flags index ≡ true }
        ensures { result ≡ record { streams = self.now.streams; flags = self.now.flags; index = index; rate = self.now.rate; ahead = ahead_of self.now.streams self.now.rate } }
    {
        let above = Above::unflagged(&*self.below);
        let (set, clock) = (self.at.set(), self.at.clock());
        let row = self.row.as_slice();
        Busy::in_row(set, clock, above, row, index, self.from_below)
    }

    // A number that the wait of the first instance of a stream that is not below is no less than: the longest transfer
    // from below, and one of each of the others.
    fn first_wait(&self, index: usize) -> u64
        requires index { index < length self.now.streams }
        requires above { is_flagged self.now.flags index ≡ true }
        ensures { IsBelowWait (place_in self.now index) 0 result }
    {
        let own = self.equations(index).cost();
        self.from_below + (self.costs - own)
    }

    /// The response-time test of a stream that is not below, with all others that are not below above it.
    pub fn judge(&self, index: usize) -> Verdict
        requires index { index < length self.now.streams }
        requires above { is_flagged self.now.flags index ≡ true }
        ensures judged { IsJudged (place_in self.now index) result }
        ensures pass { IsPass result ↔ Passes (place_in self.now index) }
    {
        let busy = self.busy;
        judged(&self.equations(index), busy, self.first_wait(index)).verdict
    }

    /// Whether a stream that is not below passes, with all others that are not below above it. No number past its
    /// deadline is looked at.
    pub fn passes(&self, index: usize) -> bool
        requires index { index < length self.now.streams }
        requires above { is_flagged self.now.flags index ≡ true }
        ensures { IsTrue result ↔ Passes (place_in self.now index) }
    {
        let busy = self.busy;
        is_on_time(&self.equations(index), busy, self.first_wait(index))
    }

    /// Puts one more stream below, where another stays that is not. The two sums change by this stream alone; the busy
    /// time is sought anew.
    pub fn lower(&mut self, index: usize)
        requires index { index < length self.old.streams }
        requires above { is_flagged self.old.flags index ≡ true }
        requires some { HasOneAbove (set self.old.flags index false) }
        ensures { self.new ≡ record self.old { flags = set self.old.flags index false } }
    {
        let own = self.equations(index).cost();
        let at = self.at.again();
        let from_below = self.from_below.max(own);
        let costs = self.costs - own;
        let ahead = at.clock().ahead;
        let below = &mut *self.below;
        lower(&mut self.row, at.set(), below, index, ahead);
        let row = self.row.as_slice();
        let busy = shared_time(&at, below, from_below, costs, row);
        self.from_below = from_below;
        self.costs = costs;
        self.busy = busy;
    }
}
