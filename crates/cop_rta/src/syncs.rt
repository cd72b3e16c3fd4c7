//! SYNC's response, and what holds of it and of the streams below SYNC.

ghost use Rattle.std.specs.Prelude.{◌≡◌, ◌↔◌, ℕ, ◌<◌, ◌≤◌, Bool, List, length, Option, Some, None, slice_get};
ghost use Rattle.cop_frame.specs.declared.rates.Rate.{Rate};
ghost use Rattle.cop_rta.specs.declared.streams.Stream.{Stream};
ghost use Rattle.cop_rta.specs.Streams.{place_of_id};
ghost use Rattle.cop_rta.specs.Test.{StreamPlace, place_by_id, sync_id, sync_place, sync_response, greatest_response, ahead_of, jitter_of};
ghost use Rattle.cop_rta.specs.Verdict.{IsLong};
ghost use Rattle.cop_rta.specs.Jittered.{PassesWith};
ghost use Rattle.cop_rta.specs.Covers.{beside, Covers, AreNoShorter};
ghost use Rattle.cop_rta.specs.Greatest.{HasGreatest};

use crate::above::Above;
use crate::demands::Busy;
use crate::judging::{above_by_id, greatest_response};
use crate::rates::Clock;
use crate::sets::StreamSet;
use cop_frame::Rate;
use cop_frame::identifiers::SYNC;

/// SYNC's greatest response at a rate, whatever its deadline: none where the set has no SYNC, or its busy time is past the
/// horizon.
#[tactic(auto, unfolding(crate::specs::Test::sync_response))]
pub fn sync_response(set: &StreamSet, rate: Rate) -> Option<u64>
    ensures { result ≡ sync_response set.now rate }
{
    let Some(index) = set.place_of(SYNC) else {
        return None;
    };
    let mut flags = [false; StreamSet::MOST];
    let streams = set.streams();
    response_at(set, index, rate, &mut flags[..streams.len()])
}

// The greatest response of the stream at an index, with the lower identifiers above it, by flags of those. None of them is
// synchronous.
fn response_at(set: &StreamSet, index: usize, rate: Rate, above: &mut [bool]) -> Option<u64>
    requires flags { length above.old ≡ length set.now }
    requires index { index < length set.now }
    ensures { result ≡ greatest_response (sync_place set.now rate index) }
{
    above_by_id(set, index, above);
    let clock = Clock { rate, ahead: 0 };
    greatest_response(&Busy::with_clock(set, Above::flagged(above), index, clock))
}

/// SYNC's response is the greatest of its instances, whatever its deadline, and there is none exactly where the set
/// has no SYNC or its busy time is past the horizon.
pub fn sync_response_is()
    ensures is { (streams : List Stream) (rate : Rate) (r : ℕ)
        → (sync_response streams rate ≡ Some r ↔ (i : ℕ) × (place_of_id streams sync_id ≡ Some i) × HasGreatest (sync_place streams rate i) r) }
    ensures none { (streams : List Stream) (rate : Rate)
        → (sync_response streams rate ≡ None ↔ ((i : ℕ) → place_of_id streams sync_id ≡ Some i → IsLong (sync_place streams rate i))) }
{}

/// What SYNC's response puts in front of latencies is that response, and nothing where SYNC has none. It is within the latest
/// queueing of SYNC and its busy time.
pub fn ahead_is()
    ensures response { (streams : List Stream) (rate : Rate) (r : ℕ) → sync_response streams rate ≡ Some r → ahead_of streams rate ≡ r }
    ensures none { (streams : List Stream) (rate : Rate) → sync_response streams rate ≡ None → ahead_of streams rate ≡ 0 }
    ensures most { (streams : List Stream) (rate : Rate) → ahead_of streams rate ≤ 280000000 }
{}

/// Where the busy time of a stream is past the horizon, no stream passes that has all of those above it and itself above, whatever
/// is added to the jitters.
pub fn long_rules_out()
    ensures { (J : Stream → ℕ) (p : StreamPlace) (above : ℕ → Bool) (index ahead : ℕ)
        → AreNoShorter p.ahead J → p.index < length p.streams → index < length p.streams → Covers p above index → IsLong p
        → PassesWith J (beside p above index ahead) → ⊥ }
{}

/// So below a stream that passes SYNC has a response: what the jitters of synchronous streams stand on is there.
pub fn sync_responds()
    ensures { (streams : List Stream) (rate : Rate) (ahead i index : ℕ) (m : Stream)
        → place_of_id streams sync_id ≡ Some i → slice_get streams index ≡ Some m → sync_id < m.id → index < length streams
        → PassesWith (jitter_of ahead) (place_by_id streams index rate) → (r : ℕ) × HasGreatest (sync_place streams rate i) r }
{}
