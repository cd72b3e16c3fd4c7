//! Whether all that are tested pass.

ghost use Rattle.std.specs.Prelude.{◌↔◌, ◌≡◌, ℕ, ◌<◌, ◌≤◌, ◌⊎◌, nat_lt, IsTrue, IfOk, IfSome, MatchOption, length, get_or};
ghost use Rattle.cop_frame.specs.declared.rates.Rate.{Rate};
ghost use Rattle.cop_rta.specs.declared.verdicts.Verdict.TheVariants.{Long};
ghost use Rattle.cop_rta.specs.Test.{Passes, place_by_id, is_flagged};
ghost use Rattle.cop_rta.specs.Verdict.{IsJudged};
ghost use Rattle.cop_cert.specs.Assignments.{IsTested, id_at};
ghost use Rattle.cop_room.specs.Keeping.{AllStillPass, IsKept};

use cop_cert::is_tested;
use cop_frame::Rate;
use cop_rta::{Place, Stream, StreamSet, Verdict, verdicts_by_id};
use std::alloc::{AllocError, Global};

/// Flags the streams below one: those with a greater identifier.
#[tactic(auto, using(cop_rta::specs::SumsLemmas::of_stream_read))]
fn flag_below(streams: &[Stream], index: usize, out: &mut [bool])
    requires flags { length out.old ≡ length streams.now }
    requires index { index < length streams.now }
    ensures size { length out.new ≡ length streams.now }
    ensures each { (k : ℕ) → k < length streams.now → is_flagged out.new k ≡ nat_lt (id_at streams.now index) (id_at streams.now k) }
{
    let id = streams[index].id;
    for (k, stream) in streams.iter().enumerate() {
        out[k] = id < stream.id;
    }
}

/// Whether the stream at an index passes, with the lower identifiers above it. The flags are written over.
fn passes(set: &StreamSet, index: usize, rate: Rate, flags: &mut [bool]) -> bool
    requires flags { length flags.old ≡ length set.now }
    requires index { index < length set.now }
    ensures { IsTrue result ↔ Passes (place_by_id set.now index rate) }
{
    flag_below(set.streams(), index, flags);
    Place::new(set, flags, rate).passes(index)
}

/// Whether a stream is a PDO, or an SDO frame with a deadline. The first `pdos` streams are the PDOs.
fn is_asked(streams: &[Stream], pdos: usize, index: usize) -> bool
    requires { index < length streams.now }
    ensures { IsTrue result ↔ ((index < pdos) ⊎ IsTested streams.now pdos index) }
{
    index < pdos || is_tested(streams, pdos, index)
}

/// Whether the stream at an index passes, if it is asked for.
pub(crate) fn keeps(set: &StreamSet, pdos: usize, rate: Rate, index: usize) -> bool
    requires index { index < length set.now }
    ensures { IsTrue result ↔ IsKept rate pdos set.now index }
{
    let count = set.len();
    let streams = set.streams();
    let mut flags = [false; StreamSet::MOST];
    if is_asked(streams, pdos, index) {
        passes(set, index, rate, &mut flags[..count])
    } else {
        true
    }
}

/// The same by what the test says of it.
fn is_kept(streams: &[Stream], pdos: usize, index: usize, verdict: Verdict) -> bool
    requires index { index < length streams.now }
    ensures { (rate : Rate) → IsJudged (place_by_id streams.now index rate) verdict → (IsTrue result ↔ IsKept rate pdos streams.now index) }
{
    if is_asked(streams, pdos, index) {
        matches!(verdict, Verdict::Pass { .. })
    } else {
        true
    }
}

/// The first stream that is asked for and fails by what the test says of each.
fn first_failing(streams: &[Stream], pdos: usize, verdicts: &[Verdict]) -> Option<usize>
    requires count { pdos ≤ length streams.now }
    requires verdicts { length verdicts.now ≡ length streams.now }
    ensures within { IfSome result (λ index. index < length streams.now) }
    ensures exact { (rate : Rate) → ((k : ℕ) → k < length streams.now → IsJudged (place_by_id streams.now k rate) (get_or verdicts.now k Long))
        → MatchOption result (AllStillPass rate pdos streams.now) (λ _. AllStillPass rate pdos streams.now → ⊥) }
{
    for index in 0..streams.len() {
        let verdict = verdicts[index];
        if !is_kept(streams, pdos, index, verdict) {
            return Some(index);
        }
    }
    None
}

/// A PDO or an SDO frame with a deadline that fails under the identifiers that the streams have, if one does. One stream is tried
/// before the others.
pub(crate) fn failing(
    alloc: Global,
    set: &StreamSet,
    pdos: usize,
    rate: Rate,
    first: usize,
) -> Result<Option<usize>, AllocError>
    requires { pdos ≤ length set.now }
    ensures within { IfOk result (λ failing. IfSome failing (λ index. index < length set.now)) }
    ensures exact { IfOk result (λ failing. MatchOption failing (AllStillPass rate pdos set.now) (λ _. AllStillPass rate pdos set.now → ⊥)) }
{
    if first < set.len() && !keeps(set, pdos, rate, first) {
        return Ok(Some(first));
    }
    let verdicts = verdicts_by_id(alloc, set, rate)?;
    Ok(first_failing(set.streams(), pdos, &verdicts))
}
