//! What the streams of a set are held to.

ghost use Rattle.std.specs.Prelude.{◌≡◌, ◌<◌, ℕ, IfOk, length, map, Option, slice_index_or};
ghost use Rattle.cop_rta.specs.Test.{place_by_id};
ghost use Rattle.cop_rta.specs.Verdict.{PassesBy};
ghost use Rattle.cop_log.specs.Bounds.{bound_of};

use cop_frame::Rate;
use cop_rta::{StreamSet, Verdict, one_verdict, verdicts_by_id};
use std::alloc::{AllocError, Global};

fn bound_of(verdict: Verdict) -> Option<u64>
    ensures { result ≡ bound_of verdict }
{
    match verdict {
        Verdict::Pass { response } => Some(response),
        Verdict::Late { .. } => None,
        Verdict::Long => None,
    }
}

fn bounds_in(alloc: Global, verdicts: &[Verdict]) -> Result<Vec<Option<u64>>, AllocError>
    ensures { IfOk result (λ bounds. bounds.items ≡ map bound_of verdicts.now) }
{
    let mut bounds = Vec::new(alloc);
    for place in 0..verdicts.len() {
        bounds.push(bound_of(verdicts[place]))?;
    }
    Ok(bounds)
}

/// The greatest response of each stream of a set at a rate, by its place, with the lower identifiers above it; none where the stream does
/// not pass the test.
pub fn bounds_of(
    alloc: Global,
    streams: &StreamSet,
    rate: Rate,
) -> Result<Vec<Option<u64>>, AllocError>
    ensures sound { IfOk result (λ bounds. (p d : ℕ) → slice_index_or bounds.items p Option.None ≡ Option.Some d → PassesBy (place_by_id streams.now p rate) d) }
    ensures each { IfOk result (λ bounds. (p r : ℕ) → p < length streams.now → PassesBy (place_by_id streams.now p rate) r → slice_index_or bounds.items p Option.None ≡ Option.Some r) }
{
    one_verdict();
    let verdicts = verdicts_by_id(alloc, streams, rate)?;
    let bounds = bounds_in(alloc, &verdicts)?;
    Ok(bounds)
}
