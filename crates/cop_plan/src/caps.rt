//! What a stream can have of its deadline at its best place.

ghost use Rattle.std.specs.Prelude.{◌≡◌, ℕ, ◌<◌, false, length, IfOk, Some};
ghost use Rattle.cop_rta.specs.Test.{StreamPlace, is_flagged, flagged_place};
ghost use Rattle.cop_rta.specs.Verdict.{IsJudged};
ghost use Rattle.cop_cert.specs.Sets.{is_in_trial};
ghost use Rattle.cop_plan.specs.Caps.{is_judged, bound_of, left_at, deadline_of, cap_of, AreCaps, IsGreatestOf, HaveLeast};

use cop_frame::Rate;
use cop_rta::{IdRange, Stream, StreamSet, Verdict, verdict};
use std::alloc::{AllocError, Global};

/// Whether a stream is a PDO or an SDO frame.
fn is_judged(streams: &[Stream], pdos: usize, k: usize) -> bool
    requires { k < length streams.now }
    ensures { result ≡ is_judged streams.now pdos k }
{
    let id = streams[k].id;
    k < pdos || ((0x581 <= id && id <= 0x5FF) || (0x601 <= id && id <= 0x67F))
}

/// The fixed frames with identifiers below this are above a stream in any case.
fn bound_of(streams: &[Stream], pdos: usize, k: usize) -> u16
    requires { k < length streams.now }
    ensures { result ≡ bound_of streams.now pdos k }
{
    let id = streams[k].id;
    if k < pdos { IdRange::FIRST.least } else { id }
}

/// Flags the fixed frames with an identifier below a bound.
fn flag_fixed(streams: &[Stream], pdos: usize, bound: u16, out: &mut [bool])
    requires size { length out.old ≡ length streams.now }
    ensures size { length out.new ≡ length streams.now }
    ensures each { (k : ℕ) → is_flagged out.new k ≡ is_in_trial bound streams.now pdos (λ _. false) k }
{
    for (k, stream) in streams.iter().enumerate() {
        out[k] = if k < pdos { false } else { stream.id < bound };
    }
}

/// What a verdict leaves of the deadline that it was given by.
fn left_of(verdict: Verdict, deadline: u64) -> u64
    ensures { (p : StreamPlace) → p.index < length p.streams → deadline_of p.streams p.index ≡ Some deadline → IsJudged p verdict → result ≡ left_at p deadline }
{
    match verdict {
        Verdict::Pass { response } => deadline.saturating_sub(response),
        Verdict::Late { .. } => 0,
        Verdict::Long => 0,
    }
}

/// The cap of a stream: what its best place leaves of its deadline.
fn cap_of(set: &StreamSet, pdos: usize, rate: Rate, k: usize) -> u64
    requires { k < length set.now }
    ensures { result ≡ cap_of rate set.now pdos k }
{
    let streams = set.streams();
    let stream = &streams[k];
    let Some(deadline) = stream.deadline else {
        return 0;
    };
    if !is_judged(streams, pdos, k) {
        return deadline - 1;
    }
    let mut flags = [false; StreamSet::MOST];
    let above = &mut flags[..streams.len()];
    flag_fixed(streams, pdos, bound_of(streams, pdos, k), above);
    left_of(verdict(set, above, k, rate), deadline)
}

/// The caps of all streams.
pub(crate) fn caps(
    alloc: Global,
    set: &StreamSet,
    pdos: usize,
    rate: Rate,
) -> Result<Vec<u64>, AllocError>
    ensures { IfOk result (λ caps. AreCaps rate set.now pdos caps.items) }
{
    let mut caps = Vec::new(alloc);
    for k in 0..set.len() {
        caps.push(cap_of(set, pdos, rate, k))?;
    }
    Ok(caps)
}

/// The greatest of some caps, or 0.
pub(crate) fn greatest_of(caps: &[u64]) -> u64
    ensures { IsGreatestOf caps.now result }
{
    let mut greatest = 0;
    for cap in caps {
        greatest = greatest.max(*cap);
    }
    greatest
}

/// The least of a margin and the caps of the streams that have deadlines.
pub(crate) fn least_of(streams: &[Stream], caps: &[u64], margin: u64) -> u64
    requires { length caps.now ≡ length streams.now }
    ensures { HaveLeast streams.now caps.now margin result }
{
    let mut least = margin;
    for (k, stream) in streams.iter().enumerate() {
        if stream.deadline.is_some() {
            least = least.min(caps[k]);
        }
    }
    least
}
