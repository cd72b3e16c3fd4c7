//! What the test says of streams with given identifiers at one rate.

ghost use Rattle.std.specs.Prelude.{◌≡◌, ◌↔◌, ℕ, ◌<◌, ◌≤◌, IsTrue, IfOk, AllPairs, Contains, length, get_or};
ghost use Rattle.cop_frame.specs.declared.rates.Rate.{Rate};
ghost use Rattle.cop_rta.specs.declared.verdicts.Verdict.TheVariants.{Long};
ghost use Rattle.cop_rta.specs.Verdict.{IsPass};
ghost use Rattle.cop_standing.specs.Answers.{IsAsked, IsAnswer, IsLate};

use cop_cert::is_tested;
use cop_frame::Rate;
use cop_rta::{Stream, StreamSet, Verdict, verdicts_by_id};
use std::alloc::{AllocError, Global};

/// What the test says of streams at a rate.
#[derive(Drop)]
pub struct Answer {
    /// The rate.
    pub rate: Rate,
    /// What it says of each stream, in the order of the set.
    pub verdicts: Vec<Verdict>,
    /// The streams that are tested and fail, by their places, from 0 on and rising: PDOs, and SDO frames with deadlines.
    pub failing: Vec<usize>,
}

/// Whether a stream is tested, and fails by what the test says of it.
fn is_late(streams: &[Stream], pdos: usize, index: usize, verdict: Verdict) -> bool
    requires { index < length streams.now }
    ensures { IsTrue result ↔ (IsAsked streams.now pdos index × (IsPass verdict → ⊥)) }
{
    let is_asked = index < pdos || is_tested(streams, pdos, index);
    is_asked && !matches!(verdict, Verdict::Pass { .. })
}

/// The streams that are tested and fail, by what the test says of each.
fn failing(
    alloc: Global,
    streams: &[Stream],
    pdos: usize,
    verdicts: &[Verdict],
) -> Result<Vec<usize>, AllocError>
    requires { length verdicts.now ≡ length streams.now }
    ensures exact { IfOk result (λ failing. (k : ℕ) → Contains failing.items k ↔ IsLate streams.now pdos verdicts.now k) }
    ensures rises { IfOk result (λ failing. AllPairs (λ j k. j < k) failing.items) }
{
    let mut failing = Vec::new(alloc);
    for k in 0..streams.len() {
        if is_late(streams, pdos, k, verdicts[k]) {
            failing.push(k)?;
        }
    }
    Ok(failing)
}

/// What the test says of streams under the identifiers that they have, and which of those that are tested fail. The first `pdos` streams are the
/// PDOs. `Err` is want of memory.
pub fn answer_at(
    alloc: Global,
    set: &StreamSet,
    pdos: usize,
    rate: Rate,
) -> Result<Answer, AllocError>
    ensures { IfOk result (IsAnswer rate set.now pdos) }
{
    let verdicts = verdicts_by_id(alloc, set, rate)?;
    let failing = failing(alloc, set.streams(), pdos, &verdicts)?;
    Ok(Answer {
        rate,
        verdicts,
        failing,
    })
}
