//! What a rate misses a plan by, where no assignment passes at it.

ghost use Rattle.std.specs.Prelude.{ℕ, ◌≡◌, ◌↔◌, ◌+◌, ◌-◌, ◌<◌, ◌≤◌, IsTrue, IfOk, IfSome, MatchOption, Contains, length, get_or, unwrap_or, slice_get};
ghost use Rattle.std.specs.Option.{option_and_then};
ghost use Rattle.cop_rta.specs.declared.verdicts.Verdict.TheVariants.{Long};
ghost use Rattle.cop_rta.specs.Verdict.{response_of};
ghost use Rattle.cop_cert.specs.Assignments.{NoAssignmentPasses};
ghost use Rattle.cop_plan.specs.Caps.{deadline_of};
ghost use Rattle.cop_plan.specs.Plans.{CanAssign};
ghost use Rattle.cop_room.specs.Changes.{with_deadlines};
ghost use Rattle.cop_room.specs.Keeping.{CanBePlanned, Fails, Holds, IsLeastLimit};
ghost use Rattle.cop_room.specs.Misses.{NoneStretches, IsTightest, IsStretch, AreWithout, IsSpare, IsMiss};
ghost use Rattle.cop_room.specs.Planning.{IsPlannedAt, IsPlannedWith, left_in};

use crate::changing::{add, with_number};
use crate::numbers::Number;
use cop_frame::{Rate, RateSet};
use cop_plan::{Count, Outcome, Plan, assign, can_assign};
use cop_rta::{IdRange, Stream, StreamSet, Verdict, response_of, verdicts_by_id};
use std::alloc::{AllocError, Global};

/// How much longer all deadlines have to be so that some assignment passes.
#[derive(Clone, Copy, PartialEq, Eq, Debug)]
pub struct Stretch {
    /// The least thousandths of all deadlines with which some assignment passes, 1001 at least. A deadline is rounded up to whole microseconds, and
    /// is 60 s at most.
    pub thousandths: u64,
    /// The PDO that then has the least left of its deadline, under the identifiers of a plan; none where there is no PDO.
    pub tightest: Option<usize>,
}

/// What a rate misses a plan by.
#[derive(Drop)]
pub struct Miss {
    /// The rate.
    pub rate: Rate,
    /// How much longer all deadlines have to be; none where no assignment passes with 60 s for each.
    pub stretch: Option<Stretch>,
    /// The fixed frames above all PDOs, by their places among the streams, of which each can be left out, alone, so that some assignment passes with the
    /// deadlines as they are.
    pub spare: Vec<usize>,
}

/// The thousandths from which longer deadlines are looked for.
const LEAST: u64 = 1001;

/// The thousandths with which a deadline of a microsecond is 60 s.
const MOST: u64 = 60_000_000_000;

/// The plan at a rate, if some assignment passes there.
pub(crate) fn planned_at(
    alloc: Global,
    set: &StreamSet,
    pdos: usize,
    rate: Rate,
) -> Result<Option<Plan>, AllocError>
    requires { CanAssign set.now pdos }
    ensures { IfOk result (λ plan. MatchOption plan (NoAssignmentPasses rate set.now pdos) (IsPlannedAt rate set.now pdos)) }
{
    let mut rates = RateSet::new();
    rates.insert(rate);
    let mut count = Count { trials: 0, busy: 0 };
    match assign(alloc, set, pdos, &rates, &mut count)? {
        Outcome::Planned(plan) => Ok(Some(plan)),
        Outcome::Refused(_) => Ok(None),
    }
}

/// The plan at a rate with all deadlines in so many thousandths, if some assignment passes.
fn planned_with(
    alloc: Global,
    set: &StreamSet,
    pdos: usize,
    rate: Rate,
    part: u64,
) -> Result<Option<Plan>, AllocError>
    requires can { CanAssign set.now pdos }
    requires part { part ≤ 60000000000 }
    ensures { IfOk result (λ plan. MatchOption plan (Fails (CanBePlanned rate pdos) (with_deadlines part) set.now) (IsPlannedWith part rate set.now pdos)) }
{
    let longer = with_number(alloc, set, Number::Deadlines, part)?;
    planned_at(alloc, &longer, pdos, rate)
}

/// The least thousandths of all deadlines with which some assignment passes, if one does with the longest.
///
/// The longest are tried first, so that it is known at once if none do; then what is tried is further from the least by ever more, until it passes.
fn least_thousandths(
    alloc: Global,
    set: &StreamSet,
    pdos: usize,
    rate: Rate,
) -> Result<Option<u64>, AllocError>
    requires { CanAssign set.now pdos }
    ensures within { IfOk result (λ least. IfSome least (λ part. part ≤ 60000000000)) }
    ensures exact { IfOk result (λ least. MatchOption least (NoneStretches rate set.now pdos) (IsLeastLimit (CanBePlanned rate pdos) with_deadlines set.now 1001)) }
{
    let mut low = LEAST;
    let mut high = MOST + 1;
    let mut next = MOST;
    let mut step = 1u64;
    while low < high {
        let part = next.min(high - 1).max(low);
        match planned_with(alloc, set, pdos, rate, part)? {
            Some(_) => high = part,
            None => {
                low = part + 1;
                step = step.saturating_mul(2);
            }
        }
        let middle = low + high.saturating_sub(low) / 2;
        next = middle.min(low.saturating_add(step - 1));
    }
    Ok(if high <= MOST { Some(high) } else { None })
}

/// What a stream's greatest response leaves of its deadline, by what the test says.
fn left_at(streams: &[Stream], verdicts: &[Verdict], k: usize) -> u64
    requires index { k < length streams.now }
    requires verdicts { length verdicts.now ≡ length streams.now }
    ensures { result ≡ left_in streams.now verdicts.now k }
{
    let deadline = streams[k].deadline.unwrap_or(0);
    deadline.saturating_sub(response_of(verdicts[k]))
}

/// The first of the PDOs with the least left of its deadline, by what the test says of each.
fn least_left(streams: &[Stream], pdos: usize, verdicts: &[Verdict]) -> Option<usize>
    requires count { pdos ≤ length streams.now }
    requires verdicts { length verdicts.now ≡ length streams.now }
    ensures { MatchOption result (pdos ≡ 0) (λ p. (p < pdos) × ((k : ℕ) → k < pdos → left_in streams.now verdicts.now p ≤ left_in streams.now verdicts.now k)) }
{
    if pdos == 0 {
        return None;
    }
    let mut least = 0;
    for p in 1..pdos {
        if left_at(streams, verdicts, p) < left_at(streams, verdicts, least) {
            least = p;
        }
    }
    Some(least)
}

/// The PDO of a plan that has the least left of its deadline.
fn tightest(alloc: Global, plan: &Plan) -> Result<Option<usize>, AllocError>
    ensures { IfOk result (λ tightest. MatchOption tightest (length plan.now.ids ≡ 0) (IsTightest plan.now.rate plan.now.streams (length plan.now.ids))) }
{
    let pdos = plan.ids().len();
    let set = plan.streams();
    let verdicts = verdicts_by_id(alloc, set, plan.rate())?;
    Ok(least_left(set.streams(), pdos, &verdicts))
}

/// How much longer all deadlines have to be so that some assignment passes; none where none passes with 60 s for each.
fn stretch_of(
    alloc: Global,
    set: &StreamSet,
    pdos: usize,
    rate: Rate,
) -> Result<Option<Stretch>, AllocError>
    requires { CanAssign set.now pdos }
    ensures { IfOk result (λ stretch. MatchOption stretch (NoneStretches rate set.now pdos) (IsStretch rate set.now pdos)) }
{
    let Some(thousandths) = least_thousandths(alloc, set, pdos, rate)? else {
        return Ok(None);
    };
    let Some(plan) = planned_with(alloc, set, pdos, rate, thousandths)? else {
        unreachable!()
    };
    let tightest = tightest(alloc, &plan)?;
    Ok(Some(Stretch {
        thousandths,
        tightest,
    }))
}

/// The streams without one of them.
fn without(alloc: Global, set: &StreamSet, index: usize) -> Result<StreamSet, AllocError>
    requires { index < length set.now }
    ensures { IfOk result (AreWithout set.now index) }
{
    let mut others = StreamSet::new(alloc);
    for (k, stream) in set.streams().iter().enumerate() {
        if k != index {
            add(&mut others, *stream)?;
        }
    }
    Ok(others)
}

/// Whether a stream is a fixed frame above all PDOs without which some assignment passes.
fn is_spare(
    alloc: Global,
    set: &StreamSet,
    pdos: usize,
    rate: Rate,
    index: usize,
) -> Result<bool, AllocError>
    requires { index < length set.now }
    ensures { IfOk result (λ yes. IsTrue yes ↔ IsSpare rate set.now pdos index) }
{
    let id = set.streams()[index].id;
    if index < pdos || id >= IdRange::FIRST.least {
        return Ok(false);
    }
    let others = without(alloc, set, index)?;
    if !can_assign(&others, pdos) {
        return Ok(false);
    }
    let plan = planned_at(alloc, &others, pdos, rate)?;
    Ok(plan.is_some())
}

/// The fixed frames above all PDOs of which each can be left out, alone, so that some assignment passes.
fn spare_frames(
    alloc: Global,
    set: &StreamSet,
    pdos: usize,
    rate: Rate,
) -> Result<Vec<usize>, AllocError>
    ensures { IfOk result (λ frames. (index : ℕ) → Contains frames.items index ↔ IsSpare rate set.now pdos index) }
{
    let mut frames = Vec::new(alloc);
    for index in 0..set.len() {
        if is_spare(alloc, set, pdos, rate, index)? {
            frames.push(index)?;
        }
    }
    Ok(frames)
}

/// What a rate misses a plan by: how much longer all deadlines have to be, and which fixed frame could be left out. The first `pdos` streams are the
/// PDOs. `Err` is want of memory.
///
/// No search has to be trusted: with these thousandths some assignment passes, and with no fewer from 1001 on does one.
pub fn nearest_miss(
    alloc: Global,
    set: &StreamSet,
    pdos: usize,
    rate: Rate,
) -> Result<Miss, AllocError>
    requires { CanAssign set.now pdos }
    ensures { IfOk result (IsMiss rate set.now pdos) }
{
    Ok(Miss {
        rate,
        stretch: stretch_of(alloc, set, pdos, rate)?,
        spare: spare_frames(alloc, set, pdos, rate)?,
    })
}
