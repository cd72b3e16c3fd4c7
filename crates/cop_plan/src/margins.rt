//! Identifiers with the greatest least margin.

ghost use Rattle.std.specs.Prelude.{◌≡◌, ◌↔◌, ℕ, ◌<◌, ◌≤◌, ◌+◌, ◌*◌, ◌^◌, true, false, List, Some, is_some, length, get_or, IfOk, IsTrue, MatchOption};
ghost use Rattle.std.specs.Option.{ForSome};
ghost use Rattle.cop_frame.specs.declared.rates.Rate.{Rate};
ghost use Rattle.cop_rta.specs.Entries.{entry_of};
ghost use Rattle.cop_rta.specs.declared.streams.Stream.{Stream};
ghost use Rattle.cop_cert.specs.Assignments.{NoAssignmentPasses};
ghost use Rattle.cop_plan.specs.Found.{IsFound, ArePlanned, ArePlannedWith, NoneFrom};
ghost use Rattle.cop_plan.specs.Caps.{deadline_of, AreCaps, capped};
ghost use Rattle.cop_plan.specs.Margins.{lower, AreLoweredBy, IsGreatestCapped};
ghost use Rattle.cop_plan.specs.declared.choices.Choice.TheVariants.{Margin};
ghost use Rattle.cop_plan.specs.Plans.{CanAssign, IsOutcome, IsPlan, IsChosenBy};

use crate::assigning::{Found, Outcome, assign, at_rate};
use crate::caps::{caps, greatest_of, least_of};
use crate::choices::Kept;
use crate::filling::Count;
use crate::plans::{Plan, add, planned};
use cop_frame::{Rate, RateSet};
use cop_rta::{Stream, StreamSet};
use std::alloc::{AllocError, Global};

/// Fillings of the second range and of the first; that of the lowest place comes first.
#[derive(Drop)]
struct Placing {
    lower: Vec<usize>,
    upper: Vec<usize>,
}

/// The greatest margin that some assignment reaches, and the fillings that reach it; none where it is 0.
#[derive(Drop)]
struct Widest {
    margin: u64,
    placing: Option<Placing>,
}

/// The stream with a deadline of so many ticks less.
fn with_less(stream: &Stream, margin: u64) -> Stream
    requires { ForSome stream.now.deadline (λ d. margin < d) }
    ensures { entry_of result ≡ lower margin (entry_of stream.now) }
{
    let Stream {
        id,
        bytes,
        period,
        jitter,
        deadline,
        every,
    } = *stream;
    Stream {
        id,
        bytes,
        period,
        jitter,
        deadline: deadline.map(|ticks| ticks - margin),
        every,
    }
}

/// The same streams with deadlines less by a margin or by the stream's cap.
fn lowered(
    alloc: Global,
    set: &StreamSet,
    caps: &[u64],
    margin: u64,
) -> Result<StreamSet, AllocError>
    requires size { length caps.now ≡ length set.now }
    requires above { (k d : ℕ) → deadline_of set.now k ≡ Some d → get_or caps.now k 0 < d }
    ensures { IfOk result (AreLoweredBy (capped margin (λ k. get_or caps.now k 0)) set.now) }
{
    let mut lowered = StreamSet::new(alloc);
    for (k, stream) in set.streams().iter().enumerate() {
        add(&mut lowered, with_less(stream, margin.min(caps[k])))?;
    }
    Ok(lowered)
}

/// The fillings of what was found.
fn placing_of(found: Found) -> Option<Placing>
    ensures { (rate : Rate) (streams : List Stream) (pdos : ℕ) → pdos ≤ length streams → IsFound rate streams pdos found
        → MatchOption result (NoAssignmentPasses rate streams pdos) (λ placing. ArePlanned rate streams pdos placing.lower.items placing.upper.items) }
{
    match found {
        Found::Placed { lower, upper } => Some(Placing { lower, upper }),
        Found::Refused(_) => None,
    }
}

/// Fillings for deadlines less by a margin or by the stream's cap, where some assignment passes with them.
fn keeping(
    alloc: Global,
    set: &StreamSet,
    pdos: usize,
    rate: Rate,
    caps: &[u64],
    margin: u64,
    count: &mut Count,
) -> Result<Option<Placing>, AllocError>
    requires can { CanAssign set.now pdos }
    requires caps { AreCaps rate set.now pdos caps.now }
    requires room { count.old.trials ≤ 2 ^ 32 + 2 ^ 30 }
    requires busy_room { count.old.busy ≤ 2 ^ 32 + 2 ^ 30 }
    ensures rises { count.old.trials ≤ count.new.trials }
    ensures trials { 2 * count.new.trials ≤ 2 * count.old.trials + 3 * (pdos * (pdos + 1)) }
    ensures busy_rises { count.old.busy ≤ count.new.busy }
    ensures busy { count.new.busy ≤ count.old.busy + 3 * pdos }
    ensures kept { IfOk result (λ kept. MatchOption kept (NoneFrom rate set.now pdos margin) (λ placing. ArePlannedWith margin rate set.now pdos placing.lower.items placing.upper.items)) }
{
    let lowered = lowered(alloc, set, caps, margin)?;
    let found = at_rate(alloc, &lowered, pdos, rate, count)?;
    Ok(placing_of(found))
}

/// The greatest margin that some assignment reaches at a rate, no deadline being lowered by more than the stream's cap. It is found by
/// halving: the PDOs are placed at most 28 times, since no cap has 2^28 ticks.
fn greatest_margin(
    alloc: Global,
    set: &StreamSet,
    pdos: usize,
    rate: Rate,
    caps: &[u64],
    count: &mut Count,
) -> Result<Widest, AllocError>
    requires can { CanAssign set.now pdos }
    requires caps { AreCaps rate set.now pdos caps.now }
    requires room { count.old.trials ≤ 2 ^ 32 + 2 ^ 29 }
    requires busy_room { count.old.busy ≤ 2 ^ 32 + 2 ^ 29 }
    ensures rises { count.old.trials ≤ count.new.trials }
    ensures trials { 2 * count.new.trials ≤ 2 * count.old.trials + 28 * (3 * (pdos * (pdos + 1))) }
    ensures busy_rises { count.old.busy ≤ count.new.busy }
    ensures busy { count.new.busy ≤ count.old.busy + 28 * (3 * pdos) }
    ensures greatest { IfOk result (λ widest. IsGreatestCapped rate set.now pdos widest.margin) }
    ensures placing { IfOk result (λ widest. MatchOption widest.placing (widest.margin ≡ 0) (λ placing. ArePlannedWith widest.margin rate set.now pdos placing.lower.items placing.upper.items)) }
{
    let mut margin = 0;
    let mut placing = None;
    let mut above = greatest_of(caps) + 1;
    while above - margin > 1 {
        let middle = margin + (above - margin) / 2;
        match keeping(alloc, set, pdos, rate, caps, middle, count)? {
            Some(kept) => {
                margin = middle;
                placing = Some(kept);
            }
            None => above = middle,
        }
    }
    Ok(Widest { margin, placing })
}

/// The plan at the same rate whose identifiers reach the greatest margin.
fn widened(
    alloc: Global,
    set: &StreamSet,
    pdos: usize,
    plan: Plan,
    count: &mut Count,
) -> Result<Plan, AllocError>
    requires can { CanAssign set.now pdos }
    requires room { count.old.trials ≤ 2 ^ 32 + 2 ^ 29 }
    requires busy_room { count.old.busy ≤ 2 ^ 32 + 2 ^ 29 }
    ensures rises { count.old.trials ≤ count.new.trials }
    ensures trials { 2 * count.new.trials ≤ 2 * count.old.trials + 28 * (3 * (pdos * (pdos + 1))) }
    ensures busy_rises { count.old.busy ≤ count.new.busy }
    ensures busy { count.new.busy ≤ count.old.busy + 28 * (3 * pdos) }
    ensures wider { (rates : List Rate) → IsPlan rates set.now pdos plan → is_some plan.margin ≡ false → IfOk result (λ wider. IsPlan rates set.now pdos wider × (is_some wider.margin ≡ true)) }
{
    let rate = plan.rate();
    let caps = caps(alloc, set, pdos, rate)?;
    let Widest { margin, placing } = greatest_margin(alloc, set, pdos, rate, &caps, count)?;
    let all = least_of(set.streams(), &caps, margin);
    let kept = Kept {
        all,
        others: margin,
    };
    match placing {
        Some(placing) => planned(
            alloc,
            set,
            pdos,
            rate,
            &placing.lower,
            &placing.upper,
            Some(kept),
            plan.into_refusals(),
        ),
        None => Ok(plan.keeping(kept)),
    }
}

/// What [`assign`](crate::assign) finds, but at the same rate the identifiers that reach the greatest margin: by so many ticks, or by
/// what the stream can have at its best place if that is less, each deadline can be lowered, and each PDO and each SDO frame with a
/// deadline still passes; with a greater margin no assignment passes. So one stream that can have little takes nothing from the others.
/// The plan also tells the greatest margin by which all deadlines can be lowered. `Err` is want of memory.
///
/// It makes the trials of [`assign`](crate::assign), and places the PDOs at most 28 times more, with 3n(n+1)/2 trials at most each time for n
/// PDOs, and 3n busy times. It counts all of them, and not the verdicts on the best places, one for each stream with a deadline.
pub fn assign_with_margin(
    alloc: Global,
    set: &StreamSet,
    pdos: usize,
    rates: &RateSet,
    count: &mut Count,
) -> Result<Outcome, AllocError>
    requires can { CanAssign set.now pdos }
    requires room { count.old.trials ≤ 2 ^ 32 }
    requires busy_room { count.old.busy ≤ 2 ^ 32 }
    ensures outcome { IfOk result (IsOutcome rates.now set.now pdos) }
    ensures by_margin { IfOk result (IsChosenBy Margin) }
    ensures rises { count.old.trials ≤ count.new.trials }
    ensures bounded { 2 * count.new.trials ≤ 2 * count.old.trials + (8 + 28) * (3 * (pdos * (pdos + 1))) }
    ensures busy_rises { count.old.busy ≤ count.new.busy }
    ensures busy_bounded { count.new.busy ≤ count.old.busy + (8 + 28) * (3 * pdos) }
{
    match assign(alloc, set, pdos, rates, count)? {
        Outcome::Planned(plan) => Ok(Outcome::Planned(widened(alloc, set, pdos, plan, count)?)),
        Outcome::Refused(refusals) => Ok(Outcome::Refused(refusals)),
    }
}
