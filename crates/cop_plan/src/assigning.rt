//! The slowest rate at which some assignment of identifiers passes.

ghost use Rattle.std.specs.Prelude.{◌≡◌, ◌<◌, ◌≤◌, ◌+◌, ◌*◌, ◌^◌, ◌↔◌, ℕ, true, false, nat_lt, List, [], length, All, AllPairs, IfOk, IfSome, IsTrue, MatchOption};
ghost use Rattle.cop_rta.specs.Greatest.{AreSynced};
ghost use Rattle.cop_rta.specs.Ranges.{first_range, second_range};
ghost use Rattle.cop_rta.specs.Test.{is_flagged, flagged_place, Passes};
ghost use Rattle.cop_cert.specs.Assignments.{id_at, AreOutside};
ghost use Rattle.cop_cert.specs.Causes.{kept, PassesBelow, IsSyncLong};
ghost use Rattle.cop_cert.specs.Evidence.{is_listed};
ghost use Rattle.cop_cert.specs.Sets.{is_in_trial};
ghost use Rattle.cop_plan.specs.Fillings.{IsFilled};
ghost use Rattle.cop_plan.specs.Found.{IsSynced, FailsBelow, IsLowestFailing, IsFound, members_found, least_found, filled_found};
ghost use Rattle.cop_plan.specs.Orders.{FramesPass};
ghost use Rattle.cop_plan.specs.Plans.{CanAssign, IsOutcome, IsChosenBy, rates_tried, least_trials, least_busy};
ghost use Rattle.cop_plan.specs.declared.choices.Choice.TheVariants.{Order};
ghost use Rattle.cop_plan.specs.Values.{HaveDeadlines, ArePdosHigh};

use crate::filling::{Count, Filled, fill_range, flag_all};
use crate::plans::{Plan, planned};
use cop_cert::{Items, Refusal, is_sync_long, is_tested, make, make_for_sdo, make_for_sync};
use cop_frame::identifiers::SYNC;
use cop_frame::{Rate, RateSet};
use cop_rta::{IdRange, Stream, StreamSet, Verdict, verdict};
use std::alloc::{AllocError, Global};

/// What a planner answers.
#[derive(Drop)]
pub enum Outcome {
    /// At some candidate rate some assignment passes: the plan of the slowest.
    Planned(Plan),
    /// At no candidate rate an assignment passes: a refusal for each, by rising rate.
    Refused(Items<Refusal>),
}

/// How many PDOs can be planned at most.
const MOST_PDOS: usize = 512;

/// Whether each of the first streams has a deadline.
fn have_deadlines(streams: &[Stream], pdos: usize) -> bool
    requires { pdos ≤ length streams.now }
    ensures { IsTrue result ↔ HaveDeadlines streams.now pdos }
{
    for p in 0..pdos {
        if streams[p].deadline.is_none() {
            return false;
        }
    }
    true
}

/// Whether each of the first streams has an identifier of 181h or above.
fn are_pdos_high(streams: &[Stream], pdos: usize) -> bool
    requires { pdos ≤ length streams.now }
    ensures { IsTrue result ↔ ArePdosHigh streams.now pdos }
{
    for p in 0..pdos {
        let id = streams[p].id;
        if id < IdRange::FIRST.least {
            return false;
        }
    }
    true
}

/// Whether no stream after the first has an identifier of a range.
fn are_outside(streams: &[Stream], pdos: usize, range: IdRange) -> bool
    requires { range.least + range.count < 2 ^ 16 }
    ensures { IsTrue result ↔ AreOutside range streams.now pdos }
{
    for k in pdos..streams.len() {
        let id = streams[k].id;
        if id >= range.least && id < range.least + range.count {
            return false;
        }
    }
    true
}

/// Whether a stream, if it is synchronous, has so many times the period of SYNC, which is in the set.
fn is_synced(set: &StreamSet, stream: &Stream) -> bool
    ensures { IsTrue result ↔ IsSynced set.now stream.now }
{
    let (every, period) = (stream.every, stream.period);
    if every == 0 {
        return true;
    }
    match set.place_of(SYNC) {
        Some(sync) => period == u64::from(every) * set.streams()[sync].period,
        None => false,
    }
}

/// Whether synchronous streams keep pace with SYNC.
fn are_synced(set: &StreamSet) -> bool
    ensures { IsTrue result ↔ AreSynced set.now }
{
    for stream in set.streams() {
        if !is_synced(set, stream) {
            return false;
        }
    }
    true
}

/// Whether the first streams can be planned as PDOs: they are 512 at most, each has a deadline and an identifier of 181h or above, no
/// other stream has an identifier of 181h to 57Fh or 680h to 6DFh, and each synchronous stream has so many times SYNC's period. No
/// memory is taken.
pub fn can_assign(set: &StreamSet, pdos: usize) -> bool
    ensures { IsTrue result ↔ CanAssign set.now pdos }
{
    let streams = set.streams();
    if pdos > streams.len() {
        return false;
    }
    if pdos > MOST_PDOS {
        return false;
    }
    if !have_deadlines(streams, pdos) {
        return false;
    }
    if !are_pdos_high(streams, pdos) {
        return false;
    }
    if !are_outside(streams, pdos, IdRange::FIRST) {
        return false;
    }
    if !are_outside(streams, pdos, IdRange::SECOND) {
        return false;
    }
    are_synced(set)
}

/// What there is at one rate.
#[derive(Drop)]
pub(crate) enum Found {
    /// The PDOs of the second range and of the first; that of the lowest place comes first.
    Placed {
        lower: Vec<usize>,
        upper: Vec<usize>,
    },
    /// No assignment passes.
    Refused(Refusal),
}

/// Flags what is above an SDO frame: the flagged PDOs, and the fixed frames with an identifier below its own.
fn flag_above(streams: &[Stream], kept: &[bool], bound: u16, out: &mut [bool])
    requires size { length out.old ≡ length streams.now }
    requires pdos { length kept.now ≤ length streams.now }
    ensures size { length out.new ≡ length streams.now }
    ensures each { (k : ℕ) → k < length streams.now → is_flagged out.new k ≡ is_in_trial bound streams.now (length kept.now) (is_flagged kept.now) k }
{
    for (k, stream) in streams.iter().enumerate() {
        out[k] = if k < kept.len() {
            kept[k]
        } else {
            stream.id < bound
        };
    }
}

/// Whether a stream passes below what is flagged.
fn passes(set: &StreamSet, above: &[bool], rate: Rate, frame: usize) -> bool
    requires flags { length above.now ≡ length set.now }
    requires frame { frame < length set.now }
    ensures { IsTrue result ↔ Passes (flagged_place set.now above.now frame rate) }
{
    matches!(verdict(set, above, frame, rate), Verdict::Pass { .. })
}

/// Whether a stream passes below the flagged PDOs and the fixed frames with an identifier below its own.
fn passes_below(set: &StreamSet, kept: &[bool], rate: Rate, frame: usize) -> bool
    requires pdos { length kept.now ≤ length set.now }
    requires frame { frame < length set.now }
    ensures { IsTrue result ↔ PassesBelow rate set.now (length kept.now) (is_flagged kept.now) frame }
{
    let streams = set.streams();
    let mut flags = [false; StreamSet::MOST];
    let above = &mut flags[..streams.len()];
    flag_above(streams, kept, streams[frame].id, above);
    passes(set, above, rate, frame)
}

/// Whether a frame has a lower identifier than another, if there is one.
fn is_below(streams: &[Stream], frame: usize, other: Option<usize>) -> bool
    requires frame { frame < length streams.now }
    requires other { IfSome other (λ f. f < length streams.now) }
    ensures { MatchOption other (result ≡ true) (λ f. result ≡ nat_lt (id_at streams.now frame) (id_at streams.now f)) }
{
    match other {
        Some(other) => streams[frame].id < streams[other].id,
        None => true,
    }
}

/// Of the SDO frames with a deadline that fail below the flagged PDOs, that with the lowest identifier.
fn lowest_failing(set: &StreamSet, kept: &[bool], rate: Rate) -> Option<usize>
    requires { length kept.now ≤ length set.now }
    ensures { MatchOption result (FramesPass rate set.now (length kept.now) (is_flagged kept.now)) (IsLowestFailing rate set.now (length kept.now) (is_flagged kept.now)) }
{
    let streams = set.streams();
    let mut lowest: Option<usize> = None;
    for frame in kept.len()..streams.len() {
        if is_tested(streams, kept.len(), frame)
            && !passes_below(set, kept, rate, frame)
            && is_below(streams, frame, lowest)
        {
            lowest = Some(frame);
        }
    }
    lowest
}

/// Flags the listed PDOs, or all where there are too many for the second range.
fn flag_kept(pdos: usize, listed: &[usize], out: &mut [bool])
    requires size { length out.old ≡ pdos }
    requires inside { All (λ p. p < pdos) listed.now }
    ensures size { length out.new ≡ pdos }
    ensures each { (k : ℕ) → k < pdos → is_flagged out.new k ≡ kept pdos (is_listed listed.now) k }
{
    let many = pdos > usize::from(IdRange::SECOND.count);
    flag_all(pdos, many, out);
    for pdo in listed {
        out[*pdo] = true;
    }
}

/// The PDOs that get a place of the second range, and those that cannot. None is tried where it has no room for all.
fn fill_second(
    alloc: Global,
    set: &StreamSet,
    pdos: usize,
    rate: Rate,
    all: &[bool],
    count: &mut Count,
) -> Result<Filled, AllocError>
    requires all { length all.now ≡ pdos }
    requires pdos { pdos ≤ length set.now }
    requires each { (k : ℕ) → k < pdos → is_flagged all.now k ≡ true }
    requires room { count.old.trials ≤ 2 ^ 33 }
    requires busy_room { count.old.busy ≤ 2 ^ 33 }
    ensures filled { pdos ≤ second_range.count → IfOk result (λ filled. IsFilled second_range.least rate set.now pdos (λ k. nat_lt k pdos) filled.placed.items (is_listed filled.left.items)) }
    ensures none { second_range.count < pdos → IfOk result (λ filled. (filled.placed.items ≡ []) × (filled.left.items ≡ [])) }
    ensures rise { IfOk result (λ filled. AllPairs (λ m n. m < n) filled.left.items) }
    ensures inside { IfOk result (λ filled. All (λ m. m < pdos) filled.left.items) }
    ensures rises { count.old.trials ≤ count.new.trials }
    ensures trials { 2 * count.new.trials ≤ 2 * count.old.trials + pdos * (pdos + 1) }
    ensures busy_rises { count.old.busy ≤ count.new.busy }
    ensures busy_most { count.new.busy ≤ count.old.busy + pdos }
{
    if pdos > usize::from(IdRange::SECOND.count) {
        return Ok(Filled {
            placed: Vec::new(alloc),
            left: Vec::new(alloc),
        });
    }
    fill_range(alloc, set, rate, IdRange::SECOND.least, all, count)
}

/// What there is over both ranges at a rate at which the first holds all PDOs, and some SDO frame with a deadline fails below all of
/// them.
fn over_both(
    alloc: Global,
    set: &StreamSet,
    pdos: usize,
    rate: Rate,
    all: &[bool],
    count: &mut Count,
) -> Result<Found, AllocError>
    requires can { CanAssign set.now pdos }
    requires not_long { IsSyncLong rate set.now pdos → ⊥ }
    requires all { length all.now ≡ pdos }
    requires each { (k : ℕ) → k < pdos → is_flagged all.now k ≡ true }
    requires held { (placed : List ℕ) × IsFilled first_range.least rate set.now pdos (λ k. nat_lt k pdos) placed (λ _. false) }
    requires fails { FailsBelow rate set.now pdos (λ k. nat_lt k pdos) }
    requires room { count.old.trials ≤ 2 ^ 32 + 2 ^ 31 }
    requires busy_room { count.old.busy ≤ 2 ^ 32 + 2 ^ 31 }
    ensures found { IfOk result (IsFound rate set.now pdos) }
    ensures rises { count.old.trials ≤ count.new.trials }
    ensures trials { 2 * count.new.trials ≤ 2 * count.old.trials + 2 * (pdos * (pdos + 1)) }
    ensures busy_rises { count.old.busy ≤ count.new.busy }
    ensures busy_most { count.new.busy ≤ count.old.busy + 2 * pdos }
    ensures by_sdo { IfOk result (λ found. members_found found ≡ 0) }
{
    let second = fill_second(alloc, set, pdos, rate, all, count)?;
    let mut flags = [false; StreamSet::MOST];
    let kept = &mut flags[..pdos];
    flag_kept(pdos, &second.left, kept);
    if let Some(frame) = lowest_failing(set, kept, rate) {
        let refusal = make_for_sdo(alloc, set, pdos, rate, &second.left, frame)?;
        return Ok(Found::Refused(refusal));
    }
    let upper = fill_range(alloc, set, rate, IdRange::FIRST.least, kept, count)?;
    Ok(Found::Placed {
        lower: second.placed,
        upper: upper.placed,
    })
}

/// What there is at a rate: identifiers under which each PDO and each SDO frame with a deadline passes, or a refusal.
pub(crate) fn at_rate(
    alloc: Global,
    set: &StreamSet,
    pdos: usize,
    rate: Rate,
    count: &mut Count,
) -> Result<Found, AllocError>
    requires can { CanAssign set.now pdos }
    requires room { count.old.trials ≤ 2 ^ 32 + 2 ^ 30 }
    requires busy_room { count.old.busy ≤ 2 ^ 32 + 2 ^ 30 }
    ensures found { IfOk result (IsFound rate set.now pdos) }
    ensures rises { count.old.trials ≤ count.new.trials }
    ensures trials { 2 * count.new.trials ≤ 2 * count.old.trials + 3 * (pdos * (pdos + 1)) }
    ensures least { IfOk result (λ found. count.old.trials + least_found pdos found ≤ count.new.trials) }
    ensures busy_rises { count.old.busy ≤ count.new.busy }
    ensures busy_most { count.new.busy ≤ count.old.busy + 3 * pdos }
    ensures busy_least { IfOk result (λ found. 1 ≤ pdos → count.old.busy + filled_found found ≤ count.new.busy) }
{
    if is_sync_long(set, pdos, rate) {
        return Ok(Found::Refused(make_for_sync(alloc, set, pdos, rate)?));
    }
    let _ = set.streams();
    let mut flags = [false; StreamSet::MOST];
    let all = &mut flags[..pdos];
    flag_all(pdos, true, all);
    let first = fill_range(alloc, set, rate, IdRange::FIRST.least, all, count)?;
    if !first.left.is_empty() {
        return Ok(Found::Refused(make(alloc, set, pdos, rate, &first.left)?));
    }
    match lowest_failing(set, all, rate) {
        None => Ok(Found::Placed {
            lower: Vec::new(alloc),
            upper: first.placed,
        }),
        Some(_) => over_both(alloc, set, pdos, rate, all, count),
    }
}

/// Identifiers of 181h to 57Fh for the PDOs, which are the first streams, or also of 680h to 6DFh where they are at most 96, at the slowest of
/// some rates at which some assignment passes the response-time test, each SDO frame with a deadline being tested as the PDOs are; and
/// a refusal for each slower one. `Err` is want of memory.
///
/// At each rate it makes 3n(n+1)/2 trials at most for n PDOs; at least one for each PDO of a plan, and one for each member
/// of a refusal by places. It seeks 3n busy times at most for them; at least one where there is a PDO and places are filled. It counts
/// both.
pub fn assign(
    alloc: Global,
    set: &StreamSet,
    pdos: usize,
    rates: &RateSet,
    count: &mut Count,
) -> Result<Outcome, AllocError>
    requires can { CanAssign set.now pdos }
    requires room { count.old.trials ≤ 2 ^ 32 }
    requires busy_room { count.old.busy ≤ 2 ^ 32 }
    ensures outcome { IfOk result (IsOutcome rates.now set.now pdos) }
    ensures by_order { IfOk result (IsChosenBy Order) }
    ensures rises { count.old.trials ≤ count.new.trials }
    ensures trials { IfOk result (λ outcome. 2 * count.new.trials ≤ 2 * count.old.trials + rates_tried outcome * (3 * (pdos * (pdos + 1)))) }
    ensures least { IfOk result (λ outcome. count.old.trials + least_trials pdos outcome ≤ count.new.trials) }
    ensures bounded { 2 * count.new.trials ≤ 2 * count.old.trials + 24 * (pdos * (pdos + 1)) }
    ensures busy_rises { count.old.busy ≤ count.new.busy }
    ensures busy { IfOk result (λ outcome. count.new.busy ≤ count.old.busy + rates_tried outcome * (3 * pdos)) }
    ensures busy_least { IfOk result (λ outcome. 1 ≤ pdos → count.old.busy + least_busy outcome ≤ count.new.busy) }
    ensures busy_bounded { count.new.busy ≤ count.old.busy + 24 * pdos }
{
    let mut refusals = Items::new(alloc);
    for rate in Rate::ALL {
        if rates.contains(rate) {
            match at_rate(alloc, set, pdos, rate, count)? {
                Found::Placed { lower, upper } => {
                    let plan = planned(alloc, set, pdos, rate, &lower, &upper, None, refusals)?;
                    return Ok(Outcome::Planned(plan));
                }
                Found::Refused(refusal) => refusals.push(refusal)?,
            }
        }
    }
    Ok(Outcome::Refused(refusals))
}
