//! Making a refusal.

ghost use Rattle.std.specs.Prelude.{◌≡◌, ℕ, ◌<◌, ◌≤◌, ◌||◌, ◌↔◌, true, IsTrue, IfOk, not, map, List, [], length, All, AllPairs};
ghost use Rattle.cop_rta.specs.Ranges.{first_range, second_range};
ghost use Rattle.cop_rta.specs.Test.{flagged_place, place_of, is_flagged, busy_at, horizon, Passes};
ghost use Rattle.cop_rta.specs.Paces.{most_ahead};
ghost use Rattle.cop_rta.specs.Placing.{place_in};
ghost use Rattle.cop_rta.specs.Verdict.{IsFirstLate, IsJudged, IsPass};
ghost use Rattle.cop_cert.specs.Assignments.{id_at, IsTested};
ghost use Rattle.cop_cert.specs.Causes.{kept, PassesBelow, IsSyncLong, IsRefusal};
ghost use Rattle.cop_cert.specs.Sets.{is_in_trial, trial};
ghost use Rattle.cop_cert.specs.Rising.{RiseFrom};
ghost use Rattle.cop_cert.specs.Evidence.{is_listed, pdos_of};
ghost use Rattle.cop_cert.specs.Chains.{AllFail, FailTogether, IsWholeChain, IsQueueOf, IsWholeEvidence, AreMade, AreMadeOf, IsMade, IsShort};

use crate::items::Items;
use crate::refusals::{Cause, Evidence, Member, Refusal};
use crate::trials::{flag_fixed, sync_of};
use cop_frame::Rate;
use cop_frame::identifiers::SYNC;
use cop_rta::{AtRate, Busy, Demand, HORIZON, IdRange, Place, Stream, StreamSet, Verdict};
use std::alloc::{AllocError, Global};

/// An equation's values from a number on, up to its solution or to the first number above the horizon.
fn chain<D: Demand>(alloc: Global, demand: &D, from: u64) -> Result<Items<u64>, AllocError>
    requires { from ≤ D.demand demand.now from }
    ensures { IfOk result (IsWholeChain (D.demand demand.now) from horizon) }
{
    let mut numbers = Items::new(alloc);
    numbers.push(from)?;
    let mut last = from;
    while last <= HORIZON {
        let next = demand.at(last);
        if next == last {
            return Ok(numbers);
        }
        numbers.push(next)?;
        last = next;
    }
    Ok(numbers)
}

/// The chain of a stream's busy equation.
fn busy_list(alloc: Global, busy: &Busy<'_>) -> Result<Items<u64>, AllocError>
    requires few { length busy.now.streams ≤ 1100 }
    requires index { busy.now.index < length busy.now.streams }
    requires ahead { busy.now.ahead ≤ most_ahead }
    ensures { IfOk result (IsWholeChain (busy_at (place_of busy.now)) 1 horizon) }
{
    chain(alloc, busy, 1)
}

/// The chain of the busy equation, which those that are not below share. One of them is at the index.
fn shared_list(alloc: Global, place: &Place<'_, '_>, index: usize) -> Result<Items<u64>, AllocError>
    requires few { length place.now.streams ≤ 1100 }
    requires index { index < length place.now.streams }
    requires above { is_flagged place.now.flags index ≡ true }
    ensures { IfOk result (λ numbers. (k : ℕ) → k < length place.now.streams → is_flagged place.now.flags k ≡ true → IsWholeChain (busy_at (place_in place.now k)) 1 horizon numbers) }
{
    busy_list(alloc, &place.equations(index))
}

/// The chain of the queueing equation of an instance that is late, from B + q C.
fn queue_list(alloc: Global, busy: &Busy<'_>, q: u64) -> Result<Items<u64>, AllocError>
    requires few { length busy.now.streams ≤ 1100 }
    requires index { busy.now.index < length busy.now.streams }
    requires ahead { busy.now.ahead ≤ most_ahead }
    requires late { (r : ℕ) × IsFirstLate (place_of busy.now) q r }
    ensures { IfOk result (IsQueueOf (place_of busy.now) q) }
{
    let start = busy.start_of(q) as u64;
    chain(alloc, &busy.queueing(q), start)
}

/// The evidence that a stream fails, as the test has told, with the whole chains. `numbers` is that of its busy equation.
fn evidence_of(
    alloc: Global,
    busy: &Busy<'_>,
    verdict: Verdict,
    numbers: &[u64],
) -> Result<Evidence, AllocError>
    requires few { length busy.now.streams ≤ 1100 }
    requires index { busy.now.index < length busy.now.streams }
    requires ahead { busy.now.ahead ≤ most_ahead }
    requires chain { IsWholeChain (busy_at (place_of busy.now)) 1 horizon numbers.now }
    requires judged { IsJudged (place_of busy.now) verdict }
    requires fails { IsPass verdict → ⊥ }
    ensures { IfOk result (IsWholeEvidence (place_of busy.now)) }
{
    match verdict {
        Verdict::Pass { .. } => unreachable!(),
        Verdict::Long => {
            let busy = Items::copied(alloc, numbers)?;
            Ok(Evidence::Long { busy })
        }
        Verdict::Late { q, .. } => {
            let queue = queue_list(alloc, busy, q)?;
            let busy = Items::copied(alloc, numbers)?;
            Ok(Evidence::Late { q, busy, queue })
        }
    }
}

/// The members with the evidence of each. `busy` is the chain of the busy equation, which they share.
fn members_with(
    alloc: Global,
    place: &Place<'_, '_>,
    pdos: &[usize],
    busy: &[u64],
) -> Result<Items<Member>, AllocError>
    requires few { length place.now.streams ≤ 1100 }
    requires inside { All (λ p. p < length place.now.streams) pdos.now }
    requires above { All (λ p. is_flagged place.now.flags p ≡ true) pdos.now }
    requires fails { All (λ p. Passes (place_in place.now p) → ⊥) pdos.now }
    requires busy { (k : ℕ) → k < length place.now.streams → is_flagged place.now.flags k ≡ true → IsWholeChain (busy_at (place_in place.now k)) 1 horizon busy.now }
    ensures { IfOk result (AreMade place.now.streams (is_flagged place.now.flags) place.now.rate pdos.now) }
{
    let mut members = Items::new(alloc);
    for pdo in pdos {
        let verdict = place.judge(*pdo);
        let evidence = evidence_of(alloc, &place.equations(*pdo), verdict, busy)?;
        members.push(Member {
            pdo: *pdo,
            evidence,
        })?;
    }
    Ok(members)
}

/// The members with the evidence of each: one at least.
fn members_of(
    alloc: Global,
    place: &Place<'_, '_>,
    pdos: &[usize],
) -> Result<Items<Member>, AllocError>
    requires few { length place.now.streams ≤ 1100 }
    requires inside { All (λ p. p < length place.now.streams) pdos.now }
    requires above { All (λ p. is_flagged place.now.flags p ≡ true) pdos.now }
    requires fails { All (λ p. Passes (place_in place.now p) → ⊥) pdos.now }
    ensures { IfOk result (AreMade place.now.streams (is_flagged place.now.flags) place.now.rate pdos.now) }
{
    let Some(first) = pdos.first() else {
        return Ok(Items::new(alloc));
    };
    let busy = shared_list(alloc, place, *first)?;
    members_with(alloc, place, pdos, busy.as_slice())
}

/// Flags those that were not flagged, and no others.
fn turn(flags: &mut [bool])
    ensures { flags.new ≡ map not flags.old }
{
    for flag in flags.iter_mut() {
        *flag = !*flag;
    }
}

#[tactic(auto, using(crate::proofs::MemberLemmas::flag_number))]
/// Flags the PDOs.
fn flag_listed(pdos: &[usize], out: &mut [bool])
    requires { All (λ p. p < length out.old) pdos.now }
    ensures { (k : ℕ) → is_flagged out.new k ≡ (is_flagged out.old k || is_listed pdos.now k) }
{
    for pdo in pdos {
        out[*pdo] = true;
    }
}

/// Flags what is above in the trial of the PDOs.
fn flag_trial_of(streams: &[Stream], pdos: usize, bound: u16, members: &[usize], out: &mut [bool])
    requires size { length out.old ≡ length streams.now }
    requires count { pdos ≤ length streams.now }
    requires inside { All (λ m. m < pdos) members.now }
    ensures { (k : ℕ) → is_flagged out.new k ≡ is_in_trial bound streams.now pdos (is_listed members.now) k }
{
    flag_fixed(streams, pdos, bound, false, out);
    flag_listed(members, out);
}

/// Whether the numbers rise, from a number on, and are PDOs.
fn rise_from(members: &[usize], pdos: usize) -> bool
    ensures { IsTrue result ↔ RiseFrom 0 pdos members.now }
{
    let mut low = 0;
    for member in members {
        if *member < low || *member >= pdos {
            return false;
        }
        low = *member + 1;
    }
    true
}

#[tactic(auto, using(crate::proofs::RisingLemmas::rises))]
/// Whether the numbers rise and are PDOs.
fn rise(members: &[usize], pdos: usize) -> bool
    ensures { IsTrue result ↔ (AllPairs (λ m n. m < n) members.now × All (λ m. m < pdos) members.now) }
{
    rise_from(members, pdos)
}

/// Whether a stream fails the test.
fn fails<'a>(at: &AtRate<'a>, above: &'a [bool], pdo: usize) -> bool
    requires flags { length above.now ≡ length at.now.streams }
    requires index { pdo < length at.now.streams }
    ensures { IsTrue result ↔ (Passes (flagged_place at.now.streams above.now pdo at.now.rate) → ⊥) }
{
    let busy = Busy::among(at, above, pdo);
    !matches!(busy.verdict(), Verdict::Pass { .. })
}

/// Whether each of some streams fails the test.
fn all_fail<'a>(at: &AtRate<'a>, above: &'a [bool], members: &[usize]) -> bool
    requires flags { length above.now ≡ length at.now.streams }
    requires inside { All (λ m. m < length at.now.streams) members.now }
    ensures { IsTrue result ↔ AllFail at.now.streams at.now.rate members.now (is_flagged above.now) }
{
    members.iter().all(|pdo| fails(at, above, *pdo))
}

/// Whether some PDOs in rising order each fail with the others and the fixed frames below a bound above it and all others below.
/// No memory is taken.
pub fn fail_together(
    set: &StreamSet,
    pdos: usize,
    rate: Rate,
    bound: u16,
    members: &[usize],
) -> bool
    requires { pdos ≤ length set.now }
    ensures { IsTrue result ↔ FailTogether bound set.now pdos rate members.now }
{
    if !rise(members, pdos) {
        return false;
    }
    let streams = set.streams();
    let mut flags = [false; StreamSet::MOST];
    let above = &mut flags[..streams.len()];
    flag_trial_of(streams, pdos, bound, members, above);
    all_fail(&AtRate::new(set, rate), above, members)
}

/// The members of PDOs that each fail with the others and the fixed frames below a bound above it and all others below.
fn members_made(
    alloc: Global,
    set: &StreamSet,
    pdos: usize,
    rate: Rate,
    bound: u16,
    members: &[usize],
) -> Result<Items<Member>, AllocError>
    requires count { pdos ≤ length set.now }
    requires fail { FailTogether bound set.now pdos rate members.now }
    ensures { IfOk result (AreMadeOf bound set.now pdos rate members.now) }
{
    if members.is_empty() {
        return Ok(Items::new(alloc));
    }
    let streams = set.streams();
    let mut flags = [false; StreamSet::MOST];
    let flags = &mut flags[..streams.len()];
    flag_trial_of(streams, pdos, bound, members, flags);
    turn(flags);
    let place = Place::new(set, flags, rate);
    members_of(alloc, &place, members)
}

/// The refusal of some PDOs at a rate, one at least, each of which fails with the others and the fixed frames below 181h above it
/// and all others below. `Err` is want of memory.
///
/// The evidence has the whole chains: the busy list from 1 by the equation's values to its solution or to the first
/// number above the horizon, the queue list from B + q C to its solution, for the first instance that is late.
pub fn make(
    alloc: Global,
    set: &StreamSet,
    pdos: usize,
    rate: Rate,
    members: &[usize],
) -> Result<Refusal, AllocError>
    requires count { pdos ≤ length set.now }
    requires not_long { IsSyncLong rate set.now pdos → ⊥ }
    requires some { 0 < length members.now }
    requires fail { FailTogether first_range.least set.now pdos rate members.now }
    ensures rate { IfOk result (λ refusal. refusal.rate ≡ rate) }
    ensures places { IfOk result (λ refusal. (made : List Member) × (refusal.cause ≡ Cause.Places made) × (pdos_of made ≡ members.now)) }
    ensures made { IfOk result (IsMade set.now pdos) }
    ensures short { IfOk result (λ refusal. IsShort 181820 refusal.cause) }
    ensures checks { IfOk result (IsRefusal set.now pdos) }
{
    let bound = IdRange::FIRST.least;
    let members = members_made(alloc, set, pdos, rate, bound, members)?;
    let cause = Cause::Places { members };
    Ok(Refusal { rate, cause })
}

/// The refusal of a rate at which SYNC's busy time is above the horizon, where some PDO is synchronous: the whole chain of SYNC's busy
/// equation. `Err` is want of memory.
pub fn make_for_sync(
    alloc: Global,
    set: &StreamSet,
    pdos: usize,
    rate: Rate,
) -> Result<Refusal, AllocError>
    requires count { pdos ≤ length set.now }
    requires long { IsSyncLong rate set.now pdos }
    ensures rate { IfOk result (λ refusal. refusal.rate ≡ rate) }
    ensures sync { IfOk result (λ refusal. (busy : List ℕ) × (refusal.cause ≡ Cause.Sync busy)) }
    ensures made { IfOk result (IsMade set.now pdos) }
    ensures short { IfOk result (λ refusal. IsShort 181820 refusal.cause) }
    ensures checks { IfOk result (IsRefusal set.now pdos) }
{
    let Some(sync) = sync_of(set, pdos) else {
        unreachable!()
    };
    let streams = set.streams();
    let mut flags = [false; StreamSet::MOST];
    let above = &mut flags[..streams.len()];
    flag_fixed(streams, pdos, SYNC, false, above);
    let busy = busy_list(alloc, &Busy::new(set, above, sync, rate))?;
    let cause = Cause::Sync { busy };
    Ok(Refusal { rate, cause })
}

/// Flags what is above in the trial of the kept PDOs: those that are given, or all where there are too many for the second range.
fn flag_kept_of(streams: &[Stream], pdos: usize, bound: u16, up: &[usize], out: &mut [bool])
    requires size { length out.old ≡ length streams.now }
    requires count { pdos ≤ length streams.now }
    requires inside { All (λ p. p < pdos) up.now }
    ensures { (k : ℕ) → is_flagged out.new k ≡ is_in_trial bound streams.now pdos (kept pdos (is_listed up.now)) k }
{
    if pdos <= usize::from(IdRange::SECOND.count) {
        flag_trial_of(streams, pdos, bound, up, out);
    } else {
        flag_fixed(streams, pdos, bound, true, out);
    }
}

/// The evidence that an SDO frame fails below the kept PDOs, with the whole chains.
fn frame_evidence(
    alloc: Global,
    set: &StreamSet,
    pdos: usize,
    rate: Rate,
    up: &[usize],
    frame: usize,
) -> Result<Evidence, AllocError>
    requires count { pdos ≤ length set.now }
    requires inside { All (λ p. p < pdos) up.now }
    requires frame { frame < length set.now }
    requires fails { PassesBelow rate set.now pdos (kept pdos (is_listed up.now)) frame → ⊥ }
    ensures { IfOk result (IsWholeEvidence (trial (id_at set.now frame) rate set.now pdos (kept pdos (is_listed up.now)) frame)) }
{
    let streams = set.streams();
    let mut flags = [false; StreamSet::MOST];
    let above = &mut flags[..streams.len()];
    flag_kept_of(streams, pdos, streams[frame].id, up, above);
    let busy = Busy::new(set, above, frame, rate);
    let numbers = busy_list(alloc, &busy)?;
    evidence_of(alloc, &busy, busy.verdict(), numbers.as_slice())
}

/// The refusal of a rate at which an SDO frame with a deadline fails below the PDOs that cannot stand below it. These are `up`, each of
/// which fails with the others and the fixed frames below 680h above it and all others below; or all PDOs, where there are too many for the
/// second range, and then none are given. `Err` is want of memory.
pub fn make_for_sdo(
    alloc: Global,
    set: &StreamSet,
    pdos: usize,
    rate: Rate,
    up: &[usize],
    frame: usize,
) -> Result<Refusal, AllocError>
    requires count { pdos ≤ length set.now }
    requires not_long { IsSyncLong rate set.now pdos → ⊥ }
    requires fail { FailTogether second_range.least set.now pdos rate up.now }
    requires none { second_range.count < pdos → up.now ≡ [] }
    requires tested { IsTested set.now pdos frame }
    requires below { PassesBelow rate set.now pdos (kept pdos (is_listed up.now)) frame → ⊥ }
    ensures rate { IfOk result (λ refusal. refusal.rate ≡ rate) }
    ensures sdo { IfOk result (λ refusal. (made : List Member) × (evidence : Evidence) × (refusal.cause ≡ Cause.Sdo made (id_at set.now frame) evidence) × (pdos_of made ≡ up.now)) }
    ensures made { IfOk result (IsMade set.now pdos) }
    ensures short { IfOk result (λ refusal. IsShort 181820 refusal.cause) }
    ensures checks { IfOk result (IsRefusal set.now pdos) }
{
    let bound = IdRange::SECOND.least;
    let evidence = frame_evidence(alloc, set, pdos, rate, up, frame)?;
    let up = members_made(alloc, set, pdos, rate, bound, up)?;
    let id = set.streams()[frame].id;
    let cause = Cause::Sdo { up, id, evidence };
    Ok(Refusal { rate, cause })
}
