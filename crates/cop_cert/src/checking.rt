//! Checking a refusal.

ghost use Rattle.std.specs.Prelude.{◌≡◌, ◌↔◌, ℕ, ◌+◌, ◌-◌, ◌*◌, ◌<◌, ◌≤◌, ◌||◌, IsTrue, MatchOption, length, [], All, AllPairs, true};
ghost use Rattle.std.specs.Option.{IsSomeAnd};
ghost use Rattle.cop_rta.specs.Test.{place_of, flagged_place, is_flagged, cost_at, jitter_at, period_at, IsQueuedWithin, IsLate};
ghost use Rattle.cop_cert.specs.Assignments.{id_at, NoAssignmentPasses};
ghost use Rattle.cop_rta.specs.Ranges.{second_range};
ghost use Rattle.cop_cert.specs.Causes.{kept, IsPlacesRefusal, IsSyncRefusal, IsSdoRefusal, IsCause, IsRefusal};
ghost use Rattle.cop_cert.specs.Sets.{is_in_trial, trial};
ghost use Rattle.cop_cert.specs.Evidence.{IsClimb, first_of, last_of, IsBusyEnd, busy_list_of, IsQueueList, IsEvidence, is_member, pdos_of, AreFailing};
ghost use Rattle.cop_cert.specs.Rising.{RiseFrom};

use crate::refusals::{Cause, Evidence, Member, Refusal};
use crate::trials::{flag_fixed, is_sync_long, sync_of, tested_frame};
use cop_frame::Rate;
use cop_frame::identifiers::SYNC;
use cop_rta::{AtRate, Busy, Demand, HORIZON, IdRange, Stream, StreamSet};

/// The last of some numbers, if they climb by an equation.
fn climb<D: Demand>(demand: &D, numbers: &[u64]) -> Option<u64>
    ensures { MatchOption result (IsClimb (D.demand demand.now) numbers.now → ⊥) (λ last. IsClimb (D.demand demand.now) numbers.now × (last ≡ last_of numbers.now)) }
{
    let (first, rest) = numbers.split_first()?;
    let mut last = *first;
    for next in rest {
        if *next <= last || *next > demand.at(last) {
            return None;
        }
        last = *next;
    }
    Some(last)
}

/// The first number, or 0.
fn first_of(numbers: &[u64]) -> u64
    ensures { result ≡ first_of numbers.now }
{
    match numbers {
        [] => 0,
        [first, ..] => *first,
    }
}

/// Where a busy list ends, if it is one.
fn busy_end(busy: &Busy<'_>, numbers: &[u64]) -> Option<u64>
    ensures { IsBusyEnd (place_of busy.now) numbers.now result }
{
    if first_of(numbers) != 1 {
        return None;
    }
    climb(busy, numbers)
}

/// Where a queue list of instance `q` ends, if it is one.
fn queue_end(busy: &Busy<'_>, q: u64, numbers: &[u64]) -> Option<u64>
    ensures { MatchOption result (IsQueueList (place_of busy.now) q numbers.now → ⊥) (λ last. IsQueueList (place_of busy.now) q numbers.now × (last ≡ last_of numbers.now)) }
{
    let first = u128::from(first_of(numbers));
    if first > busy.start_of(q) {
        return None;
    }
    climb(&busy.queueing(q), numbers)
}

/// Whether a response is past the deadline, if there is one.
fn is_late(deadline: Option<u64>, response: u128) -> bool
    ensures { IsTrue result ↔ IsSomeAnd deadline (λ d. d < response) }
{
    match deadline {
        Some(deadline) => response > u128::from(deadline),
        None => false,
    }
}

/// Whether instance `q` is queued within a busy time, and a queue list shows that it is late.
fn shows_late(busy: &Busy<'_>, busy_time: u64, q: u64, queue: &[u64]) -> bool
    ensures { IsTrue result ↔ (IsQueuedWithin (place_of busy.now) busy_time q × IsQueueList (place_of busy.now) q queue.now
        × IsLate (place_of busy.now) (jitter_at (place_of busy.now) + last_of queue.now + cost_at (place_of busy.now) - q * period_at (place_of busy.now))) }
{
    let Some(wait) = queue_end(busy, q, queue) else {
        return false;
    };
    q < busy.instances(busy_time) && is_late(busy.stream().deadline, busy.response(q, wait))
}

/// Where the busy list of a stream's evidence ends, if it is one. `end` says the same of another list, `before`: flagged streams
/// share one busy equation, so an equal list is not gone through again.
fn busy_end_after(
    busy: &Busy<'_>,
    evidence: &Evidence,
    before: &[u64],
    end: Option<u64>,
) -> Option<u64>
    requires before { IsBusyEnd (place_of busy.now) before.now end }
    ensures { IsBusyEnd (place_of busy.now) (busy_list_of evidence.now) result }
{
    let numbers = evidence.busy();
    if numbers == before {
        return end;
    }
    busy_end(busy, numbers)
}

/// Whether a stream has evidence. `end` is where its busy list ends, if it is one; of a long one that says all.
fn has_evidence(busy: &Busy<'_>, evidence: &Evidence, end: Option<u64>) -> bool
    requires end { IsBusyEnd (place_of busy.now) (busy_list_of evidence.now) end }
    ensures { IsTrue result ↔ IsEvidence (place_of busy.now) evidence.now }
{
    let Some(last) = end else {
        return false;
    };
    match evidence {
        Evidence::Long { .. } => last > HORIZON,
        Evidence::Late { q, queue, .. } => shows_late(busy, last, *q, queue.as_slice()),
    }
}

/// Whether the members rise, from a number on, and are PDOs.
fn rise_from(members: &[Member], pdos: usize) -> bool
    ensures { IsTrue result ↔ RiseFrom 0 pdos (pdos_of members.now) }
{
    let mut low = 0;
    for member in members {
        if member.pdo < low || member.pdo >= pdos {
            return false;
        }
        low = member.pdo + 1;
    }
    true
}

#[tactic(auto, using(crate::proofs::RisingLemmas::rises))]
/// Whether the members rise and are PDOs.
fn rise(members: &[Member], pdos: usize) -> bool
    ensures { IsTrue result ↔ (AllPairs (λ m n. m < n) (pdos_of members.now) × All (λ m. m < pdos) (pdos_of members.now)) }
{
    rise_from(members, pdos)
}

#[tactic(auto, using(crate::proofs::MemberLemmas::flag_one))]
/// Flags the members.
fn flag_members(members: &[Member], out: &mut [bool])
    requires { All (λ m. m.pdo < length out.old) members.now }
    ensures { (k : ℕ) → is_flagged out.new k ≡ (is_flagged out.old k || is_member members.now k) }
{
    for member in members {
        out[member.pdo] = true;
    }
}

/// Flags what is above in the trial of the members.
pub(crate) fn flag_trial(
    streams: &[Stream],
    pdos: usize,
    bound: u16,
    members: &[Member],
    out: &mut [bool],
)
    requires size { length out.old ≡ length streams.now }
    requires count { pdos ≤ length streams.now }
    requires inside { All (λ m. m < pdos) (pdos_of members.now) }
    ensures { (k : ℕ) → is_flagged out.new k ≡ is_in_trial bound streams.now pdos (is_member members.now) k }
{
    flag_fixed(streams, pdos, bound, false, out);
    flag_members(members, out);
}

/// Flags what is above in the trial of the kept PDOs: the members, or all PDOs where there are too many for the second range.
fn flag_kept(streams: &[Stream], pdos: usize, bound: u16, members: &[Member], out: &mut [bool])
    requires size { length out.old ≡ length streams.now }
    requires count { pdos ≤ length streams.now }
    requires inside { All (λ m. m < pdos) (pdos_of members.now) }
    ensures { (k : ℕ) → is_flagged out.new k ≡ is_in_trial bound streams.now pdos (kept pdos (is_member members.now)) k }
{
    if pdos <= usize::from(IdRange::SECOND.count) {
        flag_trial(streams, pdos, bound, members, out);
    } else {
        flag_fixed(streams, pdos, bound, true, out);
    }
}

/// Whether each member, which is flagged, has evidence.
fn have_evidence<'a>(at: &AtRate<'a>, above: &'a [bool], members: &[Member]) -> bool
    requires size { length above.now ≡ length at.now.streams }
    requires inside { All (λ m. m.pdo < length at.now.streams) members.now }
    requires flagged { All (λ m. is_flagged above.now m.pdo ≡ true) members.now }
    ensures { IsTrue result ↔ All (λ m. IsEvidence (flagged_place at.now.streams above.now m.pdo at.now.rate) m.evidence) members.now }
{
    let Some(first) = members.first() else {
        return true;
    };
    let shared = Busy::among(at, above, first.pdo);
    let mut before: &[u64] = &[];
    let mut end = None;
    for member in members {
        let busy = shared.beside(member.pdo);
        end = busy_end_after(&busy, &member.evidence, before, end);
        before = member.evidence.busy();
        if !has_evidence(&busy, &member.evidence, end) {
            return false;
        }
    }
    true
}

/// Whether members rise, are PDOs, and each has evidence that it fails with the other members and the fixed frames below a bound
/// above it and all others below.
fn are_failing(set: &StreamSet, pdos: usize, rate: Rate, bound: u16, members: &[Member]) -> bool
    requires { pdos ≤ length set.now }
    ensures { IsTrue result ↔ AreFailing bound rate set.now pdos members.now }
{
    if !rise(members, pdos) {
        return false;
    }
    let streams = set.streams();
    let mut flags = [false; StreamSet::MOST];
    let above = &mut flags[..streams.len()];
    flag_trial(streams, pdos, bound, members, above);
    have_evidence(&AtRate::new(set, rate), above, members)
}

/// Whether a stream has evidence that it fails where some PDOs and the fixed frames below its identifier are above it: the
/// members, or all PDOs where there are too many for the second range.
fn fails_below(
    set: &StreamSet,
    pdos: usize,
    rate: Rate,
    up: &[Member],
    frame: usize,
    evidence: &Evidence,
) -> bool
    requires count { pdos ≤ length set.now }
    requires inside { All (λ m. m < pdos) (pdos_of up.now) }
    requires frame { frame < length set.now }
    ensures { IsTrue result ↔ IsEvidence (trial (id_at set.now frame) rate set.now pdos (kept pdos (is_member up.now)) frame) evidence.now }
{
    let streams = set.streams();
    let mut flags = [false; StreamSet::MOST];
    let above = &mut flags[..streams.len()];
    flag_kept(streams, pdos, streams[frame].id, up, above);
    let busy = Busy::new(set, above, frame, rate);
    has_evidence(&busy, evidence, busy_end(&busy, evidence.busy()))
}

/// Whether members, one at least, are a refusal.
fn is_places_refusal(set: &StreamSet, pdos: usize, rate: Rate, members: &[Member]) -> bool
    requires { pdos ≤ length set.now }
    ensures { IsTrue result ↔ IsPlacesRefusal rate set.now pdos members.now }
{
    if members.is_empty() {
        return false;
    }
    if is_sync_long(set, pdos, rate) {
        return false;
    }
    are_failing(set, pdos, rate, IdRange::FIRST.least, members)
}

/// Whether there may be such members that have to be up: none are given where the second range has no room for all PDOs.
fn may_be_up(pdos: usize, up: &[Member]) -> bool
    ensures { IsTrue result ↔ (second_range.count < pdos → up.now ≡ []) }
{
    if pdos <= usize::from(IdRange::SECOND.count) {
        return true;
    }
    up.is_empty()
}

/// Whether members, and evidence of an SDO frame, are a refusal.
fn is_sdo_refusal(
    set: &StreamSet,
    pdos: usize,
    rate: Rate,
    up: &[Member],
    id: u16,
    evidence: &Evidence,
) -> bool
    requires { pdos ≤ length set.now }
    ensures { IsTrue result ↔ IsSdoRefusal rate set.now pdos up.now id evidence.now }
{
    if is_sync_long(set, pdos, rate) {
        return false;
    }
    if !may_be_up(pdos, up) {
        return false;
    }
    let Some(frame) = tested_frame(set, pdos, id) else {
        return false;
    };
    if !are_failing(set, pdos, rate, IdRange::SECOND.least, up) {
        return false;
    }
    fails_below(set, pdos, rate, up, frame, evidence)
}

/// Whether a busy list shows that SYNC's busy time is above the horizon, where some PDO is synchronous.
fn is_sync_refusal(set: &StreamSet, pdos: usize, rate: Rate, busy: &[u64]) -> bool
    requires { pdos ≤ length set.now }
    ensures { IsTrue result ↔ IsSyncRefusal rate set.now pdos busy.now }
{
    let Some(sync) = sync_of(set, pdos) else {
        return false;
    };
    let streams = set.streams();
    let mut flags = [false; StreamSet::MOST];
    let above = &mut flags[..streams.len()];
    flag_fixed(streams, pdos, SYNC, false, above);
    match busy_end(&Busy::new(set, above, sync, rate), busy) {
        Some(last) => last > HORIZON,
        None => false,
    }
}

/// Whether a cause holds at a rate.
fn is_cause(set: &StreamSet, pdos: usize, rate: Rate, cause: &Cause) -> bool
    requires { pdos ≤ length set.now }
    ensures { IsTrue result ↔ IsCause rate set.now pdos cause.now }
{
    match cause {
        Cause::Sync { busy } => is_sync_refusal(set, pdos, rate, busy.as_slice()),
        Cause::Places { members } => is_places_refusal(set, pdos, rate, members.as_slice()),
        Cause::Sdo { up, id, evidence } => {
            is_sdo_refusal(set, pdos, rate, up.as_slice(), *id, evidence)
        }
    }
}

/// Whether a refusal holds. The first `pdos` streams are the PDOs, and the others are fixed frames. No memory is taken.
///
/// Where some PDO is synchronous and SYNC's busy time is above the horizon, SYNC's busy list alone is a refusal. Else members are,
/// one at least, that rise, are PDOs, and each have evidence that it fails with the other members and the fixed frames below 181h above it
/// and all others below; or an SDO frame with a deadline, with evidence that it fails below the PDOs that cannot stand below it.
///
/// Where it holds, no assignment of identifiers passes at the refusal's rate.
pub fn check(set: &StreamSet, pdos: usize, refusal: &Refusal) -> bool
    requires { pdos ≤ length set.now }
    ensures exact { IsTrue result ↔ IsRefusal set.now pdos refusal.now }
    ensures rules_out { IsTrue result → NoAssignmentPasses refusal.now.rate set.now pdos }
{
    is_cause(set, pdos, refusal.rate, &refusal.cause)
}
