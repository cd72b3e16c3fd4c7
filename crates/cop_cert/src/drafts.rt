//! What the records of a refusal file come to so far.

ghost use Rattle.std.specs.Prelude.{◌≡◌, Some};
ghost use Rattle.cop_table.specs.Reading.{Gives};
ghost use Rattle.cop_cert.specs.Reading.{is_complete, longer, with_busy, with_queue, with_number, with_sync, begun, is_same_side, cause_of, or_misplaced, closed, stopped_by, missing, broken_after, joined, begin, given, with_evidence, is_of_number, lengthened, add, last_busy, with_numbers, with_list, with_same, share, next, at_hand, finished};
ghost use Rattle.cop_cert.specs.Steps.{rule_of};
ghost use Rattle.cop_cert.specs.declared.drafts.StepFault.TheVariants.{OutOfMemory};

use crate::entries::{Entry, Listed, Side, Word};
use crate::faults::Rule;
use crate::items::Items;
use crate::refusals::{Cause, Evidence, Member, Refusal};
use cop_frame::Rate;
use std::alloc::{AllocError, Global};

/// The refusals of lower rates, and that at hand: its members that are whole, and the part after them so far.
#[derive(Drop)]
pub(crate) struct Draft {
    done: Items<Refusal>,
    rate: Rate,
    members: Items<Member>,
    part: Part,
}

/// A part of a refusal.
#[derive(Drop)]
pub(crate) enum Part {
    Member(Side, Member),
    /// SYNC's busy list.
    Sync(Items<u64>),
    /// An SDO frame, by its identifier, of which no evidence was read yet.
    Named(u16),
    /// An SDO frame and its evidence.
    Frame(u16, Evidence),
}

/// Why a record is not taken.
#[derive(Clone, Copy, Drop)]
pub(crate) enum StepFault {
    Broken(Rule),
    OutOfMemory,
}

impl From<AllocError> for StepFault {
    ghost from_gives = { λ _ fault. fault ≡ OutOfMemory };

    fn from(_error: AllocError) -> StepFault {
        StepFault::OutOfMemory
    }
}

/// The most numbers that a list may have.
const MOST: usize = 200_000;

/// Whether no list of the evidence is missing.
fn is_complete(evidence: &Evidence) -> bool
    ensures { result ≡ is_complete evidence.now }
{
    match evidence {
        Evidence::Long { busy } => !busy.as_slice().is_empty(),
        Evidence::Late { busy, queue, .. } => {
            !busy.as_slice().is_empty() && !queue.as_slice().is_empty()
        }
    }
}

/// Puts a number at the end of a list.
fn lengthen(numbers: &mut Items<u64>, value: u64) -> Result<(), StepFault>
    ensures { Gives (λ _. numbers.new) rule_of result (longer numbers.old value) }
{
    if numbers.as_slice().len() >= MOST {
        return Err(StepFault::Broken(Rule::TooLong));
    }
    numbers.push(value)?;
    Ok(())
}

/// Puts a number at the end of the evidence's busy list.
fn put_busy(evidence: &mut Evidence, value: u64) -> Result<(), StepFault>
    ensures { Gives (λ _. evidence.new) rule_of result (with_busy evidence.old value) }
{
    match evidence {
        Evidence::Long { busy } => lengthen(busy, value),
        Evidence::Late { busy, queue, .. } => {
            if !queue.as_slice().is_empty() {
                return Err(StepFault::Broken(Rule::Misplaced));
            }
            lengthen(busy, value)
        }
    }
}

/// Puts a number at the end of the evidence's queue list.
fn put_queue(evidence: &mut Evidence, value: u64) -> Result<(), StepFault>
    ensures { Gives (λ _. evidence.new) rule_of result (with_queue evidence.old value) }
{
    match evidence {
        Evidence::Long { .. } => Err(StepFault::Broken(Rule::Misplaced)),
        Evidence::Late { busy, queue, .. } => {
            if busy.as_slice().is_empty() {
                return Err(StepFault::Broken(Rule::Misplaced));
            }
            lengthen(queue, value)
        }
    }
}

/// A draft of one part, after the refusals and the members before it.
fn begun(done: Items<Refusal>, rate: Rate, members: Items<Member>, part: Part) -> Draft
    ensures { result ≡ begun done rate members part }
{
    Draft {
        done,
        rate,
        members,
        part,
    }
}

/// Whether members are of one side.
fn is_same_side(side: Side, other: Side) -> bool
    ensures { result ≡ is_same_side side other }
{
    match side {
        Side::Place => matches!(other, Side::Place),
        Side::Up => matches!(other, Side::Up),
    }
}

/// The cause that members and the part after them come to, if none of it is missing.
fn cause_of(mut members: Items<Member>, part: Part) -> Result<Cause, StepFault>
    ensures { Gives (λ cause. cause) rule_of result (or_misplaced (cause_of members part)) }
{
    match part {
        Part::Member(Side::Place, member) => {
            if !is_complete(&member.evidence) {
                return Err(StepFault::Broken(Rule::Misplaced));
            }
            members.push(member)?;
            Ok(Cause::Places { members })
        }
        Part::Sync(busy) => {
            if busy.as_slice().is_empty() {
                return Err(StepFault::Broken(Rule::Misplaced));
            }
            Ok(Cause::Sync { busy })
        }
        Part::Frame(id, evidence) => {
            if !is_complete(&evidence) {
                return Err(StepFault::Broken(Rule::Misplaced));
            }
            let up = members;
            Ok(Cause::Sdo { up, id, evidence })
        }
        Part::Member(Side::Up, _) | Part::Named(_) => Err(StepFault::Broken(Rule::Misplaced)),
    }
}

/// The refusals of a draft, if none of the last is missing.
fn closed(draft: Draft) -> Result<Items<Refusal>, StepFault>
    ensures { Gives (λ refusals. refusals) rule_of result (closed draft) }
{
    let Draft {
        mut done,
        rate,
        members,
        part,
    } = draft;
    let cause = cause_of(members, part)?;
    done.push(Refusal { rate, cause })?;
    Ok(done)
}

/// The rule that a part of the same rate breaks which cannot follow a member.
fn stopped_by(side: Side) -> Rule
    ensures { result ≡ stopped_by side }
{
    match side {
        Side::Place => Rule::Rates,
        Side::Up => Rule::Misplaced,
    }
}

/// The rule that is broken where a list of the evidence is missing.
fn missing(evidence: &Evidence) -> Option<Rule>
    ensures { result ≡ missing evidence.now }
{
    if is_complete(evidence) {
        None
    } else {
        Some(Rule::Misplaced)
    }
}

/// The rule that a part breaks which follows a member at the same rate.
fn broken_after(side: Side, member: &Member, next: &Part) -> Option<Rule>
    ensures { result ≡ broken_after side member.now next.now }
{
    match next {
        Part::Member(other, next) => {
            if !is_same_side(side, *other) {
                Some(stopped_by(side))
            } else if next.pdo <= member.pdo {
                Some(Rule::Members)
            } else {
                missing(&member.evidence)
            }
        }
        Part::Named(_) => match side {
            Side::Up => missing(&member.evidence),
            Side::Place => Some(stopped_by(side)),
        },
        Part::Sync(_) | Part::Frame(..) => Some(stopped_by(side)),
    }
}

/// The draft with a part that follows at the same rate.
fn joined(draft: Draft, next: Part) -> Result<Draft, StepFault>
    ensures { Gives (λ draft. draft) rule_of result (joined draft draft.part next) }
{
    let Draft {
        done,
        rate,
        mut members,
        part,
    } = draft;
    match part {
        Part::Member(side, member) => {
            if let Some(rule) = broken_after(side, &member, &next) {
                return Err(StepFault::Broken(rule));
            }
            members.push(member)?;
            Ok(begun(done, rate, members, next))
        }
        Part::Sync(_) | Part::Frame(..) => Err(StepFault::Broken(Rule::Rates)),
        Part::Named(_) => Err(StepFault::Broken(Rule::Misplaced)),
    }
}

/// A record that begins a part.
fn follow(alloc: Global, draft: Draft, rate: Rate, part: Part) -> Result<Draft, StepFault>
    ensures { Gives (λ draft. draft) rule_of result (begin (Some draft) rate part) }
{
    let (last, next) = (draft.rate.kbits(), rate.kbits());
    if next < last {
        return Err(StepFault::Broken(Rule::Rates));
    }
    if next == last {
        return joined(draft, part);
    }
    let done = closed(draft)?;
    Ok(begun(done, rate, Items::new(alloc), part))
}

/// A record that begins a part.
fn begin(alloc: Global, draft: &mut Option<Draft>, rate: Rate, part: Part) -> Result<(), StepFault>
    ensures { Gives (λ _. draft.new) rule_of result (at_hand (begin draft.old rate part)) }
{
    let started = match draft.take() {
        None => begun(Items::new(alloc), rate, Items::new(alloc), part),
        Some(draft) => follow(alloc, draft, rate, part)?,
    };
    *draft = Some(started);
    Ok(())
}

/// Gives the SDO frame that was named its evidence.
fn give(draft: &mut Option<Draft>, rate: Rate, evidence: Evidence) -> Result<(), StepFault>
    ensures { Gives (λ _. draft.new) rule_of result (at_hand (given draft.old rate evidence)) }
{
    let Some(draft) = draft else {
        return Err(StepFault::Broken(Rule::Misplaced));
    };
    if rate.kbits() != draft.rate.kbits() {
        return Err(StepFault::Broken(Rule::Misplaced));
    }
    match draft.part {
        Part::Named(id) => {
            draft.part = Part::Frame(id, evidence);
            Ok(())
        }
        _ => Err(StepFault::Broken(Rule::Misplaced)),
    }
}

/// Evidence of a PDO begins a member, that of number 0 is of the frame that was named.
fn begin_evidence(
    alloc: Global,
    draft: &mut Option<Draft>,
    side: Side,
    entry: Entry,
    evidence: Evidence,
) -> Result<(), StepFault>
    ensures { Gives (λ _. draft.new) rule_of result (at_hand (with_evidence side draft.old entry evidence)) }
{
    if entry.number == 0 {
        return give(draft, entry.rate, evidence);
    }
    let pdo = entry.number - 1;
    begin(
        alloc,
        draft,
        entry.rate,
        Part::Member(side, Member { pdo, evidence }),
    )
}

/// Puts a number at the end of a list of the evidence.
fn put_number(list: Listed, evidence: &mut Evidence, value: u64) -> Result<(), StepFault>
    ensures { Gives (λ _. evidence.new) rule_of result (with_number list evidence.old value) }
{
    match list {
        Listed::Busy => put_busy(evidence, value),
        Listed::Queue => put_queue(evidence, value),
    }
}

/// Puts a number at the end of a list of SYNC's, which has a busy list alone.
fn put_of_sync(list: Listed, busy: &mut Items<u64>, value: u64) -> Result<(), StepFault>
    ensures { Gives (λ _. busy.new) rule_of result (with_sync list busy.old value) }
{
    match list {
        Listed::Busy => lengthen(busy, value),
        Listed::Queue => Err(StepFault::Broken(Rule::Misplaced)),
    }
}

/// Whether the records of a part's lists have the number: the PDO's from 1 on, or 0 of a fixed frame. A frame without evidence has no list.
fn is_of_number(part: &Part, number: usize) -> bool
    ensures { result ≡ is_of_number part.now number }
{
    match part {
        Part::Member(_, member) => number > 0 && number - 1 == member.pdo,
        Part::Sync(_) | Part::Frame(..) => number == 0,
        Part::Named(_) => false,
    }
}

/// Puts a number at the end of a list of a part, which is of the PDO's number, or of number 0 for a fixed frame.
fn lengthen_part(list: Listed, part: &mut Part, number: usize, value: u64) -> Result<(), StepFault>
    ensures { Gives (λ _. part.new) rule_of result (lengthened list part.old number value) }
{
    if !is_of_number(part, number) {
        return Err(StepFault::Broken(Rule::Misplaced));
    }
    match part {
        Part::Member(_, member) => put_number(list, &mut member.evidence, value),
        Part::Sync(busy) => put_of_sync(list, busy, value),
        Part::Frame(_, evidence) => put_number(list, evidence, value),
        Part::Named(_) => Err(StepFault::Broken(Rule::Misplaced)),
    }
}

/// Adds a number to the part at hand, whose rate and number the record repeats.
fn add_to(list: Listed, draft: &mut Draft, entry: Entry) -> Result<(), StepFault>
    ensures { Gives (λ _. draft.new) rule_of result (add list (Some draft.old) entry) }
{
    if entry.rate.kbits() != draft.rate.kbits() {
        return Err(StepFault::Broken(Rule::Misplaced));
    }
    lengthen_part(list, &mut draft.part, entry.number, entry.value)?;
    Ok(())
}

/// A record that adds a number to the part at hand.
fn add(list: Listed, draft: &mut Option<Draft>, entry: Entry) -> Result<(), StepFault>
    ensures { Gives (λ _. draft.new) rule_of result (at_hand (add list draft.old entry)) }
{
    match draft {
        Some(draft) => {
            add_to(list, draft, entry)?;
            Ok(())
        }
        None => Err(StepFault::Broken(Rule::Misplaced)),
    }
}

#[tactic(auto, using(crate::proofs::LastLemmas::last_is, crate::proofs::LastLemmas::none_last))]
/// The busy list of the last of some members, if there is one.
fn last_busy(members: &[Member]) -> &[u64]
    ensures { result.now ≡ last_busy members.now }
{
    if members.is_empty() {
        return &[];
    }
    members[members.len() - 1].evidence.busy()
}

/// Gives a list, which has no numbers of its own, those of another.
fn give_numbers(alloc: Global, shared: &[u64], numbers: &mut Items<u64>) -> Result<(), StepFault>
    ensures { Gives (λ _. numbers.new) rule_of result (with_numbers shared.now numbers.old) }
{
    if !numbers.as_slice().is_empty() {
        return Err(StepFault::Broken(Rule::Misplaced));
    }
    *numbers = Items::copied(alloc, shared)?;
    Ok(())
}

/// Gives evidence a busy list that another has, before any number of its own.
fn give_list(alloc: Global, shared: &[u64], evidence: &mut Evidence) -> Result<(), StepFault>
    ensures { Gives (λ _. evidence.new) rule_of result (with_list shared.now evidence.old) }
{
    match evidence {
        Evidence::Long { busy } => give_numbers(alloc, shared, busy),
        Evidence::Late { busy, .. } => give_numbers(alloc, shared, busy),
    }
}

/// Gives a part, which is a member, the busy list of the member before, if there is one.
fn give_same(alloc: Global, shared: &[u64], part: &mut Part) -> Result<(), StepFault>
    ensures { Gives (λ _. part.new) rule_of result (with_same shared.now part.old) }
{
    match part {
        Part::Member(_, member) => {
            if shared.is_empty() {
                return Err(StepFault::Broken(Rule::Misplaced));
            }
            give_list(alloc, shared, &mut member.evidence)
        }
        Part::Sync(_) | Part::Named(_) | Part::Frame(..) => {
            Err(StepFault::Broken(Rule::Misplaced))
        }
    }
}

/// Gives the part at hand, whose rate and number the record repeats, the busy list of the member before.
fn share_in(alloc: Global, draft: &mut Draft, entry: Entry) -> Result<(), StepFault>
    ensures { Gives (λ _. draft.new) rule_of result (share (Some draft.old) entry) }
{
    if entry.rate.kbits() != draft.rate.kbits() {
        return Err(StepFault::Broken(Rule::Misplaced));
    }
    if !is_of_number(&draft.part, entry.number) {
        return Err(StepFault::Broken(Rule::Misplaced));
    }
    give_same(alloc, last_busy(draft.members.as_slice()), &mut draft.part)?;
    Ok(())
}

/// A record that gives the part at hand the busy list of the member before.
fn share(alloc: Global, draft: &mut Option<Draft>, entry: Entry) -> Result<(), StepFault>
    ensures { Gives (λ _. draft.new) rule_of result (at_hand (share draft.old entry)) }
{
    match draft {
        Some(draft) => {
            share_in(alloc, draft, entry)?;
            Ok(())
        }
        None => Err(StepFault::Broken(Rule::Misplaced)),
    }
}

#[tactic(auto, unfolding(crate::specs::Reading::next))]
/// Takes a record into the draft of those before it, if any. After an `Err` the draft is not to be used.
pub(crate) fn take(alloc: Global, draft: &mut Option<Draft>, entry: Entry) -> Result<(), StepFault>
    ensures { Gives (λ _. draft.new) rule_of result (at_hand (next draft.old entry)) }
{
    match entry.word {
        Word::Long(side) => {
            let busy = Items::new(alloc);
            begin_evidence(alloc, draft, side, entry, Evidence::Long { busy })
        }
        Word::Late(side) => {
            let busy = Items::new(alloc);
            let queue = Items::new(alloc);
            let q = entry.value;
            begin_evidence(alloc, draft, side, entry, Evidence::Late { q, busy, queue })
        }
        Word::Sync => begin(alloc, draft, entry.rate, Part::Sync(Items::new(alloc))),
        Word::Sdo => match u16::try_from(entry.value) {
            Ok(id) => begin(alloc, draft, entry.rate, Part::Named(id)),
            Err(_) => Err(StepFault::Broken(Rule::Number)),
        },
        Word::Same => share(alloc, draft, entry),
        Word::Number(list) => add(list, draft, entry),
    }
}

#[tactic(auto, unfolding(crate::specs::Reading::finished))]
/// The refusals at the end of the text.
pub(crate) fn finished(alloc: Global, draft: Option<Draft>) -> Result<Vec<Refusal>, StepFault>
    ensures { Gives (λ refusals. refusals.items) rule_of result (finished draft) }
{
    let Some(draft) = draft else {
        return Ok(Vec::new(alloc));
    };
    Ok(closed(draft)?.into_vec())
}
