//! The short form of refusals: of each member that is late the queue list ends at the first number that is past the deadline.

ghost use Rattle.std.specs.Prelude.{◌≡◌, ◌≤◌, ◌<◌, IfOk, All, length, map, true};
ghost use Rattle.cop_rta.specs.Test.{flagged_place, is_flagged, place_of};
ghost use Rattle.cop_cert.specs.Causes.{IsRefusal};
ghost use Rattle.cop_cert.specs.Evidence.{is_member, pdos_of};
ghost use Rattle.cop_cert.specs.Short.{is_past, up_to, short_evidence, short_member, short_members, short_cause, shortened, AreInside};

use crate::checking::flag_trial;
use crate::items::Items;
use crate::refusals::{Cause, Evidence, Member, Refusal};
use cop_frame::Rate;
use cop_rta::{AtRate, Busy, IdRange, StreamSet};
use std::alloc::{AllocError, Global};

/// Whether instance `q` responds past its deadline, if there is one, where it waits so long.
fn is_past(busy: &Busy<'_>, q: u64, wait: u64) -> bool
    ensures { result ≡ is_past (place_of busy.now) q wait }
{
    match busy.stream().deadline {
        Some(deadline) => busy.response(q, wait) > u128::from(deadline),
        None => false,
    }
}

#[tactic(auto, using(crate::proofs::ShortLemmas::goes_on))]
/// The numbers of a queue list up to the first that is past the deadline, or all.
fn up_to_past(
    alloc: Global,
    busy: &Busy<'_>,
    q: u64,
    queue: &[u64],
) -> Result<Items<u64>, AllocError>
    ensures { IfOk result (λ short. short ≡ up_to (is_past (place_of busy.now) q) queue.now) }
{
    let mut short = Items::new(alloc);
    let mut rest = queue;
    while let Some((wait, more)) = rest.split_first() {
        short.push(*wait)?;
        if is_past(busy, q, *wait) {
            return Ok(short);
        }
        rest = more;
    }
    Ok(short)
}

fn short_evidence(
    alloc: Global,
    busy: &Busy<'_>,
    evidence: &Evidence,
) -> Result<Evidence, AllocError>
    ensures { IfOk result (λ short. short ≡ short_evidence (place_of busy.now) evidence.now) }
{
    match evidence {
        Evidence::Long { busy } => Ok(Evidence::Long {
            busy: Items::copied(alloc, busy.as_slice())?,
        }),
        Evidence::Late {
            q,
            busy: numbers,
            queue,
        } => Ok(Evidence::Late {
            q: *q,
            busy: Items::copied(alloc, numbers.as_slice())?,
            queue: up_to_past(alloc, busy, *q, queue.as_slice())?,
        }),
    }
}

/// Members by flags of what is above.
fn short_flagged<'a>(
    alloc: Global,
    at: &AtRate<'a>,
    above: &'a [bool],
    members: &[Member],
) -> Result<Items<Member>, AllocError>
    requires size { length above.now ≡ length at.now.streams }
    requires inside { All (λ m. m.pdo < length at.now.streams) members.now }
    ensures { IfOk result (λ short. short ≡ map (short_member (λ p. flagged_place at.now.streams above.now p at.now.rate)) members.now) }
{
    let mut short = Items::new(alloc);
    for member in members {
        let pdo = member.pdo;
        let busy = Busy::among(at, above, pdo);
        let evidence = short_evidence(alloc, &busy, &member.evidence)?;
        short.push(Member { pdo, evidence })?;
    }
    Ok(short)
}

/// Members of a trial.
fn short_members(
    alloc: Global,
    set: &StreamSet,
    pdos: usize,
    rate: Rate,
    bound: u16,
    members: &[Member],
) -> Result<Items<Member>, AllocError>
    requires count { pdos ≤ length set.now }
    requires inside { All (λ m. m < pdos) (pdos_of members.now) }
    ensures { IfOk result (λ short. short ≡ short_members bound rate set.now pdos members.now) }
{
    let streams = set.streams();
    let mut flags = [false; StreamSet::MOST];
    let above = &mut flags[..streams.len()];
    flag_trial(streams, pdos, bound, members, above);
    short_flagged(alloc, &AtRate::new(set, rate), above, members)
}

fn copied_evidence(alloc: Global, evidence: &Evidence) -> Result<Evidence, AllocError>
    ensures { IfOk result (λ copy. copy ≡ evidence.now) }
{
    match evidence {
        Evidence::Long { busy } => Ok(Evidence::Long {
            busy: Items::copied(alloc, busy.as_slice())?,
        }),
        Evidence::Late { q, busy, queue } => Ok(Evidence::Late {
            q: *q,
            busy: Items::copied(alloc, busy.as_slice())?,
            queue: Items::copied(alloc, queue.as_slice())?,
        }),
    }
}

fn short_cause(
    alloc: Global,
    set: &StreamSet,
    pdos: usize,
    rate: Rate,
    cause: &Cause,
) -> Result<Cause, AllocError>
    requires count { pdos ≤ length set.now }
    requires inside { AreInside pdos cause.now }
    ensures { IfOk result (λ short. short ≡ short_cause rate set.now pdos cause.now) }
{
    match cause {
        Cause::Places { members } => {
            let bound = IdRange::FIRST.least;
            let members = short_members(alloc, set, pdos, rate, bound, members.as_slice())?;
            Ok(Cause::Places { members })
        }
        Cause::Sync { busy } => Ok(Cause::Sync {
            busy: Items::copied(alloc, busy.as_slice())?,
        }),
        Cause::Sdo { up, id, evidence } => {
            let bound = IdRange::SECOND.least;
            let up = short_members(alloc, set, pdos, rate, bound, up.as_slice())?;
            let evidence = copied_evidence(alloc, evidence)?;
            Ok(Cause::Sdo {
                up,
                id: *id,
                evidence,
            })
        }
    }
}

/// The short form of a refusal that holds: of each member that is late the queue list ends at the first number that is past the
/// deadline. It holds too. `Err` is want of memory.
pub fn shortened(
    alloc: Global,
    set: &StreamSet,
    pdos: usize,
    refusal: &Refusal,
) -> Result<Refusal, AllocError>
    requires count { pdos ≤ length set.now }
    requires holds { IsRefusal set.now pdos refusal.now }
    ensures short { IfOk result (λ short. short ≡ shortened set.now pdos refusal.now) }
    ensures checks { IfOk result (IsRefusal set.now pdos) }
{
    let rate = refusal.rate;
    let cause = short_cause(alloc, set, pdos, rate, &refusal.cause)?;
    Ok(Refusal { rate, cause })
}
