//! Why no choice of identifiers passes at a rate.

ghost use Rattle.std.specs.Prelude.{◌≡◌, ◌<◌, ◌≤◌, ◌*◌, All, IfOk, length, map};
ghost use Rattle.cop_rta.specs.Test.{cost_of, ahead_of};
ghost use Rattle.cop_cert.specs.Evidence.{last_of};
ghost use Rattle.cop_figures.specs.Reasons.{said_of, failing_of, frame_of, failing_frame, count_above, reason_of, refused_of};
ghost use Rattle.cop_figures.specs.Measures.{IsMeasured, AreMeasured, IsMeasuredCause, IsMeasuredRefusal};

use cop_cert::{Cause, Evidence, Items, Member, Refusal};
use cop_frame::{Rate, worst_bits};
use cop_rta::{AtRate, IdRange, Stream, StreamSet, Verdict};
use std::alloc::{AllocError, Global};

/// A PDO that fails where the other PDOs of its refusal are above it.
#[derive(Clone, Copy, PartialEq, Eq, Debug)]
pub struct Failing {
    /// Its number: the place of its row in the table of PDOs, from 0 on.
    pub pdo: usize,
    /// Its deadline in ticks of 250 ns.
    pub deadline: Option<u64>,
    /// What the response-time test says of it there.
    pub verdict: Verdict,
}

/// An SDO frame that fails below the PDOs that cannot stand below it.
#[derive(Clone, Copy, PartialEq, Eq, Debug)]
pub struct FailingFrame {
    pub id: u16,
    /// Its deadline in ticks of 250 ns.
    pub deadline: Option<u64>,
    /// What the response-time test says of it there.
    pub verdict: Verdict,
}

/// Why no choice of identifiers passes at a rate.
#[derive(Drop)]
pub enum Reason {
    /// PDOs of which none can have the lowest priority among them, by rising number.
    Places {
        members: Items<Failing>,
    },
    /// The busy time of SYNC passes the horizon, so nothing bounds what a synchronous PDO waits for.
    Sync,
    /// An SDO frame with a deadline fails below the PDOs that cannot stand below it.
    Sdo {
        frame: FailingFrame,
        /// How many PDOs are above it.
        above: usize,
        /// Those of which none can have the lowest priority among them below the SDO frames, by rising number; none where the
        /// identifiers there are too few, so that all PDOs are above.
        up: Items<Failing>,
    },
}

/// A rate at which no choice of identifiers passes.
#[derive(Drop)]
pub struct RefusedRate {
    pub rate: Rate,
    pub reason: Reason,
}

/// The last number of a list.
fn last_of(numbers: &[u64]) -> u64
    ensures { result ≡ last_of numbers.now }
{
    let Some((first, rest)) = numbers.split_first() else {
        return 0;
    };
    let mut last = *first;
    for next in rest {
        last = *next;
    }
    last
}

/// The longest transfer of a stream, in ticks.
fn cost_of(stream: &Stream, rate: Rate) -> u64
    ensures cost { result ≡ cost_of rate stream.now }
    ensures most { result ≤ 66400 }
{
    let Stream { bytes, .. } = *stream;
    u64::from(worst_bits(bytes)) * u64::from(rate.ticks_per_bit())
}

/// What the evidence against a stream says of it.
fn said_of(at: &AtRate<'_>, stream: &Stream, evidence: &Evidence) -> Verdict
    requires { IsMeasured evidence.now }
    ensures { result ≡ said_of (ahead_of at.now.streams at.now.rate) at.now.rate stream.now evidence.now }
{
    let Stream { period, .. } = *stream;
    match evidence {
        Evidence::Long { .. } => Verdict::Long,
        Evidence::Late { q, queue, .. } => {
            let cost = cost_of(stream, at.rate());
            let end = at.jitter(stream) + last_of(queue.as_slice()) + cost;
            Verdict::Late {
                q: *q,
                response: end.saturating_sub(*q * period),
            }
        }
    }
}

/// What is said of a member of a refusal.
fn failing_of(at: &AtRate<'_>, member: &Member) -> Failing
    requires inside { member.now.pdo < length at.now.streams }
    requires measured { IsMeasured member.now.evidence }
    ensures { result ≡ failing_of at.now.streams at.now.rate member.now }
{
    let stream = at.set().streams()[member.pdo];
    Failing {
        pdo: member.pdo,
        deadline: stream.deadline,
        verdict: said_of(at, &stream, &member.evidence),
    }
}

/// What is said of the members of a refusal.
fn all_failing(
    alloc: Global,
    at: &AtRate<'_>,
    found: &[Member],
) -> Result<Items<Failing>, AllocError>
    requires { AreMeasured (length at.now.streams) found.now }
    ensures { IfOk result (λ members. members ≡ map (failing_of at.now.streams at.now.rate) found.now) }
{
    let mut members = Items::new(alloc);
    for member in found {
        members.push(failing_of(at, member))?;
    }
    Ok(members)
}

/// The stream of an identifier.
pub(crate) fn frame_of(set: &StreamSet, id: u16) -> Option<Stream>
    ensures { result ≡ frame_of set.now id }
{
    let place = set.place_of(id)?;
    Some(set.streams()[place])
}

/// What is said of an SDO frame.
fn failing_frame(at: &AtRate<'_>, id: u16, evidence: &Evidence) -> FailingFrame
    requires { IsMeasured evidence.now }
    ensures { result ≡ failing_frame at.now.streams at.now.rate id evidence.now }
{
    match frame_of(at.set(), id) {
        Some(stream) => FailingFrame {
            id,
            deadline: stream.deadline,
            verdict: said_of(at, &stream, evidence),
        },
        None => FailingFrame {
            id,
            deadline: None,
            verdict: Verdict::Long,
        },
    }
}

/// How many PDOs are above an SDO frame.
fn count_above(pdos: usize, up: &[Member]) -> usize
    ensures { result ≡ count_above pdos up.now }
{
    if pdos <= usize::from(IdRange::SECOND.count) {
        up.len()
    } else {
        pdos
    }
}

/// What is said of a cause.
fn reason_of(
    alloc: Global,
    at: &AtRate<'_>,
    pdos: usize,
    cause: &Cause,
) -> Result<Reason, AllocError>
    requires { IsMeasuredCause (length at.now.streams) cause.now }
    ensures { IfOk result (λ reason. reason ≡ reason_of at.now.streams pdos at.now.rate cause.now) }
{
    match cause {
        Cause::Places { members } => Ok(Reason::Places {
            members: all_failing(alloc, at, members.as_slice())?,
        }),
        Cause::Sync { .. } => Ok(Reason::Sync),
        Cause::Sdo { up, id, evidence } => Ok(Reason::Sdo {
            frame: failing_frame(at, *id, evidence),
            above: count_above(pdos, up.as_slice()),
            up: all_failing(alloc, at, up.as_slice())?,
        }),
    }
}

/// What is said of the refusal of a rate.
fn refused_of(
    alloc: Global,
    set: &StreamSet,
    pdos: usize,
    refusal: &Refusal,
) -> Result<RefusedRate, AllocError>
    requires { IsMeasuredRefusal (length set.now) refusal.now }
    ensures { IfOk result (λ refused. refused ≡ refused_of set.now pdos refusal.now) }
{
    let at = AtRate::new(set, refusal.rate);
    Ok(RefusedRate {
        rate: refusal.rate,
        reason: reason_of(alloc, &at, pdos, &refusal.cause)?,
    })
}

/// What is said of the refusals of rates. So many streams, the first of the set, are the PDOs.
pub(crate) fn all_refused(
    alloc: Global,
    set: &StreamSet,
    pdos: usize,
    refusals: &[Refusal],
) -> Result<Vec<RefusedRate>, AllocError>
    requires { All (IsMeasuredRefusal (length set.now)) refusals.now }
    ensures { IfOk result (λ rates. rates.items ≡ map (refused_of set.now pdos) refusals.now) }
{
    let mut rates = Vec::new(alloc);
    for refusal in refusals {
        rates.push(refused_of(alloc, set, pdos, refusal)?)?;
    }
    Ok(rates)
}
