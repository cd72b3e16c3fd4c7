//! The judgement of a trace by the plan of a network.

ghost use Rattle.std.specs.Prelude.{◌≡◌, ℕ, List, None, IfOk, IfSome, MatchOption, MatchResult};
ghost use Rattle.cop_rta.specs.Errors.{bus_of};
ghost use Rattle.cop_net.specs.Devices.{File, handed_in};
ghost use Rattle.cop_plan.specs.declared.choices.Asked.{Asked};
ghost use Rattle.cop_table.specs.Pieces.{HoldsOfAll};
ghost use Rattle.cop_engine.specs.Networks.{IsPlannedNetwork};
ghost use Rattle.cop_engine.specs.Judgements.{transfers_in, judged_text, none_passes, said_of, IsCleared, ExplainsTrace, IsJudgement, ExplainsJudgement};

use crate::faults::Fault;
use crate::reports::push_number;
use crate::runs::outcome_of;
use cop_bus::{Step, clean_is_legal, judge, read_trace};
use cop_frame::Rate;
use cop_plan::{Asked, Outcome, Plan};
use cop_rta::StreamSet;
use cop_watch::{Seen, seen_in_pieces};
use std::alloc::{AllocError, Global};
use std::io::Read;

/// What is said of a trace by what the planner answers for a network.
#[derive(Clone, Copy, PartialEq, Eq, Debug)]
pub enum Judgement {
    /// No rate passes, so that the trace is not looked at.
    NonePasses,
    /// So many transfers start, and no instance is late.
    OnTime { transfers: u64 },
}

impl Judgement {
    /// Its text. Otherwise want of memory.
    pub fn text(self, alloc: Global) -> Result<Vec<u8>, AllocError>
        ensures { IfOk result (λ text. text.items ≡ said_of self) }
    {
        match self {
            Judgement::NonePasses => none_passes(alloc),
            Judgement::OnTime { transfers } => on_time_text(alloc, transfers),
        }
    }
}

/// How many transfers start.
fn transfers_in(steps: &[Step]) -> usize
    ensures { result ≡ transfers_in steps.now }
{
    steps
        .iter()
        .filter(|step| matches!(step, Step::Start { .. }))
        .count()
}

/// The text of a judgement where no instance is late.
pub(crate) fn on_time_text(alloc: Global, transfers: u64) -> Result<Vec<u8>, AllocError>
    ensures { IfOk result (λ text. text.items ≡ judged_text transfers None) }
{
    let mut text = Vec::new(alloc);
    text.extend_from_slice(b"transfers ")?;
    push_number(&mut text, transfers)?;
    text.extend_from_slice(b"\n")?;
    text.extend_from_slice(b"on time\n")?;
    Ok(text)
}

/// What is said where no rate passes.
pub fn none_passes(alloc: Global) -> Result<Vec<u8>, AllocError>
    ensures { IfOk result (λ text. text.items ≡ none_passes) }
{
    let mut text = Vec::new(alloc);
    text.extend_from_slice(b"no rate passes\n")?;
    Ok(text)
}

/// The judgement of the trace that a reader has left, by some streams at a rate, or the first step that breaks a rule, if that is seen while
/// it is read. No instance of a plan's trace that breaks none is late, which the plan guarantees, so none is looked for.
fn seen<R: Read + Drop>(
    alloc: Global,
    streams: &StreamSet,
    rate: Rate,
    reader: R,
) -> Option<Result<Judgement, Fault>>
    ensures { IfSome result (λ judged. HoldsOfAll (R.remaining reader) (λ trace. MatchResult judged (λ judgement. IsCleared rate streams.now trace (said_of judgement))
        (λ fault. ExplainsTrace rate streams.now trace fault))) }
{
    let _distinct = streams.streams();
    clean_is_legal();
    let found = seen_in_pieces(alloc, streams, rate, reader)?;
    match found {
        Seen::Lawful { sent } => Some(Ok(Judgement::OnTime { transfers: sent })),
        Seen::Broken { step, rule } => Some(Err(Fault::Refused {
            number: rule,
            place: step,
        })),
    }
}

/// The judgement of a trace by some streams at a rate. Its steps are kept, and the first that breaks a rule is named.
fn judged(alloc: Global, streams: &StreamSet, rate: Rate, trace: &[u8]) -> Result<Judgement, Fault>
    ensures { MatchResult result (λ judgement. IsCleared rate streams.now trace.now (said_of judgement)) (λ fault. ExplainsTrace rate streams.now trace.now fault) }
{
    let _distinct = streams.streams();
    clean_is_legal();
    let trace = read_trace(alloc, trace)?;
    let run = judge(alloc, streams, rate, &trace)?;
    Ok(Judgement::OnTime {
        transfers: transfers_in(&run.trace.steps) as u64,
    })
}

/// The streams of a plan on the bus, if its set counts disturbed transfers; else its set is that of the bus.
fn bus_set(alloc: Global, plan: &Plan) -> Result<Option<StreamSet>, AllocError>
    ensures { IfOk result (λ other. MatchOption other (plan.now.streams ≡ bus_of plan.now.streams) (λ set. set ≡ bus_of plan.now.streams)) }
{
    let streams = plan.streams();
    if streams.errors().is_none() {
        return Ok(None);
    }
    Ok(Some(streams.on_bus(alloc)?))
}

/// The judgement of the trace that a reader has left, by a plan.
fn seen_by<R: Read + Drop>(
    alloc: Global,
    plan: &Plan,
    reader: R,
) -> Option<Result<Judgement, Fault>>
    ensures { IfSome result (λ judged. HoldsOfAll (R.remaining reader) (λ trace. MatchResult judged (λ judgement. IsCleared plan.now.rate (bus_of plan.now.streams) trace (said_of judgement))
        (λ fault. ExplainsTrace plan.now.rate (bus_of plan.now.streams) trace fault))) }
{
    match bus_set(alloc, plan) {
        Ok(Some(set)) => seen(alloc, &set, plan.rate(), reader),
        Ok(None) => seen(alloc, plan.streams(), plan.rate(), reader),
        Err(_) => None,
    }
}

/// The judgement of a trace by a plan.
fn judged_by(alloc: Global, plan: &Plan, trace: &[u8]) -> Result<Judgement, Fault>
    ensures { MatchResult result (λ judgement. IsCleared plan.now.rate (bus_of plan.now.streams) trace.now (said_of judgement)) (λ fault. ExplainsTrace plan.now.rate (bus_of plan.now.streams) trace.now fault) }
{
    match bus_set(alloc, plan)? {
        Some(set) => judged(alloc, &set, plan.rate(), trace),
        None => judged(alloc, plan.streams(), plan.rate(), trace),
    }
}

/// The judgement of the trace that a reader has left, by what the planner answers for a network. Where the trace breaks a rule, it is the
/// first step that does. It is there if it is seen while the trace is read in pieces, and memory does not grow with the trace. Where the
/// answer is none, nothing is known of the trace, and [`judge_outcome`] judges it: it cannot be read, or it has what is rare in a trace.
pub fn judge_pieces<R: Read + Drop>(
    alloc: Global,
    outcome: &Outcome,
    reader: R,
) -> Option<Result<Judgement, Fault>>
    ensures { IfSome result (λ judged. (asked : Asked) (nodes pdos : List ℕ) (eds : List File) → IsPlannedNetwork asked nodes pdos eds outcome.now
        → HoldsOfAll (R.remaining reader) (λ trace. MatchResult judged (λ judgement. IsJudgement asked nodes pdos eds trace (said_of judgement))
        (λ fault. ExplainsJudgement asked nodes pdos eds trace fault))) }
{
    match outcome {
        Outcome::Planned(plan) => seen_by(alloc, plan, reader),
        Outcome::Refused(_) => Some(Ok(Judgement::NonePasses)),
    }
}

/// The judgement of a trace by what the planner answers for a network, as [`judge_bytes`] gives it of the network's files. The steps of
/// the trace are kept.
pub fn judge_outcome(alloc: Global, outcome: &Outcome, trace: &[u8]) -> Result<Judgement, Fault>
    ensures { (asked : Asked) (nodes pdos : List ℕ) (eds : List File) → IsPlannedNetwork asked nodes pdos eds outcome.now
        → MatchResult result (λ judgement. IsJudgement asked nodes pdos eds trace.now (said_of judgement)) (λ fault. ExplainsJudgement asked nodes pdos eds trace.now fault) }
{
    match outcome {
        Outcome::Planned(plan) => judged_by(alloc, plan, trace),
        Outcome::Refused(_) => Ok(Judgement::NonePasses),
    }
}

/// The same of the bytes of a trace. Its steps are kept only if its judgement is not seen while it is read.
pub fn judged_bytes(alloc: Global, outcome: &Outcome, trace: &[u8]) -> Result<Judgement, Fault>
    ensures { (asked : Asked) (nodes pdos : List ℕ) (eds : List File) → IsPlannedNetwork asked nodes pdos eds outcome.now
        → MatchResult result (λ judgement. IsJudgement asked nodes pdos eds trace.now (said_of judgement)) (λ fault. ExplainsJudgement asked nodes pdos eds trace.now fault) }
{
    match judge_pieces(alloc, outcome, trace) {
        Some(judged) => judged,
        None => judge_outcome(alloc, outcome, trace),
    }
}

/// The judgement of a trace by the plan of the network of some tables and EDS files: how many transfers start, and
/// whether each instance is on time or the number of the queue step of the first that is late, which none is
/// ([`judged_on_time`](crate::judged_on_time)). Where no rate passes that is said, and the trace is not looked at.
/// Otherwise the first rule that the network breaks, or else that the trace breaks, or want of memory.
pub fn judge_bytes(
    alloc: Global,
    nodes: &[u8],
    pdos: &[u8],
    eds_files: &[(String, Vec<u8>)],
    asked: &Asked,
    trace: &[u8],
) -> Result<Vec<u8>, Fault>
    ensures { MatchResult result (λ text. IsJudgement asked.now nodes.now pdos.now (handed_in eds_files.now) trace.now text.items)
        (λ fault. ExplainsJudgement asked.now nodes.now pdos.now (handed_in eds_files.now) trace.now fault) }
{
    let outcome = outcome_of(alloc, nodes, pdos, eds_files, asked)?;
    Ok(judged_bytes(alloc, &outcome, trace)?.text(alloc)?)
}
