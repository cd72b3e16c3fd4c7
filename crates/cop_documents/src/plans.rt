//! Plans.

use crate::objects::Object;
use crate::rooms::misses_of;
use crate::values::{time, time_if};
use crate::warnings::{Warned, warnings_of};
use cop_figures::{Breakdown, Figures, FrameTimes, Load, PdoTimes, Reason, RefusedRate, SyncTimes};
use cop_net::{Network, PdoRow};
use cop_plan::Outcome;
use cop_room::Miss;
use cop_rta::Stream;
use serde_json::Value;
use std::alloc::{AllocError, Global};

/// A stream's identifier, bytes and times, and its greatest response.
fn stream_of(alloc: Global, stream: &Stream, response: u64) -> Result<Value, AllocError> {
    Object::new(alloc)
        .plain("id", stream.id)
        .plain("bytes", stream.bytes)
        .plain("every", stream.every)
        .with("period", time(alloc, stream.period))
        .with("jitter", time(alloc, stream.jitter))
        .with("deadline", time_if(alloc, stream.deadline))
        .with("response", time(alloc, response))
        .end()
}

/// The node and the number of a PDO by its row.
pub(crate) fn pdo_name(alloc: Global, row: Option<&PdoRow>) -> Result<Value, AllocError> {
    match row {
        Some(row) => Object::new(alloc)
            .plain("node", row.node)
            .plain("tpdo", row.tpdo)
            .end(),
        None => Ok(Value::Null),
    }
}

/// What disturbed transfers put in front of a PDO that has its greatest response: they have the identifier 0 in the tested set.
fn errors_of(alloc: Global, parts: &Breakdown) -> Result<Value, AllocError> {
    let (mut transfers, mut ticks) = (0, 0);
    for delay in &parts.delays {
        if delay.id == 0 {
            transfers = delay.transfers;
            ticks = delay.ticks;
        }
    }
    Object::new(alloc)
        .plain("transfers", transfers)
        .with("time", time(alloc, ticks))
        .end()
}

/// A PDO under a plan, with what disturbed transfers cost it, if they are counted.
fn pdo_of(
    alloc: Global,
    network: &Network<'_>,
    times: &PdoTimes,
    parts: Option<&Breakdown>,
) -> Result<Value, AllocError> {
    let pdo = Object::new(alloc)
        .with("pdo", pdo_name(alloc, network.rows().get(times.pdo)))
        .with("stream", stream_of(alloc, &times.stream, times.response));
    match parts {
        Some(parts) => pdo.with("errors", errors_of(alloc, parts)).end(),
        None => pdo.end(),
    }
}

fn pdos_of(
    alloc: Global,
    network: &Network<'_>,
    times: &[PdoTimes],
    disturbed: &[Breakdown],
) -> Result<Value, AllocError> {
    let mut pdos = Vec::new(alloc);
    for place in 0..times.len() {
        let pdo = pdo_of(alloc, network, &times[place], disturbed.get(place))?;
        pdos.push(pdo)?;
    }
    Ok(Value::Array(pdos))
}

fn frames_of(alloc: Global, times: &[FrameTimes]) -> Result<Value, AllocError> {
    let mut frames = Vec::new(alloc);
    for time in times {
        frames.push(stream_of(alloc, &time.stream, time.response)?)?;
    }
    Ok(Value::Array(frames))
}

fn sync_of(alloc: Global, sync: Option<SyncTimes>) -> Result<Value, AllocError> {
    match sync {
        Some(sync) => stream_of(alloc, &sync.stream, sync.response),
        None => Ok(Value::Null),
    }
}

/// The loads, in billionths of the bus.
fn loads_of(alloc: Global, loads: &[Load]) -> Result<Value, AllocError> {
    let mut values = Vec::new(alloc);
    for load in loads {
        let value = Object::new(alloc)
            .plain("rate", load.rate.kbits())
            .plain("pdos", load.pdos)
            .plain("fixed", load.fixed)
            .end()?;
        values.push(value)?;
    }
    Ok(Value::Array(values))
}

/// Why a rate is refused: the PDOs of which none can be the last, SYNC, or an SDO frame.
fn reason_of(alloc: Global, network: &Network<'_>, reason: &Reason) -> Result<Value, AllocError> {
    match reason {
        Reason::Places { members } => {
            let mut pdos = Vec::new(alloc);
            for member in members.as_slice() {
                pdos.push(pdo_name(alloc, network.rows().get(member.pdo))?)?;
            }
            Object::new(alloc)
                .plain("members", Value::Array(pdos))
                .end()
        }
        Reason::Sync => Object::new(alloc).plain("sync", true).end(),
        Reason::Sdo { frame, .. } => Object::new(alloc).plain("sdo", frame.id).end(),
    }
}

fn refused_of(
    alloc: Global,
    network: &Network<'_>,
    refused: &[RefusedRate],
) -> Result<Value, AllocError> {
    let mut values = Vec::new(alloc);
    for one in refused {
        let value = Object::new(alloc)
            .plain("rate", one.rate.kbits())
            .with("reason", reason_of(alloc, network, &one.reason))
            .end()?;
        values.push(value)?;
    }
    Ok(Value::Array(values))
}

/// The numbers of a plan that its document has.
#[derive(Clone, Copy)]
pub struct PlanNumbers<'a> {
    pub figures: &'a Figures,
    /// What the responses of the PDOs are made of, in their order, if the network counts disturbed transfers; else none.
    pub disturbed: &'a [Breakdown],
}

/// What the planner answers for a network, with its numbers, as its report has them, what is worth a look before one relies on it, and what
/// rates miss a plan by, if none passes.
/// `Err` is want of memory.
pub fn plan_document(
    alloc: Global,
    network: &Network<'_>,
    outcome: &Outcome,
    numbers: PlanNumbers<'_>,
    warnings: &[Warned<'_>],
    misses: &[Miss],
) -> Result<String, AllocError> {
    let PlanNumbers { figures, disturbed } = numbers;
    let rate = match figures.rate {
        Some(rate) => Value::from(rate.kbits()),
        None => Value::Null,
    };
    let (margin, others) = match outcome {
        Outcome::Planned(plan) => (plan.margin(), plan.others()),
        Outcome::Refused(_) => (None, None),
    };
    let told = Object::new(alloc)
        .text("command", "plan")
        .plain("rate", rate)
        .with("pdos", pdos_of(alloc, network, &figures.pdos, disturbed))
        .with("sync", sync_of(alloc, figures.sync))
        .with("sdo_frames", frames_of(alloc, &figures.frames))
        .with("margin", time_if(alloc, margin))
        .with("others", time_if(alloc, others))
        .with("loads", loads_of(alloc, &figures.loads))
        .with("refused", refused_of(alloc, network, &figures.refused))
        .with("warnings", warnings_of(alloc, warnings));
    let told = match outcome {
        Outcome::Planned(_) => told,
        Outcome::Refused(_) => told.with("misses", misses_of(alloc, network, misses)),
    };
    told.end()?.to_string(alloc)
}
