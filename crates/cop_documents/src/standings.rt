//! Whether a network passes as it stands.

use crate::faults::number_if;
use crate::objects::Object;
use crate::plans::pdo_name;
use crate::values::{time, time_if};
use cop_net::Network;
use cop_rta::{Stream, Verdict};
use cop_standing::{Answer, Standing, slowest};
use serde_json::Value;
use std::alloc::{AllocError, Global};

/// A PDO that a device sends by its EDS file and that no row has, so that no test counts it.
#[derive(Clone, Copy)]
pub struct Uncounted {
    pub node: u8,
    pub tpdo: u16,
    pub id: u32,
}

/// The greatest response of the stream at a place, if all pass at some rate.
fn response_at(answer: Option<&Answer>, place: usize) -> Option<u64> {
    match answer?.verdicts.get(place)? {
        Verdict::Pass { response } => Some(*response),
        _ => None,
    }
}

/// The PDOs in the order of their rows: their identifiers, and their responses at the slowest rate that passes.
fn pdos_of(
    alloc: Global,
    network: &Network<'_>,
    streams: &[Stream],
    answer: Option<&Answer>,
) -> Result<Value, AllocError> {
    let mut pdos = Vec::new(alloc);
    for (place, row) in network.rows().iter().enumerate() {
        if let Some(stream) = streams.get(place) {
            let pdo = Object::new(alloc)
                .with("pdo", pdo_name(alloc, Some(row)))
                .plain("id", stream.id)
                .with("response", time_if(alloc, response_at(answer, place)))
                .end()?;
            pdos.push(pdo)?;
        }
    }
    Ok(Value::Array(pdos))
}

/// A stream that fails: a PDO, or an SDO frame, which has no row.
fn failing_of(
    alloc: Global,
    network: &Network<'_>,
    place: usize,
    stream: &Stream,
    verdict: Verdict,
) -> Result<Value, AllocError> {
    let (word, instance, response) = match verdict {
        Verdict::Late { q, response } => ("late", Some(q), Some(response)),
        _ => ("long", None, None),
    };
    Object::new(alloc)
        .with("pdo", pdo_name(alloc, network.rows().get(place)))
        .plain("id", stream.id)
        .text("verdict", word)
        .plain("instance", number_if(instance))
        .with("response", time_if(alloc, response))
        .with("deadline", time(alloc, stream.deadline.unwrap_or(0)))
        .end()
}

/// A rate at which some fail, and all that do.
fn refused_rate(
    alloc: Global,
    network: &Network<'_>,
    streams: &[Stream],
    answer: &Answer,
) -> Result<Value, AllocError> {
    let mut failing = Vec::new(alloc);
    for place in &answer.failing {
        if let (Some(stream), Some(verdict)) = (streams.get(*place), answer.verdicts.get(*place)) {
            failing.push(failing_of(alloc, network, *place, stream, *verdict)?)?;
        }
    }
    Object::new(alloc)
        .plain("rate", answer.rate.kbits())
        .plain("failing", Value::Array(failing))
        .end()
}

/// The rates at which some fail, slowest first.
fn refused_of(
    alloc: Global,
    network: &Network<'_>,
    standing: &Standing,
) -> Result<Value, AllocError> {
    let streams = standing.streams.streams();
    let mut refused = Vec::new(alloc);
    for answer in &standing.answers {
        if !answer.failing.is_empty() {
            refused.push(refused_rate(alloc, network, streams, answer)?)?;
        }
    }
    Ok(Value::Array(refused))
}

fn uncounted_of(alloc: Global, uncounted: &[Uncounted]) -> Result<Value, AllocError> {
    let mut pdos = Vec::new(alloc);
    for pdo in uncounted {
        let name = Object::new(alloc)
            .plain("node", pdo.node)
            .plain("tpdo", pdo.tpdo)
            .end();
        let value = Object::new(alloc)
            .with("pdo", name)
            .plain("id", pdo.id)
            .end()?;
        pdos.push(value)?;
    }
    Ok(Value::Array(pdos))
}

/// What the test says of a network as it stands, and which PDOs it does not count. `Err` is want of memory.
pub fn standing_document(
    alloc: Global,
    network: &Network<'_>,
    standing: &Standing,
    uncounted: &[Uncounted],
) -> Result<String, AllocError> {
    let answer = match slowest(&standing.answers) {
        Some(place) => standing.answers.get(place),
        None => None,
    };
    let rate = match answer {
        Some(answer) => Value::from(answer.rate.kbits()),
        None => Value::Null,
    };
    let streams = standing.streams.streams();
    let document = Object::new(alloc)
        .text("command", "as-is")
        .plain("rate", rate)
        .with("pdos", pdos_of(alloc, network, streams, answer))
        .with("refused", refused_of(alloc, network, standing))
        .with("uncounted", uncounted_of(alloc, uncounted))
        .end()?;
    document.to_string(alloc)
}
