//! Answers that are told line by line.

use crate::faults::{number_if, text_if};
use crate::objects::{Object, text_of};
use crate::values::time_if;
use cop_boot_answer::{BootAnswer, Detail, NodeLine, State};
use cop_cert::Refusal;
use cop_logbook::{Emergency, abort_words};
use cop_rta::Verdict;
use cop_scan::Found;
use cop_sdo::Address;
use serde_json::Value;
use std::alloc::{AllocError, Global};

/// What the test says of the stream of an identifier.
fn stream_of(alloc: Global, id: u16, verdict: Verdict) -> Result<Value, AllocError> {
    let (word, instance, response) = match verdict {
        Verdict::Pass { response } => ("pass", None, Some(response)),
        Verdict::Late { q, response } => ("late", Some(q), Some(response)),
        Verdict::Long => ("long", None, None),
    };
    Object::new(alloc)
        .plain("id", id)
        .text("verdict", word)
        .plain("instance", number_if(instance))
        .with("response", time_if(alloc, response))
        .end()
}

/// The answer of the test at a rate in kbit/s: what it says of each stream.
pub fn test_document(
    alloc: Global,
    kbits: u32,
    verdicts: &[(u16, Verdict)],
) -> Result<String, AllocError> {
    let mut streams = Vec::new(alloc);
    for (id, verdict) in verdicts {
        streams.push(stream_of(alloc, *id, *verdict)?)?;
    }
    let document = Object::new(alloc)
        .text("command", "test")
        .plain("rate", kbits)
        .plain("streams", Value::Array(streams))
        .end()?;
    document.to_string(alloc)
}

/// What is said of a refusal.
fn refusal_of(alloc: Global, refusal: &Refusal, holds: bool) -> Result<Value, AllocError> {
    Object::new(alloc)
        .plain("rate", refusal.rate.kbits())
        .plain("holds", holds)
        .end()
}

/// The answer of a check: refusals, and whether each holds.
pub fn check_document(
    alloc: Global,
    refusals: &[Refusal],
    answers: &[bool],
) -> Result<String, AllocError> {
    let mut told = Vec::new(alloc);
    for (refusal, holds) in refusals.iter().zip(answers) {
        told.push(refusal_of(alloc, refusal, *holds)?)?;
    }
    let document = Object::new(alloc)
        .text("command", "check")
        .plain("refusals", Value::Array(told))
        .end()?;
    document.to_string(alloc)
}

/// With what is said of an object: its index and sub, and what was found there or the code of an abort with its words.
fn with_detail(alloc: Global, told: Object, state: State) -> Object {
    let Some(
        Detail {
            at: Address { index, sub },
            value,
        },
    ) = state.detail()
    else {
        return told;
    };
    let told = told.plain("index", index).plain("sub", sub);
    match state {
        State::Aborted { .. } => told
            .plain("code", value)
            .with("words", text_of(alloc, abort_words(value))),
        _ => told.plain("found", value),
    }
}

/// What is said of a node.
fn node_of(alloc: Global, line: NodeLine) -> Result<Value, AllocError> {
    let NodeLine { node, state } = line;
    let told = Object::new(alloc)
        .plain("node", node)
        .text("state", state.word());
    with_detail(alloc, told, state).end()
}

/// What is said of nodes.
fn nodes_of(alloc: Global, lines: &[NodeLine]) -> Result<Value, AllocError> {
    let mut nodes = Vec::new(alloc);
    for line in lines {
        nodes.push(node_of(alloc, *line)?)?;
    }
    Ok(Value::Array(nodes))
}

/// What is told of a boot at a port beside its answer.
#[derive(Clone, Copy)]
pub struct AtPort<'a> {
    /// The first error that each node told by EMCY.
    pub emergencies: &'a [Emergency],
    /// The ticks of 250 ns from the opening of the port until the end, if they are known.
    pub took: Option<u64>,
}

/// An error that a node told.
fn emergency_of(alloc: Global, told: &Emergency) -> Result<Value, AllocError> {
    Object::new(alloc)
        .plain("node", told.node)
        .plain("code", told.code)
        .with("words", text_of(alloc, told.kind()))
        .plain("register", told.register)
        .end()
}

/// The errors that nodes told.
fn emergencies_of(alloc: Global, emergencies: &[Emergency]) -> Result<Value, AllocError> {
    let mut all = Vec::new(alloc);
    for told in emergencies {
        all.push(emergency_of(alloc, told)?)?;
    }
    Ok(Value::Array(all))
}

/// With what was told at a port, if the boot was at one.
fn with_port(alloc: Global, told: Object, port: Option<AtPort<'_>>) -> Object {
    match port {
        Some(port) => told
            .with("emergencies", emergencies_of(alloc, port.emergencies))
            .with("took", time_if(alloc, port.took)),
        None => told,
    }
}

/// The answer of a boot, and that no rate passes where there is none.
pub fn boot_document(
    alloc: Global,
    answer: Option<&BootAnswer>,
    port: Option<AtPort<'_>>,
) -> Result<String, AllocError> {
    let (nodes, heartbeats) = match answer {
        Some(answer) => (
            nodes_of(alloc, &answer.nodes)?,
            nodes_of(alloc, &answer.heartbeats)?,
        ),
        None => (nodes_of(alloc, &[])?, nodes_of(alloc, &[])?),
    };
    let started = answer.is_some_and(|answer| answer.started == Some(true));
    let document = Object::new(alloc)
        .text("command", "boot")
        .plain("planned", answer.is_some())
        .plain("started", started)
        .plain("nodes", nodes)
        .plain("heartbeats", heartbeats);
    let document = with_port(alloc, document, port).end()?;
    document.to_string(alloc)
}

/// The answer of a verification, with whether each node is as planned; and that no rate passes where there is none.
pub fn verify_document(
    alloc: Global,
    answer: Option<&BootAnswer>,
    as_planned: bool,
) -> Result<String, AllocError> {
    let nodes = match answer {
        Some(answer) => nodes_of(alloc, &answer.nodes)?,
        None => nodes_of(alloc, &[])?,
    };
    let document = Object::new(alloc)
        .text("command", "verify")
        .plain("planned", answer.is_some())
        .plain("as_planned", as_planned)
        .plain("nodes", nodes)
        .end()?;
    document.to_string(alloc)
}

/// A number that was told, if it was.
fn told(number: Option<u32>) -> Value {
    number_if(number.map(u64::from))
}

/// The names of files.
fn names_of(alloc: Global, names: &[String]) -> Result<Value, AllocError> {
    let mut all = Vec::new(alloc);
    for name in names {
        all.push(Value::String(String::from_str(alloc, name)?))?;
    }
    Ok(Value::Array(all))
}

/// A node that answered a scan: what its device told of itself.
#[derive(Drop)]
pub struct FoundNode {
    pub found: Found,
    /// The name of the device, if it told one.
    pub name: Option<String>,
    /// The names of the EDS files that fit it, if they were looked for.
    pub eds: Option<Vec<String>>,
}

/// What the device of a node told, and which EDS files fit it, if they were looked for.
fn found_of(alloc: Global, node: &FoundNode) -> Result<Value, AllocError> {
    let found = &node.found;
    let name = node.name.as_ref().map(|name| name.as_str());
    let object = Object::new(alloc)
        .plain("node", found.node)
        .plain("device_type", told(found.device_type))
        .plain("vendor", told(found.vendor))
        .plain("product", told(found.product))
        .plain("revision", told(found.revision))
        .with("name", text_if(alloc, name));
    match &node.eds {
        Some(names) => object.plain("eds", names_of(alloc, names)?).end(),
        None => object.end(),
    }
}

/// The answer of a scan: the nodes that answered.
pub fn scan_document(alloc: Global, found: &[FoundNode]) -> Result<String, AllocError> {
    let mut nodes = Vec::new(alloc);
    for node in found {
        nodes.push(found_of(alloc, node)?)?;
    }
    let document = Object::new(alloc)
        .text("command", "scan")
        .plain("nodes", Value::Array(nodes))
        .end()?;
    document.to_string(alloc)
}

/// The answer of a judgement: how many transfers start, none of which is late; nothing if no rate passes.
pub fn judge_document(alloc: Global, transfers: Option<u64>) -> Result<String, AllocError> {
    let document = Object::new(alloc)
        .text("command", "judge")
        .plain("planned", transfers.is_some())
        .plain("on_time", transfers.is_some())
        .plain("transfers", number_if(transfers))
        .end()?;
    document.to_string(alloc)
}
