//! What is said of a fault in words, below its line, by what was read.

use crate::booting::{is_machine_rule, machine_words};
use crate::log_rules::log_rule_words;
use crate::standing_rules::STANDING_RULE;
use crate::texts::{Inputs, beside};
use crate::trace_forms::form_words;
use cop_net::{Refusal, Rule, read_nodes};
use cop_orders::{NetworkFiles, Order};
use cop_words::{
    Network, Source, further_words, maker_words, network_words, record_words, rule_words,
};
use std::alloc::{AllocError, Global};
use std::str;

/// An EDS file: its path, and its text.
#[derive(Drop)]
pub struct EdsText<'a> {
    pub path: String,
    pub text: &'a [u8],
}

/// The files of the network of an order.
pub(crate) fn network_of<'a>(order: Order<'a>) -> Option<NetworkFiles<'a>> {
    match order {
        Order::Plan(order) => Some(order.network),
        Order::Check { network, .. } => Some(network),
        Order::Boot { network, .. } => Some(network),
        Order::Judge { network, .. } => Some(network),
        Order::Run { network, .. } => Some(network),
        Order::AsIs(network) => Some(network),
        Order::Room(order) => Some(order.network),
        Order::Report { network, .. } | Order::Export { network, .. } => Some(network),
        Order::Watch { log, .. } => Some(log.network),
        Order::Listen(order) => Some(order.network),
        Order::Machine(order) => Some(order.network),
        Order::Verify(order) => Some(order.network),
        Order::Test { .. }
        | Order::Nmt(_)
        | Order::Scan(_)
        | Order::Transfer(_)
        | Order::Tidy(_)
        | Order::Init(_)
        | Order::Diff(_)
        | Order::Explain { .. } => None,
    }
}

/// The name of the file that a rule is about, where that is none of a network's: of streams, of refusals, or a trace.
pub(crate) fn file_of<'a>(order: Order<'a>, number: u8) -> Option<&'a str> {
    match order {
        Order::Test { file: "-", .. } => Some("standard input"),
        Order::Test { file, .. } => Some(file),
        Order::Check { refusals, .. } if number < 40 => Some(refusals),
        Order::Judge { trace, .. } if number >= 60 => Some(trace),
        Order::Report { shown, .. } if number >= 60 && number < 90 => shown.trace,
        _ => None,
    }
}

/// Whether a rule is about the log that is watched, whose line the failure has in words.
fn is_of_log(order: Order<'_>, number: u8) -> bool {
    let has_log = match order {
        Order::Watch { .. } => true,
        Order::Listen(_) => !is_machine_rule(number),
        Order::Report { shown, .. } => shown.log.is_some(),
        _ => false,
    };
    has_log && number >= 90
}

/// What is said of a line of a log that is refused.
fn log_words(alloc: Global, number: u8, line: u64) -> Result<Vec<u8>, AllocError> {
    let mut words = Vec::new(alloc);
    if line > 0 {
        words.extend_from_slice(format!(in alloc; "line {line} of the log\n")?.as_bytes())?;
    }
    words.extend_from_slice(log_rule_words(number).as_bytes())?;
    Ok(words)
}

/// What is said of the network that was read, and that is refused.
fn refused_network(
    alloc: Global,
    files: NetworkFiles<'_>,
    inputs: &Inputs,
    refusal: &Refusal,
) -> Result<Vec<u8>, AllocError> {
    let texts = &inputs.network;
    let network = Network {
        nodes: Source {
            name: files.nodes,
            text: &texts.nodes,
        },
        pdos: Source {
            name: files.pdos,
            text: &texts.pdos,
        },
        settings: Source {
            name: files.setup.unwrap_or(""),
            text: &texts.settings,
        },
        eds_files: &texts.eds_files,
        wanted: &texts.asked.rates,
    };
    let mut words = network_words(alloc, network, refusal)?;
    words.extend_from_slice(&further_words(alloc, network, refusal)?)?;
    Ok(words)
}

/// What is said of the row of a PDO that cannot keep its identifier.
fn row_words(
    alloc: Global,
    files: NetworkFiles<'_>,
    inputs: &Inputs,
    number: u8,
    record: u64,
) -> Result<Vec<u8>, AllocError> {
    let source = Source {
        name: files.pdos,
        text: &inputs.network.pdos,
    };
    let mut words = record_words(alloc, source, number, record)?;
    words.extend_from_slice(STANDING_RULE.as_bytes())?;
    Ok(words)
}

/// What is said of a refusal by a rule that is none of a network's: of what was read, where the rule is broken and what it is.
pub fn words_on_refusal(
    alloc: Global,
    order: Order<'_>,
    inputs: &Inputs,
    number: u8,
    place: u64,
) -> Result<Vec<u8>, AllocError> {
    if let Order::Tidy(order) = order {
        let source = Source {
            name: order.input,
            text: &inputs.other,
        };
        return maker_words(alloc, source, number, place as usize);
    }
    if is_of_log(order, number) {
        return log_words(alloc, number, place);
    }
    if is_machine_rule(number) {
        return machine_words(alloc, number, place);
    }
    if let Order::AsIs(files) = order {
        return row_words(alloc, files, inputs, number, place);
    }
    match file_of(order, number) {
        Some(name) => {
            let text = &inputs.other;
            let mut words = record_words(alloc, Source { name, text }, number, place)?;
            words.extend_from_slice(form_words(number, text).as_bytes())?;
            Ok(words)
        }
        None => rule_words(alloc, number),
    }
}

/// The EDS file of a name, as it was read.
fn eds_file<'a>(inputs: &'a Inputs, name: &[u8]) -> Option<(&'a str, &'a [u8])> {
    for (known, text) in inputs.network.eds_files.iter() {
        if known.as_bytes() == name {
            return Some((known.as_str(), text.as_slice()));
        }
    }
    None
}

/// The record of the device that wants a file as its EDS file.
fn wanted_by(
    alloc: Global,
    files: NetworkFiles<'_>,
    inputs: &Inputs,
    name: &str,
) -> Result<Option<u64>, AllocError> {
    let Ok(nodes) = read_nodes(alloc, &inputs.network.nodes) else {
        return Ok(None);
    };
    for device in nodes.devices() {
        if let Ok(eds) = str::from_utf8(device.eds.as_bytes()) {
            if beside(alloc, files.nodes, eds)?.as_str() == name {
                return Ok(Some(device.place));
            }
        }
    }
    Ok(None)
}

/// Which device wants a file as its EDS file; nothing where none does.
pub fn words_on_file(
    alloc: Global,
    order: Order<'_>,
    inputs: &Inputs,
    name: &str,
) -> Result<String, AllocError> {
    let Some(files) = network_of(order) else {
        return Ok(String::new(alloc));
    };
    let nodes = files.nodes;
    match wanted_by(alloc, files, inputs, name)? {
        Some(record) => { format!(in alloc; "it is the EDS file of record {record} of {nodes}\n") }
        None => Ok(String::new(alloc)),
    }
}

/// The EDS file of the device of a record, with its path.
pub(crate) fn eds_of_record<'a>(
    alloc: Global,
    files: NetworkFiles<'_>,
    inputs: &'a Inputs,
    record: u64,
) -> Result<Option<EdsText<'a>>, AllocError> {
    let Ok(nodes) = read_nodes(alloc, &inputs.network.nodes) else {
        return Ok(None);
    };
    for device in nodes
        .devices()
        .iter()
        .filter(|device| device.place == record)
    {
        if let Some((name, text)) = eds_file(inputs, device.eds.as_bytes()) {
            let path = beside(alloc, files.nodes, name)?;
            return Ok(Some(EdsText { path, text }));
        }
    }
    Ok(None)
}

/// What is said of a network that is refused.
pub fn words_on_network(
    alloc: Global,
    order: Order<'_>,
    inputs: &Inputs,
    refusal: &Refusal,
) -> Result<Vec<u8>, AllocError> {
    match network_of(order) {
        Some(files) => refused_network(alloc, files, inputs, refusal),
        None => rule_words(alloc, refusal.rule.number()),
    }
}

/// The EDS file by which a network is refused, where it is by one.
pub fn refused_eds<'a>(
    alloc: Global,
    order: Order<'_>,
    inputs: &'a Inputs,
    refusal: &Refusal,
) -> Result<Option<EdsText<'a>>, AllocError> {
    match (refusal.rule, network_of(order)) {
        (Rule::Eds(_), Some(files)) => eds_of_record(alloc, files, inputs, refusal.place),
        _ => Ok(None),
    }
}
