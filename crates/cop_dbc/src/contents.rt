//! What a CAN database says of a plan: nodes, messages and signals by their names.

ghost use Rattle.std.specs.Prelude.{IfSome};
ghost use Rattle.cop_rows.specs.Pdos.{IsPdoRow};

use crate::fixed::{Fixed, fixed_of};
use crate::identifiers::Identifiers;
use crate::labels::{Labels, text_of};
use cop_net::{Network, PdoRow};
use cop_plan::Plan;
use cop_signals::{Kind, Message, Signal, messages, receivers, sent_signals};
use std::alloc::{AllocError, Global};

/// A device with its identifier, its name and the name of its EDS file.
#[derive(Drop)]
pub(crate) struct NamedNode {
    pub node: u8,
    pub name: String,
    pub label: String,
    pub eds: Vec<u8>,
}

/// A signal with its identifier, what it is called, and the nodes that take it.
#[derive(Drop)]
pub(crate) struct NamedSignal {
    pub name: String,
    pub label: String,
    pub start: u8,
    pub bits: u8,
    pub kind: Kind,
    pub receivers: Vec<u8>,
}

/// A message with its identifier, what it is called, and its signals.
#[derive(Drop)]
pub(crate) struct NamedMessage {
    pub name: String,
    pub label: String,
    pub message: Message,
    pub signals: Vec<NamedSignal>,
}

/// All that a database says.
#[derive(Drop)]
pub(crate) struct Contents {
    pub nodes: Vec<NamedNode>,
    pub messages: Vec<NamedMessage>,
}

/// The devices of a network by their names.
fn named_nodes(alloc: Global, network: &Network<'_>) -> Result<Vec<NamedNode>, AllocError> {
    let mut identifiers = Identifiers::new(alloc);
    let mut nodes = Vec::new(alloc);
    for row in network.devices() {
        let label = text_of(alloc, row.name.as_bytes())?;
        nodes.push(NamedNode {
            node: row.node,
            name: identifiers.give(alloc, &label)?,
            label,
            eds: Vec::from_slice(alloc, row.eds.as_bytes())?,
        })?;
    }
    Ok(nodes)
}

/// The device of a node.
pub(crate) fn node_of(nodes: &[NamedNode], node: u8) -> Option<&NamedNode> {
    nodes.iter().find(|named| named.node == node)
}

/// What an object of a device is called: by its EDS file, or else by its index and sub.
fn object_label(
    alloc: Global,
    labels: &Labels<'_>,
    device: Option<&NamedNode>,
    signal: Signal,
) -> Result<String, AllocError> {
    if let Some(device) = device {
        if let Some(label) = labels.label(&device.eds, signal.index, signal.sub) {
            return text_of(alloc, label);
        }
    }
    let (index, sub) = (signal.index, signal.sub);
    format!(in alloc; "Object {index:04X} {sub:02X}")
}

/// What is said of a signal: the object, and what it is called.
fn signal_words(alloc: Global, label: &str, signal: Signal) -> Result<String, AllocError> {
    let (index, sub) = (signal.index, signal.sub);
    format!(in alloc; "{index:04X}h sub {sub}: {label}")
}

/// The signals of the PDO of a row.
fn pdo_signals(
    alloc: Global,
    network: &Network<'_>,
    labels: &Labels<'_>,
    device: Option<&NamedNode>,
    row: &PdoRow,
) -> Result<Vec<NamedSignal>, AllocError>
    requires { IsPdoRow row.now }
{
    let mut identifiers = Identifiers::new(alloc);
    let mut named = Vec::new(alloc);
    for signal in &sent_signals(alloc, network, row)? {
        let label = object_label(alloc, labels, device, *signal)?;
        named.push(NamedSignal {
            name: identifiers.give(alloc, &label)?,
            label: signal_words(alloc, &label, *signal)?,
            start: signal.start,
            bits: signal.bits,
            kind: signal.kind,
            receivers: receivers(alloc, network, row, *signal)?,
        })?;
    }
    Ok(named)
}

/// What is said of a message: what it is of which device, and its period.
fn message_words(
    alloc: Global,
    frame: &str,
    device: Option<&NamedNode>,
    period: u64,
) -> Result<String, AllocError> {
    let micros = period / 4;
    match device {
        Some(device) => {
            let (label, node) = (device.label.as_str(), device.node);
            format!(in alloc; "{frame} of {label} (node {node}), every {micros} us")
        }
        None => format!(in alloc; "{frame}, every {micros} us"),
    }
}

/// The name of a message: its device's identifier before what it is.
fn message_name(
    alloc: Global,
    frame: &str,
    device: Option<&NamedNode>,
) -> Result<String, AllocError> {
    match device {
        Some(device) => {
            let name = device.name.as_str();
            format!(in alloc; "{frame}_{name}")
        }
        None => String::from_str(alloc, frame),
    }
}

/// The message of the PDO of a row.
fn pdo_message(
    alloc: Global,
    network: &Network<'_>,
    labels: &Labels<'_>,
    nodes: &[NamedNode],
    row: &PdoRow,
    message: Message,
) -> Result<NamedMessage, AllocError>
    requires { IsPdoRow row.now }
{
    let device = node_of(nodes, row.node);
    let tpdo = row.tpdo;
    let frame = format!(in alloc; "TPDO{tpdo}")?;
    Ok(NamedMessage {
        name: message_name(alloc, &frame, device)?,
        label: message_words(alloc, &frame, device, message.period)?,
        message,
        signals: pdo_signals(alloc, network, labels, device, row)?,
    })
}

/// Who takes the frame of a fixed identifier: what an SDO server is asked its node, what NMT says all.
fn fixed_receivers(alloc: Global, nodes: &[NamedNode], id: u16) -> Result<Vec<u8>, AllocError> {
    let mut receivers = Vec::new(alloc);
    for named in nodes {
        let is_asked = id / 128 == 12 && id % 128 == u16::from(named.node);
        if id == 0 || is_asked {
            receivers.push(named.node)?;
        }
    }
    Ok(receivers)
}

/// The signals of the frame of a fixed identifier.
fn fixed_signals(
    alloc: Global,
    nodes: &[NamedNode],
    id: u16,
    fixed: Fixed,
) -> Result<Vec<NamedSignal>, AllocError> {
    let mut named = Vec::new(alloc);
    for part in fixed.parts {
        named.push(NamedSignal {
            name: String::from_str(alloc, part.name)?,
            label: String::new(alloc),
            start: part.start,
            bits: part.bits,
            kind: Kind::Unsigned,
            receivers: fixed_receivers(alloc, nodes, id)?,
        })?;
    }
    Ok(named)
}

/// The message of a fixed identifier.
fn fixed_message(
    alloc: Global,
    nodes: &[NamedNode],
    message: Message,
) -> Result<NamedMessage, AllocError> {
    let fixed = fixed_of(message.id);
    let device = if fixed.is_shared {
        None
    } else {
        node_of(nodes, (message.id % 128) as u8)
    };
    Ok(NamedMessage {
        name: message_name(alloc, fixed.name, device)?,
        label: message_words(alloc, fixed.name, device, message.period)?,
        message,
        signals: fixed_signals(alloc, nodes, message.id, fixed)?,
    })
}

/// The message of a stream, which is a PDO's where it has a row.
fn named_message(
    alloc: Global,
    network: &Network<'_>,
    labels: &Labels<'_>,
    nodes: &[NamedNode],
    row: Option<&PdoRow>,
    message: Message,
) -> Result<NamedMessage, AllocError>
    requires { IfSome row (λ row. IsPdoRow row.now) }
{
    match row {
        Some(row) => pdo_message(alloc, network, labels, nodes, row, message),
        None => fixed_message(alloc, nodes, message),
    }
}

/// All that is said of a plan, where the EDS files have these labels.
pub(crate) fn contents_of(
    alloc: Global,
    network: &Network<'_>,
    plan: &Plan,
    labels: &Labels<'_>,
) -> Result<Contents, AllocError> {
    let nodes = named_nodes(alloc, network)?;
    let mut identifiers = Identifiers::new(alloc);
    let mut named = Vec::new(alloc);
    for (place, message) in messages(alloc, network, plan)?.iter().enumerate() {
        let row = network.rows().get(place);
        let mut one = named_message(alloc, network, labels, &nodes, row, *message)?;
        one.name = identifiers.give(alloc, &one.name)?;
        named.push(one)?;
    }
    Ok(Contents {
        nodes,
        messages: named,
    })
}
