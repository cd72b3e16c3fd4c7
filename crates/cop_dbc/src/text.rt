//! The text of a CAN database, in the format DBC.

use crate::comments::Comment;
use crate::contents::{Contents, NamedMessage, NamedNode, NamedSignal, contents_of, node_of};
use crate::labels::Labels;
use cop_frame::Rate;
use cop_net::Network;
use cop_plan::Plan;
use cop_signals::Kind;
use std::alloc::{AllocError, Global};

/// Who sends or takes what no device of the database does.
const NOBODY: &str = "Vector__XXX";

/// The sections that a reader is told of.
const HEAD: &str =
    "VERSION \"\"\n\nNS_ :\n\tCM_\n\tBA_DEF_\n\tBA_\n\tVAL_\n\tBA_DEF_DEF_\n\tSIG_VALTYPE_\n\nBS_:\n\nBU_:";

/// The attributes of the bus and of its messages.
const ATTRIBUTES: &str =
    "BA_DEF_ \"Baudrate\" INT 0 1000000;\nBA_DEF_ BO_ \"GenMsgCycleTime\" INT 0 60000;\nBA_DEF_DEF_ \"Baudrate\" 0;\nBA_DEF_DEF_ \"GenMsgCycleTime\" 0;\n";

/// The states that a heartbeat tells, and the commands of NMT (CiA 301).
const STATES: &str = "0 \"Boot-up\" 4 \"Stopped\" 5 \"Operational\" 127 \"Pre-operational\"";

const COMMANDS: &str =
    "1 \"Start\" 2 \"Stop\" 128 \"Enter pre-operational\" 129 \"Reset node\" 130 \"Reset communication\"";

/// The identifier of a node.
fn name_of(nodes: &[NamedNode], node: Option<u8>) -> &str {
    let Some(node) = node else {
        return NOBODY;
    };
    match node_of(nodes, node) {
        Some(named) => &named.name,
        None => NOBODY,
    }
}

/// The number of the first so many bits.
fn all_set(bits: u8) -> u64 {
    if bits < 64 { (1 << bits) - 1 } else { u64::MAX }
}

/// Adds the least and the greatest value of a signal, 0 and 0 where the format leaves them open.
fn push_range(text: &mut String, signal: &NamedSignal) -> Result<(), AllocError> {
    match signal.kind {
        Kind::Unsigned => {
            let most = all_set(signal.bits);
            write!(text, "[0|{most}]")
        }
        Kind::Signed => {
            let most = all_set(signal.bits.saturating_sub(1));
            let least = u128::from(most) + 1;
            write!(text, "[-{least}|{most}]")
        }
        Kind::Real => text.push_str("[0|0]"),
    }
}

/// Whether a node stands among the first so many.
fn stands_before(nodes: &[u8], place: usize, node: u8) -> bool {
    nodes.iter().take(place).any(|other| *other == node)
}

/// Adds the nodes that take a signal, each once.
fn push_receivers(
    text: &mut String,
    nodes: &[NamedNode],
    receivers: &[u8],
) -> Result<(), AllocError> {
    if receivers.is_empty() {
        return text.push_str(NOBODY);
    }
    for (place, node) in receivers.iter().enumerate() {
        if stands_before(receivers, place, *node) {
            continue;
        }
        if place > 0 {
            text.push(',')?;
        }
        text.push_str(name_of(nodes, Some(*node)))?;
    }
    Ok(())
}

/// Adds a signal: its bits in the order of Intel, with a sign or none.
fn push_signal(
    text: &mut String,
    nodes: &[NamedNode],
    signal: &NamedSignal,
) -> Result<(), AllocError> {
    let (name, start, bits) = (signal.name.as_str(), signal.start, signal.bits);
    let sign = if matches!(signal.kind, Kind::Unsigned) {
        '+'
    } else {
        '-'
    };
    write!(text, " SG_ {name} : {start}|{bits}@1{sign} (1,0) ")?;
    push_range(text, signal)?;
    text.push_str(" \"\" ")?;
    push_receivers(text, nodes, &signal.receivers)?;
    text.push('\n')
}

/// Adds a message and its signals.
fn push_message(
    text: &mut String,
    nodes: &[NamedNode],
    named: &NamedMessage,
) -> Result<(), AllocError> {
    let (id, bytes) = (named.message.id, named.message.bytes);
    let name = named.name.as_str();
    let sender = name_of(nodes, named.message.sender);
    write!(text, "\nBO_ {id} {name}: {bytes} {sender}\n")?;
    for signal in &named.signals {
        push_signal(text, nodes, signal)?;
    }
    Ok(())
}

/// Adds what the signals of a message are called.
fn push_signal_comments(text: &mut String, named: &NamedMessage) -> Result<(), AllocError> {
    let id = named.message.id;
    for signal in &named.signals {
        if !signal.label.is_empty() {
            let (name, label) = (signal.name.as_str(), Comment(&signal.label));
            write!(text, "CM_ SG_ {id} {name} \"{label}\";\n")?;
        }
    }
    Ok(())
}

/// Adds what nodes, messages and signals are called.
fn push_comments(text: &mut String, contents: &Contents) -> Result<(), AllocError> {
    for named in &contents.nodes {
        let (name, label, node) = (named.name.as_str(), Comment(&named.label), named.node);
        write!(text, "CM_ BU_ {name} \"{label}, node {node}\";\n")?;
    }
    for named in &contents.messages {
        let (id, label) = (named.message.id, Comment(&named.label));
        write!(text, "CM_ BO_ {id} \"{label}\";\n")?;
        push_signal_comments(text, named)?;
    }
    Ok(())
}

/// The period of a message in whole milliseconds, which is 1 where it is less.
fn millis(period: u64) -> u64 {
    (period.saturating_add(2000) / 4000).max(1)
}

/// Adds the values of the attributes: the bit rate, and the periods.
fn push_attributes(text: &mut String, rate: Rate, contents: &Contents) -> Result<(), AllocError> {
    text.push_str(ATTRIBUTES)?;
    let kbits = rate.kbits();
    write!(text, "BA_ \"Baudrate\" {kbits}000;\n")?;
    for named in &contents.messages {
        let (id, millis) = (named.message.id, millis(named.message.period));
        write!(text, "BA_ \"GenMsgCycleTime\" BO_ {id} {millis};\n")?;
    }
    Ok(())
}

/// Adds which numbers of a fixed frame stand for what.
fn push_values(text: &mut String, contents: &Contents) -> Result<(), AllocError> {
    for named in &contents.messages {
        let id = named.message.id;
        if id == 0 {
            write!(text, "VAL_ {id} Command {COMMANDS} ;\n")?;
        } else if id / 128 == 14 {
            write!(text, "VAL_ {id} State {STATES} ;\n")?;
        }
    }
    Ok(())
}

/// Adds which signals of a message are real numbers: 1 of 32 bits, 2 of 64.
fn push_reals(text: &mut String, named: &NamedMessage) -> Result<(), AllocError> {
    let id = named.message.id;
    for signal in &named.signals {
        if matches!(signal.kind, Kind::Real) {
            let name = signal.name.as_str();
            let width = if signal.bits == 64 { 2 } else { 1 };
            write!(text, "SIG_VALTYPE_ {id} {name} : {width};\n")?;
        }
    }
    Ok(())
}

/// The text of what a database says at a rate.
fn text_of(alloc: Global, rate: Rate, contents: &Contents) -> Result<String, AllocError> {
    let mut text = String::from_str(alloc, HEAD)?;
    for named in &contents.nodes {
        text.push(' ')?;
        text.push_str(&named.name)?;
    }
    text.push('\n')?;
    for named in &contents.messages {
        push_message(&mut text, &contents.nodes, named)?;
    }
    text.push('\n')?;
    push_comments(&mut text, contents)?;
    push_attributes(&mut text, rate, contents)?;
    push_values(&mut text, contents)?;
    for named in &contents.messages {
        push_reals(&mut text, named)?;
    }
    Ok(text)
}

/// A text in ISO 8859-1, which readers of the format take where no other is agreed upon.
fn latin(alloc: Global, text: &str) -> Result<Vec<u8>, AllocError> {
    let mut bytes = Vec::with_capacity(alloc, text.len())?;
    for character in text.chars() {
        bytes.push(u8::try_from(character).unwrap_or(b'?'))?;
    }
    Ok(bytes)
}

/// The CAN database of a network's plan, in the format DBC: a message for each PDO and for each frame of a fixed identifier that
/// is sent, under its identifier; a signal for each mapped object, named as the EDS file of its device names it. `files` are the
/// EDS files by their names. `Err` is want of memory.
pub fn dbc(
    alloc: Global,
    network: &Network<'_>,
    plan: &Plan,
    files: &[(String, Vec<u8>)],
) -> Result<Vec<u8>, AllocError> {
    let labels = Labels::new(alloc, files)?;
    let contents = contents_of(alloc, network, plan, &labels)?;
    let text = text_of(alloc, plan.rate(), &contents)?;
    latin(alloc, &text)
}
