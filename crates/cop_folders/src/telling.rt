//! What changes between two plans, as lines and as a document.

use crate::comparing::{ComparedNode, NodeChange, PlanChange, ValueChange};
use cop_compare::{Change, IdentifierChange};
use cop_documents::{Object, text_of};
use cop_frame::Rate;
use serde_json::Value;
use std::alloc::{AllocError, Global};

/// A value that is perhaps not there.
fn or_none(value: &Option<String>) -> &str {
    match value {
        Some(value) => value,
        None => "none",
    }
}

/// A rate in kbit/s, if there is one.
fn rate_text(alloc: Global, rate: Option<Rate>) -> Result<String, AllocError> {
    match rate {
        Some(rate) => {
            let kbits = rate.kbits();
            format!(in alloc; "{kbits}")
        }
        None => String::from_str(alloc, "none"),
    }
}

/// An identifier in hexadecimal, if there is one.
fn identifier_text(alloc: Global, id: Option<u32>) -> Result<String, AllocError> {
    match id {
        Some(id) => format!(in alloc; "{id:03X}h"),
        None => String::from_str(alloc, "none"),
    }
}

fn push_identifiers(
    alloc: Global,
    text: &mut String,
    node: u8,
    identifiers: &[IdentifierChange],
) -> Result<(), AllocError> {
    for one in identifiers {
        let tpdo = one.tpdo;
        let old = identifier_text(alloc, one.old)?;
        let new = identifier_text(alloc, one.new)?;
        write!(text, "pdo {node}.{tpdo} id {old} -> {new}\n")?;
    }
    Ok(())
}

fn push_values(text: &mut String, values: &[ValueChange]) -> Result<(), AllocError> {
    for one in values {
        let (index, sub) = (one.index, one.sub);
        let (old, new) = (or_none(&one.old), or_none(&one.new));
        if one.change == Change::Description {
            write!(text, "  {index:04X}.{sub:02X} {new} described otherwise\n")?;
        } else {
            write!(text, "  {index:04X}.{sub:02X} {old} -> {new}\n")?;
        }
    }
    Ok(())
}

/// The lines of a node.
fn push_node(text: &mut String, one: &ComparedNode) -> Result<(), AllocError> {
    let node = one.node;
    match &one.change {
        NodeChange::Same => write!(text, "node {node}: same\n"),
        NodeChange::New => write!(text, "node {node}: new\n"),
        NodeChange::Gone => write!(text, "node {node}: gone\n"),
        NodeChange::Changed { values, .. } => {
            let count = values.len();
            write!(text, "node {node}: {count} values\n")?;
            push_values(text, values)
        }
    }
}

/// The rate if it changes, each TPDO whose identifier changes, and each node.
pub(crate) fn change_lines(alloc: Global, change: &PlanChange) -> Result<String, AllocError> {
    let mut text = String::new(alloc);
    if !change.has_one_rate() {
        let old = rate_text(alloc, change.old_rate)?;
        let new = rate_text(alloc, change.new_rate)?;
        write!(text, "rate {old} -> {new}\n")?;
    }
    for one in &change.nodes {
        push_identifiers(alloc, &mut text, one.node, identifiers_of(&one.change))?;
    }
    for one in &change.nodes {
        push_node(&mut text, one)?;
    }
    Ok(text)
}

/// A text that is perhaps not there.
fn text_if(alloc: Global, text: &Option<String>) -> Result<Value, AllocError> {
    match text {
        Some(text) => text_of(alloc, text),
        None => Ok(Value::Null),
    }
}

/// A rate in kbit/s, if there is one.
fn kbits_if(rate: Option<Rate>) -> Value {
    match rate {
        Some(rate) => Value::from(rate.kbits()),
        None => Value::Null,
    }
}

fn number_if(number: Option<u32>) -> Value {
    match number {
        Some(number) => Value::from(number),
        None => Value::Null,
    }
}

/// How an address differs, as a word.
fn word_of(change: Change) -> &'static str {
    match change {
        Change::Value => "value",
        Change::Description => "description",
        Change::Gone => "gone",
        Change::New => "new",
    }
}

fn value_document(alloc: Global, one: &ValueChange) -> Result<Value, AllocError> {
    Object::new(alloc)
        .plain("index", one.index)
        .plain("sub", one.sub)
        .text("change", word_of(one.change))
        .with("old", text_if(alloc, &one.old))
        .with("new", text_if(alloc, &one.new))
        .end()
}

fn values_document(alloc: Global, values: &[ValueChange]) -> Result<Value, AllocError> {
    let mut all = Vec::new(alloc);
    for one in values {
        all.push(value_document(alloc, one)?)?;
    }
    Ok(Value::Array(all))
}

fn identifiers_document(
    alloc: Global,
    identifiers: &[IdentifierChange],
) -> Result<Value, AllocError> {
    let mut all = Vec::new(alloc);
    for one in identifiers {
        let pdo = Object::new(alloc)
            .plain("tpdo", one.tpdo)
            .plain("old", number_if(one.old))
            .plain("new", number_if(one.new))
            .end()?;
        all.push(pdo)?;
    }
    Ok(Value::Array(all))
}

/// What becomes of a node, as a word.
fn state_of(change: &NodeChange) -> &'static str {
    match change {
        NodeChange::Same => "same",
        NodeChange::Changed { .. } => "changed",
        NodeChange::New => "new",
        NodeChange::Gone => "gone",
    }
}

/// The TPDOs of a node whose identifiers change.
fn identifiers_of(change: &NodeChange) -> &[IdentifierChange] {
    match change {
        NodeChange::Changed { identifiers, .. } => identifiers,
        _ => &[],
    }
}

/// The values of a node that change.
fn values_of(change: &NodeChange) -> &[ValueChange] {
    match change {
        NodeChange::Changed { values, .. } => values,
        _ => &[],
    }
}

fn node_document(alloc: Global, one: &ComparedNode) -> Result<Value, AllocError> {
    let identifiers = identifiers_of(&one.change);
    let values = values_of(&one.change);
    Object::new(alloc)
        .plain("node", one.node)
        .text("state", state_of(&one.change))
        .with("identifiers", identifiers_document(alloc, identifiers))
        .with("values", values_document(alloc, values))
        .end()
}

/// The same as a document.
pub(crate) fn change_document(alloc: Global, change: &PlanChange) -> Result<String, AllocError> {
    let mut nodes = Vec::new(alloc);
    for one in &change.nodes {
        nodes.push(node_document(alloc, one)?)?;
    }
    let document = Object::new(alloc)
        .text("command", "diff")
        .plain("same", change.is_none())
        .plain("old_rate", kbits_if(change.old_rate))
        .plain("new_rate", kbits_if(change.new_rate))
        .plain("nodes", Value::Array(nodes))
        .end()?;
    document.to_string(alloc)
}
