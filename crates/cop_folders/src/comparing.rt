//! What changes in the devices between two plans.

use crate::devices::described;
use crate::telling::{change_document, change_lines};
use cop_compare::{Change, Difference, IdentifierChange, differences, identifier_changes};
use cop_dict::{Dictionary, Object};
use cop_engine::rate_of;
use cop_files::{Failure, Form, eds_failure, print, print_document, read_file, tell};
use cop_frame::Rate;
use cop_orders::DiffOrder;
use std::alloc::{AllocError, Global};
use std::{fs, str};

/// An address at which a device is set to another value, or described otherwise: the values in hexadecimal, none where it has no object.
#[derive(Drop)]
pub(crate) struct ValueChange {
    pub index: u16,
    pub sub: u8,
    pub change: Change,
    pub old: Option<String>,
    pub new: Option<String>,
}

/// What becomes of a node.
#[derive(Drop)]
pub(crate) enum NodeChange {
    /// It stays as it is.
    Same,
    /// It has to be set again.
    Changed {
        identifiers: Vec<IdentifierChange>,
        values: Vec<ValueChange>,
    },
    /// The old plan has no such node.
    New,
    /// The new plan has no such node.
    Gone,
}

/// A node of one of two plans.
#[derive(Drop)]
pub(crate) struct ComparedNode {
    pub node: u8,
    pub change: NodeChange,
}

/// What changes between two plans. A plan that was refused has no rate.
#[derive(Drop)]
pub(crate) struct PlanChange {
    pub old_rate: Option<Rate>,
    pub new_rate: Option<Rate>,
    pub nodes: Vec<ComparedNode>,
}

impl PlanChange {
    /// Whether both plans have one rate.
    pub(crate) fn has_one_rate(&self) -> bool {
        match (self.old_rate, self.new_rate) {
            (Some(old), Some(new)) => old == new,
            (None, None) => true,
            _ => false,
        }
    }

    /// Whether nothing changes.
    pub(crate) fn is_none(&self) -> bool {
        self.has_one_rate()
            && self
                .nodes
                .iter()
                .all(|one| matches!(one.change, NodeChange::Same))
    }
}

/// The rate of the plan in a folder, if it has one: its text begins with it.
fn rate_in(rt: &HostRuntime, folder: &str) -> Result<Option<Rate>, Failure> {
    let path = format!(in rt.alloc(); "{folder}/plan.txt")?;
    let text = read_file(rt, &path)?;
    let line = text.split(|byte| *byte == b'\n').next().unwrap_or(&[]);
    match line.strip_prefix(b"rate ") {
        Some(rate) => Ok(rate_of(rate)),
        None => Ok(None),
    }
}

/// What the DCF file of a node describes, if the plan in a folder has one.
fn dictionary_in(rt: &HostRuntime, folder: &str, node: u8) -> Result<Option<Dictionary>, Failure> {
    let alloc = rt.alloc();
    let path = format!(in alloc; "{folder}/node-{node:03}.dcf")?;
    if let Ok(false) = fs::exists(rt, path.as_str()) {
        return Ok(None);
    }
    let text = read_file(rt, &path)?;
    match described(alloc, &text, node) {
        Ok(dictionary) => Ok(Some(dictionary)),
        Err(fault) => Err(eds_failure(alloc, &path, fault)),
    }
}

/// A value in hexadecimal: of a type of fixed width as a number, of another one byte by byte.
fn value_text(alloc: Global, object: &Object) -> Result<String, AllocError> {
    let mut text = String::new(alloc);
    if object.description().data_type.width().is_some() {
        for byte in object.value().iter().rev() {
            write!(text, "{byte:02X}")?;
        }
    } else {
        for byte in object.value() {
            write!(text, "{byte:02X}")?;
        }
    }
    Ok(text)
}

fn value_in(
    alloc: Global,
    dictionary: &Dictionary,
    one: Difference,
) -> Result<Option<String>, AllocError> {
    match dictionary.entry(one.index, one.sub) {
        Some(object) => Ok(Some(value_text(alloc, object)?)),
        None => Ok(None),
    }
}

/// The values at the addresses that differ.
fn values_of(
    alloc: Global,
    old: &Dictionary,
    new: &Dictionary,
    all: &[Difference],
) -> Result<Vec<ValueChange>, AllocError> {
    let mut values = Vec::new(alloc);
    for one in all {
        values.push(ValueChange {
            index: one.index,
            sub: one.sub,
            change: one.change,
            old: value_in(alloc, old, *one)?,
            new: value_in(alloc, new, *one)?,
        })?;
    }
    Ok(values)
}

/// What becomes of a node that both plans have.
fn changes_of(alloc: Global, old: &Dictionary, new: &Dictionary) -> Result<NodeChange, AllocError> {
    let all = differences(alloc, old, new)?;
    if all.is_empty() {
        return Ok(NodeChange::Same);
    }
    Ok(NodeChange::Changed {
        identifiers: identifier_changes(alloc, old, new)?,
        values: values_of(alloc, old, new, &all)?,
    })
}

/// What becomes of a node, if one of the plans has it.
fn change_of(
    alloc: Global,
    old: Option<&Dictionary>,
    new: Option<&Dictionary>,
) -> Result<Option<NodeChange>, AllocError> {
    match (old, new) {
        (Some(old), Some(new)) => Ok(Some(changes_of(alloc, old, new)?)),
        (Some(_), None) => Ok(Some(NodeChange::Gone)),
        (None, Some(_)) => Ok(Some(NodeChange::New)),
        (None, None) => Ok(None),
    }
}

/// What changes between the plans of two folders.
fn compared(rt: &HostRuntime, order: DiffOrder<'_>) -> Result<PlanChange, Failure> {
    let alloc = rt.alloc();
    let old_rate = rate_in(rt, order.old)?;
    let new_rate = rate_in(rt, order.new)?;
    let mut nodes = Vec::new(alloc);
    for node in 1..128_u8 {
        let old = dictionary_in(rt, order.old, node)?;
        let new = dictionary_in(rt, order.new, node)?;
        if let Some(change) = change_of(alloc, old.as_ref(), new.as_ref())? {
            nodes.push(ComparedNode { node, change })?;
        }
    }
    Ok(PlanChange {
        old_rate,
        new_rate,
        nodes,
    })
}

/// What is said beside the lines: another rate has to be set in each device before all else.
fn said(alloc: Global, change: &PlanChange) -> Result<Vec<u8>, AllocError> {
    if change.has_one_rate() {
        return Ok(Vec::new(alloc));
    }
    Vec::from_slice(
        alloc,
        b"each device needs the other bit rate before it can be set\n",
    )
}

/// Says which devices of a machine have to be set again for another plan, and to which values. The status is 3 if some have to.
#[inline(never)]
pub fn compare_plans(rt: &HostRuntime, order: DiffOrder<'_>, form: Form) -> Result<u8, Failure> {
    let alloc = rt.alloc();
    let change = compared(rt, order)?;
    if form == Form::Document {
        print_document(rt, &change_document(alloc, &change)?)?;
    } else {
        print(rt, change_lines(alloc, &change)?.as_bytes())?;
    }
    if form == Form::Told {
        tell(rt, said(alloc, &change));
    }
    Ok(if change.is_none() { 0 } else { 3 })
}
