//! What is worth a look before one relies on a plan, with its numbers and places.

use crate::deadlines::short_finding;
use crate::devices::row_of;
use crate::hazards::push_texts;
use crate::margins::error_words;
use crate::warnings::{place_of, row_at, sentence_of, warning_words};
use cop_figures::Tight;
use cop_net::{Network, NodeTable};
use cop_warn::Warning;
use std::alloc::{AllocError, Global};

/// A line of an EDS file.
#[derive(Drop)]
pub struct EdsLine {
    /// The name of the file, as the table of nodes has it.
    pub file: String,
    /// From 1 on.
    pub line: usize,
}

/// Something under which a plan may be no plan of the machine.
#[derive(Drop)]
pub struct Finding {
    /// 80 to 89, and 110 on; some have none.
    pub number: Option<u8>,
    /// The node. Where several devices have one EDS text, that of the first.
    pub node: Option<u8>,
    /// The record of the PDO's row where it is of a PDO's row, else that of the device's row.
    pub record: Option<u64>,
    /// The line of the EDS text where it is found.
    pub at: Option<EdsLine>,
    /// One sentence.
    pub words: String,
}

impl Finding {
    /// What it is sorted by: those without a number come last.
    fn rank(&self) -> (u8, u64) {
        (self.number.unwrap_or(u8::MAX), self.record.unwrap_or(0))
    }
}

/// The node that a warning is about.
fn node_of(network: &Network<'_>, warning: Warning) -> Option<u8> {
    match warning {
        Warning::NoRow { node, .. } => Some(node),
        Warning::OtherIdentifier { node, .. } => Some(node),
        Warning::MakesSync { node } | Warning::MakesTime { node } => Some(node),
        Warning::SyncPeriod { node, .. } => Some(node),
        Warning::UsedAtOnce { node, .. } | Warning::TakesNothing { node, .. } => Some(node),
        Warning::BothMakeSync { second, .. } => Some(second),
        Warning::DeadlineWithinJitter { place }
        | Warning::EventTimer { place, .. }
        | Warning::InhibitTime { place, .. } => match row_at(network, place) {
            Some(row) => Some(row.node),
            None => None,
        },
    }
}

/// The record of the row that a warning is about.
fn record_of(nodes: &NodeTable, warning: Warning, node: Option<u8>) -> Option<u64> {
    if let Some(place) = place_of(warning) {
        return Some(place);
    }
    match row_of(nodes, node?) {
        Some(row) => Some(row.place),
        None => None,
    }
}

/// A warning as a finding.
fn finding_of(
    alloc: Global,
    nodes: &NodeTable,
    network: &Network<'_>,
    warning: Warning,
) -> Result<Finding, AllocError> {
    let node = node_of(network, warning);
    let said = sentence_of(alloc, network, warning)?;
    Ok(Finding {
        number: warning.number(),
        node,
        record: record_of(nodes, warning, node),
        at: None,
        words: String::from_str(alloc, said.trim_end())?,
    })
}

/// What EDS texts leave implicit, by rising number and record.
fn findings_of_texts(
    alloc: Global,
    eds_files: &[(String, Vec<u8>)],
    nodes: &NodeTable,
) -> Result<Vec<Finding>, AllocError> {
    let mut findings = Vec::new(alloc);
    push_texts(&mut findings, alloc, eds_files, nodes)?;
    findings.sort_by_key(|finding| finding.rank())?;
    Ok(findings)
}

/// What one error on the bus takes of a plan, as a finding.
fn error_finding(
    alloc: Global,
    network: &Network<'_>,
    tight: &Tight,
) -> Result<Finding, AllocError> {
    let said = error_words(alloc, network, tight)?;
    let node = match network.rows().get(tight.times.pdo) {
        Some(row) => Some(row.node),
        None => None,
    };
    Ok(Finding {
        number: Some(116),
        node,
        record: Some((tight.times.pdo as u64).saturating_add(1)),
        at: None,
        words: String::from_str(alloc, said.trim_end())?,
    })
}

/// All that is worth a look before one relies on a plan: what the EDS texts of a network leave implicit, its warnings, deadlines that are shorter
/// than the frames themselves, and the PDO that one error on the bus may make late, by rising number and record. `Err` is want of memory.
pub fn findings_of(
    alloc: Global,
    eds_files: &[(String, Vec<u8>)],
    nodes: &NodeTable,
    network: &Network<'_>,
    warnings: &[Warning],
    tight: Option<&Tight>,
) -> Result<Vec<Finding>, AllocError> {
    let mut findings = findings_of_texts(alloc, eds_files, nodes)?;
    for warning in warnings {
        findings.push(finding_of(alloc, nodes, network, *warning)?)?;
    }
    if let Some(short) = short_finding(alloc, network)? {
        findings.push(short)?;
    }
    if let Some(tight) = tight {
        findings.push(error_finding(alloc, network, tight)?)?;
    }
    findings.sort_by_key(|finding| finding.rank())?;
    Ok(findings)
}

/// Adds the line of a finding of an EDS text.
fn push_finding(words: &mut Vec<u8>, alloc: Global, finding: &Finding) -> Result<(), AllocError> {
    words.extend_from_slice(b"warning: ")?;
    if let Some(at) = &finding.at {
        let (file, line) = (at.file.as_str(), at.line);
        let place = format!(in alloc; "{file}, line {line}: ")?;
        words.extend_from_slice(place.as_bytes())?;
    }
    words.extend_from_slice(finding.words.as_bytes())?;
    words.push(b'\n')?;
    Ok(())
}

/// The lines of all that is worth a look before one relies on a plan: first of deadlines that no rate can keep, then of what EDS texts leave implicit, then of the warnings, with one
/// line for all nodes that lack a row of one kind, and of the PDO that one error on the bus may make late. `Err` is want of memory.
pub fn finding_words(
    alloc: Global,
    eds_files: &[(String, Vec<u8>)],
    nodes: &NodeTable,
    network: &Network<'_>,
    warnings: &[Warning],
    tight: Option<&Tight>,
) -> Result<Vec<u8>, AllocError> {
    let mut words = Vec::new(alloc);
    if let Some(short) = short_finding(alloc, network)? {
        push_finding(&mut words, alloc, &short)?;
    }
    for finding in findings_of_texts(alloc, eds_files, nodes)?.iter() {
        push_finding(&mut words, alloc, finding)?;
    }
    words.extend_from_slice(&warning_words(alloc, network, warnings)?)?;
    if let Some(tight) = tight {
        push_finding(&mut words, alloc, &error_finding(alloc, network, tight)?)?;
    }
    Ok(words)
}
