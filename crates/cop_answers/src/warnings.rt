//! What is worth a look before one relies on a plan, of what was read.

use crate::texts::Texts;
use cop_documents::Warned;
use cop_engine::plan_status;
use cop_figures::{Figures, Tight, tightest};
use cop_net::{Network, NodeTable};
use cop_warn::warnings_of;
use cop_words::{Finding, finding_words, findings_of};
use std::alloc::{AllocError, Global};

/// The PDO that one error on the bus may make late, if the network counts no errors.
fn tight_of(network: &Network<'_>, figures: &Figures) -> Option<Tight> {
    match network.set().errors() {
        Some(_) => None,
        None => tightest(figures),
    }
}

/// All that is worth a look before one relies on the plan of a network, which has these numbers.
pub fn findings(
    alloc: Global,
    texts: &Texts,
    nodes: &NodeTable,
    network: &Network<'_>,
    figures: &Figures,
) -> Result<Vec<Finding>, AllocError> {
    let warnings = warnings_of(alloc, nodes, network)?;
    let tight = tight_of(network, figures);
    findings_of(
        alloc,
        &texts.eds_files,
        nodes,
        network,
        &warnings,
        tight.as_ref(),
    )
}

/// The same in words, a line each.
pub fn finding_lines(
    alloc: Global,
    texts: &Texts,
    nodes: &NodeTable,
    network: &Network<'_>,
    figures: &Figures,
) -> Result<Vec<u8>, AllocError> {
    let warnings = warnings_of(alloc, nodes, network)?;
    let tight = tight_of(network, figures);
    finding_words(
        alloc,
        &texts.eds_files,
        nodes,
        network,
        &warnings,
        tight.as_ref(),
    )
}

/// A finding as a document tells it.
fn warned(finding: &Finding) -> Warned<'_> {
    let (file, line) = match &finding.at {
        Some(at) => (Some(at.file.as_str()), Some(at.line as u64)),
        None => (None, None),
    };
    Warned {
        number: finding.number,
        node: finding.node,
        record: finding.record,
        file,
        line,
        words: finding.words.as_str(),
    }
}

/// Findings as a document tells them.
pub fn all_warned<'a>(
    alloc: Global,
    findings: &'a [Finding],
) -> Result<Vec<Warned<'a>>, AllocError> {
    let mut all = Vec::new(alloc);
    for finding in findings {
        all.push(warned(finding))?;
    }
    Ok(all)
}

/// The status after a plan: 4 where no rate passes; 3 if something is worth a look before one relies on the plan, and that is asked; else 0.
pub fn status_after(planned: bool, warned: bool) -> u8 {
    if planned && warned {
        return 3;
    }
    plan_status(planned)
}
