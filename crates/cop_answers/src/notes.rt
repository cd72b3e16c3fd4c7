//! What is said of a plan in words, where words are wanted.

use crate::rooms::{fastest_miss, miss_words};
use crate::texts::Texts;
use crate::warnings::finding_lines;
use cop_engine::PlannedNetwork;
use cop_figures::{Figures, figures_of};
use cop_net::{Network, NodeTable};
use cop_plan::{Outcome, Plan};
use cop_words::{margin_words, others_words, refused_words};
use std::alloc::{AllocError, Global};

/// What is said of a plan.
pub struct Notes {
    /// Why each rate is refused, and what limits a margin.
    pub reasons: Vec<u8>,
    /// What is worth a look before one relies on the plan.
    pub warnings: Vec<u8>,
}

/// One call on each way out is cheaper to prove than the fields one by one.
impl Drop for Notes {
    fn drop(self) {
        let Notes {
            reasons: _reasons,
            warnings: _warnings,
        } = self;
    }
}

impl Notes {
    /// All of it.
    pub fn into_words(self) -> Result<Vec<u8>, AllocError> {
        let Notes {
            mut reasons,
            warnings,
        } = self;
        reasons.extend_from_slice(&warnings)?;
        Ok(reasons)
    }
}

/// What limits the margin of a plan, and what the others have, where its identifiers were chosen by it.
fn limits(
    alloc: Global,
    network: &Network<'_>,
    outcome: &Outcome,
    figures: &Figures,
) -> Result<Vec<u8>, AllocError> {
    match outcome {
        Outcome::Planned(plan) => margins_of(alloc, network, figures, plan),
        Outcome::Refused(_) => Ok(Vec::new(alloc)),
    }
}

/// The same of a plan.
fn margins_of(
    alloc: Global,
    network: &Network<'_>,
    figures: &Figures,
    plan: &Plan,
) -> Result<Vec<u8>, AllocError> {
    let Some(margin) = plan.margin() else {
        return Ok(Vec::new(alloc));
    };
    let mut words = margin_words(alloc, network, figures, margin)?;
    if let Some(others) = plan.others() {
        words.extend_from_slice(others_words(alloc, others)?.as_bytes())?;
    }
    Ok(words)
}

/// What is said of a plan: why each rate is refused, what the fastest misses a plan by if none passes, what limits its margin, and what is worth a look before one relies on it.
pub fn plan_notes(
    alloc: Global,
    texts: &Texts,
    nodes: &NodeTable,
    planned: &PlannedNetwork<'_>,
) -> Result<Notes, AllocError> {
    let (network, outcome) = planned.parts();
    let figures = figures_of(alloc, network, outcome)?;
    let mut reasons = refused_words(alloc, network, &figures.refused)?;
    reasons.extend_from_slice(&limits(alloc, network, outcome, &figures)?)?;
    let misses = fastest_miss(alloc, network, outcome)?;
    reasons.extend_from_slice(miss_words(alloc, network, &misses)?.as_bytes())?;
    let warnings = finding_lines(alloc, texts, nodes, network, &figures)?;
    Ok(Notes { reasons, warnings })
}
