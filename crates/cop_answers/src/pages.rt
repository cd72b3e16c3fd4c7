//! The page that shows the plan of a network, and what a trace and a log tell of it.

ghost use Rattle.cop_figures.specs.Figures.{AreFigures};

use crate::explaining::EdsText;
use crate::rooms::fastest_miss;
use crate::texts::{Inputs, beside};
use crate::warnings::finding_lines;
use cop_engine::{Fault, PlannedNetwork};
use cop_figures::{
    Breakdown, Figures, Timeline, Unsorted, breakdowns_of, figures_of, timeline_of, unsorted_of,
};
use cop_logbook::Logbook;
use cop_net::{Network, NodeTable};
use cop_orders::{NetworkFiles, Shown};
use cop_plan::{Outcome, Plan};
use cop_report::{Input, Report, page_of};
use sha2::{Digest, Sha256};
use std::alloc::{AllocError, Global};
use std::str;

/// The files that a page is made of.
#[derive(Clone, Copy)]
pub struct Sources<'a> {
    pub network: NetworkFiles<'a>,
    pub shown: Shown<'a>,
    pub inputs: &'a Inputs,
}

/// The EDS files, with the names by which they were opened.
fn opened<'a>(alloc: Global, sources: Sources<'a>) -> Result<Vec<EdsText<'a>>, AllocError> {
    let mut files = Vec::new(alloc);
    for (name, text) in &sources.inputs.network.eds_files {
        files.push(EdsText {
            path: beside(alloc, sources.network.nodes, name)?,
            text,
        })?;
    }
    Ok(files)
}

/// A file that was read.
fn input<'a>(name: &'a str, text: &[u8]) -> Input<'a> {
    Input {
        name,
        size: text.len(),
        digest: Sha256::digest(text),
    }
}

/// The files that were read.
fn inputs<'a>(
    alloc: Global,
    sources: Sources<'a>,
    eds_files: &'a [EdsText<'a>],
) -> Result<Vec<Input<'a>>, AllocError> {
    let mut inputs = Vec::new(alloc);
    let texts = &sources.inputs.network;
    inputs.push(input(sources.network.nodes, &texts.nodes))?;
    inputs.push(input(sources.network.pdos, &texts.pdos))?;
    if let Some(name) = sources.network.setup {
        inputs.push(input(name, &texts.settings))?;
    }
    if let Some(name) = sources.shown.trace {
        inputs.push(input(name, &sources.inputs.other))?;
    }
    for file in eds_files {
        inputs.push(input(&file.path, file.text))?;
    }
    Ok(inputs)
}

/// What the trace tells of the bus, by the plan on the bus alone. Where no rate passes it is not looked at.
pub fn timeline(
    alloc: Global,
    sources: Sources<'_>,
    plan: Option<&Plan>,
) -> Result<Option<Timeline>, Fault> {
    let Some(plan) = plan else {
        return Ok(None);
    };
    if sources.shown.trace.is_none() {
        return Ok(None);
    }
    let timeline = timeline_of(alloc, plan, &sources.inputs.other)?;
    Ok(Some(timeline))
}

/// What the responses of the PDOs are made of, where a rate passes.
pub(crate) fn breakdowns(
    alloc: Global,
    network: &Network<'_>,
    outcome: &Outcome,
    figures: &Figures,
) -> Result<Vec<Breakdown>, AllocError>
    requires { AreFigures network.now outcome.now figures.now }
{
    let _ = network;
    match outcome {
        Outcome::Planned(plan) => breakdowns_of(alloc, plan, &figures.pdos),
        Outcome::Refused(_) => Ok(Vec::new(alloc)),
    }
}

/// What becomes of the PDOs if controllers do not sort, where a rate passes.
fn unsorted(
    alloc: Global,
    network: &Network<'_>,
    outcome: &Outcome,
) -> Result<Vec<Unsorted>, AllocError> {
    match outcome {
        Outcome::Planned(plan) => unsorted_of(alloc, network, plan),
        Outcome::Refused(_) => Ok(Vec::new(alloc)),
    }
}

/// The text of a page.
pub fn page_text(
    alloc: Global,
    sources: Sources<'_>,
    nodes: &NodeTable,
    planned: &PlannedNetwork<'_>,
    timeline: Option<&Timeline>,
    log: Option<&Logbook<'_>>,
) -> Result<String, AllocError> {
    let (network, outcome) = planned.parts();
    let figures = figures_of(alloc, network, outcome)?;
    let breakdowns = breakdowns(alloc, network, outcome, &figures)?;
    let unsorted = unsorted(alloc, network, outcome)?;
    let opened = opened(alloc, sources)?;
    let inputs = inputs(alloc, sources, &opened)?;
    let warnings = finding_lines(alloc, &sources.inputs.network, nodes, network, &figures)?;
    let misses = fastest_miss(alloc, network, outcome)?;
    let report = Report {
        title: sources.shown.title,
        date: sources.shown.date,
        network,
        outcome,
        figures: &figures,
        breakdowns: &breakdowns,
        unsorted: &unsorted,
        misses: &misses,
        timeline,
        log,
        are_rates_listed: sources.network.rates.are_listed(),
        inputs: &inputs,
        eds_files: &sources.inputs.network.eds_files,
        warnings: str::from_utf8(&warnings).unwrap_or(""),
    };
    page_of(alloc, report)
}
