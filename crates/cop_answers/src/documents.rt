//! Answers and faults as documents in JSON.

ghost use Rattle.cop_figures.specs.Figures.{AreFigures};

use crate::pages::breakdowns;
use crate::rooms::fastest_miss;
use crate::spots::{Spot, spot_in_network, spot_of_refusal};
use crate::standing_rules::NO_IDENTIFIER;
use crate::texts::Inputs;
use crate::warnings::all_warned;
use cop_documents::{PlanNumbers, Told, fault_document, plan_document};
use cop_engine::{Fault, PlannedNetwork, message};
use cop_figures::{Breakdown, Figures};
use cop_net::{Network, Rule, Table};
use cop_orders::Order;
use cop_plan::Outcome;
use cop_rules::name_of;
use cop_words::Finding;
use std::alloc::{AllocError, Global};

/// What the responses of the PDOs are made of, if the network counts disturbed transfers; else none.
fn disturbed(
    alloc: Global,
    network: &Network<'_>,
    outcome: &Outcome,
    figures: &Figures,
) -> Result<Vec<Breakdown>, AllocError>
    requires { AreFigures network.now outcome.now figures.now }
{
    if network.set().errors().is_some() {
        breakdowns(alloc, network, outcome, figures)
    } else {
        Ok(Vec::new(alloc))
    }
}

/// The document of a plan, with its numbers and what is worth a look before one relies on it.
pub fn plan_text(
    alloc: Global,
    planned: &PlannedNetwork<'_>,
    figures: &Figures,
    findings: &[Finding],
) -> Result<String, AllocError>
    requires { AreFigures planned.now.net planned.now.outcome figures.now }
{
    let (network, outcome) = planned.parts();
    let disturbed = disturbed(alloc, network, outcome, figures)?;
    let warnings = all_warned(alloc, findings)?;
    let misses = fastest_miss(alloc, network, outcome)?;
    let numbers = PlanNumbers {
        figures,
        disturbed: &disturbed,
    };
    plan_document(alloc, network, outcome, numbers, &warnings, &misses)
}

/// The name of a table of a network.
fn name_of_table(table: Table) -> &'static str {
    match table {
        Table::Nodes => "nodes",
        Table::Pdos => "pdos",
        Table::Settings => "setup",
    }
}

/// The table that a rule of another input than a network is of, by its number.
fn table_name(number: u8) -> Option<&'static str> {
    match number {
        1..=6 => Some("streams"),
        30..=36 => Some("refusals"),
        60..=69 => Some("trace"),
        90..=96 => Some("log"),
        NO_IDENTIFIER => Some("pdos"),
        _ => None,
    }
}

/// The column whose value a rule refuses.
fn column_of(rule: Rule) -> Option<&'static str> {
    match rule {
        Rule::Record(cop_rows::Rule::Value(column)) => Some(name_of(column)),
        _ => None,
    }
}

/// What a document tells of a fault: which rule is broken, and where.
#[derive(Drop)]
struct Broken {
    number: Option<u8>,
    table: Option<&'static str>,
    record: Option<u64>,
    column: Option<&'static str>,
    spot: Spot,
}

/// Which rule a fault is of, and where it is broken.
fn broken_of(
    alloc: Global,
    order: Order<'_>,
    inputs: &Inputs,
    fault: &Fault,
) -> Result<Broken, AllocError> {
    match fault {
        Fault::Network(refusal) => Ok(Broken {
            number: Some(refusal.rule.number()),
            table: Some(name_of_table(refusal.table)),
            record: Some(refusal.place),
            column: column_of(refusal.rule),
            spot: spot_in_network(alloc, order, inputs, refusal)?,
        }),
        Fault::Refused { number, place } => Ok(Broken {
            number: Some(*number),
            table: table_name(*number),
            record: Some(*place),
            column: None,
            spot: spot_of_refusal(alloc, order, inputs, *number, *place)?,
        }),
        Fault::Simulation | Fault::File(_) | Fault::Usage | Fault::Memory => Ok(Broken {
            number: None,
            table: None,
            record: None,
            column: None,
            spot: Spot::nowhere(),
        }),
    }
}

/// The names in a document of a fault: of a table, of a column, and of a file.
#[derive(Clone, Copy)]
struct Names<'a> {
    table: Option<&'a str>,
    column: Option<&'a str>,
    file: Option<&'a str>,
}

/// The names in a document, as it is told.
fn names_of<'a>(
    table: Option<&'a str>,
    column: Option<&'a str>,
    file: Option<&'a str>,
) -> Names<'a> {
    Names {
        table,
        column,
        file,
    }
}

/// The document of a rule that is broken.
fn broken_document<'a>(
    alloc: Global,
    broken: &Broken,
    names: Names<'a>,
    line: &'a str,
    words: &'a str,
) -> Result<String, AllocError> {
    let Names {
        table,
        column,
        file,
    } = names;
    fault_document(
        alloc,
        Told {
            number: broken.number,
            table,
            record: broken.record,
            column,
            file,
            file_line: broken.spot.line,
            line,
            words,
        },
    )
}

/// The document of a fault, with the words on it.
pub fn fault_text(
    alloc: Global,
    order: Order<'_>,
    inputs: &Inputs,
    fault: &Fault,
    words: &str,
) -> Result<String, AllocError> {
    let line = message(alloc, fault)?;
    let broken = broken_of(alloc, order, inputs, fault)?;
    let file = match &broken.spot.file {
        Some(name) => Some(name.as_str()),
        None => None,
    };
    let names = names_of(broken.table, broken.column, file);
    broken_document(alloc, &broken, names, line.trim_end(), words)
}
