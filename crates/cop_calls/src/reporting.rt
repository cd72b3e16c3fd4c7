//! The page that shows the plan of a network, and what a trace and a log tell of it.

use crate::watching::watched;
use cop_answers::{BusPlan, Inputs, Sources, bus_plan_of, page_text, timeline};
use cop_engine::{PlannedNetwork, plan_status};
use cop_files::{Failure, read_eds_files, read_file, read_tables, write_file};
use cop_logbook::Logbook;
use cop_net::NodeTable;
use cop_orders::{NetworkFiles, Shown};
use cop_plan::{Outcome, Plan};

/// What a log shows. Where no rate passes it is not looked at.
fn log_book<'p>(
    rt: &HostRuntime,
    sources: Sources<'_>,
    outcome: &'p Outcome,
) -> Result<Option<Logbook<'p>>, Failure> {
    match (sources.shown.log, outcome) {
        (Some(order), Outcome::Planned(plan)) => Ok(Some(watched(rt, order, plan)?)),
        _ => Ok(None),
    }
}

/// The plan on the bus, if a rate passes.
fn plan_in<'p>(bus: Option<&'p BusPlan<'_>>) -> Option<&'p Plan> {
    match bus {
        Some(bus) => Some(bus.plan()),
        None => None,
    }
}

/// The page of a network and what the planner answers for it.
fn page(
    rt: &HostRuntime,
    sources: Sources<'_>,
    nodes: &NodeTable,
    planned: &PlannedNetwork<'_>,
) -> Result<String, Failure> {
    let (_network, outcome) = planned.parts();
    let bus = bus_plan_of(rt.alloc(), outcome)?;
    let plan = plan_in(bus.as_ref());
    let timeline = timeline(rt.alloc(), sources, plan)?;
    let book = log_book(rt, sources, outcome)?;
    Ok(page_text(
        rt.alloc(),
        sources,
        nodes,
        planned,
        timeline.as_ref(),
        book.as_ref(),
    )?)
}

/// The page that shows the plan of a network, the bus over time where there is a trace, and what a log shows where there is one: it is
/// written into a file.
#[inline(never)]
pub fn write_report(
    rt: &HostRuntime,
    network: NetworkFiles<'_>,
    shown: Shown<'_>,
    out: &str,
    inputs: &mut Inputs,
) -> Result<u8, Failure> {
    read_tables(rt, &mut inputs.network, network)?;
    if let Some(name) = shown.trace {
        inputs.other = read_file(rt, name)?;
    }
    let tables = read_eds_files(rt, &mut inputs.network, network)?;
    let planned = inputs.network.planned(rt.alloc(), &tables)?;
    let sources = Sources {
        network,
        shown,
        inputs,
    };
    let text = page(rt, sources, &tables.nodes, &planned)?;
    write_file(rt, out, text.as_bytes())?;
    Ok(plan_status(planned.is_planned()))
}
