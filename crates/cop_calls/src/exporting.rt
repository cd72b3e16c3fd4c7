//! The plan of a network for other tools.

ghost use Rattle.std.specs.Prelude.{length};
ghost use Rattle.cop_plan.specs.Plans.{IsPlan};

use cop_answers::{ABSENT, BusPlan, Inputs, NamedFile, concise_files, sync_maker};
use cop_dbc::dbc;
use cop_engine::{Fault, PlannedNetwork, none_passes, plan_status};
use cop_files::{Failure, NodeFiles, print, read_network, remove_earlier, write_file};
use cop_net::{Network, NodeTable};
use cop_orders::{Format, NetworkFiles};
use cop_plan::{Outcome, Plan};

/// Where a plan is written, as what, and by which table of nodes.
#[derive(Clone, Copy)]
struct Target<'a> {
    nodes: &'a NodeTable,
    format: Format,
    out: &'a str,
}

/// Writes the CAN database of a plan.
fn write_dbc(
    rt: &HostRuntime,
    inputs: &Inputs,
    network: &Network<'_>,
    plan: &Plan,
    out: &str,
) -> Result<(), Failure> {
    let bus = BusPlan::of(rt.alloc(), plan)?;
    let text = dbc(rt.alloc(), network, bus.plan(), &inputs.network.eds_files)?;
    write_file(rt, out, &text)
}

/// Writes a file of a folder.
fn put(rt: &HostRuntime, folder: &str, name: &str, bytes: &[u8]) -> Result<(), Failure> {
    let path = format!(in rt.alloc(); "{folder}/{name}")?;
    write_file(rt, &path, bytes)
}

/// The node that is the manager: the one that is named, which has to have a device, or else the first that makes SYNC.
fn manager_of(
    rt: &HostRuntime,
    network: &Network<'_>,
    nodes: &NodeTable,
    named: Option<u8>,
) -> Result<Option<u8>, Failure> {
    let Some(node) = named else {
        return Ok(sync_maker(rt.alloc(), nodes, network)?);
    };
    if network.devices().iter().any(|row| row.node == node) {
        Ok(Some(node))
    } else {
        Err(Failure::from(Fault::Refused {
            number: ABSENT,
            place: u64::from(node),
        }))
    }
}

/// Writes the concise DCF of each device into a folder, and what a manager is told. Once a file cannot be written, no other is. Those
/// of nodes that the network has not, which are of an earlier plan, are removed.
fn write_cdcf(
    rt: &HostRuntime,
    network: &Network<'_>,
    plan: &Plan,
    manager: Option<u8>,
    folder: &str,
) -> Result<(), Failure>
    requires { IsPlan network.now.equipment.rates network.now.set (length network.now.rows) plan.now }
{
    let mut names = Vec::new(rt.alloc());
    for file in concise_files(rt.alloc(), network, plan, manager)? {
        let NamedFile { name, bytes } = file;
        put(rt, folder, &name, &bytes)?;
        names.push(name)?;
    }
    let written = NodeFiles {
        ending: ".cdcf",
        names: &names,
    };
    remove_earlier(rt, folder, written)
}

/// Writes a plan.
fn write_plan(
    rt: &HostRuntime,
    inputs: &Inputs,
    network: &Network<'_>,
    plan: &Plan,
    target: Target<'_>,
) -> Result<(), Failure>
    requires { IsPlan network.now.equipment.rates network.now.set (length network.now.rows) plan.now }
{
    match target.format {
        Format::Dbc => write_dbc(rt, inputs, network, plan, target.out),
        Format::Cdcf { manager } => {
            let manager = manager_of(rt, network, target.nodes, manager)?;
            write_cdcf(rt, network, plan, manager, target.out)
        }
    }
}

/// Writes the plan of a network, or says that there is none.
fn export_network(
    rt: &HostRuntime,
    inputs: &Inputs,
    planned: &PlannedNetwork<'_>,
    target: Target<'_>,
) -> Result<u8, Failure> {
    let (network, outcome) = planned.parts();
    match outcome {
        Outcome::Planned(plan) => write_plan(rt, inputs, network, plan, target)?,
        Outcome::Refused(_) => print(rt, &none_passes(rt.alloc())?)?,
    }
    Ok(plan_status(planned.is_planned()))
}

/// The plan of a network for other tools: a CAN database into a file, or concise DCFs into a folder. Where no rate passes,
/// that is said, and nothing is written.
#[inline(never)]
pub fn export(
    rt: &HostRuntime,
    format: Format,
    files: NetworkFiles<'_>,
    out: &str,
    inputs: &mut Inputs,
) -> Result<u8, Failure> {
    let tables = read_network(rt, &mut inputs.network, files)?;
    let planned = inputs.network.planned(rt.alloc(), &tables)?;
    let target = Target {
        nodes: &tables.nodes,
        format,
        out,
    };
    export_network(rt, inputs, &planned, target)
}
