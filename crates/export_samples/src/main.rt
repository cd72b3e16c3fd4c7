//! Exports the plans of sample networks, whose names and objects are rare: each CAN database and each concise form has to be what lies
//! beside the network's tables.
#![tactic(auto)]

ghost use Rattle.std.specs.Prelude.{length};
ghost use Rattle.cop_plan.specs.Plans.{IsPlan};

use cop_cdcf::concise;
use cop_dbc::dbc;
use cop_dcf::settings;
use cop_net::{Network, NodeTable, PdoTable, all_rates, network, read_nodes, read_pdos};
use cop_plan::{Choice, Outcome, Plan, plan};
use std::alloc::Global;
use std::{fs, io};

/// The files of a network: its tables, and the EDS files by their names.
#[derive(Drop)]
struct Files {
    nodes: Vec<u8>,
    pdos: Vec<u8>,
    eds_files: Vec<(String, Vec<u8>)>,
}

/// The EDS files that the samples name.
static EDS_FILES: [&str; 2] = ["rare.eds", "other.eds"];

/// Reads the files of a sample.
fn read_files(rt: &HostRuntime, name: &str) -> io::Result<Files> {
    let mut eds_files = Vec::new(rt.alloc());
    for eds in EDS_FILES {
        let text = fs::read(rt, format!(in rt.alloc(); "{name}/{eds}")?.as_str())?;
        eds_files.push((String::from_str(rt.alloc(), eds)?, text))?;
    }
    Ok(Files {
        nodes: fs::read(rt, format!(in rt.alloc(); "{name}/nodes.csv")?.as_str())?,
        pdos: fs::read(rt, format!(in rt.alloc(); "{name}/pdos.csv")?.as_str())?,
        eds_files,
    })
}

/// Compares a text with a file of the sample.
fn compare(rt: &HostRuntime, file: &str, text: &[u8]) -> io::Result<()> {
    let wanted = fs::read(rt, file)?;
    if text == wanted.as_slice() {
        println!(rt; "{file}: as it is to be")
    } else {
        println!(rt; "{file}: other bytes")
    }
}

/// The bytes of a text as digits of the base 16, 16 of them a line.
fn digits(alloc: Global, bytes: &[u8]) -> io::Result<String> {
    let mut text = String::new(alloc);
    for (place, byte) in bytes.iter().enumerate() {
        let end = if place % 16 == 15 { '\n' } else { ' ' };
        text.push_str(&format!(in alloc; "{byte:02x}{end}")?)?;
    }
    Ok(text)
}

/// Compares the concise form of each node's settings.
fn compare_concise(
    rt: &HostRuntime,
    name: &str,
    network: &Network<'_>,
    plan: &Plan,
) -> io::Result<()>
    requires { IsPlan network.now.equipment.rates network.now.set (length network.now.rows) plan.now }
{
    for row in network.devices() {
        let node = row.node;
        let settings = settings(rt.alloc(), plan, network, node)?;
        let text = digits(rt.alloc(), &concise(rt.alloc(), &settings)?)?;
        let file = format!(in rt.alloc(); "{name}/node-{node:03}.txt")?;
        compare(rt, &file, text.as_bytes())?;
    }
    Ok(())
}

/// Compares what a plan is exported as.
fn try_plan(
    rt: &HostRuntime,
    name: &str,
    network: &Network<'_>,
    plan: &Plan,
    files: &Files,
) -> io::Result<()>
    requires { IsPlan network.now.equipment.rates network.now.set (length network.now.rows) plan.now }
{
    let text = dbc(rt.alloc(), network, plan, &files.eds_files)?;
    let file = format!(in rt.alloc(); "{name}/plan.dbc")?;
    compare(rt, &file, &text)?;
    compare_concise(rt, name, network, plan)
}

/// Compares what the planner answers for a network.
fn try_network(
    rt: &HostRuntime,
    name: &str,
    network: &Network<'_>,
    files: &Files,
) -> io::Result<()> {
    match plan(rt.alloc(), network, Choice::Order)? {
        Outcome::Planned(plan) => try_plan(rt, name, network, &plan, files),
        Outcome::Refused(_) => println!(rt; "{name}: no rate passes"),
    }
}

/// Tries a sample whose tables are accepted.
fn try_tables(
    rt: &HostRuntime,
    name: &str,
    files: &Files,
    nodes: &NodeTable,
    pdos: &PdoTable,
) -> io::Result<()> {
    match network(rt.alloc(), &all_rates(), nodes, pdos, &files.eds_files) {
        Ok(network) => try_network(rt, name, &network, files),
        Err(_) => println!(rt; "{name}: the network is refused"),
    }
}

/// Tries a sample whose table of nodes is accepted.
fn try_nodes(rt: &HostRuntime, name: &str, files: &Files, nodes: &NodeTable) -> io::Result<()> {
    match read_pdos(rt.alloc(), &files.pdos) {
        Ok(pdos) => try_tables(rt, name, files, nodes, &pdos),
        Err(_) => println!(rt; "{name}: the table of PDOs is refused"),
    }
}

/// Tries a sample.
fn try_sample(rt: &HostRuntime, name: &str) -> io::Result<()> {
    let files = read_files(rt, name)?;
    match read_nodes(rt.alloc(), &files.nodes) {
        Ok(nodes) => try_nodes(rt, name, &files, &nodes),
        Err(_) => println!(rt; "{name}: the table of nodes is refused"),
    }
}

fn main(rt: HostRuntime) -> io::Result<()> {
    try_sample(&rt, "rare")
}
