//! A plan as a manager of the network takes it that configures the devices by itself (CiA 302-2): concise DCFs, and what it is told.

ghost use Rattle.std.specs.Prelude.{length};
ghost use Rattle.cop_plan.specs.Plans.{IsPlan};

use cop_cdcf::concise;
use cop_dcf::settings;
use cop_net::{DeviceRow, Network, NodeTable};
use cop_plan::Plan;
use cop_warn::{Warning, warnings_of};
use std::alloc::{AllocError, Global};
use std::str;

/// A file by its name, and its bytes.
#[derive(Drop)]
pub struct NamedFile {
    pub name: String,
    pub bytes: Vec<u8>,
}

/// The columns of what a manager is told.
const MASTER_COLUMNS: &str = "object,sub,value,words\n";

/// How long a manager waits (CiA 302-2, object 1F89h).
const BOOT_TIME: &str =
    "1F89h,0,0,the manager waits for slaves that have to be there as long as it takes; else so many milliseconds\n";

/// The name of the concise DCF of a node.
fn cdcf_name(alloc: Global, node: u8) -> Result<String, AllocError> {
    format!(in alloc; "node-{node:03}.cdcf")
}

/// Adds what a manager is told of a device: its concise DCF, and how it may be booted (CiA 302-2, objects 1F22h and 1F81h).
fn push_told(
    told: &mut String,
    row: &DeviceRow,
    file: &str,
    count: usize,
) -> Result<(), AllocError> {
    let node = row.node;
    let name = str::from_utf8(row.name.as_bytes()).unwrap_or("?");
    write!(
        told,
        "1F22h,{node},{file},the concise DCF of {name}: {count} settings\n"
    )?;
    write!(
        told,
        "1F81h,{node},0000000Dh,{name} is a slave (bit 0) that the manager configures and boots (bit 2) and that has to be there (bit 3)\n"
    )
}

/// Adds that a device is the manager, which is no slave of itself (CiA 302-2, object 1F80h).
fn push_manager(told: &mut String, row: &DeviceRow, file: &str) -> Result<(), AllocError> {
    let name = str::from_utf8(row.name.as_bytes()).unwrap_or("?");
    write!(
        told,
        "1F80h,0,00000001h,{name} (node {}) is the manager (bit 0) and no slave of itself; its own settings are those of {file}\n",
        row.node
    )
}

/// The concise DCF of a device; what a manager is told of it is added.
fn device_file(
    alloc: Global,
    network: &Network<'_>,
    plan: &Plan,
    row: &DeviceRow,
    manager: Option<u8>,
    told: &mut String,
) -> Result<NamedFile, AllocError>
    requires { IsPlan network.now.equipment.rates network.now.set (length network.now.rows) plan.now }
{
    let settings = settings(alloc, plan, network, row.node)?;
    let bytes = concise(alloc, &settings)?;
    let name = cdcf_name(alloc, row.node)?;
    if manager == Some(row.node) {
        push_manager(told, row, &name)?;
    } else {
        push_told(told, row, &name, settings.len())?;
    }
    Ok(NamedFile { name, bytes })
}

/// The first node whose device makes SYNC by its EDS file (bit 30 of 1005h).
pub fn sync_maker(
    alloc: Global,
    nodes: &NodeTable,
    network: &Network<'_>,
) -> Result<Option<u8>, AllocError> {
    for warning in &warnings_of(alloc, nodes, network)? {
        if let Warning::MakesSync { node } = warning {
            return Ok(Some(*node));
        }
    }
    Ok(None)
}

/// The concise DCF of each device in the order of their rows, and last what a manager is told, which is one of these nodes or none.
pub fn concise_files(
    alloc: Global,
    network: &Network<'_>,
    plan: &Plan,
    manager: Option<u8>,
) -> Result<Vec<NamedFile>, AllocError>
    requires { IsPlan network.now.equipment.rates network.now.set (length network.now.rows) plan.now }
{
    let mut told = String::from_str(alloc, MASTER_COLUMNS)?;
    let mut files = Vec::new(alloc);
    for row in network.devices() {
        files.push(device_file(alloc, network, plan, row, manager, &mut told)?)?;
    }
    told.push_str(BOOT_TIME)?;
    files.push(NamedFile {
        name: String::from_str(alloc, "master.csv")?,
        bytes: told.into_bytes(),
    })?;
    Ok(files)
}
