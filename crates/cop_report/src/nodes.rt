//! The section of a page on what each node is set to.

ghost use Rattle.std.specs.Prelude.{length};
ghost use Rattle.cop_plan.specs.Plans.{IsPlan};

use crate::units::{Escaped, Identifier, Value};
use cop_dcf::{Setting, settings};
use cop_net::{DeviceRow, Network};
use cop_plan::Plan;
use std::alloc::{AllocError, Global};
use std::str;

/// Whether a setting is that of a PDO's COB-ID.
fn is_cob_id(setting: &Setting) -> bool {
    setting.sub == 1 && matches!(setting.index, 0x1400..=0x15FF | 0x1800..=0x19FF)
}

/// Whether a COB-ID switches its PDO off: its bit 31 is set.
fn is_off(setting: &Setting) -> bool {
    setting.value >= 1 << 31
}

/// The kind and the number of the PDO with a communication record.
fn pdo_of(index: u16) -> (&'static str, u16) {
    if index >= 0x1800 {
        ("TPDO", index.saturating_sub(0x17FF))
    } else {
        ("RPDO", index.saturating_sub(0x13FF))
    }
}

/// Whether a record is switched on by some setting.
fn is_used(settings: &[Setting], index: u16) -> bool {
    settings.iter().any(|other| other.index == index && is_cob_id(other) && !is_off(other))
}

/// Adds the PDOs that get an identifier.
fn push_used(page: &mut String, settings: &[Setting]) -> Result<(), AllocError> {
    for setting in settings {
        if is_cob_id(setting) && !is_off(setting) {
            let (kind, number) = pdo_of(setting.index);
            let verb = if kind == "TPDO" { "sends" } else { "takes" };
            let id = Identifier((setting.value % 2048) as u16);
            write!(
                page,
                "<li>{kind} {number} {verb} <a href=\"#pdo-{id}\">{id}</a></li>\n"
            )?;
        }
    }
    Ok(())
}

/// Adds the PDOs that are switched off.
fn push_unused(page: &mut String, settings: &[Setting]) -> Result<(), AllocError> {
    let mut comma = "<li>switched off: ";
    for setting in settings {
        if is_cob_id(setting) && is_off(setting) && !is_used(settings, setting.index) {
            let (kind, number) = pdo_of(setting.index);
            write!(page, "{comma}{kind} {number}")?;
            comma = ", ";
        }
    }
    if comma == ", " {
        page.push_str("</li>\n")?;
    }
    Ok(())
}

/// Adds the values that the table of settings asks of a device.
fn push_asked(page: &mut String, asked: &[Setting]) -> Result<(), AllocError> {
    for setting in asked {
        let value = Value(*setting);
        let (index, sub) = (setting.index, setting.sub);
        write!(page, "<li>{index:04X}h sub {sub} is set to {value}</li>\n")?;
    }
    Ok(())
}

/// Adds the time of a heartbeat.
fn push_heartbeat(page: &mut String, time: u16) -> Result<(), AllocError> {
    if time == 0 {
        page.push_str("<li>no heartbeat</li>\n")
    } else {
        write!(page, "<li>heartbeat every {time} ms</li>\n")
    }
}

/// Adds what a device is set to.
fn push_device(
    page: &mut String,
    row: &DeviceRow,
    settings: &[Setting],
    network: &Network<'_>,
) -> Result<(), AllocError> {
    let name = Escaped(str::from_utf8(row.name.as_bytes()).unwrap_or("?"));
    let eds = Escaped(str::from_utf8(row.eds.as_bytes()).unwrap_or("?"));
    let node = row.node;
    write!(
        page,
        "<article id=\"node-{node}\">\n<h3>{name} <small>node {node}, {eds}</small></h3>\n<ul>\n"
    )?;
    push_used(page, settings)?;
    push_unused(page, settings)?;
    push_asked(page, network.settings(node))?;
    push_heartbeat(page, network.heartbeat(node))?;
    page.push_str("</ul>\n</article>\n")
}

/// What a plan sets in a node, in the order in which it is sent.
#[derive(Drop)]
pub(crate) struct NodeSettings {
    pub node: u8,
    pub settings: Vec<Setting>,
}

/// What a plan sets in each node of its network, in the order of the devices.
pub(crate) fn all_settings(
    alloc: Global,
    network: &Network<'_>,
    plan: &Plan,
) -> Result<Vec<NodeSettings>, AllocError>
    requires { IsPlan network.now.equipment.rates network.now.set (length network.now.rows) plan.now }
{
    let mut all = Vec::new(alloc);
    for row in network.devices() {
        let settings = settings(alloc, plan, network, row.node)?;
        all.push(NodeSettings {
            node: row.node,
            settings,
        })?;
    }
    Ok(all)
}

/// Adds what each node is set to.
pub(crate) fn push_nodes(
    page: &mut String,
    network: &Network<'_>,
    all: &[NodeSettings],
) -> Result<(), AllocError> {
    page.push_str(
        "<section id=\"nodes\">\n<h2>What each node is set to</h2>\n<div class=\"cards\">\n",
    )?;
    for (row, set) in network.devices().iter().zip(all) {
        push_device(page, row, &set.settings, network)?;
    }
    page.push_str("</div>\n</section>\n")
}
