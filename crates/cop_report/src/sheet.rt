//! The page that shows how a boot of a machine ended.

ghost use Rattle.std.specs.Prelude.{length};
ghost use Rattle.cop_plan.specs.Plans.{IsPlan};

use crate::style::STYLE;
use crate::title::{push_date, push_program};
use crate::units::{Escaped, Seconds, Value};
use cop_boot_answer::{BootAnswer, NodeLine};
use cop_dcf::{Setting, settings};
use cop_fitting::{Identity, stated};
use cop_logbook::Emergency;
use cop_net::{DeviceRow, Network};
use cop_plan::Plan;
use std::alloc::{AllocError, Global};
use std::str;

/// What a page shows of a boot.
#[derive(Clone, Copy)]
pub struct Sheet<'a, 'b> {
    pub network: &'a Network<'b>,
    pub plan: &'a Plan,
    pub answer: &'a BootAnswer,
    /// The first error that each node told meanwhile.
    pub emergencies: &'a [Emergency],
    /// Whether the devices were to be asked who they are before anything was written to them.
    pub identify: bool,
    /// The ticks of 250 ns from the opening of the port until the end, if they are known.
    pub took: Option<u64>,
    /// What the page is called and dated, if the call says so.
    pub title: Option<&'a str>,
    pub date: Option<&'a str>,
}

/// Adds where a node stands: its state, and what is behind it.
fn push_state(page: &mut String, line: NodeLine) -> Result<(), AllocError> {
    let word = line.state.word();
    page.push_str(word)?;
    if let Some(detail) = line.state.detail() {
        let (index, sub, value) = (detail.at.index, detail.at.sub, detail.value);
        write!(page, " {index:04X}h sub {sub}: {value:08X}h")?;
    }
    Ok(())
}

/// Adds where a node stands among some lines, and a dash if it is in none.
fn push_line_of(page: &mut String, lines: &[NodeLine], node: u8) -> Result<(), AllocError> {
    match lines.iter().find(|line| line.node == node) {
        Some(line) => push_state(page, *line),
        None => page.push_str("–"),
    }
}

/// Adds the errors that a node told.
fn push_errors(page: &mut String, emergencies: &[Emergency], node: u8) -> Result<(), AllocError> {
    for told in emergencies.iter().filter(|told| told.node == node) {
        let (code, register, kind) = (told.code, told.register, told.kind());
        write!(
            page,
            "{code:04X}h ({kind}), error register {register:02X}h "
        )?;
    }
    Ok(())
}

/// Adds a number of an identity behind its name, if it is stated.
fn push_stated(page: &mut String, name: &str, number: Option<u32>) -> Result<(), AllocError> {
    match number {
        Some(number) => write!(page, "{name}&nbsp;{number:08X}h "),
        None => Ok(()),
    }
}

/// Adds what the EDS file of a node states of its device.
fn push_identity(page: &mut String, network: &Network<'_>, node: u8) -> Result<(), AllocError> {
    let Some(dictionary) = network.dictionary(node) else {
        return Ok(());
    };
    let Identity {
        device_type,
        vendor,
        product,
        ..
    } = stated(dictionary);
    push_stated(page, "type", device_type)?;
    push_stated(page, "vendor", vendor)?;
    push_stated(page, "product", product)
}

/// Adds the row of a device.
fn push_row(page: &mut String, sheet: Sheet<'_, '_>, row: &DeviceRow) -> Result<(), AllocError> {
    let name = Escaped(str::from_utf8(row.name.as_bytes()).unwrap_or("?"));
    let eds = Escaped(str::from_utf8(row.eds.as_bytes()).unwrap_or("?"));
    let node = row.node;
    let answer = sheet.answer;
    write!(
        page,
        "<tr><td class=\"n\">{node}</td><td>{name}</td><td>{eds}</td><td>"
    )?;
    push_identity(page, sheet.network, node)?;
    page.push_str("</td><td>")?;
    push_line_of(page, &answer.nodes, node)?;
    page.push_str("</td><td>")?;
    push_line_of(page, &answer.heartbeats, node)?;
    page.push_str("</td><td>")?;
    push_errors(page, sheet.emergencies, node)?;
    page.push_str("</td></tr>\n")
}

/// What the identities of a page are, and whether devices were asked for theirs.
fn identities_said(identify: bool) -> &'static str {
    if identify {
        "<p>The identity is that of the EDS file. Before a device was set, it was asked for its own. A device that told another one has the state 'other', and then none was set.</p>\n"
    } else {
        "<p>The identity is that of the EDS file. No device was asked for its own.</p>\n"
    }
}

/// Adds the table of the devices.
fn push_devices(page: &mut String, sheet: Sheet<'_, '_>) -> Result<(), AllocError> {
    page.push_str("<section id=\"devices\">\n<h2>The devices</h2>\n")?;
    page.push_str(identities_said(sheet.identify))?;
    page.push_str(
        "<div class=\"scroll\"><table>\n\
<thead><tr><th>Node</th><th>Device</th><th>EDS file</th><th>Identity</th><th>State</th><th>Heartbeat</th><th>Errors (EMCY)</th></tr></thead>\n<tbody>\n",
    )?;
    for row in sheet.network.devices() {
        push_row(page, sheet, row)?;
    }
    page.push_str("</tbody></table></div>\n</section>\n")
}

/// Adds the settings of a node, in the order in which they are sent.
fn push_settings(
    page: &mut String,
    row: &DeviceRow,
    settings: &[Setting],
) -> Result<(), AllocError> {
    let name = Escaped(str::from_utf8(row.name.as_bytes()).unwrap_or("?"));
    let node = row.node;
    write!(
        page,
        "<article>\n<h3>{name} <small>node {node}</small></h3>\n<ul>\n"
    )?;
    for setting in settings {
        let value = Value(*setting);
        let (index, sub) = (setting.index, setting.sub);
        write!(page, "<li>{index:04X}h sub {sub}: {value}</li>\n")?;
    }
    page.push_str("</ul>\n</article>\n")
}

/// Adds what each node was to be set to.
fn push_all_settings(
    page: &mut String,
    alloc: Global,
    sheet: Sheet<'_, '_>,
) -> Result<(), AllocError>
    requires { IsPlan sheet.network.now.equipment.rates sheet.network.now.set (length sheet.network.now.rows) sheet.plan.now }
{
    page.push_str(
        "<section id=\"settings\">\n<h2>What the plan sets</h2>\n\
<p>A node that is ready confirmed each of these values, and told the last one at each address when it was read back. \
A PDO that is switched off keeps the other bits of the COB-ID that its device told.</p>\n<div class=\"cards\">\n",
    )?;
    for row in sheet.network.devices() {
        let settings = settings(alloc, sheet.plan, sheet.network, row.node)?;
        push_settings(page, row, &settings)?;
    }
    page.push_str("</div>\n</section>\n")
}

/// Whether the nodes were started, as a page says it.
fn started_said(started: Option<bool>) -> &'static str {
    match started {
        Some(true) => "<p>The nodes were <b class=\"good\">started</b>.</p>\n",
        Some(false) => "<p>The nodes were <b class=\"bad\">not started</b>.</p>\n",
        None => "<p>The nodes are <b class=\"bad\">not known to be started</b>.</p>\n",
    }
}

/// Adds the block of a page: rate, date, how long the boot took, and the program.
fn push_block(page: &mut String, sheet: Sheet<'_, '_>) -> Result<(), AllocError> {
    let kbits = sheet.plan.rate().kbits();
    write!(
        page,
        "<dl class=\"block\">\n<div><dt>Rate</dt><dd>{kbits} kbit/s</dd></div>\n"
    )?;
    push_date(page, sheet.date)?;
    if let Some(ticks) = sheet.took {
        let seconds = Seconds(ticks);
        write!(page, "<div><dt>Took</dt><dd>{seconds} s</dd></div>\n")?;
    }
    push_program(page)?;
    page.push_str("</dl>\n")
}

/// Adds the head of a page, and whether the nodes were started.
fn push_head(page: &mut String, sheet: Sheet<'_, '_>) -> Result<(), AllocError> {
    let title = Escaped(sheet.title.unwrap_or("CANopen boot"));
    write!(
        page,
        "<!DOCTYPE html>\n<html lang=\"en\">\n<head>\n<meta charset=\"utf-8\">\n\
<meta name=\"viewport\" content=\"width=device-width, initial-scale=1\">\n<title>{title}</title>\n<style>"
    )?;
    page.push_str(STYLE)?;
    write!(
        page,
        "</style>\n</head>\n<body>\n<main>\n<p class=\"soft\">CANopen boot</p>\n<h1>{title}</h1>\n"
    )?;
    push_block(page, sheet)?;
    let answer = sheet.answer;
    page.push_str(started_said(answer.started))
}

/// The lines that are filled in by hand.
const SIGNATURE: &str = "<p>Machine, date and name: ______________________</p>\n";

/// The page of a boot. `Err` is want of memory.
pub fn sheet_of(alloc: Global, sheet: Sheet<'_, '_>) -> Result<String, AllocError>
    requires { IsPlan sheet.network.now.equipment.rates sheet.network.now.set (length sheet.network.now.rows) sheet.plan.now }
{
    let mut page = String::new(alloc);
    push_head(&mut page, sheet)?;
    page.push_str(SIGNATURE)?;
    push_devices(&mut page, sheet)?;
    push_all_settings(&mut page, alloc, sheet)?;
    page.push_str("<footer>Made by canplan.</footer>\n</main>\n</body>\n</html>\n")?;
    Ok(page)
}
