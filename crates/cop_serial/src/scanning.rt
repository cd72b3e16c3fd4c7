//! The nodes at a port are asked what their devices are.

ghost use Rattle.std.specs.Prelude.{◌≡◌, IfOk, IfErr, Some};
ghost use Rattle.cop_serial.specs.Boots.{FailsBy};
ghost use Rattle.cop_serial.specs.Scanning.{status_of, refused_as};

use crate::fitting::{fitting_if, read_descriptions};
use crate::naming::{ask_names, name_of};
use crate::serial::{MILLISECOND, Serial, limit_of, open_serial};
use crate::telling::{
    answer, failure_behind, line_failure, reason_refusal, say, tell_adapter, tell_heard,
};
use cop_documents::{FoundNode, scan_document};
use cop_files::{Failure, Form, Use, file_failure};
use cop_orders::ScanOrder;
use cop_scan::{Found, Scanned, scan};
use cop_transfer::EachRead;
use std::alloc::{AllocError, Global};

/// Adds a number that was told, of eight hexadecimal digits, behind its name.
fn push_told(text: &mut String, name: &str, told: Option<u32>) -> Result<(), AllocError> {
    match told {
        Some(number) => write!(text, " {name} {number:08X}"),
        None => write!(text, " {name} -"),
    }
}

/// Adds the name of a device.
fn push_name(text: &mut String, name: Option<&str>) -> Result<(), AllocError> {
    match name {
        Some(name) => write!(text, " name \"{name}\""),
        None => text.push_str(" name -"),
    }
}

/// Adds the names of the EDS files that fit a device.
fn push_names(text: &mut String, names: &[String]) -> Result<(), AllocError> {
    if names.is_empty() {
        return text.push_str(" eds -");
    }
    for name in names {
        write!(text, " eds {name}")?;
    }
    Ok(())
}

/// The line of a node that answered, with the EDS files that fit it, if they were looked for.
fn push_node(text: &mut String, node: &FoundNode) -> Result<(), AllocError> {
    let found = &node.found;
    let number = found.node;
    write!(text, "node {number}")?;
    push_told(text, "type", found.device_type)?;
    push_told(text, "vendor", found.vendor)?;
    push_told(text, "product", found.product)?;
    push_told(text, "revision", found.revision)?;
    push_name(text, node.name.as_ref().map(|name| name.as_str()))?;
    if let Some(names) = &node.eds {
        push_names(text, names)?;
    }
    text.push_str("\n")
}

/// The lines of the nodes that answered.
fn node_lines(alloc: Global, nodes: &[FoundNode]) -> Result<String, AllocError> {
    let mut text = String::new(alloc);
    for node in nodes {
        push_node(&mut text, node)?;
    }
    Ok(text)
}

/// The nodes that answered, with the names of their devices and the EDS files that fit them, if they are to be looked for.
fn nodes_of(
    rt: &HostRuntime,
    order: ScanOrder<'_>,
    found: &[Found],
    each: &EachRead,
) -> Result<Vec<FoundNode>, Failure> {
    let alloc = rt.alloc();
    let descriptions = match order.eds {
        Some(folder) => Some(read_descriptions(rt, folder)?),
        None => None,
    };
    let mut nodes = Vec::new(alloc);
    for one in found {
        nodes.push(FoundNode {
            found: *one,
            name: name_of(alloc, each, one.node)?,
            eds: fitting_if(alloc, descriptions.as_ref(), one)?,
        })?;
    }
    Ok(nodes)
}

/// Gives the answer in a form.
fn answer_in(
    rt: &HostRuntime,
    order: ScanOrder<'_>,
    form: Form,
    nodes: &[FoundNode],
) -> Result<(), Failure> {
    let alloc = rt.alloc();
    let text = if form == Form::Document {
        let document = scan_document(alloc, nodes)?;
        format!(in alloc; "{document}\n")?
    } else {
        node_lines(alloc, nodes)?
    };
    answer(rt, order.port, text.as_bytes())
}

/// Why the names were not read, if they were not.
fn unnamed(
    rt: &HostRuntime,
    order: ScanOrder<'_>,
    each: &EachRead,
    port: &Serial<'_>,
) -> Option<Failure> {
    match each {
        EachRead::Ended { .. } => None,
        EachRead::Left { reason } => Some(reason_refusal(rt, *reason, order.rate)),
        EachRead::Failed => Some(line_failure(rt, order.port, port)),
    }
}

/// Tells of the nodes that answered, also if their names were not read, which is a failure then.
fn tell_seen(
    rt: &HostRuntime,
    order: ScanOrder<'_>,
    form: Form,
    nodes: &[FoundNode],
    unnamed: Option<Failure>,
) -> Result<(), Failure> {
    let Some(failure) = unnamed else {
        return answer_in(rt, order, form, nodes);
    };
    let lines = node_lines(rt.alloc(), nodes)?;
    Err(failure_behind(rt, order.port, form, lines.as_bytes(), failure)?)
}

/// Tells what came of it, and gives its status: 3 if no node answered.
fn tell_scanned(
    rt: &HostRuntime,
    order: ScanOrder<'_>,
    form: Form,
    scanned: &Scanned,
    each: &EachRead,
    port: &Serial<'_>,
) -> Result<u8, Failure>
    ensures ends { IfOk result (λ status. status_of scanned.now ≡ Some status) }
    ensures fails { IfErr result (λ failure. FailsBy (refused_as scanned.now) failure.fault) }
{
    match scanned {
        Scanned::Seen { found } => {
            let nodes = nodes_of(rt, order, found, each)?;
            tell_seen(rt, order, form, &nodes, unnamed(rt, order, each, port))?;
            if found.is_empty() {
                say(rt, b"canplan: no node answered\n");
                return Ok(3);
            }
            Ok(0)
        }
        Scanned::Left { reason } => Err(reason_refusal(rt, *reason, order.rate)),
        Scanned::Failed => Err(line_failure(rt, order.port, port)),
    }
}

/// The nodes from 1 on.
fn nodes_up_to(alloc: Global, greatest: u8) -> Result<Vec<u8>, AllocError> {
    let mut nodes = Vec::new(alloc);
    for node in 1..128_u8 {
        if node <= greatest {
            nodes.push(node)?;
        }
    }
    Ok(nodes)
}

/// Asks the nodes at a port what their devices are, and leaves the port open to whoever asks more.
pub(crate) fn scan_port<'a>(
    rt: &'a HostRuntime,
    order: ScanOrder<'_>,
    form: Form,
) -> Result<(Scanned, Serial<'a>), Failure> {
    let nodes = nodes_up_to(rt.alloc(), order.up_to)?;
    let mut port = match open_serial(rt, order.port, limit_of(order.limit)) {
        Ok(port) => port,
        Err(error) => return Err(file_failure(rt, order.port, Use::Read, &error)),
    };
    if form == Form::Told {
        say(
            rt,
            b"canplan: listening for 2 s at most, then the nodes are asked, 1 s for each that is silent; nothing is written to them\n",
        );
    }
    let pause = order.gently.saturating_mul(MILLISECOND);
    let scanned = scan(rt.alloc(), order.rate, pause, &nodes, &mut port)?;
    Ok((scanned, port))
}

/// Closes a line that has ended, and tells what the adapter and the bus told beside the answers.
pub(crate) fn tell_port(rt: &HostRuntime, port: &mut Serial<'_>) {
    port.close_if_over();
    tell_adapter(rt, port);
    tell_heard(rt, port);
}

/// Asks the nodes at a port what their devices are, and those that answer for their names. Nothing is written to them.
#[inline(never)]
pub fn scan_bus(rt: &HostRuntime, order: ScanOrder<'_>, form: Form) -> Result<u8, Failure> {
    let (scanned, mut port) = scan_port(rt, order, form)?;
    let each = ask_names(rt, order, &scanned, &mut port)?;
    tell_port(rt, &mut port);
    tell_scanned(rt, order, form, &scanned, &each, &port)
}
