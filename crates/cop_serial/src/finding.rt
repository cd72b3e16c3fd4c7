//! The nodes at a port are asked what their devices are, for those who look for the devices' files.

ghost use Rattle.std.specs.Prelude.{IfErr};
ghost use Rattle.cop_serial.specs.Boots.{FailsBy};
ghost use Rattle.cop_serial.specs.Scanning.{refused_as};

use crate::fitting::identity_of;
use crate::scanning::{scan_port, tell_port};
use crate::serial::Serial;
use crate::telling::{line_failure, reason_refusal, say};
use cop_files::{Failure, Form};
use cop_fitting::Node;
use cop_orders::ScanOrder;
use cop_scan::{Found, Scanned};
use std::alloc::{AllocError, Global};

/// The nodes that answered, with what their devices told.
fn nodes_of(alloc: Global, found: &[Found]) -> Result<Vec<Node>, AllocError> {
    let mut nodes = Vec::new(alloc);
    for one in found {
        nodes.push(Node {
            node: one.node,
            told: identity_of(one),
        })?;
    }
    Ok(nodes)
}

/// The nodes that answered; a failure where nothing was sent, or the line failed.
fn answered(
    rt: &HostRuntime,
    order: ScanOrder<'_>,
    scanned: &Scanned,
    port: &Serial<'_>,
) -> Result<Vec<Node>, Failure>
    ensures { IfErr result (λ failure. FailsBy (refused_as scanned.now) failure.fault) }
{
    match scanned {
        Scanned::Seen { found } => {
            if found.is_empty() {
                say(rt, b"canplan: no node answered\n");
            }
            Ok(nodes_of(rt.alloc(), found)?)
        }
        Scanned::Left { reason } => Err(reason_refusal(rt, *reason, order.rate)),
        Scanned::Failed => Err(line_failure(rt, order.port, port)),
    }
}

/// Asks the nodes at a port what their devices are, and gives those that answered, by rising node. Nothing is written to them.
#[inline(never)]
pub fn find_nodes(
    rt: &HostRuntime,
    order: ScanOrder<'_>,
    form: Form,
) -> Result<Vec<Node>, Failure> {
    let (scanned, mut port) = scan_port(rt, order, form)?;
    tell_port(rt, &mut port);
    answered(rt, order, &scanned, &port)
}
