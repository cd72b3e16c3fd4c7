//! The names that devices at a port tell of themselves.

ghost use Rattle.std.specs.Prelude.{IfOk};
ghost use Rattle.std.specs.List.{AllByRecursion};
ghost use Rattle.cop_transfer.specs.ReadingEach.{IsNode};

use crate::serial::{MILLISECOND, Serial};
use cop_orders::ScanOrder;
use cop_scan::{Found, Scanned};
use cop_transfer::{Address, EachRead, End, NodeValue, read_each};
use std::alloc::{AllocError, Global};

/// Where a device has its name (CiA 301, "Manufacturer device name").
const NAME: Address = Address {
    index: 0x1008,
    sub: 0,
};

/// So many characters of a name are shown.
const SHOWN: usize = 64;

/// The nodes that answered.
fn found_in(scanned: &Scanned) -> &[Found] {
    match scanned {
        Scanned::Seen { found } => found,
        Scanned::Left { .. } | Scanned::Failed => &[],
    }
}

/// The numbers of nodes: each node has one from 1 to 127.
fn numbers_of(alloc: Global, found: &[Found]) -> Result<Vec<u8>, AllocError>
    ensures { IfOk result (λ nodes. AllByRecursion IsNode nodes.items) }
{
    let mut nodes = Vec::new(alloc);
    for one in found {
        let node = one.node;
        if 1 <= node && node <= 127 {
            nodes.push(node)?;
        }
    }
    Ok(nodes)
}

/// Asks the nodes that answered a scan for the names of their devices. If none did, the port is left alone.
pub(crate) fn ask_names(
    rt: &HostRuntime,
    order: ScanOrder<'_>,
    scanned: &Scanned,
    port: &mut Serial<'_>,
) -> Result<EachRead, AllocError> {
    let alloc = rt.alloc();
    let nodes = numbers_of(alloc, found_in(scanned))?;
    if nodes.is_empty() {
        return Ok(EachRead::Ended {
            values: Vec::new(alloc),
        });
    }
    let pause = order.gently.saturating_mul(MILLISECOND);
    read_each(alloc, order.rate, pause, &nodes, NAME, port)
}

/// A character as it is shown: `?` stands for quotes, backslashes and what cannot be printed in ASCII.
fn shown(byte: u8) -> char {
    match byte {
        b'"' | b'\\' => '?',
        0x20..=0x7E => char::from(byte),
        _ => '?',
    }
}

/// A name as it is shown: its first characters.
fn shown_name(alloc: Global, bytes: &[u8]) -> Result<String, AllocError> {
    let mut name = String::new(alloc);
    for byte in bytes.iter().take(SHOWN) {
        name.push(shown(*byte))?;
    }
    Ok(name)
}

/// The name that a node told among others, if it told one.
fn name_among(alloc: Global, values: &[NodeValue], node: u8) -> Result<Option<String>, AllocError> {
    let told = values
        .iter()
        .find(|value| value.node == node && value.end == End::Done);
    match told {
        Some(value) => Ok(Some(shown_name(alloc, &value.bytes)?)),
        None => Ok(None),
    }
}

/// The name of the device of a node, if the names were read and it told one.
pub(crate) fn name_of(
    alloc: Global,
    each: &EachRead,
    node: u8,
) -> Result<Option<String>, AllocError> {
    match each {
        EachRead::Ended { values } => name_among(alloc, values, node),
        EachRead::Left { .. } | EachRead::Failed => Ok(None),
    }
}
