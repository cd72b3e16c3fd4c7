//! The devices and PDOs of a network by their names.

use crate::units::Escaped;
use cop_net::{Consumer, Network, PdoRow};
use std::{fmt, str};

/// A device: its name and its node.
#[derive(Clone, Copy)]
pub(crate) struct Device<'a> {
    pub name: &'a str,
    pub node: u8,
}

impl fmt::Display for Device<'_> {
    fn fmt<W: fmt::Write>(&self, f: &mut fmt::Formatter<W>) -> fmt::Result {
        let name = Escaped(self.name);
        let node = self.node;
        write!(f, "{name} (node {node})")
    }
}

/// The device of a node.
pub(crate) fn device_of<'a>(network: &'a Network<'_>, node: u8) -> Device<'a> {
    for row in network.devices() {
        if row.node == node {
            return Device {
                name: str::from_utf8(row.name.as_bytes()).unwrap_or("?"),
                node,
            };
        }
    }
    Device { name: "?", node }
}

/// A PDO that a device sends or takes.
#[derive(Clone, Copy)]
pub(crate) struct Pdo<'a> {
    /// `TPDO` or `RPDO`.
    pub kind: &'a str,
    pub number: u16,
    pub device: Device<'a>,
}

impl fmt::Display for Pdo<'_> {
    fn fmt<W: fmt::Write>(&self, f: &mut fmt::Formatter<W>) -> fmt::Result {
        let (kind, number, device) = (self.kind, self.number, self.device);
        write!(f, "{kind} {number} of {device}")
    }
}

/// What a row sends.
pub(crate) fn sent_by<'a>(network: &'a Network<'_>, row: &PdoRow) -> Pdo<'a> {
    Pdo {
        kind: "TPDO",
        number: row.tpdo,
        device: device_of(network, row.node),
    }
}

/// What a consumer takes.
pub(crate) fn taken_by<'a>(network: &'a Network<'_>, consumer: Consumer) -> Pdo<'a> {
    Pdo {
        kind: "RPDO",
        number: consumer.rpdo,
        device: device_of(network, consumer.node),
    }
}
