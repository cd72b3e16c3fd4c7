//! Who sends an identifier.

use crate::devices::{Device, Pdo, device_of, sent_by};
use cop_net::Network;
use cop_plan::Plan;
use cop_rta::Stream;
use std::fmt;

/// Who sends an identifier, and what.
#[derive(Clone, Copy)]
pub(crate) enum Sender<'a> {
    Pdo(Pdo<'a>),
    /// A frame of a device, whose identifier is fixed: what it is to the device.
    Device { frame: &'a str, device: Device<'a> },
    /// A frame of the whole network, or disturbed transfers.
    Network(&'a str),
}

impl fmt::Display for Sender<'_> {
    fn fmt<W: fmt::Write>(&self, f: &mut fmt::Formatter<W>) -> fmt::Result {
        match self {
            Sender::Pdo(pdo) => write!(f, "{pdo}"),
            Sender::Device { frame, device } => write!(f, "{frame} {device}"),
            Sender::Network(frame) => f.write_str(frame),
        }
    }
}

/// Who sends a fixed identifier: its low seven bits are the node, those above tell the frame.
pub(crate) fn fixed_sender<'a>(network: &'a Network<'_>, id: u16) -> Sender<'a> {
    let node = (id % 128) as u8;
    let frame = match id / 128 {
        0 => return Sender::Network("NMT"),
        1 if node == 0 => return Sender::Network("SYNC"),
        1 => "EMCY of",
        11 => "SDO response of",
        12 => "SDO request to",
        14 => "heartbeat of",
        _ => "frame of",
    };
    Sender::Device {
        frame,
        device: device_of(network, node),
    }
}

/// The identifier on the bus of a stream of a network's set, by its identifier there. Where the network counts disturbed transfers, these have
/// 000h there and none on the bus, and NMT has 001h.
pub(crate) fn bus_id(network: &Network<'_>, id: u16) -> Option<u16> {
    if network.set().errors().is_none() {
        return Some(id);
    }
    match id {
        0 => None,
        1 => Some(0),
        id => Some(id),
    }
}

/// What a stream of a network's set is that is no PDO: a frame with a fixed identifier, or disturbed transfers.
pub(crate) fn sender_in_set<'a>(network: &'a Network<'_>, stream: &Stream) -> Sender<'a> {
    match bus_id(network, stream.id) {
        Some(id) => fixed_sender(network, id),
        None => Sender::Network("disturbed transfers"),
    }
}

/// Who sends an identifier of the bus under a plan. The PDOs are its first streams, and no fixed frame has an identifier of theirs.
pub(crate) fn sender_of<'a>(network: &'a Network<'_>, plan: &Plan, id: u16) -> Sender<'a> {
    if let Some(place) = plan.streams().place_of(id) {
        if let Some(row) = network.rows().get(place) {
            return Sender::Pdo(sent_by(network, row));
        }
    }
    fixed_sender(network, id)
}
