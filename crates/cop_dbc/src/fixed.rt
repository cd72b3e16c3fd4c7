//! What is in the frames of fixed identifiers (CiA 301, "Pre-defined connection set").

use cop_frame::identifiers;

/// A part of a frame.
#[derive(Clone, Copy)]
pub(crate) struct Part {
    pub name: &'static str,
    pub start: u8,
    pub bits: u8,
}

/// A frame: what it is, and its parts.
#[derive(Clone, Copy)]
pub(crate) struct Fixed {
    pub name: &'static str,
    pub parts: &'static [Part],
    /// Whether the frame is of the whole network, and not of one node.
    pub is_shared: bool,
}

static NMT: [Part; 2] = [
    Part {
        name: "Command",
        start: 0,
        bits: 8,
    },
    Part {
        name: "Node",
        start: 8,
        bits: 8,
    },
];

static EMCY: [Part; 3] = [
    Part {
        name: "Error_code",
        start: 0,
        bits: 16,
    },
    Part {
        name: "Error_register",
        start: 16,
        bits: 8,
    },
    Part {
        name: "Manufacturer",
        start: 24,
        bits: 40,
    },
];

static SDO: [Part; 4] = [
    Part {
        name: "Command",
        start: 0,
        bits: 8,
    },
    Part {
        name: "Index",
        start: 8,
        bits: 16,
    },
    Part {
        name: "Sub",
        start: 24,
        bits: 8,
    },
    Part {
        name: "Data",
        start: 32,
        bits: 32,
    },
];

static HEARTBEAT: [Part; 1] = [Part {
    name: "State",
    start: 0,
    bits: 8,
}];

static NONE: [Part; 0] = [];

/// What the frame of a fixed identifier is.
pub(crate) fn fixed_of(id: u16) -> Fixed {
    let node = id % 128;
    let (name, parts) = match id - node {
        identifiers::NMT => ("NMT", NMT.as_slice()),
        identifiers::SYNC if node == 0 => ("SYNC", NONE.as_slice()),
        identifiers::EMCY => ("EMCY", EMCY.as_slice()),
        identifiers::SDO_RESPONSE => ("SDO_response", SDO.as_slice()),
        identifiers::SDO_REQUEST => ("SDO_request", SDO.as_slice()),
        identifiers::HEARTBEAT => ("Heartbeat", HEARTBEAT.as_slice()),
        _ => ("Frame", NONE.as_slice()),
    };
    Fixed {
        name,
        parts,
        is_shared: node == 0,
    }
}
