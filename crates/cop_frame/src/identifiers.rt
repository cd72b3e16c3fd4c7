//! The identifiers of frames by the pre-defined connection set (CiA 301, 7.3.5).

/// NMT commands.
pub const NMT: u16 = 0x000;

/// SYNC.
pub const SYNC: u16 = 0x080;

/// Emergencies of a node, whose number is added.
pub const EMCY: u16 = 0x080;

/// What the SDO server of a node sends; the node's number is added.
pub const SDO_RESPONSE: u16 = 0x580;

/// What the SDO server of a node receives; the node's number is added.
pub const SDO_REQUEST: u16 = 0x600;

/// Boot-up and heartbeats of a node, whose number is added.
pub const HEARTBEAT: u16 = 0x700;
