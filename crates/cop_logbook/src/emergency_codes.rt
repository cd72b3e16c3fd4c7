//! The codes of emergencies, in words.

/// Of what an emergency is, by its code (CiA 301, "Emergency object").
pub fn emergency_words(code: u16) -> &'static str {
    match code {
        0x8110 => "a CAN controller lost frames",
        0x8120 => "the CAN controller is error passive",
        0x8130 => "a heartbeat or a life guarding stayed away",
        0x8140 => "recovered from bus off",
        0x8150 => "another device sends an identifier of this one",
        0x8210 => "a PDO was too short, and not processed",
        0x8220 => "a PDO was too long",
        0x8240 => "SYNC has another length",
        0x8250 => "an RPDO stayed away",
        _ => kind_words(code),
    }
}

/// Of what kind it is, by the first byte of its code.
fn kind_words(code: u16) -> &'static str {
    match code >> 8 {
        0x00 => "the error is gone, or there is none",
        0x10 => "a generic error",
        0x20..=0x23 => "current",
        0x30..=0x33 => "voltage",
        0x40..=0x42 => "temperature",
        0x50 => "the device's hardware",
        0x60..=0x63 => "the device's software",
        0x70 => "additional modules",
        0x80 => "monitoring",
        0x81 => "communication",
        0x82 => "a protocol error",
        0x90 => "an external error",
        0xF0 => "additional functions",
        0xFF => "of the device's own kind",
        _ => "of a code that CiA 301 does not list",
    }
}

/// An error that a node told by EMCY: its code, and its error register (CiA 301, "Emergency object").
#[derive(Clone, Copy)]
pub struct Emergency {
    pub node: u8,
    pub code: u16,
    pub register: u8,
}

impl Emergency {
    /// Of what the error is, by its code.
    pub fn kind(self) -> &'static str {
        emergency_words(self.code)
    }
}
