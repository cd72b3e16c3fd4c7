//! What is known of a device.

ghost use Rattle.std.specs.Prelude.{◌≡◌};
ghost use Rattle.cop_fitting.specs.Fitting.{stated_at, stated_of};

use cop_dict::Dictionary;

/// What a device on a bus told, or what an EDS file states of its device (CiA 301, "Device type", "Identity object"): none of what is
/// not told, or not stated.
#[derive(Clone, Copy, PartialEq, Eq, Debug)]
pub struct Identity {
    /// The type of the device, 1000h.
    pub device_type: Option<u32>,
    /// The vendor, 1018h sub 1.
    pub vendor: Option<u32>,
    /// The product, 1018h sub 2.
    pub product: Option<u32>,
    /// The revision, 1018h sub 3.
    pub revision: Option<u32>,
}

/// A node on a bus, and what its device told.
#[derive(Clone, Copy, PartialEq, Eq, Debug)]
pub struct Node {
    pub node: u8,
    pub told: Identity,
}

/// The number of an UNSIGNED32 at an address, if it is another one than 0.
fn stated_at(dict: &Dictionary, index: u16, sub: u8) -> Option<u32>
    ensures { result ≡ stated_at dict.now index sub }
{
    let Some(entry) = dict.entry(index, sub) else {
        return None;
    };
    match entry.unsigned32() {
        Some(number) if number != 0 => Some(number as u32),
        _ => None,
    }
}

/// What an EDS file states of its device, by what it describes: nothing of what it has as 0.
pub fn stated(dict: &Dictionary) -> Identity
    ensures { result ≡ stated_of dict.now }
{
    Identity {
        device_type: stated_at(dict, 0x1000, 0),
        vendor: stated_at(dict, 0x1018, 1),
        product: stated_at(dict, 0x1018, 2),
        revision: stated_at(dict, 0x1018, 3),
    }
}
