//! A device, as a maker's text describes it for each node.

ghost use Rattle.std.specs.Prelude.{◌≡◌};

use cop_dict::{Access, DataType};
use cop_eds::Amount;
use cop_frame::Rate;
use std::marker::Model;

/// The bytes of a text. Contracts see them as a list.
#[derive(Debug, Drop)]
pub struct Bytes {
    bytes: Vec<u8>,
}

impl Model for Bytes {
    ghost use Rattle.std.specs.Prelude.{List, ℕ};

    ghost Value = { List ℕ };

    ghost view = { λ b. b.bytes.items };
}

impl Bytes {
    pub fn new(bytes: Vec<u8>) -> Bytes
        ensures { result ≡ bytes.items }
    {
        Bytes { bytes }
    }

    pub fn as_slice(&self) -> &[u8]
        ensures { result.now ≡ self.now }
    {
        &self.bytes
    }
}

/// The value of an object that a text describes.
#[derive(Debug, Drop)]
pub enum Value {
    /// It has none: all bytes are 0.
    Nothing,
    /// A number: a constant, or the sum of the node's number and a constant.
    Number(Amount),
    /// The bytes of a text, the same for each node.
    Text(Bytes),
}

/// An object that holds a value. Its limits and its value are functions of the node's number.
#[derive(Debug, Drop)]
pub struct DeviceObject {
    pub index: u64,
    pub sub: u64,
    pub data_type: DataType,
    pub access: Access,
    /// Whether PDOs may move the value.
    pub is_mappable: bool,
    pub low: Option<Amount>,
    pub high: Option<Amount>,
    pub value: Value,
}

/// A device: the rates that it supports, the indexes that its lists name, and its objects by rising index and sub.
#[derive(Debug, Drop)]
pub struct Device {
    pub rates: Vec<Rate>,
    pub listed: Vec<u64>,
    pub objects: Vec<DeviceObject>,
}

impl Model for Device {
    ghost use Rattle.cop_tidy_device.specs.Device.{Meaning};

    ghost Value = { Meaning };

    ghost view = { λ d. record {
      rates = d.rates.items;
      listed = d.listed.items;
      objects = d.objects.items;
    } };
}
