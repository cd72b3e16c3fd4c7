//! Whether a dictionary is that of a device. Nothing here takes memory.

ghost use Rattle.std.specs.Prelude.{◌≡◌, ◌≤◌, ◌↔◌, IsTrue, map, replicate};
ghost use Rattle.std.specs.Int.{bytes_low_first};
ghost use Rattle.cop_dict.specs.Build.{zeros};
ghost use Rattle.cop_tidy_device.specs.Device.{pattern_for, bytes_for, limit_for, description_for, entry_for, dictionary_for};

use crate::device::{Device, DeviceObject, Value};
use cop_dict::{Access, DataType, Description, Dictionary, Object, pattern_of};
use cop_eds::Amount;
use cop_tidy_lines::number_of_pattern;

/// The pattern of an amount for a node, where its type has numbers, and this one.
fn pattern_for(data_type: DataType, node: u8, amount: Amount) -> Option<u64>
    ensures { result ≡ pattern_for data_type node amount }
{
    pattern_of(data_type, data_type.greatest()?, node, amount)
}

/// A limit for a node.
fn limit_for(data_type: DataType, node: u8, amount: Option<Amount>) -> Option<i128>
    ensures { result ≡ limit_for data_type node amount }
{
    let pattern = pattern_for(data_type, node, amount?)?;
    Some(number_of_pattern(data_type, pattern))
}

fn is_same_type(left: DataType, right: DataType) -> bool
    ensures { IsTrue result ↔ (left ≡ right) }
{
    left == right
}

fn is_same_access(left: Access, right: Access) -> bool
    ensures { IsTrue result ↔ (left ≡ right) }
{
    left == right
}

fn is_same_flag(left: bool, right: bool) -> bool
    ensures { IsTrue result ↔ (left ≡ right) }
{
    left == right
}

fn is_same_limit(left: Option<i128>, right: Option<i128>) -> bool
    ensures { IsTrue result ↔ (left ≡ right) }
{
    match (left, right) {
        (Some(left), Some(right)) => left == right,
        (None, None) => true,
        _ => false,
    }
}

fn are_same_bytes(left: &[u8], right: &[u8]) -> bool
    ensures { IsTrue result ↔ (left.now ≡ right.now) }
{
    left == right
}

/// Whether two descriptions have the same type, access and flag, and the same limits.
fn is_same_description(left: &Description, right: &Description) -> bool
    ensures { IsTrue result ↔ (left.now ≡ right.now) }
{
    is_same_type(left.data_type, right.data_type)
        && is_same_access(left.access, right.access)
        && is_same_flag(left.is_mappable, right.is_mappable)
        && is_same_limit(left.low, right.low)
        && is_same_limit(left.high, right.high)
}

/// The description of an object for a node.
fn description_for(object: &DeviceObject, node: u8) -> Description
    ensures { result ≡ description_for node object.now }
{
    Description {
        data_type: object.data_type,
        access: object.access,
        is_mappable: object.is_mappable,
        low: limit_for(object.data_type, node, object.low),
        high: limit_for(object.data_type, node, object.high),
    }
}

/// Whether bytes are those of a number, the least significant first.
fn are_of_number(bytes: &[u8], width: usize, number: u64) -> bool
    requires { width ≤ 8 }
    ensures { IsTrue result ↔ (bytes.now ≡ bytes_low_first 0 width number) }
{
    let all = number.to_le_bytes();
    are_same_bytes(bytes, &all[..width])
}

/// Whether bytes are so many zeros.
fn are_zeros(bytes: &[u8], width: usize) -> bool
    requires { width ≤ 8 }
    ensures { IsTrue result ↔ (bytes.now ≡ replicate width 0) }
{
    are_same_bytes(bytes, &[0; 8][..width])
}

/// Whether bytes are those of a value for a node.
fn are_of_value(bytes: &[u8], data_type: DataType, node: u8, value: &Value) -> bool
    ensures { IsTrue result ↔ (bytes.now ≡ bytes_for data_type node value.now) }
{
    let width = data_type.width().unwrap_or(0);
    match value {
        Value::Nothing => are_zeros(bytes, width),
        Value::Number(amount) => {
            let pattern = pattern_for(data_type, node, *amount).unwrap_or(0);
            are_of_number(bytes, width, pattern)
        }
        Value::Text(text) => are_same_bytes(bytes, text.as_slice()),
    }
}

/// Whether an entry has the initial value of an object for a node, and that value.
fn has_value(entry: &Object, object: &DeviceObject, node: u8) -> bool
    ensures { IsTrue result ↔ ((entry.now.initial ≡ bytes_for object.now.data_type node object.now.value)
        × (entry.now.value ≡ bytes_for object.now.data_type node object.now.value)) }
{
    are_of_value(entry.initial(), object.data_type, node, &object.value)
        && are_of_value(entry.value(), object.data_type, node, &object.value)
}

/// Whether an entry stands at the address of an object.
fn is_at(entry: &Object, object: &DeviceObject) -> bool
    ensures { IsTrue result ↔ ((entry.now.index ≡ object.now.index) × (entry.now.sub ≡ object.now.sub)) }
{
    u64::from(entry.index()) == object.index && u64::from(entry.sub()) == object.sub
}

/// Whether an entry is that of an object for a node.
fn is_entry_for(entry: &Object, object: &DeviceObject, node: u8) -> bool
    ensures { IsTrue result ↔ (entry.now ≡ entry_for node object.now) }
{
    is_at(entry, object)
        && is_same_description(&entry.description(), &description_for(object, node))
        && has_value(entry, object, node)
}

/// Whether entries are those of objects for a node, one by one.
fn are_entries_for(entries: &[Object], objects: &[DeviceObject], node: u8) -> bool
    ensures { IsTrue result ↔ (entries.now ≡ map (entry_for node) objects.now) }
{
    let mut rest = entries;
    let mut left = objects;
    while let (Some((entry, later)), Some((object, others))) = (
        rest.split_first(),
        left.split_first(),
    ) {
        if !is_entry_for(entry, object, node) {
            return false;
        }
        rest = later;
        left = others;
    }
    rest.is_empty() && left.is_empty()
}

/// Whether a dictionary is the one that a device has as a node: entry by entry the same index and sub, data type, access, mapping flag,
/// limits, initial value and value (CiA 306). It takes no memory.
#[tactic(auto, unfolding(crate::specs::Device::dictionary_for))]
pub fn is_dictionary_of(dict: &Dictionary, device: &Device, node: u8) -> bool
    ensures { IsTrue result ↔ (dict.now ≡ dictionary_for node device.now) }
{
    are_entries_for(dict.entries(), &device.objects, node)
}
