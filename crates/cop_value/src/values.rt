//! The bytes of a value that a text writes, and the number that bytes are.

ghost use Rattle.std.specs.Prelude.{◌≡◌, IfOk, option_map};
ghost use Rattle.cop_dict.specs.Number.{value_of};
ghost use Rattle.cop_value.specs.Values.{number_bytes, digit_bytes, bytes_of, number_in};

use cop_dict::{DataType, number, pattern_of};
use cop_eds::amount_of;
use hex::FromHexError;
use std::alloc::{AllocError, Global};

// The bytes of the number that a text writes, in a type with this greatest number.
fn number_bytes(
    alloc: Global,
    data_type: DataType,
    greatest: u64,
    node: u8,
    text: &[u8],
) -> Result<Option<Vec<u8>>, AllocError>
    ensures { IfOk result (λ bytes. option_map (λ v. v.items) bytes ≡ number_bytes data_type greatest node text.now) }
{
    let Ok(amount) = amount_of(text) else {
        return Ok(None);
    };
    let Some(pattern) = pattern_of(data_type, greatest, node, amount) else {
        return Ok(None);
    };
    let bytes = pattern.to_le_bytes();
    let width = data_type.width().unwrap_or(0);
    Ok(Some(Vec::from_slice(alloc, &bytes[..width])?))
}

// The bytes that hexadecimal digits write, two for each.
fn digit_bytes(alloc: Global, text: &[u8]) -> Result<Option<Vec<u8>>, AllocError>
    ensures { IfOk result (λ bytes. option_map (λ v. v.items) bytes ≡ digit_bytes text.now) }
{
    match hex::decode(alloc, text) {
        Ok(bytes) => Ok(Some(bytes)),
        Err(FromHexError::OutOfMemory) => Err(AllocError),
        Err(_) => Ok(None),
    }
}

/// The bytes of the value that a text writes in a type, as they go over the bus: of a type with numbers a number as EDS files write it
/// (CiA 306), in decimal digits, behind `0x` in hexadecimal ones, with a minus, or as a sum with `$NODEID`; of a VISIBLE_STRING the text itself; of all
/// others the bytes in hexadecimal digits. None if it writes no value of the type.
pub fn bytes_of(
    alloc: Global,
    data_type: DataType,
    node: u8,
    text: &[u8],
) -> Result<Option<Vec<u8>>, AllocError>
    ensures { IfOk result (λ bytes. option_map (λ v. v.items) bytes ≡ bytes_of data_type node text.now) }
{
    if let Some(greatest) = data_type.greatest() {
        return number_bytes(alloc, data_type, greatest, node, text);
    }
    match data_type {
        DataType::VisibleString => Ok(Some(Vec::from_slice(alloc, text)?)),
        _ => {
            let Some(bytes) = digit_bytes(alloc, text)? else {
                return Ok(None);
            };
            if data_type.width().is_some_and(|width| width != bytes.len()) {
                return Ok(None);
            }
            Ok(Some(bytes))
        }
    }
}

// The number that a pattern stands for in a type: from its half on less by twice as much.
fn value_of(data_type: DataType, pattern: u64) -> i128
    ensures { result ≡ value_of data_type pattern }
{
    match data_type.half() {
        Some(half) if pattern >= half => i128::from(pattern) - 2 * i128::from(half),
        _ => i128::from(pattern),
    }
}

/// The number that bytes are in a type, if it has numbers, and they are as many as each of its values has.
pub fn number_in(data_type: DataType, bytes: &[u8]) -> Option<i128>
    ensures { result ≡ number_in data_type bytes.now }
{
    if data_type.greatest().is_none() {
        return None;
    }
    let Some(width) = data_type.width() else {
        return None;
    };
    if bytes.len() != width {
        return None;
    }
    Some(value_of(data_type, number(bytes)))
}
