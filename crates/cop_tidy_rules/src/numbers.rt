//! Numbers in the spelling of CiA 306.

use crate::text::{after_first, is_blank, joined, trim, upto};
use cop_dict::DataType;
use cop_eds::{Amount, amount_of, number_of};
use std::alloc::{AllocError, Global};

/// The digits of a number as they stand, behind a prefix, where these are the number.
fn kept(
    alloc: Global,
    prefix: &[u8],
    digits: &[u8],
    number: u64,
) -> Result<Option<Vec<u8>>, AllocError> {
    let kept = joined(alloc, prefix, digits)?;
    if number_of(&kept) == Ok(number) {
        Ok(Some(kept))
    } else {
        Ok(None)
    }
}

/// A text without a sign, blanks at its ends, a point and what follows it, and letters of programs.
fn without_ends(text: &[u8]) -> &[u8] {
    let text = trim(text);
    let unsigned = match text {
        [b'+' | b'-', rest @ ..] => rest,
        _ => text,
    };
    let mut rest = upto(unsigned, place_of_point(unsigned));
    for _ in 0..3u8 {
        match rest {
            [front @ .., b'u' | b'U' | b'l' | b'L'] => rest = front,
            _ => break,
        }
    }
    trim(rest)
}

fn place_of_point(text: &[u8]) -> usize {
    text.iter()
        .position(|byte| *byte == b'.')
        .unwrap_or(text.len())
}

/// The digits behind the mark of a hexadecimal number, or before it.
fn marked_digits(text: &[u8]) -> Option<&[u8]> {
    match text {
        [b'0', b'x' | b'X', digits @ ..] | [b'$', digits @ ..] => Some(digits),
        [b'1', b'6', b'#', digits @ ..] => Some(digits),
        [b'2' | b'8', b'#', ..] => Some(after_first(text, b'#')),
        [digits @ .., b'h' | b'H'] => Some(digits),
        _ => None,
    }
}

/// A hexadecimal number, in its own digits where it has them.
fn hexadecimal_text(alloc: Global, text: &[u8], number: u64) -> Result<Vec<u8>, AllocError> {
    let digits = marked_digits(without_ends(text)).unwrap_or(text);
    let dense: Vec<u8> = digits
        .iter()
        .copied()
        .filter(|byte| !is_blank(*byte) && *byte != b'_')
        .collect(alloc)?;
    match kept(alloc, b"0x", &dense, number)? {
        Some(text) => Ok(text),
        None => Ok(format!(in alloc; "0x{number:X}")?.into_bytes()),
    }
}

/// A decimal number, in its own digits where it has them.
fn decimal_text(alloc: Global, text: &[u8], number: u64) -> Result<Vec<u8>, AllocError> {
    match kept(alloc, b"", without_ends(text), number)? {
        Some(text) => Ok(text),
        None => Ok(format!(in alloc; "{number}")?.into_bytes()),
    }
}

/// The number that a text was read as.
pub fn number_text(alloc: Global, text: &[u8], number: u64) -> Result<Vec<u8>, AllocError> {
    if number_of(text) == Ok(number) {
        Vec::from_slice(alloc, text)
    } else if marked_digits(without_ends(text)).is_some() {
        hexadecimal_text(alloc, text, number)
    } else {
        decimal_text(alloc, text, number)
    }
}

/// A number with four hexadecimal digits.
pub fn type_text(alloc: Global, number: u64) -> Result<Vec<u8>, AllocError> {
    Ok(format!(in alloc; "0x{number:04X}")?.into_bytes())
}

/// The sum of the node's number and another one.
fn sum_text(alloc: Global, number: u64) -> Result<Vec<u8>, AllocError> {
    if number == 0 {
        Vec::from_slice(alloc, b"$NODEID")
    } else {
        Ok(format!(in alloc; "$NODEID+0x{number:X}")?.into_bytes())
    }
}

/// The amount that a text was read as.
pub fn amount_text(alloc: Global, text: &[u8], amount: Amount) -> Result<Vec<u8>, AllocError> {
    if amount_of(text) == Ok(amount) {
        return Vec::from_slice(alloc, text);
    }
    match amount {
        Amount::Decimal(number) => decimal_text(alloc, text, number),
        Amount::Negative(number) => Ok(format!(in alloc; "-{number}")?.into_bytes()),
        Amount::Hexadecimal(number) => hexadecimal_text(alloc, text, number),
        Amount::PlusNode(number) => sum_text(alloc, number),
    }
}

/// A pattern with all digits of its type.
fn pattern_text(alloc: Global, data_type: DataType, number: u64) -> Result<Vec<u8>, AllocError> {
    let text = match data_type {
        DataType::Boolean => format!(in alloc; "{number}")?,
        DataType::Integer8 | DataType::Unsigned8 => format!(in alloc; "0x{number:02X}")?,
        DataType::Integer16 | DataType::Unsigned16 => format!(in alloc; "0x{number:04X}")?,
        DataType::Integer32 | DataType::Unsigned32 => format!(in alloc; "0x{number:08X}")?,
        _ => format!(in alloc; "0x{number:016X}")?,
    };
    Ok(text.into_bytes())
}

/// The amount that a text's bytes are in a type which has not its number.
pub fn bytes_text(
    alloc: Global,
    data_type: DataType,
    amount: Amount,
) -> Result<Vec<u8>, AllocError> {
    match amount {
        Amount::Hexadecimal(number) => pattern_text(alloc, data_type, number),
        _ => amount_text(alloc, b"", amount),
    }
}
