//! Texts in UTF-16.

ghost use Rattle.std.specs.Prelude.{◌≡◌, None, Some, IfOk, IfSome, IfNone};
ghost use Rattle.cop_bytes.specs.Bytes.{unit, units, decoded, is_marked, letters_of};

use std::alloc::{AllocError, Global};

/// A unit of two bytes.
fn unit(first: u8, second: u8, is_big: bool) -> u16
    ensures { result ≡ unit is_big first second }
{
    if is_big {
        u16::from_be_bytes([first, second])
    } else {
        u16::from_le_bytes([first, second])
    }
}

/// The units of two bytes each, and of a byte that is left over none.
fn units(alloc: Global, bytes: &[u8], is_big: bool) -> Result<Vec<u16>, AllocError>
    ensures { IfOk result (λ u. u.items ≡ units is_big bytes.now) }
{
    let mut units = Vec::new(alloc);
    let mut rest = bytes;
    while let [first, second, tail @ ..] = rest {
        units.push(unit(*first, *second, is_big))?;
        rest = tail;
    }
    Ok(units)
}

/// The letters of bytes in UTF-16 as UTF-8; nothing where a byte or a surrogate stands alone.
fn decoded(alloc: Global, bytes: &[u8], is_big: bool) -> Result<Option<Vec<u8>>, AllocError>
    ensures some { IfOk result (λ d. IfSome d (λ text. decoded is_big bytes.now ≡ Some text.items)) }
    ensures none { IfOk result (λ d. IfNone d (decoded is_big bytes.now ≡ None)) }
{
    if bytes.len() % 2 != 0 {
        return Ok(None);
    }
    let units = units(alloc, bytes, is_big)?;
    match String::from_utf16(alloc, &units)? {
        Ok(text) => Ok(Some(text.into_bytes())),
        Err(_) => Ok(None),
    }
}

/// Whether a mark of UTF-16 stands at the front.
pub fn is_marked(text: &[u8]) -> bool
    ensures { result ≡ is_marked text.now }
{
    matches!(text, [0xFF, 0xFE, ..] | [0xFE, 0xFF, ..])
}

/// The text in UTF-8, and as it is where no mark of UTF-16 stands at its front.
pub fn letters_of(alloc: Global, text: &[u8]) -> Result<Option<Vec<u8>>, AllocError>
    ensures some { IfOk result (λ d. IfSome d (λ letters. letters_of text.now ≡ Some letters.items)) }
    ensures none { IfOk result (λ d. IfNone d (letters_of text.now ≡ None)) }
{
    match text {
        [0xFF, 0xFE, rest @ ..] => decoded(alloc, rest, false),
        [0xFE, 0xFF, rest @ ..] => decoded(alloc, rest, true),
        _ => Ok(Some(Vec::from_slice(alloc, text)?)),
    }
}
