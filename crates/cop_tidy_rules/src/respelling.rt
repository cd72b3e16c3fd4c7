//! Numbers and words of keys in the spelling of CiA 306.

use crate::keys::key_at;
use crate::names::access_text;
use crate::numbers::{number_text, type_text};
use crate::outline::Section;
use crate::row::Row;
use crate::text::{joined, same_name};
use cop_change::Cause;
use cop_eds::{ObjectType, number_in, number_of};
use cop_tidy_lines::{
    Digits, Key, SectionName, access_meant, bare_text, data_type_meant, is_no, is_yes,
    number_meant, object_type_meant,
};
use std::alloc::{AllocError, Global};

/// The number of an object type.
pub fn object_number(kind: ObjectType) -> u64 {
    match kind {
        ObjectType::Null => 0,
        ObjectType::Domain => 2,
        ObjectType::TypeDefinition => 5,
        ObjectType::StructDefinition => 6,
        ObjectType::Var => 7,
        ObjectType::Array => 8,
        ObjectType::Record => 9,
    }
}

/// A number; what is none stays.
fn number_spelled(
    alloc: Global,
    text: &[u8],
    digits: Option<Digits>,
) -> Result<Vec<u8>, AllocError> {
    match number_meant(alloc, digits, text)? {
        Ok(number) => number_text(alloc, text, number),
        Err(_) => Vec::from_slice(alloc, text),
    }
}

/// A number that nothing needs; what is none becomes empty.
fn unneeded_spelled(
    alloc: Global,
    text: &[u8],
    digits: Option<Digits>,
) -> Result<Vec<u8>, AllocError> {
    match number_meant(alloc, digits, text)? {
        Ok(number) => number_text(alloc, text, number),
        Err(_) => Ok(Vec::new(alloc)),
    }
}

/// A number, or a word of truth as a number; what is neither stays.
fn flag_spelled(alloc: Global, text: &[u8], digits: Option<Digits>) -> Result<Vec<u8>, AllocError> {
    if is_yes(text) {
        Vec::from_slice(alloc, b"1")
    } else if is_no(text) {
        Vec::from_slice(alloc, b"0")
    } else {
        number_spelled(alloc, text, digits)
    }
}

/// The number of an object type; what is none stays.
fn object_type_spelled(
    alloc: Global,
    text: &[u8],
    digits: Option<Digits>,
) -> Result<Vec<u8>, AllocError> {
    let Some(kind) = object_type_meant(alloc, digits, text)? else {
        return Vec::from_slice(alloc, text);
    };
    let number = object_number(kind);
    match number_meant(alloc, digits, text)? {
        Ok(read) if read == number => number_text(alloc, text, number),
        _ => Ok(format!(in alloc; "0x{number:X}")?.into_bytes()),
    }
}

/// Whether a text is the digits of a number that needs a mark.
fn lacks_mark(text: &[u8], number: u64) -> bool {
    number_of(text).is_err() && text.len() == 4 && number_in(16, text) == Some(number)
}

/// The number of a data type; what is none stays.
fn data_type_spelled(
    alloc: Global,
    text: &[u8],
    digits: Option<Digits>,
) -> Result<Vec<u8>, AllocError> {
    let Ok(number) = data_type_meant(alloc, digits, text)? else {
        return Vec::from_slice(alloc, text);
    };
    if lacks_mark(text, number) {
        return joined(alloc, b"0x", text);
    }
    match number_meant(alloc, digits, text)? {
        Ok(read) if read == number => number_text(alloc, text, number),
        _ => type_text(alloc, number),
    }
}

/// The word of an access; what is none stays.
fn access_spelled(alloc: Global, text: &[u8]) -> Result<Vec<u8>, AllocError> {
    match access_meant(alloc, text)? {
        Some(access) if !same_name(text, access_text(access)) => {
            Vec::from_slice(alloc, access_text(access))
        }
        _ => Vec::from_slice(alloc, text),
    }
}

/// How many subs a compact form has; nothing in the section of a sub, which has none.
fn compact_spelled(
    alloc: Global,
    text: &[u8],
    is_sub: bool,
    digits: Option<Digits>,
) -> Result<Vec<u8>, AllocError> {
    match number_meant(alloc, digits, text)? {
        Ok(number) if is_sub && number != 0 => Ok(Vec::new(alloc)),
        Err(_) if is_sub => Ok(Vec::new(alloc)),
        _ => number_spelled(alloc, text, digits),
    }
}

/// The value of a key in the spelling of CiA 306.
fn spelled(
    alloc: Global,
    key: Key,
    value: &[u8],
    is_sub: bool,
    digits: Option<Digits>,
) -> Result<Vec<u8>, AllocError> {
    let text = bare_text(alloc, value)?;
    let text = text.as_slice();
    match key {
        Key::ObjectType => object_type_spelled(alloc, text, digits),
        Key::DataType => data_type_spelled(alloc, text, digits),
        Key::AccessType => access_spelled(alloc, text),
        Key::PdoMapping | Key::BaudRate(_) => flag_spelled(alloc, text, digits),
        Key::SupportedObjects => unneeded_spelled(alloc, text, digits),
        Key::CompactSubObj => compact_spelled(alloc, text, is_sub, digits),
        _ => number_spelled(alloc, text, digits),
    }
}

/// The number of subs in the spelling of CiA 306.
fn sub_number_spelled(
    alloc: Global,
    value: &[u8],
    digits: Option<Digits>,
) -> Result<Vec<u8>, AllocError> {
    let text = bare_text(alloc, value)?;
    unneeded_spelled(alloc, text.as_slice(), digits)
}

/// Whether the value of a key is a number or a word in each section that has it.
fn is_plain(key: Key) -> bool {
    matches!(
        key,
        Key::ObjectType
            | Key::DataType
            | Key::AccessType
            | Key::PdoMapping
            | Key::BaudRate(_)
            | Key::SupportedObjects
            | Key::CompactSubObj
            | Key::CompactPdo
            | Key::ReceivedPdos
            | Key::SentPdos
    )
}

/// Whether a section is of an object or a sub.
fn is_object(name: SectionName) -> bool {
    matches!(name, SectionName::Object(_) | SectionName::Sub(_, _))
}

/// Whether a value stays as it is by itself: the strict reading takes it for a number.
fn stays(key: Key, value: &[u8]) -> bool {
    key != Key::CompactSubObj && number_of(value).is_ok()
}

/// Spells the value of a row.
fn respell_row(
    alloc: Global,
    row: &mut Row<'_>,
    section: Section,
    digits: Option<Digits>,
) -> Result<(), AllocError> {
    let key = key_at(alloc, row, section.name)?;
    if stays(key, row.value()) {
        return Ok(());
    }
    if is_plain(key) {
        let is_sub = matches!(section.name, SectionName::Sub(_, _));
        let text = spelled(alloc, key, row.value(), is_sub, digits)?;
        row.set_value(alloc, &text, Cause::Word)?;
    } else if is_object(section.name) && row.has_key(b"SubNumber") {
        let text = sub_number_spelled(alloc, row.value(), digits)?;
        row.set_value(alloc, &text, Cause::Word)?;
    }
    Ok(())
}

/// Spells the numbers and words of a section.
pub fn respell_values(
    alloc: Global,
    rows: &mut [Row<'_>],
    section: Section,
    digits: Option<Digits>,
) -> Result<(), AllocError> {
    for at in section.header..section.end {
        if let Some(row) = rows.get_mut(at) {
            respell_row(alloc, row, section, digits)?;
        }
    }
    Ok(())
}
