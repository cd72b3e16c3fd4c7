//! Names of sections and keys in the spelling of CiA 306.

use cop_eds::{Access, code_of, same_name};
use cop_tidy_lines::{Key, ListName, SectionName};
use std::alloc::{AllocError, Global};

/// The lists in the order in which they are read.
pub const LISTS: [ListName; 3] = [
    ListName::Mandatory,
    ListName::Optional,
    ListName::Manufacturer,
];

/// The name of a list.
pub fn list_text(list: ListName) -> &'static [u8] {
    match list {
        ListName::Mandatory => b"MandatoryObjects",
        ListName::Optional => b"OptionalObjects",
        ListName::Manufacturer => b"ManufacturerObjects",
    }
}

/// The name of a section; none of one that nothing reads.
pub fn section_text(alloc: Global, name: SectionName) -> Result<Option<Vec<u8>>, AllocError> {
    let text = match name {
        SectionName::Object(index) => format!(in alloc; "{index:04X}")?.into_bytes(),
        SectionName::Sub(index, sub) => format!(in alloc; "{index:04X}sub{sub:X}")?.into_bytes(),
        SectionName::Values(index) => format!(in alloc; "{index:04X}Value")?.into_bytes(),
        SectionName::List(list) => Vec::from_slice(alloc, list_text(list))?,
        SectionName::DeviceInfo => Vec::from_slice(alloc, b"DeviceInfo")?,
        SectionName::Names(_) | SectionName::Unread => return Ok(None),
    };
    Ok(Some(text))
}

/// Whether the strict reading takes two names of sections for one.
pub fn is_same_section(left: &[u8], right: &[u8]) -> bool {
    match (code_of(left), code_of(right)) {
        (Some(left), Some(right)) => left == right,
        (None, None) => same_name(left, right),
        _ => false,
    }
}

/// Whether the strict reading takes a name for that of this object or sub.
pub fn is_spelled(name: SectionName, text: &[u8]) -> bool {
    let code = match name {
        SectionName::Object(index) => index.saturating_mul(257),
        SectionName::Sub(index, sub) => index
            .saturating_mul(257)
            .saturating_add(sub)
            .saturating_add(1),
        _ => return false,
    };
    code_of(text) == Some(code)
}

/// A key that has one spelling.
pub fn fixed_key(key: Key) -> Option<&'static [u8]> {
    let text: &[u8] = match key {
        Key::ObjectType => b"ObjectType",
        Key::DataType => b"DataType",
        Key::AccessType => b"AccessType",
        Key::DefaultValue => b"DefaultValue",
        Key::ParameterValue => b"ParameterValue",
        Key::PdoMapping => b"PDOMapping",
        Key::LowLimit => b"LowLimit",
        Key::HighLimit => b"HighLimit",
        Key::CompactSubObj => b"CompactSubObj",
        Key::SupportedObjects => b"SupportedObjects",
        Key::NrOfEntries => b"NrOfEntries",
        Key::CompactPdo => b"CompactPDO",
        Key::ReceivedPdos => b"NrOfRXPDO",
        Key::SentPdos => b"NrOfTXPDO",
        Key::Entry(_) | Key::BaudRate(_) | Key::Unread => return None,
    };
    Some(text)
}

/// A key; none of one that nothing reads.
pub fn key_text(alloc: Global, key: Key) -> Result<Option<Vec<u8>>, AllocError> {
    match key {
        Key::Entry(number) => Ok(Some(format!(in alloc; "{number}")?.into_bytes())),
        Key::BaudRate(rate) => {
            let kbits = rate.kbits();
            Ok(Some(format!(in alloc; "BaudRate_{kbits}")?.into_bytes()))
        }
        _ => match fixed_key(key) {
            Some(text) => Ok(Some(Vec::from_slice(alloc, text)?)),
            None => Ok(None),
        },
    }
}

/// The word of an access.
pub fn access_text(access: Access) -> &'static [u8] {
    match access {
        Access::ReadOnly => b"ro",
        Access::WriteOnly => b"wo",
        Access::ReadWrite => b"rw",
        Access::ReadWriteInput => b"rwr",
        Access::ReadWriteOutput => b"rww",
        Access::Constant => b"const",
    }
}
