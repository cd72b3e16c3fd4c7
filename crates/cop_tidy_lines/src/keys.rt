//! The keys that something reads, in the spelling of CiA 306 and in others.

ghost use Rattle.std.specs.Prelude.{◌≡◌, IfOk};
ghost use Rattle.cop_tidy_lines.specs.Keys.{object_key, rate_key, device_key, entry_key, list_key, marked_or_bare, value_key, key_meant, is_unread, is_object_word};
ghost use Rattle.cop_eds.specs.Number.{number_in};
ghost use Rattle.cop_tidy_lines.specs.Numerals.{hexadecimal_digits};

use crate::names::SectionName;
use crate::numerals::{are_decimal, hexadecimal_digits};
use crate::words::undivided;
use cop_eds::{number_in, same_name};
use cop_frame::Rate;
use std::alloc::{AllocError, Global};

/// A key that something reads.
#[derive(Clone, Copy, Debug, PartialEq, Eq)]
pub enum Key {
    ObjectType,
    DataType,
    AccessType,
    DefaultValue,
    ParameterValue,
    PdoMapping,
    LowLimit,
    HighLimit,
    CompactSubObj,
    /// How many entries a list has.
    SupportedObjects,
    /// The entry of a list with this number, or the value of this sub.
    Entry(u64),
    /// How many values a compact form states.
    NrOfEntries,
    BaudRate(Rate),
    CompactPdo,
    ReceivedPdos,
    SentPdos,
    /// Another key, which nothing reads.
    Unread,
}

/// A key of an object's section, without blanks, `_` and `-`.
#[tactic(auto, unfolding(crate::specs::Keys::object_key))]
fn object_key(word: &[u8]) -> Key
    ensures { result ≡ object_key word.now }
{
    if same_name(word, b"ObjectType") {
        Key::ObjectType
    } else if same_name(word, b"DataType") {
        Key::DataType
    } else if same_name(word, b"AccessType") {
        Key::AccessType
    } else if same_name(word, b"DefaultValue") {
        Key::DefaultValue
    } else if same_name(word, b"ParameterValue") {
        Key::ParameterValue
    } else if same_name(word, b"PDOMapping") {
        Key::PdoMapping
    } else if same_name(word, b"LowLimit") {
        Key::LowLimit
    } else if same_name(word, b"HighLimit") {
        Key::HighLimit
    } else if same_name(word, b"CompactSubObj") {
        Key::CompactSubObj
    } else {
        Key::Unread
    }
}

/// A key of the bit rates in DeviceInfo.
#[tactic(auto, unfolding(crate::specs::Keys::rate_key))]
fn rate_key(word: &[u8]) -> Key
    ensures { result ≡ rate_key word.now }
{
    if same_name(word, b"BaudRate10") {
        Key::BaudRate(Rate::Kbit10)
    } else if same_name(word, b"BaudRate20") {
        Key::BaudRate(Rate::Kbit20)
    } else if same_name(word, b"BaudRate50") {
        Key::BaudRate(Rate::Kbit50)
    } else if same_name(word, b"BaudRate125") {
        Key::BaudRate(Rate::Kbit125)
    } else if same_name(word, b"BaudRate250") {
        Key::BaudRate(Rate::Kbit250)
    } else if same_name(word, b"BaudRate500") {
        Key::BaudRate(Rate::Kbit500)
    } else if same_name(word, b"BaudRate800") {
        Key::BaudRate(Rate::Kbit800)
    } else if same_name(word, b"BaudRate1000") {
        Key::BaudRate(Rate::Kbit1000)
    } else {
        Key::Unread
    }
}

/// A key of DeviceInfo.
#[tactic(auto, unfolding(crate::specs::Keys::device_key))]
fn device_key(word: &[u8]) -> Key
    ensures { result ≡ device_key word.now }
{
    if same_name(word, b"CompactPDO") {
        Key::CompactPdo
    } else if same_name(word, b"NrOfRXPDO") {
        Key::ReceivedPdos
    } else if same_name(word, b"NrOfTXPDO") {
        Key::SentPdos
    } else {
        rate_key(word)
    }
}

fn entry_key(number: Option<u64>) -> Key
    ensures { result ≡ entry_key number }
{
    match number {
        Some(number) => Key::Entry(number),
        None => Key::Unread,
    }
}

/// A key of a list: the number of an entry, or how many there are.
#[tactic(auto, unfolding(crate::specs::Keys::list_key))]
fn list_key(alloc: Global, key: &[u8]) -> Result<Key, AllocError>
    ensures { IfOk result (λ k. k ≡ list_key key.now) }
{
    if are_decimal(key) {
        return Ok(entry_key(number_in(10, key)));
    }
    let word = undivided(alloc, key)?;
    if same_name(word.as_slice(), b"SupportedObjects") {
        return Ok(Key::SupportedObjects);
    }
    Ok(Key::Unread)
}

/// The number of digits that are hexadecimal by a mark, or by themselves.
fn hexadecimal_key(alloc: Global, key: &[u8]) -> Result<Key, AllocError>
    ensures { IfOk result (λ k. k ≡ entry_key (number_in 16 (marked_or_bare (hexadecimal_digits key.now) key.now))) }
{
    match hexadecimal_digits(alloc, key)? {
        Some(digits) => Ok(entry_key(number_in(16, &digits))),
        None => Ok(entry_key(number_in(16, key))),
    }
}

/// A key of a section with the values of a compact form: the sub.
#[tactic(auto, unfolding(crate::specs::Keys::value_key))]
fn value_key(alloc: Global, key: &[u8]) -> Result<Key, AllocError>
    ensures { IfOk result (λ k. k ≡ value_key key.now) }
{
    if are_decimal(key) {
        return Ok(entry_key(number_in(10, key)));
    }
    let word = undivided(alloc, key)?;
    if same_name(word.as_slice(), b"NrOfEntries") {
        return Ok(Key::NrOfEntries);
    }
    hexadecimal_key(alloc, key)
}

/// The key that a text is in a section of this name.
#[tactic(auto, unfolding(crate::specs::Keys::key_meant))]
pub fn key_meant(alloc: Global, section: SectionName, key: &[u8]) -> Result<Key, AllocError>
    ensures { IfOk result (λ k. k ≡ key_meant section key.now) }
{
    match section {
        SectionName::Object(_) | SectionName::Sub(_, _) => {
            let word = undivided(alloc, key)?;
            Ok(object_key(word.as_slice()))
        }
        SectionName::Values(_) => value_key(alloc, key),
        SectionName::List(_) => list_key(alloc, key),
        SectionName::DeviceInfo => {
            let word = undivided(alloc, key)?;
            Ok(device_key(word.as_slice()))
        }
        SectionName::Names(_) | SectionName::Unread => Ok(Key::Unread),
    }
}

fn is_unread(key: Key) -> bool
    ensures { result ≡ is_unread key }
{
    matches!(key, Key::Unread)
}

/// Whether a word is an object's key of CiA 306, also one of those that nothing reads.
pub fn is_object_word(word: &[u8]) -> bool
    ensures { result ≡ is_object_word word.now }
{
    if !is_unread(object_key(word)) {
        return true;
    }
    (same_name(word, b"ParameterName") || same_name(word, b"SubNumber"))
        || (same_name(word, b"ObjFlags") || same_name(word, b"Denotation"))
}
