//! Names of sections, in the spelling of CiA 306 and in others.

ghost use Rattle.std.specs.Prelude.{◌≡◌, IfOk};
ghost use Rattle.std.specs.Option.{option_copied};
ghost use Rattle.cop_tidy_lines.specs.Names.{is_sign, without_signs, without_prefix, without_mark, is_letter, without_letter, without_end, sub_by, sub_named, after_sub, is_divider, divided, sub_or_divided, rest_named, dense, other_name, index_of, section_name, is_read};

use crate::bytes::{first_of, from, last_of, upto, without_last};
use cop_eds::{is_blank, is_hexadecimal, number_in, same_name, trim};
use std::alloc::{AllocError, Global};

/// The lists of objects.
#[derive(Clone, Copy, Debug, PartialEq, Eq)]
pub enum ListName {
    Mandatory,
    Optional,
    Manufacturer,
}

/// What a section is of.
#[derive(Clone, Copy, Debug, PartialEq, Eq)]
pub enum SectionName {
    /// The object at an index.
    Object(u64),
    /// A sub of the object at an index.
    Sub(u64, u64),
    /// The names of the subs of a compact form.
    Names(u64),
    /// The values of the subs of a compact form.
    Values(u64),
    List(ListName),
    DeviceInfo,
    /// Something that nothing reads.
    Unread,
}

fn is_sign(byte: u8) -> bool
    ensures { result ≡ is_sign byte }
{
    (is_blank(byte) || (byte == b'_' || byte == b'-')) || (byte == b'.' || byte == b'/')
}

/// The bytes without the signs at their front.
fn without_signs(bytes: &[u8]) -> &[u8]
    ensures { result.now ≡ without_signs bytes.now }
{
    let mut rest = bytes;
    while let Some((first, tail)) = rest.split_first() {
        if !is_sign(*first) {
            break;
        }
        rest = tail;
    }
    rest
}

fn without_prefix(bytes: &[u8]) -> &[u8]
    ensures { result.now ≡ without_prefix bytes.now }
{
    if is_hexadecimal(bytes) {
        from(bytes, 2)
    } else {
        bytes
    }
}

fn without_mark(bytes: &[u8]) -> &[u8]
    ensures { result.now ≡ without_mark bytes.now }
{
    if first_of(bytes) == b'$' {
        from(bytes, 1)
    } else {
        without_prefix(bytes)
    }
}

fn is_letter(byte: u8) -> bool
    ensures { result ≡ is_letter byte }
{
    byte == b'h' || byte == b'H'
}

fn without_letter(bytes: &[u8]) -> &[u8]
    ensures { result.now ≡ without_letter bytes.now }
{
    if is_letter(first_of(bytes)) {
        from(bytes, 1)
    } else {
        bytes
    }
}

fn without_end(bytes: &[u8]) -> &[u8]
    ensures { result.now ≡ without_end bytes.now }
{
    if is_letter(last_of(bytes)) {
        without_last(bytes)
    } else {
        bytes
    }
}

/// The sub that so many hexadecimal digits write; `None` where they have two meanings.
fn sub_by(index: u64, count: usize, number: Option<u64>) -> Option<SectionName>
    ensures { result ≡ sub_by index count number }
{
    let Some(number) = number else {
        return Some(SectionName::Unread);
    };
    if count <= 2 || number < 10 {
        Some(SectionName::Sub(index, number))
    } else if count == 3 {
        None
    } else {
        Some(SectionName::Unread)
    }
}

/// The sub that hexadecimal digits write; `None` where they have two meanings.
fn sub_named(index: u64, digits: &[u8]) -> Option<SectionName>
    ensures { result ≡ sub_named index digits.now }
{
    if 3 < digits.len() {
        Some(SectionName::Unread)
    } else {
        sub_by(index, digits.len(), number_in(16, digits))
    }
}

/// What follows the word `sub`, or `subindex`.
fn after_sub(bytes: &[u8]) -> Option<&[u8]>
    ensures { option_copied result ≡ after_sub bytes.now }
{
    if same_name(upto(bytes, 8), b"subindex") {
        Some(from(bytes, 8))
    } else if same_name(upto(bytes, 3), b"sub") {
        Some(from(bytes, 3))
    } else {
        None
    }
}

fn is_divider(byte: u8) -> bool
    ensures { result ≡ is_divider byte }
{
    byte == b'.' || (byte == b'_' || byte == b'/')
}

/// The sub behind a divider; `None` where its digits have two meanings.
fn divided(index: u64, rest: &[u8]) -> Option<SectionName>
    ensures { result ≡ divided index rest.now }
{
    if is_divider(first_of(rest)) {
        sub_named(index, without_end(from(rest, 1)))
    } else {
        Some(SectionName::Unread)
    }
}

/// The sub behind the word `sub`, or behind a divider; `None` where its digits have two meanings.
fn sub_or_divided(index: u64, rest: &[u8]) -> Option<SectionName>
    ensures { result ≡ sub_or_divided index rest.now (after_sub (without_signs rest.now)) }
{
    match after_sub(without_signs(rest)) {
        Some(digits) => {
            let digits = without_prefix(without_signs(digits));
            sub_named(index, without_end(digits))
        }
        None => divided(index, rest),
    }
}

/// The section that belongs to an index by the rest of its name; `None` where the digits of a sub have two meanings.
#[tactic(auto, unfolding(crate::specs::Names::rest_named))]
fn rest_named(index: u64, rest: &[u8]) -> Option<SectionName>
    ensures { result ≡ rest_named index rest.now }
{
    if rest.is_empty() {
        return Some(SectionName::Object(index));
    }
    let word = without_signs(rest);
    if same_name(word, b"Value") {
        Some(SectionName::Values(index))
    } else if same_name(word, b"Name") {
        Some(SectionName::Names(index))
    } else {
        sub_or_divided(index, rest)
    }
}

/// The bytes without blanks.
#[tactic(auto, unfolding(crate::specs::Names::dense))]
fn dense(alloc: Global, bytes: &[u8]) -> Result<Vec<u8>, AllocError>
    ensures { IfOk result (λ v. v.items ≡ dense bytes.now) }
{
    bytes
        .iter()
        .copied()
        .filter(|b| !is_blank(*b))
        .collect(alloc)
}

/// The section of a name that is of no object.
#[tactic(auto, unfolding(crate::specs::Names::other_name))]
fn other_name(all: &[u8]) -> SectionName
    ensures { result ≡ other_name all.now }
{
    if same_name(all, b"MandatoryObjects") {
        SectionName::List(ListName::Mandatory)
    } else if same_name(all, b"OptionalObjects") {
        SectionName::List(ListName::Optional)
    } else if same_name(all, b"ManufacturerObjects") {
        SectionName::List(ListName::Manufacturer)
    } else if same_name(all, b"DeviceInfo") {
        SectionName::DeviceInfo
    } else {
        SectionName::Unread
    }
}

/// The index that four hexadecimal digits write.
fn index_of(digits: &[u8]) -> Option<u64>
    ensures { result ≡ index_of digits.now }
{
    if digits.len() == 4 {
        number_in(16, digits)
    } else {
        None
    }
}

/// What a section of this name is of; `None` where the digits of a sub have two meanings.
#[tactic(auto, unfolding(crate::specs::Names::section_name))]
pub fn section_name(alloc: Global, name: &[u8]) -> Result<Option<SectionName>, AllocError>
    ensures { IfOk result (λ section. section ≡ section_name name.now) }
{
    let all = without_mark(trim(name));
    match index_of(upto(all, 4)) {
        Some(index) => Ok(rest_named(index, without_letter(from(all, 4)))),
        None => Ok(Some(other_name(&dense(alloc, name)?))),
    }
}

/// Whether something reads such a section.
pub fn is_read(name: SectionName) -> bool
    ensures { result ≡ is_read name }
{
    !matches!(name, SectionName::Unread | SectionName::Names(_))
}
