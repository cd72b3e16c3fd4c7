//! Names of sections in other spellings than that of CiA 306.

ghost use Rattle.std.specs.Prelude.{◌≡◌, IfOk, option_copied};
ghost use Rattle.std.specs.Option.{option_map, option_and_then};
ghost use Rattle.cop_eds_hazards.specs.Spelled.{is_sign, without_signs, without_prefix, without_mark, is_letter, without_letter, without_end, is_byte, short, sub_digits, after_sub, with_sub, with_rest, is_index, object_spelled, is_word, is_rest, strange_index, dense, read_name, other_name, read_spelled, spelled};
ghost use Rattle.cop_eds.specs.Number.{number_in};

use crate::text::{from, upto, without_first};
use cop_eds::{is_blank, is_hexadecimal, number_in, same_name, trim};
use std::alloc::{AllocError, Global};

fn is_sign(dots: bool, byte: u8) -> bool
    ensures { result ≡ is_sign dots byte }
{
    is_blank(byte) || byte == b'_' || byte == b'-' || (dots && (byte == b'.' || byte == b'/'))
}

/// The bytes without the signs at the front.
fn without_signs(dots: bool, bytes: &[u8]) -> &[u8]
    ensures { result.now ≡ without_signs dots bytes.now }
{
    let mut rest = bytes;
    while let Some((first, tail)) = rest.split_first() {
        if !is_sign(dots, *first) {
            break;
        }
        rest = tail;
    }
    rest
}

fn without_prefix(bytes: &[u8]) -> &[u8]
    ensures { result.now ≡ without_prefix bytes.now }
{
    if is_hexadecimal(bytes) {
        from(bytes, 2)
    } else {
        bytes
    }
}

fn without_mark(bytes: &[u8]) -> &[u8]
    ensures { result.now ≡ without_mark bytes.now }
{
    match bytes {
        [b'$', rest @ ..] => rest,
        _ => without_prefix(bytes),
    }
}

fn is_letter(byte: u8) -> bool
    ensures { result ≡ is_letter byte }
{
    byte == b'h' || byte == b'H'
}

fn without_letter(bytes: &[u8]) -> &[u8]
    ensures { result.now ≡ without_letter bytes.now }
{
    match bytes {
        [] => bytes,
        [first, ..] => {
            if is_letter(*first) {
                without_first(bytes)
            } else {
                bytes
            }
        }
    }
}

fn without_end(bytes: &[u8]) -> &[u8]
    ensures { result.now ≡ without_end bytes.now }
{
    if bytes.is_empty() {
        return bytes;
    }
    let last = bytes.len() - 1;
    if is_letter(bytes[last]) {
        &bytes[..last]
    } else {
        bytes
    }
}

fn is_byte(number: Option<u64>) -> bool
    ensures { result ≡ is_byte number }
{
    match number {
        Some(number) => number <= 255,
        None => false,
    }
}

fn short(digits: &[u8]) -> &[u8]
    ensures { result.now ≡ short digits.now }
{
    if digits.len() <= 2 {
        digits
    } else {
        without_first(digits)
    }
}

/// The digits of a sub: one to three, of a value up to FFh.
#[tactic(auto, unfolding(crate::specs::Spelled::sub_digits))]
fn sub_digits(digits: &[u8]) -> Option<&[u8]>
    ensures { option_copied result ≡ sub_digits digits.now }
{
    if digits.len() <= 3 && is_byte(number_in(16, digits)) {
        Some(short(digits))
    } else {
        None
    }
}

/// What follows the word `sub` and the signs round it.
#[tactic(auto, unfolding(crate::specs::Spelled::after_sub))]
fn after_sub(bytes: &[u8]) -> Option<&[u8]>
    ensures { option_copied result ≡ after_sub bytes.now }
{
    let word = without_signs(true, bytes);
    if same_name(upto(word, 3), b"sub") {
        let behind = without_signs(false, from(word, 3));
        Some(without_end(without_prefix(behind)))
    } else {
        None
    }
}

/// The name of the section of a sub.
fn with_sub(alloc: Global, index: &[u8], digits: &[u8]) -> Result<Vec<u8>, AllocError>
    ensures { IfOk result (λ name. name.items ≡ with_sub index.now digits.now) }
{
    let mut name = Vec::from_slice(alloc, index)?;
    name.extend_from_slice(b"sub")?;
    name.extend_from_slice(digits)?;
    Ok(name)
}

/// The digits of the sub that stands behind an index.
fn digits_behind(rest: &[u8]) -> Option<&[u8]>
    ensures { option_copied result ≡ option_and_then sub_digits (after_sub rest.now) }
{
    match after_sub(rest) {
        Some(digits) => sub_digits(digits),
        None => None,
    }
}

/// The name of the section of an index, or of a sub that the rest names.
fn with_rest(alloc: Global, index: &[u8], rest: &[u8]) -> Result<Option<Vec<u8>>, AllocError>
    ensures { IfOk result (λ name. option_map (λ v. v.items) name ≡ with_rest index.now rest.now) }
{
    if rest.is_empty() {
        return Ok(Some(Vec::from_slice(alloc, index)?));
    }
    match digits_behind(rest) {
        Some(digits) => Ok(Some(with_sub(alloc, index, digits)?)),
        None => Ok(None),
    }
}

fn is_index(index: &[u8]) -> bool
    ensures { result ≡ is_index index.now }
{
    index.len() == 4 && number_in(16, index).is_some()
}

/// The name of an object's section in the spelling of CiA 306.
#[tactic(auto, unfolding(crate::specs::Spelled::object_spelled))]
fn object_spelled(alloc: Global, name: &[u8]) -> Result<Option<Vec<u8>>, AllocError>
    ensures { IfOk result (λ found. option_map (λ v. v.items) found ≡ object_spelled name.now) }
{
    let all = without_mark(trim(name));
    let index = upto(all, 4);
    if !is_index(index) {
        return Ok(None);
    }
    with_rest(alloc, index, without_letter(from(all, 4)))
}

/// Whether a word is one that CiA 306 has behind the digits of an object, for sections that say nothing of its own.
fn is_word(word: &[u8]) -> bool
    ensures { result ≡ is_word word.now }
{
    same_name(word, b"Name")
        || same_name(word, b"Value")
        || same_name(word, b"Denotation")
        || same_name(word, b"ObjectLinks")
}

/// Whether CiA 306 has this behind the digits of an object, in its spelling or in another: nothing, a sub, or one of these words.
fn is_rest(rest: &[u8]) -> bool
    ensures { result ≡ is_rest rest.now }
{
    rest.is_empty() || digits_behind(rest).is_some() || is_word(without_signs(true, rest))
}

/// The index with whose digits a name begins that is none of CiA 306 in any spelling.
#[tactic(auto, unfolding(crate::specs::Spelled::strange_index))]
pub(crate) fn strange_index(name: &[u8]) -> Option<u64>
    ensures { result ≡ strange_index name.now }
{
    let all = without_mark(trim(name));
    let digits = upto(all, 4);
    if !is_index(digits) || is_rest(without_letter(from(all, 4))) {
        return None;
    }
    number_in(16, digits)
}

/// The bytes without blanks.
fn dense(alloc: Global, bytes: &[u8]) -> Result<Vec<u8>, AllocError>
    ensures { IfOk result (λ v. v.items ≡ dense bytes.now) }
{
    bytes
        .iter()
        .copied()
        .filter(|b| !is_blank(*b))
        .collect(alloc)
}

/// The name of a section that the strict reading looks for beside the objects' sections.
fn read_name(all: &[u8]) -> Option<&'static [u8]>
    ensures { option_copied result ≡ read_name all.now }
{
    if same_name(all, b"MandatoryObjects") {
        Some(b"MandatoryObjects")
    } else if same_name(all, b"OptionalObjects") {
        Some(b"OptionalObjects")
    } else if same_name(all, b"ManufacturerObjects") {
        Some(b"ManufacturerObjects")
    } else if same_name(all, b"DeviceInfo") {
        Some(b"DeviceInfo")
    } else {
        None
    }
}

/// The name of another section of CiA 306.
fn other_name(all: &[u8]) -> Option<&'static [u8]>
    ensures { option_copied result ≡ other_name all.now }
{
    if same_name(all, b"FileInfo") {
        Some(b"FileInfo")
    } else if same_name(all, b"DummyUsage") {
        Some(b"DummyUsage")
    } else if same_name(all, b"Comments") {
        Some(b"Comments")
    } else if same_name(all, b"DeviceComissioning") {
        Some(b"DeviceComissioning")
    } else {
        None
    }
}

/// A copy of a name, where there is one.
fn copied(alloc: Global, name: Option<&[u8]>) -> Result<Option<Vec<u8>>, AllocError>
    ensures { IfOk result (λ copy. option_map (λ v. v.items) copy ≡ option_copied name.entry) }
{
    match name {
        Some(name) => Ok(Some(Vec::from_slice(alloc, name)?)),
        None => Ok(None),
    }
}

/// The name of a section that the strict reading looks for, in the spelling of CiA 306.
#[tactic(auto, unfolding(crate::specs::Spelled::read_spelled))]
pub(crate) fn read_spelled(alloc: Global, name: &[u8]) -> Result<Option<Vec<u8>>, AllocError>
    ensures { IfOk result (λ found. option_map (λ v. v.items) found ≡ read_spelled name.now) }
{
    if let Some(spelled) = object_spelled(alloc, name)? {
        return Ok(Some(spelled));
    }
    let all = dense(alloc, name)?;
    copied(alloc, read_name(&all))
}

/// The name of a section of CiA 306, in its spelling.
#[tactic(auto, unfolding(crate::specs::Spelled::spelled))]
pub(crate) fn spelled(alloc: Global, name: &[u8]) -> Result<Option<Vec<u8>>, AllocError>
    ensures { IfOk result (λ found. option_map (λ v. v.items) found ≡ spelled name.now) }
{
    if let Some(spelled) = read_spelled(alloc, name)? {
        return Ok(Some(spelled));
    }
    let all = dense(alloc, name)?;
    copied(alloc, other_name(&all))
}
