//! The words that makers write for kinds of objects, types and accesses.

ghost use Rattle.std.specs.Prelude.{◌≡◌, not, IfOk};
ghost use Rattle.std.specs.List.{list_all};
ghost use Rattle.std.specs.Cow.{cow_slice_items};
ghost use Rattle.cop_tidy_lines.specs.Words.{is_joint, undivided, is_one_of, named_object_type, named_unsigned, named_signed, named_other_type, named_data_type, is_read_word, is_write_word, is_both_word, is_constant_word, named_access, access_meant, kind_numbered, object_type_meant, is_bare_type, data_type_meant};
ghost use Rattle.std.specs.Option.{option_and_then};
ghost use Rattle.cop_eds.specs.Description.{object_type_of};

use crate::choices::Digits;
use crate::numerals::{Unclear, is_octal_too, number_meant, readable};
use cop_eds::{Access, ObjectType, is_blank, number_in, same_name};
use std::alloc::{AllocError, Global};
use std::borrow::CowSlice;

/// Whether a byte divides words.
fn is_joint(byte: u8) -> bool
    ensures { result ≡ is_joint byte }
{
    is_blank(byte) || (byte == b'_' || byte == b'-')
}

/// Whether a word has no blanks, `_` and `-`.
fn is_undivided(text: &[u8]) -> bool
    ensures { result ≡ list_all (λ b. not (is_joint b)) text.now }
{
    text.iter().all(|byte| !is_joint(*byte))
}

/// A word with blanks, `_` and `-`, without them.
#[tactic(auto, unfolding(crate::specs::Words::undivided))]
fn joined(alloc: Global, text: &[u8]) -> Result<Vec<u8>, AllocError>
    ensures { IfOk result (λ v. v.items ≡ undivided text.now) }
{
    text.iter()
        .copied()
        .filter(|byte| !is_joint(*byte))
        .collect(alloc)
}

/// A word without blanks, `_` and `-`; it is copied only where it has some.
#[tactic(auto, using(crate::proofs::KeptLemmas::kept_all), unfolding(crate::specs::Words::undivided))]
pub fn undivided(alloc: Global, text: &[u8]) -> Result<CowSlice<'_, u8>, AllocError>
    ensures { IfOk result (λ v. cow_slice_items v ≡ undivided text.now) }
{
    if is_undivided(text) {
        Ok(CowSlice::Borrowed(text))
    } else {
        Ok(CowSlice::Owned(joined(alloc, text)?))
    }
}

fn is_one_of(word: &[u8], a: &[u8], b: &[u8], c: &[u8]) -> bool
    ensures { result ≡ is_one_of word.now a.now b.now c.now }
{
    same_name(word, a) || (same_name(word, b) || same_name(word, c))
}

/// The number of the object type that a word without blanks, `_` and `-` names (CiA 301).
#[tactic(auto, unfolding(crate::specs::Words::named_object_type))]
fn named_object_type(word: &[u8]) -> Option<u64>
    ensures { result ≡ named_object_type word.now }
{
    if same_name(word, b"null") {
        Some(0)
    } else if same_name(word, b"domain") {
        Some(2)
    } else if same_name(word, b"deftype") {
        Some(5)
    } else if same_name(word, b"defstruct") {
        Some(6)
    } else if same_name(word, b"var") || same_name(word, b"variable") {
        Some(7)
    } else if same_name(word, b"array") {
        Some(8)
    } else if same_name(word, b"record") {
        Some(9)
    } else {
        None
    }
}

/// The number of an integer type without a sign.
#[tactic(auto, unfolding(crate::specs::Words::named_unsigned))]
fn named_unsigned(word: &[u8]) -> Option<u64>
    ensures { result ≡ named_unsigned word.now }
{
    if is_one_of(word, b"unsigned8", b"uint8", b"u8") {
        Some(5)
    } else if is_one_of(word, b"unsigned16", b"uint16", b"u16") {
        Some(6)
    } else if is_one_of(word, b"unsigned32", b"uint32", b"u32") {
        Some(7)
    } else if is_one_of(word, b"unsigned64", b"uint64", b"u64") {
        Some(0x1B)
    } else {
        None
    }
}

/// The number of an integer type with a sign.
#[tactic(auto, unfolding(crate::specs::Words::named_signed))]
fn named_signed(word: &[u8]) -> Option<u64>
    ensures { result ≡ named_signed word.now }
{
    if is_one_of(word, b"integer8", b"int8", b"i8") || same_name(word, b"s8") {
        Some(2)
    } else if is_one_of(word, b"integer16", b"int16", b"i16") || same_name(word, b"s16") {
        Some(3)
    } else if is_one_of(word, b"integer32", b"int32", b"i32") || same_name(word, b"s32") {
        Some(4)
    } else if is_one_of(word, b"integer64", b"int64", b"i64") || same_name(word, b"s64") {
        Some(0x15)
    } else {
        None
    }
}

/// The number of a type that is no integer.
#[tactic(auto, unfolding(crate::specs::Words::named_other_type))]
fn named_other_type(word: &[u8]) -> Option<u64>
    ensures { result ≡ named_other_type word.now }
{
    if same_name(word, b"boolean") || same_name(word, b"bool") {
        Some(1)
    } else if same_name(word, b"real32") {
        Some(8)
    } else if same_name(word, b"visiblestring") {
        Some(9)
    } else if same_name(word, b"octetstring") {
        Some(0xA)
    } else if same_name(word, b"domain") {
        Some(0xF)
    } else if same_name(word, b"real64") {
        Some(0x11)
    } else {
        None
    }
}

/// The number of the data type that a word without blanks, `_` and `-` names (CiA 301).
fn named_data_type(word: &[u8]) -> Option<u64>
    ensures { result ≡ named_data_type word.now }
{
    if let Some(number) = named_unsigned(word) {
        return Some(number);
    }
    if let Some(number) = named_signed(word) {
        return Some(number);
    }
    named_other_type(word)
}

fn is_read_word(word: &[u8]) -> bool
    ensures { result ≡ is_read_word word.now }
{
    same_name(word, b"ro")
        || (same_name(word, b"r") || is_one_of(word, b"read", b"readonly", b"r/o"))
}

fn is_write_word(word: &[u8]) -> bool
    ensures { result ≡ is_write_word word.now }
{
    same_name(word, b"wo")
        || (same_name(word, b"w") || is_one_of(word, b"write", b"writeonly", b"w/o"))
}

fn is_both_word(word: &[u8]) -> bool
    ensures { result ≡ is_both_word word.now }
{
    (same_name(word, b"rw") || same_name(word, b"wr"))
        || is_one_of(word, b"r/w", b"readwrite", b"read/write")
}

fn is_constant_word(word: &[u8]) -> bool
    ensures { result ≡ is_constant_word word.now }
{
    same_name(word, b"const") || is_one_of(word, b"c", b"cst", b"constant")
}

/// The access that a word without blanks, `_` and `-` names.
#[tactic(auto, unfolding(crate::specs::Words::named_access))]
fn named_access(word: &[u8]) -> Option<Access>
    ensures { result ≡ named_access word.now }
{
    if is_read_word(word) {
        Some(Access::ReadOnly)
    } else if is_write_word(word) {
        Some(Access::WriteOnly)
    } else if is_both_word(word) {
        Some(Access::ReadWrite)
    } else if same_name(word, b"rwr") {
        Some(Access::ReadWriteInput)
    } else if same_name(word, b"rww") {
        Some(Access::ReadWriteOutput)
    } else if is_constant_word(word) {
        Some(Access::Constant)
    } else {
        None
    }
}

/// The access that a text names in any spelling.
pub fn access_meant(alloc: Global, text: &[u8]) -> Result<Option<Access>, AllocError>
    ensures { IfOk result (λ access. access ≡ access_meant text.now) }
{
    let word = undivided(alloc, text)?;
    Ok(named_access(word.as_slice()))
}

fn object_type_of(number: u64) -> Option<ObjectType>
    ensures { result ≡ object_type_of number }
{
    match number {
        0 => Some(ObjectType::Null),
        2 => Some(ObjectType::Domain),
        5 => Some(ObjectType::TypeDefinition),
        6 => Some(ObjectType::StructDefinition),
        7 => Some(ObjectType::Var),
        8 => Some(ObjectType::Array),
        9 => Some(ObjectType::Record),
        _ => None,
    }
}

/// The kind of object that a number states.
fn kind_numbered(number: Result<u64, Unclear>) -> Option<ObjectType>
    ensures { result ≡ kind_numbered number }
{
    match number {
        Ok(number) => object_type_of(number),
        Err(_) => None,
    }
}

/// The kind of object that a word names.
fn kind_named(alloc: Global, text: &[u8]) -> Result<Option<ObjectType>, AllocError>
    ensures { IfOk result (λ kind. kind ≡ option_and_then object_type_of (named_object_type (undivided text.now))) }
{
    let word = undivided(alloc, text)?;
    match named_object_type(word.as_slice()) {
        Some(number) => Ok(object_type_of(number)),
        None => Ok(None),
    }
}

/// The kind of object that a text states, by its number or a word.
#[tactic(auto, unfolding(crate::specs::Words::object_type_meant))]
pub fn object_type_meant(
    alloc: Global,
    choice: Option<Digits>,
    text: &[u8],
) -> Result<Option<ObjectType>, AllocError>
    ensures { IfOk result (λ kind. kind ≡ object_type_meant choice text.now) }
{
    match kind_numbered(number_meant(alloc, choice, text)?) {
        Some(kind) => Ok(Some(kind)),
        None => kind_named(alloc, text),
    }
}

/// Whether four digits of a data type are hexadecimal without a mark.
fn is_bare_type(text: &[u8]) -> bool
    ensures { result ≡ is_bare_type text.now }
{
    text.len() == 4 && is_octal_too(text)
}

/// The number of the data type that a text states, by its number or a word.
#[tactic(auto, unfolding(crate::specs::Words::data_type_meant))]
pub fn data_type_meant(
    alloc: Global,
    choice: Option<Digits>,
    text: &[u8],
) -> Result<Result<u64, Unclear>, AllocError>
    ensures { IfOk result (λ number. number ≡ data_type_meant choice text.now) }
{
    if is_bare_type(text) {
        return Ok(readable(number_in(16, text)));
    }
    let word = undivided(alloc, text)?;
    match named_data_type(word.as_slice()) {
        Some(number) => Ok(Ok(number)),
        None => number_meant(alloc, choice, text),
    }
}
