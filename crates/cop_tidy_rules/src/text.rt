//! Bytes of a line.

use cop_eds::{is_comment, is_header, is_pair};
pub use cop_eds::{after_first, before_first, is_blank, name_of, same_name, trim, trim_start};
use std::alloc::{AllocError, Global};

/// No bytes.
pub const NOTHING: &[u8] = &[];

/// The bytes from a place on.
pub fn from(bytes: &[u8], place: usize) -> &[u8] {
    bytes.get(place..).unwrap_or(NOTHING)
}

/// The bytes up to a place.
pub fn upto(bytes: &[u8], place: usize) -> &[u8] {
    bytes.get(..place).unwrap_or(bytes)
}

/// Two texts, one behind the other.
pub fn joined(alloc: Global, left: &[u8], right: &[u8]) -> Result<Vec<u8>, AllocError> {
    let mut all = Vec::with_capacity(alloc, left.len().saturating_add(right.len()))?;
    all.extend_from_slice(left)?;
    all.extend_from_slice(right)?;
    Ok(all)
}

/// The line of a key and its value.
pub fn pair(alloc: Global, key: &[u8], value: &[u8]) -> Result<Vec<u8>, AllocError> {
    let length = key.len().saturating_add(value.len()).saturating_add(1);
    let mut line = Vec::with_capacity(alloc, length)?;
    line.extend_from_slice(key)?;
    line.push(b'=')?;
    line.extend_from_slice(value)?;
    Ok(line)
}

/// The bytes in lower case.
pub fn lower(alloc: Global, bytes: &[u8]) -> Result<Vec<u8>, AllocError> {
    bytes.iter().map(|b| b.to_ascii_lowercase()).collect(alloc)
}

/// Where the first equals sign of a line stands; its length where it has none.
pub fn sign_of(line: &[u8]) -> usize {
    before_first(line, b'=').len()
}

/// What a line is, as the strict reading sees it.
#[derive(Clone, Copy, Debug, PartialEq, Eq)]
pub enum Form {
    /// Blanks, or a comment.
    Comment,
    /// `[name]`.
    Header,
    /// `key=value`.
    Pair,
    /// None of these.
    Bad,
}

/// What the strict reading sees in a line.
pub fn form_of(line: &[u8]) -> Form {
    if is_comment(line) {
        Form::Comment
    } else if is_header(line) {
        Form::Header
    } else if is_pair(line) {
        Form::Pair
    } else {
        Form::Bad
    }
}
