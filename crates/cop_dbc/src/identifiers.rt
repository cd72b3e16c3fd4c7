//! Identifiers of a CAN database: letters, digits and underlines, of which the first is no digit, and at most 32.

use std::alloc::{AllocError, Global};
use std::collections::BTreeSet;

/// The most characters of an identifier.
const MOST: usize = 32;

/// What stands in an identifier for a character of a name.
fn plain(character: char) -> char {
    if character.is_ascii_alphanumeric() {
        character
    } else {
        '_'
    }
}

/// Whether a name begins with what no identifier begins with.
fn begins_with_digit(name: &str) -> bool {
    match name.chars().next() {
        Some(first) => first.is_ascii_digit(),
        None => true,
    }
}

/// The identifier of at most so many characters that a name becomes.
fn identifier(alloc: Global, name: &str, most: usize) -> Result<String, AllocError> {
    let mut text = String::new(alloc);
    if begins_with_digit(name) {
        text.push('_')?;
    }
    for character in name.chars() {
        if text.len() >= most {
            break;
        }
        text.push(plain(character))?;
    }
    Ok(text)
}

/// An identifier with a number behind it, cut where it is too long.
fn numbered(alloc: Global, name: &str, number: usize) -> Result<String, AllocError> {
    let behind = format!(in alloc; "_{number}")?;
    let mut text = identifier(alloc, name, MOST.saturating_sub(behind.len()))?;
    text.push_str(&behind)?;
    Ok(text)
}

/// Identifiers that are given, none twice.
#[derive(Drop)]
pub(crate) struct Identifiers {
    given: BTreeSet<String>,
}

impl Identifiers {
    pub(crate) fn new(alloc: Global) -> Identifiers {
        Identifiers {
            given: BTreeSet::new(alloc),
        }
    }

    /// The first identifier of a name that is not given: the name's own, or that with a number behind it. Of one more than are
    /// given one is free.
    fn free(&self, alloc: Global, name: &str) -> Result<String, AllocError> {
        let own = identifier(alloc, name, MOST)?;
        if !self.given.contains(&own) {
            return Ok(own);
        }
        for number in 2..self.given.len().saturating_add(3) {
            let other = numbered(alloc, name, number)?;
            if !self.given.contains(&other) {
                return Ok(other);
            }
        }
        Ok(own)
    }

    /// Gives a name an identifier that no other name has.
    pub(crate) fn give(&mut self, alloc: Global, name: &str) -> Result<String, AllocError> {
        let identifier = self.free(alloc, name)?;
        self.given.insert(identifier.clone()?)?;
        Ok(identifier)
    }
}
