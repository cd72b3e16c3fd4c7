//! Keys in the spelling of CiA 306.

use crate::names::{fixed_key, key_text};
use crate::outline::Section;
use crate::row::Row;
use crate::text::{Form, from, joined, same_name};
use cop_change::Cause;
use cop_tidy_lines::{Key, SectionName, key_meant};
use std::alloc::{AllocError, Global};
use std::collections::BTreeMap;

/// The key that a row states as a row of a section of this name.
pub fn key_as(alloc: Global, row: &Row<'_>, name: SectionName) -> Result<Key, AllocError> {
    if row.form() == Form::Pair {
        key_meant(alloc, name, row.key())
    } else {
        Ok(Key::Unread)
    }
}

/// The key that a row states in its section, which has this name.
pub fn key_at(alloc: Global, row: &Row<'_>, name: SectionName) -> Result<Key, AllocError> {
    match row.meant {
        Some(key) => Ok(key),
        None => key_as(alloc, row, name),
    }
}

/// Gives a row another key.
pub fn set_key_text(
    alloc: Global,
    row: &mut Row<'_>,
    key: &[u8],
    cause: Cause,
) -> Result<(), AllocError> {
    if same_name(key, row.key()) {
        return Ok(());
    }
    let body = joined(alloc, key, from(row.body(), row.sign()))?;
    row.set(body, cause);
    Ok(())
}

/// Why a key is spelled anew.
fn cause_of(key: Key) -> Cause {
    match key {
        Key::Entry(_) => Cause::Zeros,
        _ => Cause::Spelling,
    }
}

/// Spells the key of a row in a section of this name.
fn respell_key(alloc: Global, row: &mut Row<'_>, name: SectionName) -> Result<(), AllocError> {
    let key = key_at(alloc, row, name)?;
    if let Some(text) = fixed_key(key) {
        return set_key_text(alloc, row, text, cause_of(key));
    }
    match key_text(alloc, key)? {
        Some(text) => set_key_text(alloc, row, &text, cause_of(key)),
        None => Ok(()),
    }
}

/// Spells the keys of a section.
pub fn respell_keys(
    alloc: Global,
    rows: &mut [Row<'_>],
    section: Section,
) -> Result<(), AllocError> {
    for at in section.header..section.end {
        if let Some(row) = rows.get_mut(at) {
            respell_key(alloc, row, section.name)?;
        }
    }
    Ok(())
}

/// The rows of the numbered keys of a section, by their numbers, as they are in a section of this name.
pub fn entries_as(
    alloc: Global,
    rows: &[Row<'_>],
    section: Section,
    name: SectionName,
) -> Result<BTreeMap<u64, usize>, AllocError> {
    let mut entries: BTreeMap<u64, usize> = BTreeMap::new(alloc);
    for at in section.header..section.end {
        let Some(row) = rows.get(at) else { break };
        if let Key::Entry(number) = key_as(alloc, row, name)?
            && !entries.contains_key(&number)
        {
            entries.insert(number, at)?;
        }
    }
    Ok(entries)
}
