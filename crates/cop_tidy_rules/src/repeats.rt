//! Sections and keys that stand twice.

use crate::keys::key_at;
use crate::outline::{Outline, Section};
use crate::row::Row;
use crate::text::{Form, lower, name_of};
use cop_change::Cause;
use cop_tidy_lines::{Key, is_read};
use std::alloc::{AllocError, Global};
use std::collections::BTreeSet;

/// The keys of a section so far: the numbers of entries, the other keys that something reads, and what the rest is called, in lower case.
#[derive(Drop)]
struct Keys {
    numbers: BTreeSet<u64>,
    read: Vec<Key>,
    unread: BTreeSet<Vec<u8>>,
}

impl Keys {
    fn none(alloc: Global) -> Keys {
        Keys {
            numbers: BTreeSet::new(alloc),
            read: Vec::new(alloc),
            unread: BTreeSet::new(alloc),
        }
    }

    /// Adds a key of this name, and answers for whether it is new.
    fn add(&mut self, alloc: Global, key: Key, name: &[u8]) -> Result<bool, AllocError> {
        match key {
            Key::Entry(number) => Ok(self.numbers.insert(number)?),
            Key::Unread => Ok(self.unread.insert(lower(alloc, name)?)?),
            _ => self.add_read(key),
        }
    }

    fn add_read(&mut self, key: Key) -> Result<bool, AllocError> {
        let is_new = !self.read.contains(&key);
        if is_new {
            self.read.push(key)?;
        }
        Ok(is_new)
    }
}

/// Makes the header and the keys of a section comments.
fn drop_section(alloc: Global, rows: &mut [Row<'_>], section: Section) -> Result<(), AllocError> {
    for at in section.header..section.end {
        if let Some(row) = rows.get_mut(at)
            && row.form() != Form::Comment
        {
            row.comment(alloc, Cause::SectionTwice)?;
        }
    }
    Ok(())
}

/// Makes the key of a row a comment, where its section has it already.
fn drop_key(
    alloc: Global,
    row: &mut Row<'_>,
    section: Section,
    keys: &mut Keys,
) -> Result<(), AllocError> {
    if row.form() != Form::Pair {
        return Ok(());
    }
    let key = key_at(alloc, row, section.name)?;
    if !keys.add(alloc, key, row.key())? {
        row.comment(alloc, Cause::KeyTwice)?;
    }
    Ok(())
}

/// Makes the keys comments that stand twice in a section.
fn drop_keys(alloc: Global, rows: &mut [Row<'_>], section: Section) -> Result<(), AllocError> {
    let mut keys = Keys::none(alloc);
    for at in section.header..section.end {
        if let Some(row) = rows.get_mut(at) {
            drop_key(alloc, row, section, &mut keys)?;
        }
    }
    Ok(())
}

/// Whether a section stands behind the first of its name. The names of those that nothing reads are noted in lower case.
fn is_repeated(
    alloc: Global,
    rows: &[Row<'_>],
    outline: &Outline,
    section: Section,
    unread: &mut BTreeSet<Vec<u8>>,
) -> Result<bool, AllocError> {
    if is_read(section.name) {
        let first = outline.named(section.name);
        return Ok(first.is_some_and(|first| first.header != section.header));
    }
    let Some(header) = rows.get(section.header) else {
        return Ok(false);
    };
    let is_new = unread.insert(lower(alloc, name_of(header.body()))?)?;
    Ok(!is_new)
}

/// Makes comments of the sections and the keys that stand twice, and answers for whether a section does. The first one counts.
pub fn drop_repeats(
    alloc: Global,
    rows: &mut [Row<'_>],
    outline: &Outline,
) -> Result<bool, AllocError> {
    let mut unread = BTreeSet::new(alloc);
    let mut is_any = false;
    for section in outline.sections.iter().copied() {
        if is_repeated(alloc, rows, outline, section, &mut unread)? {
            drop_section(alloc, rows, section)?;
            is_any = true;
        } else {
            drop_keys(alloc, rows, section)?;
        }
    }
    Ok(is_any)
}
