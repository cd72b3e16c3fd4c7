//! The lists of objects.

use crate::keys::{entries_as, respell_keys, set_key_text};
use crate::names::LISTS;
use crate::numbers::number_text;
use crate::outline::{Outline, Section, Text, key_row, last_key, list_header, set_key, value_at};
use crate::respelling::respell_values;
use crate::row::{Addition, Row};
use crate::text::joined;
use cop_change::Cause;
use cop_eds::{number_in, number_of};
use cop_tidy_lines::{Digits, ListName, SectionName, bare_text, number_meant};
use std::alloc::{AllocError, Global};
use std::collections::{BTreeMap, BTreeSet};

/// The key of how many entries a list has.
const COUNT: &[u8] = b"SupportedObjects";

/// A list: how many entries it says it has, and the rows of its entries by their numbers.
#[derive(Drop)]
pub struct List {
    pub section: Section,
    pub count: Option<u64>,
    pub entries: BTreeMap<u64, usize>,
}

/// The list of a section.
fn list_in(alloc: Global, rows: &[Row<'_>], section: Section) -> Result<List, AllocError> {
    let count = key_row(rows, section, COUNT).and_then(|at| number_of(value_at(rows, at)).ok());
    Ok(List {
        section,
        count,
        entries: entries_as(alloc, rows, section, section.name)?,
    })
}

/// The lists that are there, in the order in which they are read.
pub fn lists_of(
    alloc: Global,
    rows: &[Row<'_>],
    outline: &Outline,
) -> Result<Vec<List>, AllocError> {
    let mut lists = Vec::new(alloc);
    for list in LISTS {
        if let Some(section) = outline.named(SectionName::List(list)) {
            lists.push(list_in(alloc, rows, section)?)?;
        }
    }
    Ok(lists)
}

/// Whether there is a section of the object at this index.
fn is_there(outline: &Outline, index: Option<u64>) -> bool {
    index.is_some_and(|index| index <= 0xFFFF && outline.object(index, None).is_some())
}

/// Whether the entry at a row names a section that is there.
fn names_section(rows: &[Row<'_>], outline: &Outline, at: usize) -> bool {
    is_there(outline, number_of(value_at(rows, at)).ok())
}

/// The indexes that the lists name, as far as they say that they have entries.
pub fn listed(
    alloc: Global,
    rows: &[Row<'_>],
    lists: &[List],
) -> Result<BTreeSet<u64>, AllocError> {
    let mut indexes = BTreeSet::new(alloc);
    for list in lists {
        add_listed(rows, list, &mut indexes)?;
    }
    Ok(indexes)
}

/// Adds the indexes that a list names.
fn add_listed(
    rows: &[Row<'_>],
    list: &List,
    indexes: &mut BTreeSet<u64>,
) -> Result<(), AllocError> {
    let count = list.count.unwrap_or(0);
    for (number, at) in list.entries.iter() {
        if let Ok(index) = number_of(value_at(rows, *at))
            && *number >= 1
            && *number <= count
            && index <= 0xFFFF
        {
            indexes.insert(index)?;
        }
    }
    Ok(())
}

/// Whether a value is four hexadecimal digits.
fn is_bare(value: &[u8]) -> bool {
    value.len() == 4 && number_in(16, value).is_some()
}

/// The number that a value is as it stands.
fn plain_index(
    alloc: Global,
    digits: Option<Digits>,
    value: &[u8],
) -> Result<Option<u64>, AllocError> {
    Ok(number_meant(alloc, digits, value)?.ok())
}

/// Whether a value names a section as a decimal number, where it is four digits.
fn is_decimal(
    alloc: Global,
    outline: &Outline,
    digits: Option<Digits>,
    value: &[u8],
) -> Result<bool, AllocError> {
    let text = bare_text(alloc, value)?;
    let text = text.as_slice();
    Ok(!is_bare(text) || is_there(outline, plain_index(alloc, digits, text)?))
}

/// Whether each entry of four digits names a section as a decimal number.
fn are_decimal(
    alloc: Global,
    rows: &[Row<'_>],
    outline: &Outline,
    digits: Option<Digits>,
    list: &List,
) -> Result<bool, AllocError> {
    for at in list.entries.values() {
        if !is_decimal(alloc, outline, digits, value_at(rows, *at))? {
            return Ok(false);
        }
    }
    Ok(true)
}

/// The value of an entry with the mark of a hexadecimal number, where its list has such ones.
fn marked(
    alloc: Global,
    outline: &Outline,
    value: &[u8],
    plain: Option<u64>,
    is_list_decimal: bool,
) -> Result<Option<Vec<u8>>, AllocError> {
    if is_list_decimal || !is_bare(value) || is_there(outline, plain) {
        return Ok(None);
    }
    if is_there(outline, number_in(16, value)) || number_of(value).is_err() {
        Ok(Some(joined(alloc, b"0x", value)?))
    } else {
        Ok(None)
    }
}

/// The value of an entry in a list that is decimal or not, in the spelling of CiA 306, and why it is spelled so.
fn entry_spelled(
    alloc: Global,
    value: &[u8],
    outline: &Outline,
    digits: Option<Digits>,
    is_list_decimal: bool,
) -> Result<(Vec<u8>, Cause), AllocError> {
    let text = bare_text(alloc, value)?;
    let text = text.as_slice();
    let plain = plain_index(alloc, digits, text)?;
    if let Some(marked) = marked(alloc, outline, text, plain, is_list_decimal)? {
        return Ok((marked, Cause::Hexadecimal));
    }
    let spelled = match plain {
        Some(index) => number_text(alloc, text, index)?,
        None => Vec::from_slice(alloc, text)?,
    };
    Ok((spelled, Cause::Word))
}

/// Spells an entry in a list that is decimal or not.
fn respell_entry(
    alloc: Global,
    row: &mut Row<'_>,
    outline: &Outline,
    digits: Option<Digits>,
    is_list_decimal: bool,
) -> Result<(), AllocError> {
    let (text, cause) = entry_spelled(alloc, row.value(), outline, digits, is_list_decimal)?;
    row.set_value(alloc, &text, cause)
}

/// Spells the entries of a list.
fn respell_entries(
    alloc: Global,
    rows: &mut [Row<'_>],
    outline: &Outline,
    digits: Option<Digits>,
    list: &List,
) -> Result<(), AllocError> {
    let is_list_decimal = are_decimal(alloc, rows, outline, digits, list)?;
    for at in list.entries.values() {
        if let Some(row) = rows.get_mut(*at) {
            respell_entry(alloc, row, outline, digits, is_list_decimal)?;
        }
    }
    Ok(())
}

/// Whether a list has the entries that it says it has, each names a section, and no further entry does.
fn is_whole(rows: &[Row<'_>], outline: &Outline, list: &List) -> bool {
    let Some(count) = list.count else {
        return false;
    };
    let mut named = 0u64;
    for (number, at) in list.entries.iter() {
        let is_named = names_section(rows, outline, *at);
        if is_named && (*number == 0 || *number > count) {
            return false;
        }
        if is_named {
            named = named.saturating_add(1);
        }
    }
    named == count
}

/// Numbers an entry that names a section; makes another a comment.
fn number_entry(
    alloc: Global,
    row: &mut Row<'_>,
    is_named: bool,
    number: u64,
) -> Result<(), AllocError> {
    if is_named {
        let text = format!(in alloc; "{number}")?;
        set_key_text(alloc, row, text.as_bytes(), Cause::Numbered)
    } else {
        row.comment(alloc, Cause::Missing)
    }
}

/// Numbers the entries of a list that name sections from 1 on, and states how many they are.
fn number_entries(
    alloc: Global,
    rows: &mut [Row<'_>],
    additions: &mut Vec<Addition>,
    outline: &Outline,
    list: &List,
) -> Result<(), AllocError> {
    let mut count = 0u64;
    for at in list.entries.values() {
        let is_named = names_section(rows, outline, *at);
        if is_named {
            count = count.saturating_add(1);
        }
        if let Some(row) = rows.get_mut(*at) {
            number_entry(alloc, row, is_named, count)?;
        }
    }
    state_count(alloc, rows, additions, list.section, count)
}

/// States how many entries a list has: in the line of that key, or behind the header.
fn state_count(
    alloc: Global,
    rows: &mut [Row<'_>],
    additions: &mut Vec<Addition>,
    section: Section,
    count: u64,
) -> Result<(), AllocError> {
    let text = format!(in alloc; "{count}")?;
    let header = Section {
        end: section.header.saturating_add(1),
        ..section
    };
    let place = match key_row(rows, section, COUNT) {
        Some(_) => section,
        None => header,
    };
    set_key(
        alloc,
        rows,
        additions,
        place,
        COUNT,
        text.as_bytes(),
        Cause::Count,
    )
}

/// Mends a list.
fn mend_list(
    alloc: Global,
    rows: &mut [Row<'_>],
    additions: &mut Vec<Addition>,
    outline: &Outline,
    digits: Option<Digits>,
    section: Section,
) -> Result<(), AllocError> {
    respell_keys(alloc, rows, section)?;
    respell_values(alloc, rows, section, digits)?;
    let list = list_in(alloc, rows, section)?;
    respell_entries(alloc, rows, outline, digits, &list)?;
    if !is_whole(rows, outline, &list) {
        number_entries(alloc, rows, additions, outline, &list)?;
    }
    Ok(())
}

/// Mends the lists: numbers of entries, hexadecimal entries, and how many entries there are.
pub fn mend_lists<'a>(
    alloc: Global,
    text: Text<'a>,
    digits: Option<Digits>,
) -> Result<Text<'a>, AllocError> {
    let Text { mut rows, outline } = text;
    let mut additions = Vec::new(alloc);
    for list in LISTS {
        if let Some(section) = outline.named(SectionName::List(list)) {
            mend_list(alloc, &mut rows, &mut additions, &outline, digits, section)?;
        }
    }
    Text { rows, outline }.with(alloc, additions)
}

/// An object that is to be listed.
#[derive(Clone, Copy, Debug, PartialEq, Eq)]
pub struct Entry {
    pub index: u64,
    pub cause: Cause,
}

/// Adds an entry of this number to a list.
fn add_entry(
    alloc: Global,
    rows: &mut [Row<'_>],
    additions: &mut Vec<Addition>,
    list: &List,
    behind: usize,
    number: u64,
    entry: Entry,
) -> Result<(), AllocError> {
    let index = entry.index;
    let value = format!(in alloc; "0x{index:04X}")?;
    if let Some(at) = list.entries.get(&number)
        && let Some(row) = rows.get_mut(*at)
    {
        return row.set_value(alloc, value.as_bytes(), entry.cause);
    }
    let body = format!(in alloc; "{number}=0x{index:04X}")?;
    additions.push(Addition {
        behind,
        body: body.into_bytes(),
        cause: entry.cause,
    })?;
    Ok(())
}

/// Adds a list with its first entries at the end.
fn add_list(
    alloc: Global,
    behind: usize,
    additions: &mut Vec<Addition>,
    list: ListName,
    entries: &[Entry],
) -> Result<(), AllocError> {
    let Some(first) = entries.first() else {
        return Ok(());
    };
    let cause = first.cause;
    let header = list_header(alloc, list)?;
    let count = entries.len();
    let stated = format!(in alloc; "SupportedObjects={count}")?.into_bytes();
    for body in [header, stated] {
        additions.push(Addition {
            behind,
            body,
            cause,
        })?;
    }
    Ok(())
}

/// Adds entries to the list of this name, which is added at the end where it is absent.
pub fn enlist(
    alloc: Global,
    rows: &mut [Row<'_>],
    additions: &mut Vec<Addition>,
    outline: &Outline,
    name: ListName,
    entries: &[Entry],
) -> Result<(), AllocError> {
    if entries.is_empty() {
        return Ok(());
    }
    let end = rows.len().saturating_sub(1);
    let list = match outline.named(SectionName::List(name)) {
        Some(section) => list_in(alloc, rows, section)?,
        None => {
            add_list(alloc, end, additions, name, entries)?;
            return add_numbered(alloc, end, additions, entries);
        }
    };
    let behind = last_key(rows, list.section);
    let mut number = list.count.unwrap_or(0);
    for entry in entries {
        number = number.saturating_add(1);
        add_entry(alloc, rows, additions, &list, behind, number, *entry)?;
    }
    state_count(alloc, rows, additions, list.section, number)
}

/// Adds entries numbered from 1 behind a row.
fn add_numbered(
    alloc: Global,
    behind: usize,
    additions: &mut Vec<Addition>,
    entries: &[Entry],
) -> Result<(), AllocError> {
    for (at, entry) in entries.iter().enumerate() {
        let number = at.saturating_add(1);
        let index = entry.index;
        let body = format!(in alloc; "{number}=0x{index:04X}")?;
        additions.push(Addition {
            behind,
            body: body.into_bytes(),
            cause: entry.cause,
        })?;
    }
    Ok(())
}
