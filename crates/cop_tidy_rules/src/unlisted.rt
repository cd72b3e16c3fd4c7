//! Objects that no list names.

use crate::lists::{Entry, enlist, listed, lists_of};
use crate::outline::{Outline, Text};
use cop_change::Cause;
use cop_tidy_lines::{ListName, Unlisted};
use std::alloc::{AllocError, Global};
use std::collections::BTreeSet;

/// The objects that have a section and that no list names, by rising index: those of the maker, or the others.
fn unlisted_in(
    alloc: Global,
    outline: &Outline,
    listed: &BTreeSet<u64>,
    is_maker: bool,
) -> Result<Vec<Entry>, AllocError> {
    let mut entries = Vec::new(alloc);
    for index in outline.own_indexes(alloc)? {
        let is_makers = matches!(index, 0x2000..=0x5FFF);
        if is_makers == is_maker && !listed.contains(&index) {
            entries.push(Entry {
                index,
                cause: Cause::Unlisted,
            })?;
        }
    }
    Ok(entries)
}

/// Lists the objects that no list names, where that is chosen.
pub fn list_unlisted<'a>(
    alloc: Global,
    text: Text<'a>,
    choice: Option<Unlisted>,
) -> Result<Text<'a>, AllocError> {
    if choice != Some(Unlisted::Add) {
        return Ok(text);
    }
    let Text { mut rows, outline } = text;
    let lists = lists_of(alloc, &rows, &outline)?;
    let listed = listed(alloc, &rows, &lists)?;
    let mut additions = Vec::new(alloc);
    for (list, is_maker) in [(ListName::Optional, false), (ListName::Manufacturer, true)] {
        let entries = unlisted_in(alloc, &outline, &listed, is_maker)?;
        enlist(alloc, &mut rows, &mut additions, &outline, list, &entries)?;
    }
    Text { rows, outline }.with(alloc, additions)
}
