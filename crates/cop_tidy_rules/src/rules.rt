//! The rules, one after the other.

use crate::compact::{NewSections, additions_of, write_compact};
use crate::keys::respell_keys;
use crate::lines::mend_lines;
use crate::lists::{enlist, listed, lists_of, mend_lists};
use crate::outline::{Outline, Section, Text};
use crate::pdos::{Additional, CompactPdo, add_pdos, compact_pdo, implied};
use crate::rates::add_rates;
use crate::repeats::drop_repeats;
use crate::respelling::respell_values;
use crate::row::{Row, rows_of, with_additions};
use crate::types::{Indexes, Main, address, mains_of, type_objects};
use crate::unlisted::list_unlisted;
use crate::values::mend_values;
use cop_change::Change;
use cop_tidy_lines::{Digits, ListName, SectionName};
use cop_tidy_reading::Words;
use std::alloc::{AllocError, Global};
use std::collections::{BTreeMap, BTreeSet};

/// Spells the keys of DeviceInfo and their values.
fn mend_device(
    alloc: Global,
    rows: &mut [Row<'_>],
    outline: &Outline,
    digits: Option<Digits>,
) -> Result<(), AllocError> {
    if let Some(section) = outline.named(SectionName::DeviceInfo) {
        respell_keys(alloc, rows, section)?;
        respell_values(alloc, rows, section, digits)?;
    }
    Ok(())
}

/// A text whose lines, names and lists are those of CiA 306.
fn listed_text<'a>(alloc: Global, base: &'a [u8], words: &Words) -> Result<Text<'a>, AllocError> {
    let mut rows = rows_of(alloc, base)?;
    mend_lines(alloc, &mut rows)?;
    let mut outline = Outline::of(alloc, &rows)?;
    if drop_repeats(alloc, &mut rows, &outline)? {
        outline = Outline::of(alloc, &rows)?;
    }
    mend_device(alloc, &mut rows, &outline, words.digits)?;
    let text = mend_lists(alloc, Text { rows, outline }, words.digits)?;
    let text = list_unlisted(alloc, text, words.unlisted)?;
    add_rates(alloc, text, &words.rates)
}

/// What a text names: the objects in its lists, those of PDOs that CompactPDO tells of besides, and all together.
#[derive(Drop)]
struct Named {
    pdo: CompactPdo,
    listed: BTreeSet<u64>,
    implied: BTreeSet<u64>,
    all: BTreeSet<u64>,
}

impl Named {
    fn of(alloc: Global, rows: &[Row<'_>], outline: &Outline) -> Result<Named, AllocError> {
        let lists = lists_of(alloc, rows, outline)?;
        let listed = listed(alloc, rows, &lists)?;
        let pdo = compact_pdo(rows, outline);
        let implied = implied(alloc, pdo, &listed)?;
        let mut all = BTreeSet::new(alloc);
        for index in listed.iter().chain(implied.iter()) {
            all.insert(*index)?;
        }
        Ok(Named {
            pdo,
            listed,
            implied,
            all,
        })
    }

    fn indexes(&self) -> Indexes<'_> {
        Indexes {
            all: &self.all,
            implied: &self.implied,
        }
    }

    /// Whether a section is of an object that is named.
    fn has(&self, section: Section) -> bool {
        match address(section.name) {
            Some((index, _)) => self.all.contains(&index),
            None => false,
        }
    }
}

/// Spells the keys of the objects that are named, and their numbers and words.
fn respell_objects(
    alloc: Global,
    rows: &mut [Row<'_>],
    outline: &Outline,
    named: &Named,
    digits: Option<Digits>,
) -> Result<(), AllocError> {
    for section in outline.sections.iter() {
        if named.has(*section) {
            respell_keys(alloc, rows, *section)?;
            respell_values(alloc, rows, *section, digits)?;
        }
    }
    Ok(())
}

/// The rows with the compact forms written out.
fn whole_rows<'a>(
    alloc: Global,
    mut rows: Vec<Row<'a>>,
    outline: &Outline,
    named: &Named,
    mains: &BTreeMap<u64, Main>,
) -> Result<Vec<Row<'a>>, AllocError> {
    let mut additions = Vec::new(alloc);
    let mut additional = Additional {
        entries: Vec::new(alloc),
        sections: NewSections::new(alloc),
    };
    write_compact(
        alloc,
        &mut rows,
        outline,
        mains,
        &mut additions,
        &mut additional.sections,
    )?;
    add_pdos(alloc, outline, &named.listed, named.pdo, &mut additional)?;
    let end = rows.len().saturating_sub(1);
    let Additional { entries, sections } = additional;
    enlist(
        alloc,
        &mut rows,
        &mut additions,
        outline,
        ListName::Optional,
        &entries,
    )?;
    additions_of(sections, end, &mut additions)?;
    with_additions(alloc, rows, additions)
}

/// The changes that rows have come through.
fn changes_of(alloc: Global, rows: Vec<Row<'_>>) -> Result<Vec<Change>, AllocError> {
    let mut changes = Vec::new(alloc);
    for row in rows {
        if let Some(change) = row.into_change(alloc)? {
            changes.push(change)?;
        }
    }
    Ok(changes)
}

/// The changes by which a text comes into the form of CiA 306, where its reading leaves nothing open.
pub fn changes_for(alloc: Global, base: &[u8], words: &Words) -> Result<Vec<Change>, AllocError> {
    let Text { mut rows, outline } = listed_text(alloc, base, words)?;
    let named = Named::of(alloc, &rows, &outline)?;
    respell_objects(alloc, &mut rows, &outline, &named, words.digits)?;
    let text = Text { rows, outline };
    let Text { mut rows, outline } = type_objects(alloc, text, named.indexes(), words)?;
    let mains = mains_of(alloc, &rows, &outline, named.indexes())?;
    mend_values(alloc, &mut rows, &outline.sections, &mains, words.digits)?;
    let rows = whole_rows(alloc, rows, &outline, &named, &mains)?;
    changes_of(alloc, rows)
}
