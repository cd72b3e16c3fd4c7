//! Compact forms of arrays and records (CiA 306, compact storage).

use crate::keys::entries_as;
use crate::outline::{Outline, Section, key_row, place_at, set_key, value_at, value_in};
use crate::row::{Addition, Row};
use crate::text::{NOTHING, pair};
use crate::types::{Main, address};
use cop_change::Cause;
use cop_tidy_lines::SectionName;
use std::alloc::{AllocError, Global};
use std::collections::BTreeMap;

/// A section that is to be added at the end.
#[derive(Drop)]
pub struct NewSection {
    lines: Vec<Vec<u8>>,
    cause: Cause,
}

impl NewSection {
    /// The section of an object.
    pub fn of(
        alloc: Global,
        index: u64,
        sub: Option<u64>,
        cause: Cause,
    ) -> Result<NewSection, AllocError> {
        let header = match sub {
            Some(sub) => format!(in alloc; "[{index:04X}sub{sub:X}]")?,
            None => format!(in alloc; "[{index:04X}]")?,
        };
        let mut lines = Vec::new(alloc);
        lines.push(header.into_bytes())?;
        Ok(NewSection { lines, cause })
    }

    /// How many bytes the lines have.
    fn size(&self) -> usize {
        let mut size = 0usize;
        for line in self.lines.iter() {
            size = size.saturating_add(line.len());
        }
        size
    }

    /// Adds a key.
    pub fn key(&mut self, alloc: Global, key: &[u8], value: &[u8]) -> Result<(), AllocError> {
        self.lines.push(pair(alloc, key, value)?)?;
        Ok(())
    }

    /// Adds a key whose value is a number.
    pub fn number(&mut self, alloc: Global, key: &[u8], number: u64) -> Result<(), AllocError> {
        let text = format!(in alloc; "{number}")?;
        self.key(alloc, key, text.as_bytes())
    }

    /// Adds a key, where its value is not empty.
    fn optional(
        &mut self,
        alloc: Global,
        key: &[u8],
        value: Option<&[u8]>,
    ) -> Result<(), AllocError> {
        match value {
            Some(value) => self.key(alloc, key, value),
            None => Ok(()),
        }
    }
}

/// The most bytes of sections that are added: so many a text may have.
const MOST: usize = 4 * 1024 * 1024;

/// The sections that are to be added, by index and sub, the own section of an object first, and how many bytes they have together.
#[derive(Drop)]
pub struct NewSections {
    sections: BTreeMap<(u64, Option<u64>), NewSection>,
    bytes: usize,
}

impl NewSections {
    /// No section.
    pub fn new(alloc: Global) -> NewSections {
        NewSections {
            sections: BTreeMap::new(alloc),
            bytes: 0,
        }
    }

    /// Whether there is no room for another section in a text.
    pub fn are_full(&self) -> bool {
        self.bytes > MOST
    }

    /// Adds the section of an object that is not there yet. More than a text may have are left out.
    pub fn put(
        &mut self,
        index: u64,
        sub: Option<u64>,
        section: NewSection,
    ) -> Result<(), AllocError> {
        if self.are_full() || self.sections.contains_key(&(index, sub)) {
            return Ok(());
        }
        self.bytes = self.bytes.saturating_add(section.size());
        self.sections.insert((index, sub), section)?;
        Ok(())
    }
}

/// The lines of sections that are added behind a row.
pub fn additions_of(
    sections: NewSections,
    behind: usize,
    additions: &mut Vec<Addition>,
) -> Result<(), AllocError> {
    for (_, section) in sections.sections {
        let cause = section.cause;
        add_lines(section.lines, behind, cause, additions)?;
    }
    Ok(())
}

/// Adds lines behind a row.
fn add_lines(
    lines: Vec<Vec<u8>>,
    behind: usize,
    cause: Cause,
    additions: &mut Vec<Addition>,
) -> Result<(), AllocError> {
    for body in lines {
        additions.push(Addition {
            behind,
            body,
            cause,
        })?;
    }
    Ok(())
}

/// A compact form, and the sections that name its sub objects and give them values.
#[derive(Drop)]
struct Form<'a> {
    index: u64,
    main: &'a Main,
    names: BTreeMap<u64, usize>,
    values: BTreeMap<u64, usize>,
    /// The lines of its own keys that each sub object has too.
    shared: Vec<Vec<u8>>,
    cause: Cause,
}

/// The rows of the entries of a section that belongs to the compact form of an object.
fn entries_of(
    alloc: Global,
    rows: &[Row<'_>],
    outline: &Outline,
    name: SectionName,
    index: u64,
) -> Result<BTreeMap<u64, usize>, AllocError> {
    match outline.named(name) {
        Some(section) => entries_as(alloc, rows, section, SectionName::Values(index)),
        None => Ok(BTreeMap::new(alloc)),
    }
}

/// The value of an entry that is not empty.
fn entry<'r>(rows: &'r [Row<'_>], entries: &BTreeMap<u64, usize>, sub: u64) -> Option<&'r [u8]> {
    let value = value_at(rows, *entries.get(&sub)?);
    (!value.is_empty()).then_some(value)
}

/// The section of the number of sub objects.
fn count_section(alloc: Global, form: &Form<'_>) -> Result<NewSection, AllocError> {
    let mut section = NewSection::of(alloc, form.index, Some(0), form.cause)?;
    section.key(alloc, b"ParameterName", b"NrOfObjects")?;
    section.key(alloc, b"ObjectType", b"0x7")?;
    section.key(alloc, b"DataType", b"0x0005")?;
    section.key(alloc, b"AccessType", b"ro")?;
    section.number(alloc, b"DefaultValue", form.main.compact)?;
    Ok(section)
}

/// The name of a sub object.
fn name_of(
    alloc: Global,
    rows: &[Row<'_>],
    form: &Form<'_>,
    sub: u64,
) -> Result<Vec<u8>, AllocError> {
    if let Some(name) = entry(rows, &form.names, sub) {
        return Vec::from_slice(alloc, name);
    }
    let name = value_in(rows, form.main.section, b"ParameterName").unwrap_or(NOTHING);
    let mut all = Vec::from_slice(alloc, name)?;
    let number = format!(in alloc; "{sub}")?;
    all.extend_from_slice(number.as_bytes())?;
    Ok(all)
}

/// The lines of the keys of a compact form that each sub object has too.
fn shared_lines(alloc: Global, rows: &[Row<'_>], own: Section) -> Result<Vec<Vec<u8>>, AllocError> {
    let mut lines = Vec::new(alloc);
    for key in [
        b"DataType" as &[u8],
        b"AccessType",
        b"LowLimit",
        b"HighLimit",
        b"DefaultValue",
        b"PDOMapping",
    ] {
        if let Some(value) = value_in(rows, own, key) {
            lines.push(pair(alloc, key, value)?)?;
        }
    }
    Ok(lines)
}

/// The section of a sub object.
fn sub_section(
    alloc: Global,
    rows: &[Row<'_>],
    form: &Form<'_>,
    sub: u64,
) -> Result<NewSection, AllocError> {
    let name = name_of(alloc, rows, form, sub)?;
    let mut section = NewSection::of(alloc, form.index, Some(sub), form.cause)?;
    section.key(alloc, b"ParameterName", &name)?;
    section.key(alloc, b"ObjectType", b"0x7")?;
    for line in form.shared.iter() {
        section.lines.push(line.clone()?)?;
    }
    section.optional(alloc, b"ParameterValue", entry(rows, &form.values, sub))?;
    Ok(section)
}

/// Adds the sections of a compact form that are not there.
fn add_subs(
    alloc: Global,
    rows: &[Row<'_>],
    outline: &Outline,
    form: &Form<'_>,
    sections: &mut NewSections,
) -> Result<(), AllocError> {
    for sub in 0..=form.main.compact {
        if sections.are_full() || outline.object(form.index, Some(sub)).is_some() {
            continue;
        }
        let section = if sub == 0 {
            count_section(alloc, form)?
        } else {
            sub_section(alloc, rows, form, sub)?
        };
        sections.put(form.index, Some(sub), section)?;
    }
    Ok(())
}

/// States that an object has its sub sections, and how many.
fn close_form(
    alloc: Global,
    rows: &mut [Row<'_>],
    additions: &mut Vec<Addition>,
    main: &Main,
) -> Result<(), AllocError> {
    let count = main.compact.saturating_add(1);
    let text = format!(in alloc; "{count}")?;
    set_key(
        alloc,
        rows,
        additions,
        main.section,
        b"CompactSubObj",
        b"0",
        Cause::Compact,
    )?;
    set_key(
        alloc,
        rows,
        additions,
        main.section,
        b"SubNumber",
        text.as_bytes(),
        Cause::Compact,
    )?;
    Ok(())
}

/// Writes out the compact form of an object.
fn write_out(
    alloc: Global,
    rows: &mut [Row<'_>],
    outline: &Outline,
    index: u64,
    main: &Main,
    additions: &mut Vec<Addition>,
    sections: &mut NewSections,
) -> Result<(), AllocError> {
    let place = match key_row(rows, main.section, b"CompactSubObj") {
        Some(at) => place_at(rows, at),
        None => place_at(rows, main.section.header),
    };
    let form = Form {
        index,
        main,
        names: entries_of(alloc, rows, outline, SectionName::Names(index), index)?,
        values: entries_of(alloc, rows, outline, SectionName::Values(index), index)?,
        shared: shared_lines(alloc, rows, main.section)?,
        cause: Cause::CompactOf(place),
    };
    add_subs(alloc, rows, outline, &form, sections)?;
    close_form(alloc, rows, additions, main)
}

/// Whether the compact form of an object can be written out.
fn can_be_written(main: &Main) -> bool {
    matches!(main.object_type, 8 | 9) && main.compact != 0 && main.compact <= 254
}

/// Writes out the compact forms of objects.
pub fn write_compact(
    alloc: Global,
    rows: &mut [Row<'_>],
    outline: &Outline,
    mains: &BTreeMap<u64, Main>,
    additions: &mut Vec<Addition>,
    sections: &mut NewSections,
) -> Result<(), AllocError> {
    for section in outline.sections.iter() {
        let Some((index, None)) = address(section.name) else {
            continue;
        };
        if let Some(main) = mains.get(&index)
            && can_be_written(main)
        {
            write_out(alloc, rows, outline, index, main, additions, sections)?;
        }
    }
    Ok(())
}
