//! The sections of rows.

use crate::names::list_text;
use crate::row::{Addition, Row, with_additions};
use crate::text::{Form, NOTHING, name_of, pair};
use cop_change::Cause;
use cop_tidy_lines::{ListName, SectionName, section_name};
use std::alloc::{AllocError, Global};
use std::collections::BTreeMap;

/// A section: its header is the row at `header`, and the rows up to `end` are in it.
#[derive(Clone, Copy, Debug, PartialEq, Eq)]
pub struct Section {
    pub header: usize,
    pub end: usize,
    pub name: SectionName,
}

/// What sections have in common that are of one thing, by rising index and sub.
type Place = (u64, u64, u64);

/// The sections of rows, and which is the first of a name.
#[derive(Drop)]
pub struct Outline {
    pub sections: Vec<Section>,
    places: BTreeMap<Place, usize>,
}

fn list_place(list: ListName) -> u64 {
    match list {
        ListName::Mandatory => 0,
        ListName::Optional => 1,
        ListName::Manufacturer => 2,
    }
}

fn place_of(name: SectionName) -> Option<Place> {
    match name {
        SectionName::Object(index) => Some((0, index, 0)),
        SectionName::Sub(index, sub) => Some((1, index, sub)),
        SectionName::Values(index) => Some((2, index, 0)),
        SectionName::List(list) => Some((3, list_place(list), 0)),
        SectionName::DeviceInfo => Some((4, 0, 0)),
        SectionName::Names(index) => Some((5, index, 0)),
        SectionName::Unread => None,
    }
}

/// The sections in their order.
fn sections_of(alloc: Global, rows: &[Row<'_>]) -> Result<Vec<Section>, AllocError> {
    let mut sections: Vec<Section> = Vec::new(alloc);
    for (at, row) in rows.iter().enumerate() {
        if row.form() != Form::Header {
            continue;
        }
        if let Some(last) = sections.last_mut() {
            last.end = at;
        }
        let name = section_name(alloc, name_of(row.body()))?;
        sections.push(Section {
            header: at,
            end: rows.len(),
            name: name.unwrap_or(SectionName::Unread),
        })?;
    }
    Ok(sections)
}

impl Outline {
    pub fn of(alloc: Global, rows: &[Row<'_>]) -> Result<Outline, AllocError> {
        let sections = sections_of(alloc, rows)?;
        let mut places = BTreeMap::new(alloc);
        for (at, section) in sections.iter().enumerate() {
            if let Some(place) = place_of(section.name)
                && !places.contains_key(&place)
            {
                places.insert(place, at)?;
            }
        }
        Ok(Outline { sections, places })
    }

    /// The first section of this name, which is of an object, a list or the device.
    pub fn named(&self, name: SectionName) -> Option<Section> {
        let at = self.places.get(&place_of(name)?)?;
        self.sections.get(*at).copied()
    }

    /// The first section of an object.
    pub fn object(&self, index: u64, sub: Option<u64>) -> Option<Section> {
        match sub {
            Some(sub) => self.named(SectionName::Sub(index, sub)),
            None => self.named(SectionName::Object(index)),
        }
    }

    /// Whether an object has the section of a sub, from this one on.
    pub fn has_subs_from(&self, index: u64, least: u64) -> bool {
        match self.places.range((1, index, least)..).next() {
            Some((place, _)) => place.0 == 1 && place.1 == index,
            None => false,
        }
    }

    /// The indexes of the objects that have a section of their own, by rising index.
    pub fn own_indexes(&self, alloc: Global) -> Result<Vec<u64>, AllocError> {
        let mut indexes = Vec::new(alloc);
        for place in self.places.keys() {
            if place.0 == 0 {
                indexes.push(place.1)?;
            }
        }
        Ok(indexes)
    }
}

/// The lines of a text, and their sections.
#[derive(Drop)]
pub struct Text<'a> {
    pub rows: Vec<Row<'a>>,
    pub outline: Outline,
}

impl<'a> Text<'a> {
    pub fn of(alloc: Global, rows: Vec<Row<'a>>) -> Result<Text<'a>, AllocError> {
        let outline = Outline::of(alloc, &rows)?;
        Ok(Text { rows, outline })
    }

    /// The text with lines added to it.
    pub fn with(self, alloc: Global, additions: Vec<Addition>) -> Result<Text<'a>, AllocError> {
        if additions.is_empty() {
            return Ok(self);
        }
        Text::of(alloc, with_additions(alloc, self.rows, additions)?)
    }
}

/// The row of a key in a section.
pub fn key_row(rows: &[Row<'_>], section: Section, key: &[u8]) -> Option<usize> {
    for at in section.header..section.end {
        if rows.get(at).is_some_and(|row| row.has_key(key)) {
            return Some(at);
        }
    }
    None
}

/// The value of the row at a place.
pub fn value_at<'r>(rows: &'r [Row<'_>], at: usize) -> &'r [u8] {
    match rows.get(at) {
        Some(row) => row.value(),
        None => NOTHING,
    }
}

/// The value of a key in a section, where it is not empty.
pub fn value_in<'r>(rows: &'r [Row<'_>], section: Section, key: &[u8]) -> Option<&'r [u8]> {
    let value = value_at(rows, key_row(rows, section, key)?);
    (!value.is_empty()).then_some(value)
}

/// The number of the line of a row.
pub fn place_at(rows: &[Row<'_>], at: usize) -> usize {
    match rows.get(at) {
        Some(row) => row.place,
        None => 0,
    }
}

/// The last row of a section that is its header or a key.
pub fn last_key(rows: &[Row<'_>], section: Section) -> usize {
    let mut last = section.header;
    for at in section.header..section.end {
        if rows.get(at).is_some_and(|row| row.form() != Form::Comment) {
            last = at;
        }
    }
    last
}

/// Sets a key of a section: in its line, or in a line behind the section's last key.
pub fn set_key(
    alloc: Global,
    rows: &mut [Row<'_>],
    additions: &mut Vec<Addition>,
    section: Section,
    key: &[u8],
    value: &[u8],
    cause: Cause,
) -> Result<(), AllocError> {
    if let Some(at) = key_row(rows, section, key) {
        if let Some(row) = rows.get_mut(at) {
            row.set_value(alloc, value, cause)?;
        }
        return Ok(());
    }
    additions.push(Addition {
        behind: last_key(rows, section),
        body: pair(alloc, key, value)?,
        cause,
    })?;
    Ok(())
}

/// The header of a list.
pub fn list_header(alloc: Global, list: ListName) -> Result<Vec<u8>, AllocError> {
    let mut header = Vec::from_slice(alloc, b"[")?;
    header.extend_from_slice(list_text(list))?;
    header.push(b']')?;
    Ok(header)
}
