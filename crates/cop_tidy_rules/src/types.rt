//! Object types, data types and accesses of listed objects.

use crate::names::access_text;
use crate::numbers::type_text;
use crate::outline::{Outline, Section, Text, set_key, value_in};
use crate::row::{Addition, Row};
use crate::standard::{UNSIGNED8, access, data_type, forced_type, is_mapping, is_pdo};
use cop_change::Cause;
use cop_eds::number_of;
use cop_tidy_lines::SectionName;
use cop_tidy_reading::Words;
use std::alloc::{AllocError, Global};
use std::collections::{BTreeMap, BTreeSet};

/// The object types of CiA 301 that tell how an object is read.
const DOMAIN: u64 = 2;

const VAR: u64 = 7;

const ARRAY: u64 = 8;

const RECORD: u64 = 9;

/// An object that a list names.
#[derive(Drop)]
pub struct Main {
    pub section: Section,
    /// Its object type, as it is to be.
    pub object_type: u64,
    /// How many sub objects its compact form has; 0 where it has none.
    pub compact: u64,
    data_type: Option<Vec<u8>>,
    access: Option<Vec<u8>>,
}

/// The number that a key of a section states.
pub fn stated(rows: &[Row<'_>], section: Section, key: &[u8]) -> Option<u64> {
    number_of(value_in(rows, section, key)?).ok()
}

/// The objects of a text, and the records among them that CompactPDO tells of.
#[derive(Clone, Copy)]
pub struct Indexes<'i> {
    pub all: &'i BTreeSet<u64>,
    pub implied: &'i BTreeSet<u64>,
}

/// Whether an object's own section is of an array or a record by its sub sections.
fn is_record_by_subs(
    rows: &[Row<'_>],
    outline: &Outline,
    indexes: Indexes<'_>,
    index: u64,
    section: Section,
    stated: u64,
) -> bool {
    let is_record = indexes.implied.contains(&index) || outline.has_subs_from(index, 0);
    if is_pdo(index) && is_record {
        return stated != ARRAY && stated != RECORD;
    }
    let lacks = value_in(rows, section, b"DataType").is_none()
        || value_in(rows, section, b"AccessType").is_none();
    stated == VAR && lacks && outline.has_subs_from(index, 1)
}

/// The object type that the section of an object is to have.
fn object_type(
    rows: &[Row<'_>],
    outline: &Outline,
    indexes: Indexes<'_>,
    index: u64,
    section: Section,
    compact: u64,
) -> u64 {
    let stated = stated(rows, section, b"ObjectType");
    let number = stated.unwrap_or(VAR);
    if compact != 0 && stated.is_none() {
        ARRAY
    } else if is_record_by_subs(rows, outline, indexes, index, section, number) {
        RECORD
    } else {
        number
    }
}

/// The data type of CiA 301, as a text.
fn standard_type(alloc: Global, index: u64, sub: u64) -> Result<Option<Vec<u8>>, AllocError> {
    match data_type(index, sub) {
        Some(number) => Ok(Some(type_text(alloc, number)?)),
        None => Ok(None),
    }
}

/// The access of CiA 301, as a text.
fn standard_access(alloc: Global, index: u64, sub: u64) -> Result<Option<Vec<u8>>, AllocError> {
    match access(index, sub) {
        Some(access) => Ok(Some(Vec::from_slice(alloc, access_text(access))?)),
        None => Ok(None),
    }
}

/// The data type of an object, or that of CiA 301.
fn type_or_standard(
    alloc: Global,
    rows: &[Row<'_>],
    section: Section,
    index: u64,
) -> Result<Option<Vec<u8>>, AllocError> {
    match value_in(rows, section, b"DataType") {
        Some(value) => Ok(Some(Vec::from_slice(alloc, value)?)),
        None => standard_type(alloc, index, 1),
    }
}

/// The access of an object, or that of CiA 301.
fn access_or_standard(
    alloc: Global,
    rows: &[Row<'_>],
    section: Section,
    index: u64,
) -> Result<Option<Vec<u8>>, AllocError> {
    match value_in(rows, section, b"AccessType") {
        Some(value) => Ok(Some(Vec::from_slice(alloc, value)?)),
        None => standard_access(alloc, index, 1),
    }
}

/// The object at an index.
fn main_of(
    alloc: Global,
    rows: &[Row<'_>],
    outline: &Outline,
    indexes: Indexes<'_>,
    index: u64,
    section: Section,
) -> Result<Main, AllocError> {
    let compact = stated(rows, section, b"CompactSubObj").unwrap_or(0);
    Ok(Main {
        section,
        object_type: object_type(rows, outline, indexes, index, section, compact),
        compact,
        data_type: type_or_standard(alloc, rows, section, index)?,
        access: access_or_standard(alloc, rows, section, index)?,
    })
}

/// The objects that have a section of their own, by their indexes.
pub fn mains_of(
    alloc: Global,
    rows: &[Row<'_>],
    outline: &Outline,
    indexes: Indexes<'_>,
) -> Result<BTreeMap<u64, Main>, AllocError> {
    let mut mains: BTreeMap<u64, Main> = BTreeMap::new(alloc);
    for index in indexes.all.iter() {
        if let Some(section) = outline.object(*index, None) {
            let main = main_of(alloc, rows, outline, indexes, *index, section)?;
            mains.insert(*index, main)?;
        }
    }
    Ok(mains)
}

/// A section of a listed object.
#[derive(Drop)]
struct Place<'a> {
    main: &'a Main,
    section: Section,
    index: u64,
    sub: Option<u64>,
}

impl<'a> Place<'a> {
    /// The object type that the section is to have.
    fn object_type(&self, rows: &[Row<'_>]) -> u64 {
        if self.sub.is_none() {
            self.main.object_type
        } else if is_pdo(self.index) {
            VAR
        } else {
            stated(rows, self.section, b"ObjectType").unwrap_or(VAR)
        }
    }

    fn is_compact(&self) -> bool {
        self.sub.is_none() && self.main.compact != 0 && self.is_counted()
    }

    /// Whether the object is an array or a record.
    fn is_counted(&self) -> bool {
        matches!(self.main.object_type, ARRAY | RECORD)
    }

    /// Whether the subs of the object are like its own section.
    fn has_like_subs(&self) -> bool {
        matches!(self.main.object_type, ARRAY | VAR)
    }

    /// The sub in the words of CiA 301; that of the others for the section of a compact form.
    fn number(&self) -> u64 {
        self.sub.unwrap_or(1)
    }

    /// The data type that a sub must have so that its PDO can be planned.
    fn forced_type(&self) -> Option<u64> {
        forced_type(self.index, self.sub?)
    }
}

/// Gives a section its object type.
fn set_object_type(
    alloc: Global,
    rows: &mut [Row<'_>],
    additions: &mut Vec<Addition>,
    place: &Place<'_>,
) -> Result<(), AllocError> {
    let wanted = place.object_type(rows);
    if stated(rows, place.section, b"ObjectType").unwrap_or(VAR) == wanted {
        return Ok(());
    }
    let text = format!(in alloc; "0x{wanted:X}")?;
    set_key(
        alloc,
        rows,
        additions,
        place.section,
        b"ObjectType",
        text.as_bytes(),
        Cause::ObjectType,
    )
}

/// The data type that a section without one is to have; of a sub that nothing reads any will do.
fn wanted_type(alloc: Global, place: &Place<'_>) -> Result<Option<Vec<u8>>, AllocError> {
    let standard = standard_type(alloc, place.index, place.number())?;
    if standard.is_some() || place.sub.is_none() {
        return Ok(standard);
    }
    if place.sub == Some(0) && place.is_counted() {
        return Ok(Some(type_text(alloc, UNSIGNED8)?));
    }
    match &place.main.data_type {
        Some(text) if place.has_like_subs() => Ok(Some(text.clone()?)),
        _ if place.is_counted() => Ok(None),
        _ => Ok(Some(type_text(alloc, UNSIGNED8)?)),
    }
}

/// The data type that a section is to have in place of what it states; none where that stays.
fn other_type(
    alloc: Global,
    rows: &[Row<'_>],
    place: &Place<'_>,
) -> Result<Option<Vec<u8>>, AllocError> {
    let now = stated(rows, place.section, b"DataType");
    match place.forced_type() {
        Some(forced) if now == Some(forced) => Ok(None),
        Some(forced) => Ok(Some(type_text(alloc, forced)?)),
        None if value_in(rows, place.section, b"DataType").is_some() => Ok(None),
        None => wanted_type(alloc, place),
    }
}

/// Gives a section its data type, where it needs one.
fn set_data_type(
    alloc: Global,
    rows: &mut [Row<'_>],
    additions: &mut Vec<Addition>,
    place: &Place<'_>,
) -> Result<(), AllocError> {
    if place.object_type(rows) != VAR && !place.is_compact() {
        return Ok(());
    }
    let Some(text) = other_type(alloc, rows, place)? else {
        return Ok(());
    };
    set_key(
        alloc,
        rows,
        additions,
        place.section,
        b"DataType",
        &text,
        Cause::DataType,
    )
}

/// The access of a section of which neither CiA 301 nor its array says one; of a sub that nothing reads any will do.
fn access_beside(place: &Place<'_>, words: &Words) -> Option<&'static [u8]> {
    if place.sub.is_some() && !place.is_counted() {
        return Some(b"ro");
    }
    let can_change = place.index == 0x1003 || is_mapping(place.index);
    if place.sub == Some(0) && !can_change {
        return Some(b"ro");
    }
    words.access.map(|access| access_text(access))
}

/// The access that a section without one is to have.
fn wanted_access(
    alloc: Global,
    place: &Place<'_>,
    words: &Words,
) -> Result<Option<Vec<u8>>, AllocError> {
    let standard = standard_access(alloc, place.index, place.number())?;
    if standard.is_some() {
        return Ok(standard);
    }
    if let Some(text) = &place.main.access
        && place.sub.is_some()
        && place.has_like_subs()
    {
        return Ok(Some(text.clone()?));
    }
    match access_beside(place, words) {
        Some(word) => Ok(Some(Vec::from_slice(alloc, word)?)),
        None => Ok(None),
    }
}

/// Gives a section its access, where it needs one.
fn set_access(
    alloc: Global,
    rows: &mut [Row<'_>],
    additions: &mut Vec<Addition>,
    place: &Place<'_>,
    words: &Words,
) -> Result<(), AllocError> {
    let needs = matches!(place.object_type(rows), VAR | DOMAIN) || place.is_compact();
    if !needs || value_in(rows, place.section, b"AccessType").is_some() {
        return Ok(());
    }
    let Some(text) = wanted_access(alloc, place, words)? else {
        return Ok(());
    };
    set_key(
        alloc,
        rows,
        additions,
        place.section,
        b"AccessType",
        &text,
        Cause::Access,
    )
}

/// Gives a section its types and its access.
fn type_section(
    alloc: Global,
    rows: &mut [Row<'_>],
    additions: &mut Vec<Addition>,
    place: &Place<'_>,
    words: &Words,
) -> Result<(), AllocError> {
    set_object_type(alloc, rows, additions, place)?;
    set_data_type(alloc, rows, additions, place)?;
    set_access(alloc, rows, additions, place, words)
}

/// The index and the sub that a section is of.
pub fn address(name: SectionName) -> Option<(u64, Option<u64>)> {
    match name {
        SectionName::Object(index) => Some((index, None)),
        SectionName::Sub(index, sub) => Some((index, Some(sub))),
        _ => None,
    }
}

/// Gives the sections of objects their object types, data types and accesses.
pub fn type_objects<'a>(
    alloc: Global,
    text: Text<'a>,
    indexes: Indexes<'_>,
    words: &Words,
) -> Result<Text<'a>, AllocError> {
    let Text { mut rows, outline } = text;
    let mains = mains_of(alloc, &rows, &outline, indexes)?;
    let mut additions = Vec::new(alloc);
    for section in outline.sections.iter() {
        let Some((index, sub)) = address(section.name) else {
            continue;
        };
        if let Some(main) = mains.get(&index) {
            let place = Place {
                main,
                section: *section,
                index,
                sub,
            };
            type_section(alloc, &mut rows, &mut additions, &place, words)?;
        }
    }
    Text { rows, outline }.with(alloc, additions)
}
