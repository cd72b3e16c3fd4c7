//! PDOs that a device has by CompactPDO (CiA 306).

use crate::compact::{NewSection, NewSections};
use crate::lists::Entry;
use crate::outline::{Outline, Section, value_in};
use crate::row::Row;
use crate::standard::communication_type;
use cop_change::Cause;
use cop_eds::number_of;
use cop_tidy_lines::SectionName;
use std::alloc::{AllocError, Global};
use std::collections::BTreeSet;

/// A kind of PDO: the indexes of its records, and the identifier that the first has by default.
#[derive(Clone, Copy)]
struct Direction {
    communication: u64,
    mapping: u64,
    identifier: u64,
    name: &'static str,
    count: &'static [u8],
    is_sent: bool,
}

const RECEIVED: Direction = Direction {
    communication: 0x1400,
    mapping: 0x1600,
    identifier: 0x200,
    name: "RPDO",
    count: b"NrOfRXPDO",
    is_sent: false,
};

const SENT: Direction = Direction {
    communication: 0x1800,
    mapping: 0x1A00,
    identifier: 0x180,
    name: "TPDO",
    count: b"NrOfTXPDO",
    is_sent: true,
};

/// How many PDOs of a kind there can be.
const MOST: u64 = 512;

/// The subs of a communication record that CompactPDO tells of, bit by bit.
const SUBS: [&[u8]; 6] = [
    b"COB-ID",
    b"transmission type",
    b"inhibit time",
    b"compatibility entry",
    b"event timer",
    b"SYNC start value",
];

/// Which subs the records have that no list names, and how many PDOs of each kind there are; no subs where CompactPDO says nothing.
#[derive(Clone, Copy, Debug, PartialEq, Eq)]
pub struct CompactPdo {
    subs: u64,
    received: u64,
    sent: u64,
}

/// The number that a key of DeviceInfo states; 0 where it states none.
fn count_in(rows: &[Row<'_>], section: Option<Section>, key: &[u8]) -> u64 {
    match section {
        Some(section) => match value_in(rows, section, key) {
            Some(value) => number_of(value).unwrap_or(0),
            None => 0,
        },
        None => 0,
    }
}

/// What CompactPDO says.
pub fn compact_pdo(rows: &[Row<'_>], outline: &Outline) -> CompactPdo {
    let section = outline.named(SectionName::DeviceInfo);
    CompactPdo {
        subs: count_in(rows, section, b"CompactPDO"),
        received: count_in(rows, section, RECEIVED.count).min(MOST),
        sent: count_in(rows, section, SENT.count).min(MOST),
    }
}

/// The numbers of the PDOs of a kind that a device has by CompactPDO.
fn numbers_of(
    alloc: Global,
    pdo: CompactPdo,
    direction: Direction,
    listed: &BTreeSet<u64>,
) -> Result<Vec<u64>, AllocError> {
    let mut numbers = Vec::new(alloc);
    if pdo.subs == 0 {
        return Ok(numbers);
    }
    let count = if direction.is_sent {
        pdo.sent
    } else {
        pdo.received
    };
    for number in 1..=count {
        if !listed.contains(&record_index(direction.communication, number)) {
            numbers.push(number)?;
        }
    }
    Ok(numbers)
}

/// The records that a device has by CompactPDO and that no list names.
pub fn implied(
    alloc: Global,
    pdo: CompactPdo,
    listed: &BTreeSet<u64>,
) -> Result<BTreeSet<u64>, AllocError> {
    let mut implied = BTreeSet::new(alloc);
    for direction in [RECEIVED, SENT] {
        for number in numbers_of(alloc, pdo, direction, listed)? {
            implied.insert(record_index(direction.communication, number))?;
            let mapping = record_index(direction.mapping, number);
            if !listed.contains(&mapping) {
                implied.insert(mapping)?;
            }
        }
    }
    Ok(implied)
}

impl CompactPdo {
    /// Whether the records have the sub of a bit.
    fn has(&self, bit: u32) -> bool {
        bit < 64 && (self.subs >> bit) % 2 == 1
    }
}

/// The section of a record, with its name.
fn record(
    alloc: Global,
    direction: Direction,
    index: u64,
    number: u64,
    word: &str,
    subs: u64,
) -> Result<NewSection, AllocError> {
    let mut section = NewSection::of(alloc, index, None, Cause::PdoOf(number))?;
    let pdo = direction.name;
    let name = format!(in alloc; "{pdo} {number} {word}")?;
    section.key(alloc, b"ParameterName", name.as_bytes())?;
    section.key(alloc, b"ObjectType", b"0x9")?;
    section.number(alloc, b"SubNumber", subs)?;
    Ok(section)
}

/// What the section of a sub says.
#[derive(Clone, Copy)]
struct Sub<'a> {
    index: u64,
    sub: u64,
    name: &'a [u8],
    access: &'a [u8],
}

/// The section of a sub of a record.
fn sub_section(alloc: Global, sub: Sub<'_>, cause: Cause) -> Result<NewSection, AllocError> {
    let mut section = NewSection::of(alloc, sub.index, Some(sub.sub), cause)?;
    section.key(alloc, b"ParameterName", sub.name)?;
    section.key(alloc, b"ObjectType", b"0x7")?;
    let data_type = communication_type(sub.sub).unwrap_or(5);
    let text = format!(in alloc; "0x{data_type:04X}")?;
    section.key(alloc, b"DataType", text.as_bytes())?;
    section.key(alloc, b"AccessType", sub.access)?;
    Ok(section)
}

/// The default of an identifier: that of CiA 301 for the first four, and else one of a PDO that exists.
fn identifier(alloc: Global, direction: Direction, number: u64) -> Result<Vec<u8>, AllocError> {
    if number == 0 || number > 4 {
        return Vec::from_slice(alloc, b"0x0");
    }
    let step = number.saturating_sub(1).saturating_mul(0x100);
    let base = direction.identifier.saturating_add(step);
    Ok(format!(in alloc; "$NODEID+0x{base:X}")?.into_bytes())
}

/// Adds a section, where it is not there.
fn put(
    outline: &Outline,
    sections: &mut NewSections,
    index: u64,
    sub: Option<u64>,
    section: NewSection,
) -> Result<(), AllocError> {
    if outline.object(index, sub).is_none() {
        sections.put(index, sub, section)?;
    }
    Ok(())
}

/// Adds the subs of a communication record.
fn add_subs(
    alloc: Global,
    outline: &Outline,
    pdo: CompactPdo,
    direction: Direction,
    number: u64,
    sections: &mut NewSections,
) -> Result<(), AllocError> {
    let index = record_index(direction.communication, number);
    for (bit, name) in (0u32..6).zip(SUBS.iter()) {
        if !pdo.has(bit) {
            continue;
        }
        let sub = u64::from(bit).saturating_add(1);
        let said = Sub {
            index,
            sub,
            name,
            access: b"rw",
        };
        let mut section = sub_section(alloc, said, Cause::PdoOf(number))?;
        if sub == 1 {
            let value = identifier(alloc, direction, number)?;
            section.key(alloc, b"DefaultValue", &value)?;
        }
        put(outline, sections, index, Some(sub), section)?;
    }
    Ok(())
}

/// The index of the record of the PDO of this number, from 1.
fn record_index(first: u64, number: u64) -> u64 {
    first.saturating_add(number.saturating_sub(1))
}

/// Adds the communication record of a PDO.
fn add_communication(
    alloc: Global,
    outline: &Outline,
    pdo: CompactPdo,
    direction: Direction,
    number: u64,
    sections: &mut NewSections,
) -> Result<(), AllocError> {
    let index = record_index(direction.communication, number);
    let bits = (0u32..6).filter(|bit| pdo.has(*bit));
    let highest = bits.max().map_or(0, |bit| u64::from(bit).saturating_add(1));
    let count = (0u32..6).filter(|bit| pdo.has(*bit)).count();
    let subs = u64::try_from(count).unwrap_or(0).saturating_add(1);
    let own = record(alloc, direction, index, number, "communication", subs)?;
    put(outline, sections, index, None, own)?;
    let said = Sub {
        index,
        sub: 0,
        name: b"highest sub-index",
        access: b"ro",
    };
    let mut first = sub_section(alloc, said, Cause::PdoOf(number))?;
    first.number(alloc, b"DefaultValue", highest)?;
    put(outline, sections, index, Some(0), first)?;
    add_subs(alloc, outline, pdo, direction, number, sections)
}

/// Adds the mapping record of a PDO, which maps nothing.
fn add_mapping(
    alloc: Global,
    outline: &Outline,
    direction: Direction,
    number: u64,
    sections: &mut NewSections,
) -> Result<(), AllocError> {
    let index = record_index(direction.mapping, number);
    let own = record(alloc, direction, index, number, "mapping", 1)?;
    put(outline, sections, index, None, own)?;
    let said = Sub {
        index,
        sub: 0,
        name: b"number of entries",
        access: b"rw",
    };
    let mut first = sub_section(alloc, said, Cause::PdoOf(number))?;
    first.number(alloc, b"DefaultValue", 0)?;
    put(outline, sections, index, Some(0), first)
}

/// What is added for the PDOs that no list names.
#[derive(Drop)]
pub struct Additional {
    pub entries: Vec<Entry>,
    pub sections: NewSections,
}

/// Adds the records of the PDO of a kind with this number.
fn add_pdo(
    alloc: Global,
    outline: &Outline,
    listed: &BTreeSet<u64>,
    pdo: CompactPdo,
    direction: Direction,
    number: u64,
    additional: &mut Additional,
) -> Result<(), AllocError> {
    let cause = Cause::PdoOf(number);
    let sections = &mut additional.sections;
    add_communication(alloc, outline, pdo, direction, number, sections)?;
    let index = record_index(direction.communication, number);
    additional.entries.push(Entry { index, cause })?;
    let index = record_index(direction.mapping, number);
    if !listed.contains(&index) {
        add_mapping(alloc, outline, direction, number, &mut additional.sections)?;
        additional.entries.push(Entry { index, cause })?;
    }
    Ok(())
}

/// Adds the records of the PDOs that a device has by CompactPDO.
pub fn add_pdos(
    alloc: Global,
    outline: &Outline,
    listed: &BTreeSet<u64>,
    pdo: CompactPdo,
    additional: &mut Additional,
) -> Result<(), AllocError> {
    for direction in [RECEIVED, SENT] {
        for number in numbers_of(alloc, pdo, direction, listed)? {
            add_pdo(alloc, outline, listed, pdo, direction, number, additional)?;
        }
    }
    Ok(())
}
