//! What is said of the mapping of a PDO.

use crate::devices::{Device, push_value_line};
use crate::names::PdoName;
use cop_dict::{DataType, Dictionary, Direction, Mapped, MappingFault, Object};
use cop_net::DevicePdo;
use std::alloc::{AllocError, Global};
use std::fmt;

/// The index of a PDO's communication record.
pub(crate) fn communication(pdo: DevicePdo) -> u16 {
    let before = match pdo.direction {
        Direction::Receive => 0x13FF,
        Direction::Transmit => 0x17FF,
    };
    pdo.number.saturating_add(before)
}

/// How many entries a mapping record counts, 0 where that cannot be said.
fn count_in(dict: &Dictionary, mapping: u16) -> u8 {
    let Some(entry) = dict.entry(mapping, 0) else {
        return 0;
    };
    match (entry.description().data_type, entry.value()) {
        (DataType::Unsigned8, [count]) => *count,
        _ => 0,
    }
}

/// The sub of the first entry of a mapping record that breaks a rule, 0 for the record as a whole.
fn broken_sub(dict: &Dictionary, mapping: u16) -> u8 {
    let count = count_in(dict, mapping);
    if count > 64 {
        return 0;
    }
    for done in 0..count {
        if dict.mapped(mapping, done + 1).is_err() {
            return done + 1;
        }
    }
    0
}

/// What an entry of a mapping record says: an index, a sub and a length in bits.
fn mapped_by(entry: &Object) -> Option<Mapped> {
    let number = entry.unsigned32()?;
    Some(Mapped {
        index: u16::try_from(number / (1 << 16) % (1 << 16)).ok()?,
        sub: u8::try_from(number / (1 << 8) % (1 << 8)).ok()?,
        bits: u8::try_from(number % (1 << 8)).ok()?,
    })
}

/// Why an object may not be mapped so.
fn unmappable(object: &Object, mapped: Mapped) -> &'static str {
    let description = object.description();
    if !description.is_mappable {
        return "whose PDOMapping is 0";
    }
    if description.data_type.bits() != Some(usize::from(mapped.bits)) {
        return "which has another length";
    }
    "whose AccessType does not let a PDO move it so"
}

/// What is wrong with an entry of a mapping record.
#[derive(Clone, Copy)]
struct BrokenEntry<'a> {
    dict: &'a Dictionary,
    mapping: u16,
    sub: u8,
}

impl BrokenEntry<'_> {
    /// Why the object may not be mapped.
    fn why(self, mapped: Mapped) -> &'static str {
        match self.dict.entry(mapped.index, mapped.sub) {
            Some(object) => unmappable(object, mapped),
            None => "which is not there",
        }
    }
}

impl fmt::Display for BrokenEntry<'_> {
    fn fmt<W: fmt::Write>(&self, f: &mut fmt::Formatter<W>) -> fmt::Result {
        let (mapping, sub) = (self.mapping, self.sub);
        write!(f, "{mapping:04X}h sub {sub}")?;
        let Some(mapped) = self.dict.entry(mapping, sub).and_then(mapped_by) else {
            return f.write_str(" is absent, or is no UNSIGNED32");
        };
        let why = self.why(mapped);
        let Mapped { index, sub, bits } = mapped;
        write!(f, " maps {bits} bits of {index:04X}h sub {sub}, {why}")
    }
}

/// What is wrong with a mapping record as a whole.
#[derive(Clone, Copy)]
struct BrokenRecord<'a> {
    dict: &'a Dictionary,
    pdo: DevicePdo,
    fault: MappingFault,
}

impl fmt::Display for BrokenRecord<'_> {
    fn fmt<W: fmt::Write>(&self, f: &mut fmt::Formatter<W>) -> fmt::Result {
        let index = communication(self.pdo);
        let mapping = index.saturating_add(0x200);
        if self.dict.entry(index, 1).is_none() {
            return write!(f, "{index:04X}h sub 1 is absent");
        }
        let why = match self.fault {
            MappingFault::TooLong => " has more than 64 entries, or they have more than 64 bits",
            _ => " sub 0 is absent, is 0, or is no UNSIGNED8",
        };
        write!(f, "{mapping:04X}h{why}")
    }
}

/// Adds what a device's EDS file is, where that is why it describes no PDO: an empty file, one of no object, or that of a modular device, whose
/// objects its configurator describes (CiA 306, "SupportedModules").
fn push_nature(words: &mut Vec<u8>, device: &Device<'_>) -> Result<(), AllocError> {
    if device.eds.source().is_empty() {
        return words.extend_from_slice(b"its EDS file is empty\n");
    }
    if device.dictionary.entries().is_empty() {
        words.extend_from_slice(b"its EDS file describes no object\n")?;
    }
    if device.eds.section(b"SupportedModules").is_some() {
        words.extend_from_slice(
            b"its EDS file is of a modular device ([SupportedModules]): name the DCF file of its configurator, which has the objects of its modules\n",
        )?;
    }
    Ok(())
}

/// Adds what is wrong with the mapping of a PDO, and the line of the EDS text that says it.
pub(crate) fn push_mapping(
    words: &mut Vec<u8>,
    alloc: Global,
    device: &Device<'_>,
    pdo: DevicePdo,
    fault: MappingFault,
) -> Result<(), AllocError> {
    let dict = &device.dictionary;
    let mapping = communication(pdo).saturating_add(0x200);
    let sub = match dict.entry(communication(pdo), 1) {
        Some(_) => broken_sub(dict, mapping),
        None => 0,
    };
    let name = PdoName(pdo);
    let line = if sub == 0 {
        let said = BrokenRecord { dict, pdo, fault };
        format!(in alloc; "{name}: {said}\n")?
    } else {
        let said = BrokenEntry { dict, mapping, sub };
        format!(in alloc; "{name}: {said}\n")?
    };
    words.extend_from_slice(line.as_bytes())?;
    push_nature(words, device)?;
    push_value_line(words, alloc, &device.eds, mapping, sub)
}

/// Adds what the entries of a mapping move, as their lengths in bits and their objects.
fn push_entries(words: &mut Vec<u8>, alloc: Global, entries: &[Mapped]) -> Result<(), AllocError> {
    for mapped in entries {
        let (index, sub, bits) = (mapped.index, mapped.sub, mapped.bits);
        let said = format!(in alloc; " {bits} ({index:04X}h sub {sub})")?;
        words.extend_from_slice(said.as_bytes())?;
    }
    words.push(b'\n')?;
    Ok(())
}

/// Adds the layout of a PDO of a device: the bits of its entries in their order.
pub(crate) fn push_layout(
    words: &mut Vec<u8>,
    alloc: Global,
    device: &Device<'_>,
    pdo: DevicePdo,
) -> Result<(), AllocError> {
    if pdo.number < 1 || pdo.number > 512 {
        return Ok(());
    }
    let Ok(mapping) = cop_pdo::payload(&device.dictionary, pdo.direction, pdo.number) else {
        return Ok(());
    };
    let name = PdoName(pdo);
    let begin = format!(in alloc; "{name} has the bits")?;
    words.extend_from_slice(begin.as_bytes())?;
    push_entries(words, alloc, mapping.entries())
}
