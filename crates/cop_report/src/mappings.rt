//! What a PDO carries, by the names of the objects, and how its device sends it.

use crate::names::Names;
use crate::nodes::NodeSettings;
use crate::units::{Escaped, Identifier};
use cop_dcf::Setting;
use cop_dict::{Dictionary, Direction};
use cop_net::{Network, PdoRow};
use cop_pdo::payload;
use std::alloc::{AllocError, Global};
use std::fmt;

/// A mapped object of a PDO: its name, and its bits, which count from the lowest of the first byte on.
#[derive(Drop)]
pub(crate) struct MappedObject {
    name: String,
    index: u16,
    sub: u8,
    first: u16,
    bits: u8,
}

/// The mapped objects of the PDO of a row, in the order of their bits.
pub(crate) fn objects_of(
    alloc: Global,
    network: &Network<'_>,
    names: &Names<'_>,
    row: &PdoRow,
) -> Result<Vec<MappedObject>, AllocError> {
    let mut objects = Vec::new(alloc);
    let Some(dict) = network.dictionary(row.node) else {
        return Ok(objects);
    };
    if row.tpdo == 0 || row.tpdo > 512 {
        return Ok(objects);
    }
    let Ok(mapping) = payload(dict, Direction::Transmit, row.tpdo) else {
        return Ok(objects);
    };
    let mut first = 0u16;
    for mapped in mapping.entries() {
        objects.push(MappedObject {
            name: names.name_of(alloc, network, row.node, mapped.index, mapped.sub)?,
            index: mapped.index,
            sub: mapped.sub,
            first,
            bits: mapped.bits,
        })?;
        first = first.saturating_add(u16::from(mapped.bits));
    }
    Ok(objects)
}

/// Adds the names of the objects in one line.
pub(crate) fn push_names(page: &mut String, objects: &[MappedObject]) -> Result<(), AllocError> {
    for (number, object) in objects.iter().enumerate() {
        let comma = if number == 0 { "" } else { ", " };
        let name = Escaped(&object.name);
        write!(page, "{comma}{name}")?;
    }
    Ok(())
}

/// Adds the line of an object.
fn push_object(page: &mut String, object: &MappedObject) -> Result<(), AllocError> {
    let (index, sub, name) = (object.index, object.sub, Escaped(&object.name));
    let (first, bits) = (object.first, u16::from(object.bits));
    let last = first.saturating_add(bits.saturating_sub(1));
    write!(
        page,
        "<li><code>{index:04X}h sub {sub}</code> {name} <small>{bits} bits, {first} to {last}</small></li>"
    )
}

/// Adds the objects, a line each.
pub(crate) fn push_objects(page: &mut String, objects: &[MappedObject]) -> Result<(), AllocError> {
    page.push_str("<ul class=\"map\">")?;
    for object in objects {
        push_object(page, object)?;
    }
    page.push_str("</ul>")
}

/// By what a PDO is sent, by its transmission type (CiA 301, "PDO communication parameter record").
#[derive(Clone, Copy)]
struct Transmission(u32);

impl fmt::Display for Transmission {
    fn fmt<W: fmt::Write>(&self, f: &mut fmt::Formatter<W>) -> fmt::Result {
        let number = self.0;
        match number {
            0 => f.write_str("sent at the SYNC after an event (type 0)"),
            1 => f.write_str("sent at each SYNC (type 1)"),
            2..=240 => write!(f, "sent at every {number} SYNCs (type {number})"),
            252 | 253 => write!(f, "sent on a remote request (type {number})"),
            254 => f.write_str("sent on events of the maker (type 254)"),
            255 => f.write_str("sent on events of the device profile (type 255)"),
            _ => write!(f, "sent by type {number}"),
        }
    }
}

/// The value that an object has under a plan: the last that is set, or else that of the EDS file.
fn value_of(dict: &Dictionary, settings: &[Setting], index: u16, sub: u8) -> Option<u32> {
    for setting in settings.iter().rev() {
        if setting.index == index && setting.sub == sub {
            return Some(setting.value);
        }
    }
    let value = dict.entry(index, sub)?.integer()?;
    u32::try_from(value).ok()
}

/// What a plan sets in a node.
fn settings_in(all: &[NodeSettings], node: u8) -> &[Setting] {
    match all.iter().find(|one| one.node == node) {
        Some(one) => &one.settings,
        None => &[],
    }
}

/// Adds how the PDO of a row is sent: its transmission type, its COB-ID, and its times where it has some.
pub(crate) fn push_sending(
    page: &mut String,
    network: &Network<'_>,
    all: &[NodeSettings],
    row: &PdoRow,
    id: u16,
) -> Result<(), AllocError> {
    let Some(dict) = network.dictionary(row.node) else {
        return Ok(());
    };
    let settings = settings_in(all, row.node);
    let record = row.tpdo.saturating_add(0x17FF);
    let (id, tpdo) = (Identifier(id), row.tpdo);
    write!(page, "<p>TPDO {tpdo} is {id}")?;
    if let Some(cob_id) = value_of(dict, settings, record, 1) {
        write!(page, ", COB-ID {cob_id:08X}h")?;
    }
    if let Some(number) = value_of(dict, settings, record, 2) {
        let transmission = Transmission(number);
        write!(page, ", {transmission}")?;
    }
    push_record_times(page, dict, settings, record)?;
    page.push_str(".</p>")
}

/// Adds the inhibit time and the event timer of a communication record, if they are not 0.
fn push_record_times(
    page: &mut String,
    dict: &Dictionary,
    settings: &[Setting],
    record: u16,
) -> Result<(), AllocError> {
    let inhibit = value_of(dict, settings, record, 3).unwrap_or(0);
    if inhibit > 0 {
        let (whole, tenths) = (inhibit / 10, inhibit % 10);
        write!(page, ", inhibit time {whole}.{tenths} ms")?;
    }
    let timer = value_of(dict, settings, record, 5).unwrap_or(0);
    if timer > 0 {
        write!(page, ", event timer {timer} ms")?;
    }
    Ok(())
}
