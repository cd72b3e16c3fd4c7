//! What is said of a PDO of a device that is refused.

use crate::devices::{Device, device_of, push_type_line, push_value_line, row_of};
use crate::mappings::{communication, push_layout, push_mapping};
use crate::names::PdoName;
use crate::networks::Network;
use crate::paces::sender;
use crate::words::push_rule;
use cop_dict::{Access, DataType, Description, Dictionary, Direction, MappingFault, Object};
use cop_net::{Consumer, DevicePdo, NodeTable, ReceiveFault, read_pdos, whole_of};
use std::alloc::{AllocError, Global};
use std::fmt;

/// The number of the rule that a mapping breaks.
fn mapping_number(fault: MappingFault) -> u8 {
    match fault {
        MappingFault::Absent => 20,
        MappingFault::TooLong => 21,
        MappingFault::NoObject => 22,
        MappingFault::NotMappable => 23,
    }
}

/// The tables of a network that is refused for a PDO, and the record of the row.
#[derive(Clone, Copy)]
pub(crate) struct RefusedRow<'a> {
    pub files: Network<'a>,
    pub nodes: &'a NodeTable,
    pub place: u64,
}

impl<'a> RefusedRow<'a> {
    /// The device of a node.
    fn device(self, alloc: Global, node: u8) -> Result<Option<Device<'a>>, AllocError> {
        device_of(alloc, self.files, self.nodes, node)
    }

    /// The TPDO of the row.
    fn tpdo(self, alloc: Global) -> Option<DevicePdo> {
        let row = sender(alloc, self.files.pdos.text, self.place)?;
        Some(DevicePdo {
            direction: Direction::Transmit,
            node: row.node,
            number: row.tpdo,
        })
    }
}

/// Adds that a node has no device row.
fn push_no_device(
    words: &mut Vec<u8>,
    alloc: Global,
    row: RefusedRow<'_>,
    pdo: DevicePdo,
) -> Result<(), AllocError> {
    let (name, node, nodes) = (PdoName(pdo), pdo.node, row.files.nodes.name);
    let line = format!(in alloc; "{name}: node {node} has no device row in {nodes}\n")?;
    words.extend_from_slice(line.as_bytes())?;
    Ok(())
}

/// Adds what a mapping breaks, where, and its rule.
fn push_broken_mapping(
    words: &mut Vec<u8>,
    alloc: Global,
    row: RefusedRow<'_>,
    pdo: DevicePdo,
    fault: MappingFault,
) -> Result<(), AllocError> {
    if let Some(device) = row.device(alloc, pdo.node)? {
        push_mapping(words, alloc, &device, pdo, fault)?;
    }
    push_rule(words, alloc, mapping_number(fault))
}

/// Adds why a TPDO has no payload.
pub(crate) fn push_transmit(
    words: &mut Vec<u8>,
    alloc: Global,
    row: RefusedRow<'_>,
    fault: Option<MappingFault>,
) -> Result<(), AllocError> {
    let Some(pdo) = row.tpdo(alloc) else {
        return Ok(());
    };
    match fault {
        Some(fault) => push_broken_mapping(words, alloc, row, pdo, fault),
        None => push_no_device(words, alloc, row, pdo),
    }
}

/// Why a COB-ID cannot be set as plans do.
fn cob_id_reason(description: Description) -> &'static str {
    if matches!(description.access, Access::ReadOnly | Access::Constant) {
        return "its AccessType does not let it be written, so the device fixes this identifier; another word in the file does not change the device";
    }
    "its LowLimit or HighLimit excludes a value that it needs"
}

/// What is wrong with the COB-ID of a communication record.
fn cob_id_fault(dict: &Dictionary, index: u16) -> &'static str {
    match dict.entry(index, 1) {
        None => "it is absent",
        Some(entry) if entry.unsigned32().is_none() => "it is no UNSIGNED32",
        Some(entry) => cob_id_reason(entry.description()),
    }
}

/// Adds what is wrong with the COB-ID of a PDO, and its line of the EDS text.
fn push_cob_id_of(
    words: &mut Vec<u8>,
    alloc: Global,
    device: &Device<'_>,
    pdo: DevicePdo,
) -> Result<(), AllocError> {
    let index = communication(pdo);
    let (name, why) = (PdoName(pdo), cob_id_fault(&device.dictionary, index));
    let line = format!(in alloc; "{name}: its COB-ID is {index:04X}h sub 1: {why}\n")?;
    words.extend_from_slice(line.as_bytes())?;
    push_value_line(words, alloc, &device.eds, index, 1)
}

/// Adds what is wrong with the COB-ID of a PDO of the tables.
pub(crate) fn push_cob_id(
    words: &mut Vec<u8>,
    alloc: Global,
    row: RefusedRow<'_>,
    pdo: DevicePdo,
) -> Result<(), AllocError> {
    match row.device(alloc, pdo.node)? {
        Some(device) => push_cob_id_of(words, alloc, &device, pdo),
        None => Ok(()),
    }
}

/// The PDO of a communication record of a node.
fn pdo_at(node: u8, index: u16) -> DevicePdo {
    if index < 0x1800 {
        DevicePdo {
            direction: Direction::Receive,
            node,
            number: index.saturating_sub(0x13FF),
        }
    } else {
        DevicePdo {
            direction: Direction::Transmit,
            node,
            number: index.saturating_sub(0x17FF),
        }
    }
}

/// Adds which PDO of a node that no row uses stays on.
pub(crate) fn push_stray(
    words: &mut Vec<u8>,
    alloc: Global,
    files: Network<'_>,
    nodes: &NodeTable,
    node: u8,
    index: u16,
) -> Result<(), AllocError> {
    match device_of(alloc, files, nodes, node)? {
        Some(device) => push_cob_id_of(words, alloc, &device, pdo_at(node, index)),
        None => Ok(()),
    }
}

/// What the value of an entry is: its number, or what it is where it has none.
#[derive(Clone, Copy)]
struct NumberOf<'a>(Option<&'a Object>);

impl fmt::Display for NumberOf<'_> {
    fn fmt<W: fmt::Write>(&self, f: &mut fmt::Formatter<W>) -> fmt::Result {
        let Some(entry) = self.0 else {
            return f.write_str("absent");
        };
        match (whole_of(entry), entry.description().data_type) {
            (Some(number), _) => write!(f, "{number}"),
            (None, DataType::Boolean) => f.write_str("a BOOLEAN, which is no integer type"),
            (None, _) => f.write_str("of no integer type"),
        }
    }
}

/// Adds what the transmission type of a TPDO is, and the line of its EDS text that gives its value, or its data type where this is no
/// integer type.
fn push_type_of(
    words: &mut Vec<u8>,
    alloc: Global,
    device: &Device<'_>,
    pdo: DevicePdo,
) -> Result<(), AllocError> {
    let index = communication(pdo);
    let (name, number) = (PdoName(pdo), NumberOf(device.dictionary.entry(index, 2)));
    let line = format!(in alloc;
        "{name}: {index:04X}h sub 2, its transmission type, is {number}\n"
    )?;
    words.extend_from_slice(line.as_bytes())?;
    match device.dictionary.entry(index, 2) {
        Some(entry) if whole_of(entry).is_none() => {
            push_type_line(words, alloc, &device.eds, index, 2)
        }
        _ => push_value_line(words, alloc, &device.eds, index, 2),
    }
}

/// Adds the transmission type of the TPDO of a row.
pub(crate) fn push_type(
    words: &mut Vec<u8>,
    alloc: Global,
    row: RefusedRow<'_>,
) -> Result<(), AllocError> {
    let Some(pdo) = row.tpdo(alloc) else {
        return Ok(());
    };
    match row.device(alloc, pdo.node)? {
        Some(device) => push_type_of(words, alloc, &device, pdo),
        None => Ok(()),
    }
}

/// The record before a place that has a consumer, if one does.
fn record_with(alloc: Global, pdos: &[u8], place: u64, consumer: Consumer) -> Option<u64> {
    let table = read_pdos(alloc, pdos).ok()?;
    let mut record: u64 = 0;
    for row in table.rows() {
        record = record.saturating_add(1);
        if record < place && row.consumers.as_slice().contains(&consumer) {
            return Some(record);
        }
    }
    None
}

/// What takes the RPDO of a consumer already.
fn taken_words(
    alloc: Global,
    row: RefusedRow<'_>,
    consumer: Consumer,
) -> Result<String, AllocError> {
    match record_with(alloc, row.files.pdos.text, row.place, consumer) {
        Some(record) => format!(in alloc; "record {record} has it as a consumer already"),
        None => String::from_str(alloc, "it stands twice in this record"),
    }
}

/// Adds the layout of a PDO of the tables, where its device is described.
fn push_layout_of(
    words: &mut Vec<u8>,
    alloc: Global,
    row: RefusedRow<'_>,
    pdo: DevicePdo,
) -> Result<(), AllocError> {
    match row.device(alloc, pdo.node)? {
        Some(device) => push_layout(words, alloc, &device, pdo),
        None => Ok(()),
    }
}

/// Adds the layouts of the TPDO of a row and of an RPDO.
fn push_layouts(
    words: &mut Vec<u8>,
    alloc: Global,
    row: RefusedRow<'_>,
    rpdo: DevicePdo,
) -> Result<(), AllocError> {
    let Some(tpdo) = row.tpdo(alloc) else {
        return Ok(());
    };
    push_layout_of(words, alloc, row, tpdo)?;
    push_layout_of(words, alloc, row, rpdo)?;
    words.extend_from_slice(
        b"wanted are as many bits, and that each entry of the RPDO that is no dummy begins and ends with one of the TPDO\n",
    )?;
    Ok(())
}

/// Adds why the RPDO of a consumer does not take what the TPDO of a row sends.
pub(crate) fn push_receive(
    words: &mut Vec<u8>,
    alloc: Global,
    row: RefusedRow<'_>,
    consumer: Consumer,
    fault: ReceiveFault,
) -> Result<(), AllocError> {
    let pdo = DevicePdo {
        direction: Direction::Receive,
        node: consumer.node,
        number: consumer.rpdo,
    };
    match fault {
        ReceiveFault::NoDevice => push_no_device(words, alloc, row, pdo),
        ReceiveFault::Mapping(fault) => push_broken_mapping(words, alloc, row, pdo, fault),
        ReceiveFault::Taken => {
            let (name, said) = (PdoName(pdo), taken_words(alloc, row, consumer)?);
            let line = format!(in alloc; "{name}: {said}\n")?;
            words.extend_from_slice(line.as_bytes())?;
            Ok(())
        }
        ReceiveFault::OtherLayout => push_layouts(words, alloc, row, pdo),
    }
}
