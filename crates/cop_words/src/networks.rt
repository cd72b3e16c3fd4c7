//! What is said of a network that is refused.

use crate::consumers::push_consumer_rule;
use crate::devices::{product_of, text_named};
use crate::fields::push_field;
use crate::paces::{pace_words, sender};
use crate::pdos::{RefusedRow, push_cob_id, push_receive, push_stray, push_transmit, push_type};
use crate::places::{line_at, record_at};
use crate::rates::{is_list, push_all_rates};
use crate::separators::seen;
use crate::settings::{Asked, node_of_setting, push_asked};
use crate::words::{Source, push_explanation, push_place, push_rule, push_shown};
use cop_frame::RateSet;
use cop_net::{DeviceRow, NodeTable, Refusal, Rule, Table, read_nodes};
use cop_rules::{NONE_LISTED, header, header_with_deadline, name_of, wanted};
use std::alloc::{AllocError, Global};

/// A network's tables, its EDS files by their names, and the rates that its plan may have.
#[derive(Clone, Copy)]
pub struct Network<'a> {
    pub nodes: Source<'a>,
    pub pdos: Source<'a>,
    /// The table of settings; no bytes, if there is none.
    pub settings: Source<'a>,
    pub eds_files: &'a [(String, Vec<u8>)],
    pub wanted: &'a RateSet,
}

/// Whether the first record of a table of nodes is the header with deadlines.
fn has_deadlines(nodes: &[u8]) -> bool {
    match record_at(nodes, 0) {
        Some(place) => place
            .text
            .windows(8)
            .any(|word| word == b"deadline".as_slice()),
        None => false,
    }
}

/// What is wanted as the first record of a table.
fn header_words(alloc: Global, table: Table) -> Result<String, AllocError> {
    let header = header(table);
    match table {
        Table::Nodes => {
            let other = header_with_deadline();
            format!(in alloc; "wanted as the first record: {header}, or with deadlines {other}\n")
        }
        Table::Pdos | Table::Settings => {
            format!(in alloc; "wanted as the first record: {header}\n")
        }
    }
}

/// What is wanted as the fields of a record of a table of nodes, or of PDOs.
fn field_words(alloc: Global, table: Table, nodes: &[u8]) -> Result<String, AllocError> {
    if table == Table::Nodes && has_deadlines(nodes) {
        let header = header_with_deadline();
        return format!(in alloc; "wanted are seven fields: {header}\n");
    }
    let header = header(table);
    let count = if table == Table::Settings {
        "four"
    } else {
        "six"
    };
    format!(in alloc; "wanted are {count} fields: {header}\n")
}

/// What a rule of records wants.
pub(crate) fn row_words(
    alloc: Global,
    table: Table,
    nodes: &[u8],
    rule: cop_rows::Rule,
) -> Result<String, AllocError> {
    let seen = "an earlier record has the same";
    match rule {
        cop_rows::Rule::Header => header_words(alloc, table),
        cop_rows::Rule::Fields => field_words(alloc, table, nodes),
        cop_rows::Rule::Value(column) => {
            let (name, wanted) = (name_of(column), wanted(table, column));
            format!(in alloc; "wanted in column {name}: {wanted}\n")
        }
        cop_rows::Rule::RowRepeated if table == Table::Settings => {
            format!(in alloc; "{seen} node and object\n")
        }
        cop_rows::Rule::RowRepeated => format!(in alloc; "{seen} row and node\n"),
        cop_rows::Rule::PdoRepeated => format!(in alloc; "{seen} node and tpdo\n"),
        cop_rows::Rule::NoDevice => String::from_str(alloc, "its device row is missing\n"),
        cop_rows::Rule::Full => String::from_str(alloc, "there are more than 512\n"),
        cop_rows::Rule::NotSettable => {
            String::from_str(alloc, "a plan sets this object, or relies on it\n")
        }
    }
}

/// A table of a network.
pub(crate) fn table_of(files: Network<'_>, table: Table) -> Source<'_> {
    match table {
        Table::Nodes => files.nodes,
        Table::Pdos => files.pdos,
        Table::Settings => files.settings,
    }
}

/// Adds what a rule of a table wants, and what is seen in place of it.
fn push_record(
    words: &mut Vec<u8>,
    alloc: Global,
    files: Network<'_>,
    refusal: &Refusal,
    rule: cop_rows::Rule,
) -> Result<(), AllocError> {
    if rule == cop_rows::Rule::NoDevice && refusal.place == 0 {
        words.extend_from_slice(b"no row of the table is one of a device\n")?;
        return Ok(());
    }
    let said = row_words(alloc, refusal.table, files.nodes.text, rule)?;
    words.extend_from_slice(said.as_bytes())?;
    let text = table_of(files, refusal.table).text;
    let record = record_at(text, refusal.place).map(|place| place.text);
    if let Some(said) = seen(text, record) {
        words.extend_from_slice(said.as_bytes())?;
    }
    Ok(())
}

/// Adds what a rule of PDOs says beyond its number.
fn push_pdo(
    words: &mut Vec<u8>,
    alloc: Global,
    row: RefusedRow<'_>,
    rule: Rule,
) -> Result<(), AllocError> {
    match rule {
        Rule::Transmit(fault) => push_transmit(words, alloc, row, fault),
        Rule::CobId(pdo) => push_cob_id(words, alloc, row, pdo),
        Rule::Transmission => push_type(words, alloc, row),
        Rule::Receive(consumer, fault) => push_receive(words, alloc, row, consumer, fault),
        Rule::Synchrony(fault) => {
            let said = pace_words(alloc, row.files.nodes, row.files.pdos, row.place, fault)?;
            words.extend_from_slice(said.as_bytes())?;
            Ok(())
        }
        _ => Ok(()),
    }
}

/// The node of the device of a record.
fn node_at(nodes: &NodeTable, place: u64) -> Option<u8> {
    let row = nodes.devices().iter().find(|row| row.place == place)?;
    Some(row.node)
}

/// Adds what a rule of networks whose tables are read says beyond its number.
fn push_network(
    words: &mut Vec<u8>,
    alloc: Global,
    files: Network<'_>,
    nodes: &NodeTable,
    refusal: &Refusal,
) -> Result<(), AllocError> {
    match refusal.rule {
        Rule::Eds(Some(broken)) => push_rule(words, alloc, broken.rule.number()),
        Rule::StaysOn(index) => match node_at(nodes, refusal.place) {
            Some(node) => push_stray(words, alloc, files, nodes, node, index),
            None => Ok(()),
        },
        Rule::NoRate => push_all_rates(words, alloc, files, nodes),
        Rule::Asked(index, sub, fault) => {
            match node_of_setting(alloc, files.settings.text, refusal.place) {
                Some(node) => push_asked(
                    words,
                    alloc,
                    files,
                    nodes,
                    node,
                    Asked { index, sub, fault },
                ),
                None => Ok(()),
            }
        }
        rule => {
            let place = refusal.place;
            push_pdo(
                words,
                alloc,
                RefusedRow {
                    files,
                    nodes,
                    place,
                },
                rule,
            )
        }
    }
}

/// Adds what a rule of networks says beyond its number.
fn push_more(
    words: &mut Vec<u8>,
    alloc: Global,
    files: Network<'_>,
    refusal: &Refusal,
) -> Result<(), AllocError> {
    if let Rule::Record(rule) = refusal.rule {
        return push_record(words, alloc, files, refusal, rule);
    }
    match read_nodes(alloc, files.nodes.text) {
        Ok(nodes) => push_network(words, alloc, files, &nodes, refusal),
        Err(_) => Ok(()),
    }
}

/// Adds the line of a device's EDS text that breaks a rule.
fn push_eds_line(
    words: &mut Vec<u8>,
    alloc: Global,
    files: Network<'_>,
    device: &DeviceRow,
    line: usize,
) -> Result<(), AllocError> {
    let Some(text) = text_named(files.eds_files, device.eds.as_bytes()) else {
        return Ok(());
    };
    if text.starts_with(&[0xFF, 0xFE]) || text.starts_with(&[0xFE, 0xFF]) {
        return words.extend_from_slice(
            b"its EDS file is UTF-16: CiA 306 has plain text, and canplan tidy makes one of it\n",
        );
    }
    match line_at(text, line) {
        Some(place) => push_place(words, alloc, "its EDS file", &place),
        None => Ok(()),
    }
}

/// Adds the product that an EDS file is of, if it names one.
fn push_product(
    words: &mut Vec<u8>,
    alloc: Global,
    files: Network<'_>,
    device: &DeviceRow,
) -> Result<(), AllocError> {
    let Some(text) = text_named(files.eds_files, device.eds.as_bytes()) else {
        return Ok(());
    };
    let product = product_of(alloc, text)?;
    if !product.is_empty() {
        words.extend_from_slice(b" of the product ")?;
        push_shown(words, product)?;
    }
    Ok(())
}

/// Adds the name of a device, of its EDS file and of its product.
fn push_device(
    words: &mut Vec<u8>,
    alloc: Global,
    files: Network<'_>,
    device: &DeviceRow,
) -> Result<(), AllocError> {
    let node = device.node;
    let begin = format!(in alloc; "node {node} is ")?;
    words.extend_from_slice(begin.as_bytes())?;
    push_shown(words, device.name.as_bytes())?;
    words.extend_from_slice(b", by the EDS file ")?;
    push_shown(words, device.eds.as_bytes())?;
    push_product(words, alloc, files, device)?;
    words.push(b'\n')?;
    Ok(())
}

/// The node of a PDO that a rule names beside that of the sender.
fn named_node(rule: Rule) -> Option<u8> {
    match rule {
        Rule::CobId(pdo) => Some(pdo.node),
        Rule::Receive(consumer, _) => Some(consumer.node),
        _ => None,
    }
}

/// Adds what is known of the devices that a refusal is about: its own record's, or those of the PDO's sender and of the
/// consumer that the rule names.
fn push_devices(
    words: &mut Vec<u8>,
    alloc: Global,
    files: Network<'_>,
    refusal: &Refusal,
) -> Result<(), AllocError> {
    let Ok(nodes) = read_nodes(alloc, files.nodes.text) else {
        return Ok(());
    };
    let sender = match refusal.table {
        Table::Nodes => None,
        Table::Pdos => sender(alloc, files.pdos.text, refusal.place).map(|pdo| pdo.node),
        Table::Settings => node_of_setting(alloc, files.settings.text, refusal.place),
    };
    for device in nodes.devices() {
        let own = refusal.table == Table::Nodes && device.place == refusal.place;
        let named = named_node(refusal.rule) == Some(device.node);
        if own || named || sender == Some(device.node) {
            push_device(words, alloc, files, device)?;
            if let Rule::Eds(Some(broken)) = refusal.rule {
                push_eds_line(words, alloc, files, device, broken.line)?;
            }
        }
    }
    Ok(())
}

/// Adds the name of a file, where no record is to be shown.
fn push_file(words: &mut Vec<u8>, alloc: Global, name: &str) -> Result<(), AllocError> {
    let line = format!(in alloc; "{name}\n")?;
    words.extend_from_slice(line.as_bytes())?;
    Ok(())
}

/// Adds the lines on the rule: by column of a field, by cause of an RPDO, and by whether rates are listed.
fn push_reason(
    words: &mut Vec<u8>,
    alloc: Global,
    files: Network<'_>,
    refusal: &Refusal,
) -> Result<(), AllocError> {
    match refusal.rule {
        Rule::NoRate if is_list(files.wanted) => push_explanation(words, alloc, &NONE_LISTED),
        Rule::Record(cop_rows::Rule::Value(column)) => {
            push_field(words, alloc, refusal.table, column)
        }
        Rule::Receive(_, fault) => push_consumer_rule(words, alloc, fault),
        rule => push_rule(words, alloc, rule.number()),
    }
}

/// Why a network's files are refused, in words: the record as it stands in its table, the device, what is wanted, and the rule.
pub fn network_words(
    alloc: Global,
    files: Network<'_>,
    refusal: &Refusal,
) -> Result<Vec<u8>, AllocError> {
    let table = table_of(files, refusal.table);
    let mut words = Vec::new(alloc);
    match record_at(table.text, refusal.place) {
        Some(place) if refusal.rule != Rule::NoRate => {
            push_place(&mut words, alloc, table.name, &place)?;
        }
        _ => push_file(&mut words, alloc, table.name)?,
    }
    push_devices(&mut words, alloc, files, refusal)?;
    push_more(&mut words, alloc, files, refusal)?;
    push_reason(&mut words, alloc, files, refusal)?;
    Ok(words)
}
