//! The faults of a table, or of the EDS files, behind the first one.

use crate::networks::{Network, row_words, table_of};
use crate::places::{record_at, without_record};
use crate::refused_files::push_refused_files;
use crate::words::{Source, push_place};
use cop_net::{PlanFault, Refusal, Rule, Table, network, read_nodes, read_pdos, read_settings};
use cop_rules::explained;
use std::alloc::{AllocError, Global};

/// The most faults that are told behind the first one.
const MOST: usize = 20;

/// A network whose table has another text.
fn with_text<'a>(files: Network<'a>, table: Table, text: &'a [u8]) -> Network<'a> {
    let name = table_of(files, table).name;
    let source = Source { name, text };
    match table {
        Table::Nodes => Network {
            nodes: source,
            ..files
        },
        Table::Pdos => Network {
            pdos: source,
            ..files
        },
        Table::Settings => Network {
            settings: source,
            ..files
        },
    }
}

/// Makes a network of its files, and keeps nothing of it.
fn make(alloc: Global, files: Network<'_>) -> Result<(), PlanFault> {
    let mut nodes = read_nodes(alloc, files.nodes.text)?;
    if !files.settings.text.is_empty() {
        nodes = read_settings(alloc, nodes, files.settings.text)?;
    }
    let pdos = read_pdos(alloc, files.pdos.text)?;
    network(alloc, files.wanted, &nodes, &pdos, files.eds_files)?;
    Ok(())
}

/// Whether a refusal is one more of a table, and not of what was taken out of it before. A device row that is out leaves other rows
/// of its node without a device.
fn is_further(table: Table, refusal: &Refusal) -> bool {
    if refusal.table != table || refusal.place == 0 {
        return false;
    }
    match refusal.rule {
        Rule::Record(cop_rows::Rule::Full) => false,
        Rule::Record(cop_rows::Rule::NoDevice) => table != Table::Nodes,
        Rule::Record(_) => true,
        _ => table != Table::Nodes,
    }
}

/// The refusal of a network, if it is one more of a table.
fn next_refusal(
    alloc: Global,
    files: Network<'_>,
    table: Table,
) -> Result<Option<Refusal>, AllocError> {
    match make(alloc, files) {
        Err(PlanFault::Refused(refusal)) if is_further(table, &refusal) => Ok(Some(refusal)),
        Err(PlanFault::Memory) => Err(AllocError),
        _ => Ok(None),
    }
}

/// The number that a record has in the whole table, if those of some rising numbers are out.
fn number_of(place: u64, out: &[u64]) -> u64 {
    let mut number = place;
    for record in out {
        if *record <= number {
            number = number.saturating_add(1);
        }
    }
    number
}

/// Adds a further fault: its number and record, the record, and what is wanted or the rule.
fn push_further(
    words: &mut Vec<u8>,
    alloc: Global,
    files: Network<'_>,
    refusal: &Refusal,
    record: u64,
) -> Result<(), AllocError> {
    let number = refusal.rule.number();
    let table = table_of(files, refusal.table);
    let begin = format!(in alloc; "also refused {number} {record}\n")?;
    words.extend_from_slice(begin.as_bytes())?;
    if let Some(place) = record_at(table.text, refusal.place) {
        push_place(words, alloc, table.name, &place)?;
    }
    if let Rule::Record(rule) = refusal.rule {
        let said = row_words(alloc, refusal.table, files.nodes.text, rule)?;
        return words.extend_from_slice(said.as_bytes());
    }
    if let Some(found) = explained(number) {
        let rule = found.rule;
        let line = format!(in alloc; "rule {number}: {rule}\n")?;
        words.extend_from_slice(line.as_bytes())?;
    }
    Ok(())
}

/// Adds the faults of a table behind the first one, each found once the records before it are out.
fn push_all(
    words: &mut Vec<u8>,
    alloc: Global,
    files: Network<'_>,
    first: &Refusal,
) -> Result<(), AllocError> {
    let table = first.table;
    let mut text = without_record(alloc, table_of(files, table).text, first.place)?;
    let mut out = Vec::new(alloc);
    out.push(first.place)?;
    for _ in 0..MOST {
        let rest = with_text(files, table, &text);
        let Some(refusal) = next_refusal(alloc, rest, table)? else {
            return Ok(());
        };
        let record = number_of(refusal.place, &out);
        push_further(words, alloc, rest, &refusal, record)?;
        let shorter = without_record(alloc, &text, refusal.place)?;
        text = shorter;
        out.push(record)?;
        out.sort()?;
    }
    words.extend_from_slice(b"there may be more\n")
}

/// What is said of the faults of a table, or of the EDS files, behind the first one, as far as these can be seen before that one is mended.
pub fn further_words(
    alloc: Global,
    files: Network<'_>,
    first: &Refusal,
) -> Result<Vec<u8>, AllocError> {
    let mut words = Vec::new(alloc);
    if let Rule::Eds(Some(_)) = first.rule {
        push_refused_files(&mut words, alloc, files, first)?;
    } else if is_further(first.table, first) {
        push_all(&mut words, alloc, files, first)?;
    }
    Ok(words)
}
