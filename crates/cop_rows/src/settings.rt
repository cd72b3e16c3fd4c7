//! Reading the table of settings.

ghost use Rattle.std.specs.Prelude.{◌≡◌, ◌≤◌, ◌<◌, ◌^◌, ◌∷◌, [], IfOk, length};
ghost use Rattle.cop_rows.specs.Fields.{parts};
ghost use Rattle.cop_table.specs.Reading.{Gives};
ghost use Rattle.cop_table.specs.Rows.{rows_from};
ghost use Rattle.cop_rows.specs.Refusals.{refusal};
ghost use Rattle.cop_rows.specs.SettingReading.{hexadecimal_within, index_in, sub_in, object_from, object_in, amount_in, word_in, asked_of, added, rows_in, with_settings};

use crate::fields::{cut, number_within};
use crate::node_table::NodeTable;
use crate::refusals::{Column, Refusal, RowFault, Rule};
use crate::setting_rows::SettingRow;
use cop_eds::{Amount, amount_of, number_in};
use cop_table::{Record, Records, TableError, under_header};
use std::alloc::Global;

/// The fields of the header.
const HEADER: [&[u8]; 4] = [b"row", b"node", b"object", b"value"];

/// An object: its index and its sub.
#[derive(Clone, Copy)]
struct Address {
    index: u16,
    sub: u8,
}

/// What a record asks, and of which node.
#[derive(Clone, Copy)]
pub(crate) struct Asked {
    pub(crate) node: u8,
    pub(crate) row: SettingRow,
}

/// The number up to a greatest that at least so many hexadecimal digits and at most so many write.
fn hexadecimal_within(least: usize, most: usize, greatest: u64, text: &[u8]) -> Result<u64, Rule>
    ensures value { result ≡ hexadecimal_within least most greatest text.now }
    ensures range { IfOk result (λ n. n ≤ greatest) }
{
    if text.len() < least || text.len() > most {
        return Err(Rule::Value(Column::Object));
    }
    match number_in(16, text) {
        Some(n) => {
            if n <= greatest {
                Ok(n)
            } else {
                Err(Rule::Value(Column::Object))
            }
        }
        None => Err(Rule::Value(Column::Object)),
    }
}

/// The index that four hexadecimal digits are.
fn index_in(text: &[u8]) -> Result<u16, Rule>
    ensures { result ≡ index_in text.now }
{
    let index = hexadecimal_within(4, 4, 0xFFFF, text)?;
    Ok(index as u16)
}

/// The sub that one or two hexadecimal digits are.
fn sub_in(text: &[u8]) -> Result<u8, Rule>
    ensures { result ≡ sub_in text.now }
{
    let sub = hexadecimal_within(1, 2, 0xFF, text)?;
    Ok(sub as u8)
}

/// The object at an index and a sub.
fn object_at(index: &[u8], sub: &[u8]) -> Result<Address, Rule>
    ensures { result ≡ object_from (index.now ∷ sub.now ∷ []) }
{
    let index = index_in(index)?;
    let sub = sub_in(sub)?;
    Ok(Address { index, sub })
}

/// The object at an index and a sub, of the text before a dot and that behind it.
fn sub_object_in(first: &[u8], rest: &[u8]) -> Result<Address, Rule>
    ensures { result ≡ object_from (first.now ∷ parts 46 rest.now) }
{
    match cut(rest, b'.') {
        (second, None) => object_at(first, second),
        (_, Some(_)) => Err(Rule::Value(Column::Object)),
    }
}

/// The object at an index, with sub 0.
fn main_object_in(text: &[u8]) -> Result<Address, Rule>
    ensures { result ≡ object_from (text.now ∷ []) }
{
    let index = index_in(text)?;
    Ok(Address { index, sub: 0 })
}

/// The object that a text names: its index, and its sub behind a dot, which is 0 without one.
fn object_in(text: &[u8]) -> Result<Address, Rule>
    ensures { result ≡ object_in text.now }
{
    match cut(text, b'.') {
        (first, Some(rest)) => sub_object_in(first, rest),
        (first, None) => main_object_in(first),
    }
}

/// The value that is asked, as EDS files write values.
fn amount_in(text: &[u8]) -> Result<Amount, Rule>
    ensures { result ≡ amount_in text.now }
{
    match amount_of(text) {
        Ok(amount) => Ok(amount),
        Err(_) => Err(Rule::Value(Column::Value)),
    }
}

/// Refuses a row whose word is another.
fn word_in(text: &[u8]) -> Result<(), Rule>
    ensures { result ≡ word_in text.now }
{
    if text == b"set".as_slice() {
        Ok(())
    } else {
        Err(Rule::Value(Column::Row))
    }
}

#[tactic(auto, unfolding(crate::specs::SettingReading::asked_of))]
/// What a record asks, or the least rule that it breaks by itself.
fn asked_of(place: u64, row: &Record) -> Result<Asked, Rule>
    ensures value { result ≡ asked_of place row.now }
    ensures node { IfOk result (λ asked. asked.node ≤ 127) }
{
    if row.len() != 4 {
        return Err(Rule::Fields);
    }
    word_in(row.field(0))?;
    let node = number_within(Column::Node, 1, 127, row.field(1))?;
    let object = object_in(row.field(2))?;
    let amount = amount_in(row.field(3))?;
    Ok(Asked {
        node: node as u8,
        row: SettingRow {
            place,
            index: object.index,
            sub: object.sub,
            amount,
        },
    })
}

/// Adds what a record asks to the devices of the table.
fn add(nodes: &mut NodeTable, place: u64, row: &Record) -> Result<(), RowFault>
    ensures { Gives (λ _. nodes.new) refusal result (added place nodes.old row.now) }
{
    let asked = match asked_of(place, row) {
        Ok(asked) => asked,
        Err(rule) => return Err(RowFault::Refused(Refusal { rule, place })),
    };
    match nodes.ask(asked) {
        Ok(()) => Ok(()),
        Err(fault) => Err(fault.at(place)),
    }
}

/// The records under the header.
fn rows_in<'a>(alloc: Global, bytes: &'a [u8], row: &mut Record) -> Result<Records<'a>, RowFault>
    ensures rows { Gives (λ r. r) refusal result (rows_in bytes.now) }
    ensures count { IfOk result (λ r. length r ≤ length bytes.now) }
{
    match under_header(alloc, bytes, &HEADER, row) {
        Ok(rows) => Ok(rows),
        Err(TableError::Header) => Err(RowFault::Refused(Refusal {
            rule: Rule::Header,
            place: 0,
        })),
        Err(TableError::Memory) => Err(RowFault::Memory),
    }
}

#[tactic(auto, using(cop_table::proofs::RowsLemmas::goes_on, cop_table::proofs::RowsLemmas::stops, cop_table::proofs::RowsLemmas::ends))]
/// The table of nodes with what the records under the header ask.
fn settings_under(
    nodes: NodeTable,
    rows: &mut Records<'_>,
    row: &mut Record,
) -> Result<NodeTable, RowFault>
    requires { length rows.old < 2 ^ 64 }
    ensures { Gives (λ table. table) refusal result (rows_from added 1 nodes rows.old) }
{
    let mut nodes = nodes;
    let mut place = 0;
    'rows: while rows.read(row)? {
        place += 1;
        add(&mut nodes, place, row)?;
    }
    Ok(nodes)
}

/// The table of nodes with the values that a table of settings asks of its devices. Of the records the first that breaks a rule
/// counts, and of its rules the one of least number.
#[tactic(auto, unfolding(crate::specs::SettingReading::with_settings))]
pub fn read_settings(alloc: Global, nodes: NodeTable, bytes: &[u8]) -> Result<NodeTable, RowFault>
    ensures { Gives (λ table. table) refusal result (with_settings nodes bytes.now) }
{
    let mut row = Record::new(alloc);
    let mut rows = rows_in(alloc, bytes, &mut row)?;
    settings_under(nodes, &mut rows, &mut row)
}
