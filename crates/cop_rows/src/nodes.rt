//! Reading the table of nodes.

ghost use Rattle.std.specs.Prelude.{◌≡◌, ◌≤◌, ◌<◌, ◌⊎◌, ◌%◌, ◌^◌, false, IfOk, IfSome, length};
ghost use Rattle.cop_table.specs.Reading.{Gives};
ghost use Rattle.cop_table.specs.Rows.{rows_from};
ghost use Rattle.cop_rows.specs.Refusals.{broken, refusal};
ghost use Rattle.cop_rows.specs.declared.node_table.FrameKind.TheVariants.{Heartbeat};
ghost use Rattle.cop_rows.specs.NodeReading.{is_device, kind_of, has_node, node_in, period_in, is_period, no_text, deadline_in, frame_in, device_in, row_in, added, no_rows, rows_in, node_rows_of, nodes_of};
ghost use Rattle.cop_rows.specs.Nodes.{may_have_deadline, IsFrameDeadline};
ghost use Rattle.cop_rows.specs.NodeRows.{IsRow, IsDeviceRow, IsFrameRow};

use crate::fields::number_within;
use crate::names::Name;
use crate::node_rows::{NodeRows, Row, has_node};
use crate::node_table::{DeviceRow, FrameKind, FrameRow, NodeTable};
use crate::refusals::{Column, RecordFault, Refusal, RowFault, Rule};
use crate::setting_rows::SettingRows;
use cop_table::{Record, Records, TableError, under_one_of};
use std::alloc::Global;

/// The fields of the header, and those of the one with deadlines.
const HEADERS: [&[&[u8]]; 2] = [
    &[b"row", b"node", b"name", b"eds", b"period", b"jitter"],
    &[
        b"row",
        b"node",
        b"name",
        b"eds",
        b"period",
        b"jitter",
        b"deadline",
    ],
];

/// How many fields a record has under the first header; under the other it has one more.
const WIDTH: usize = 6;

/// Whether a word is a device's.
fn is_device(word: &[u8]) -> bool
    ensures { result ≡ is_device word.now }
{
    word == b"device".as_slice()
}

/// The kind of a row that is no device's.
fn kind_of(word: &[u8]) -> Option<FrameKind>
    ensures { result ≡ kind_of word.now }
{
    if word == b"nmt".as_slice() {
        Some(FrameKind::Nmt)
    } else if word == b"sync".as_slice() {
        Some(FrameKind::Sync)
    } else if word == b"emcy".as_slice() {
        Some(FrameKind::Emcy)
    } else if word == b"sdo_response".as_slice() {
        Some(FrameKind::SdoResponse)
    } else if word == b"sdo_request".as_slice() {
        Some(FrameKind::SdoRequest)
    } else if word == b"heartbeat".as_slice() {
        Some(FrameKind::Heartbeat)
    } else if word == b"errors".as_slice() {
        Some(FrameKind::Errors)
    } else {
        None
    }
}

/// The node of a frame's row: 0 for NMT, SYNC and disturbed transfers.
fn node_in(kind: FrameKind, field: &[u8]) -> Result<u64, Rule>
    ensures value { result ≡ node_in kind field.now }
    ensures nobodys { IfOk result (λ node. has_node kind ≡ false → node ≡ 0) }
    ensures most { IfOk result (λ node. node ≤ 127) }
{
    if has_node(kind) {
        number_within(Column::Node, 1, 127, field)
    } else {
        number_within(Column::Node, 0, 0, field)
    }
}

/// Whether a number is a period of a frame in microseconds: 0 for one that is never sent, and for no disturbed transfers.
fn is_period(kind: FrameKind, period: u64) -> bool
    ensures { result ≡ is_period kind period }
{
    period == 0
        || (period >= 100
            && period <= 60_000_000
            && (!matches!(kind, FrameKind::Heartbeat) || period % 1000 == 0))
}

/// The period of a frame's row.
fn period_in(kind: FrameKind, field: &[u8]) -> Result<u64, Rule>
    ensures value { result ≡ period_in kind field.now }
    ensures range { IfOk result (λ period. (period ≡ 0) ⊎ ((100 ≤ period) × (period ≤ 60000000))) }
    ensures milliseconds { IfOk result (λ period. kind ≡ Heartbeat → period % 1000 ≡ 0) }
{
    let period = number_within(Column::Period, 0, 60_000_000, field)?;
    if is_period(kind, period) {
        Ok(period)
    } else {
        Err(Rule::Value(Column::Period))
    }
}

/// Refuses a column's field that is not empty.
fn no_text(column: Column, field: &[u8]) -> Result<(), Rule>
    ensures { result ≡ no_text column field.now }
{
    if field.is_empty() {
        Ok(())
    } else {
        Err(Rule::Value(column))
    }
}

/// Whether a frame of a kind may have a deadline.
fn may_have_deadline(kind: FrameKind) -> bool
    ensures { result ≡ may_have_deadline kind }
{
    matches!(kind, FrameKind::SdoResponse | FrameKind::SdoRequest)
}

/// The deadline of a frame's row, if there is one.
fn deadline_in(kind: FrameKind, period: u64, field: &[u8]) -> Result<Option<u32>, Rule>
    ensures value { result ≡ deadline_in kind period field.now }
    ensures range { IfOk result (λ o. IfSome o (IsFrameDeadline kind period)) }
{
    if field.is_empty() {
        return Ok(None);
    }
    if period == 0 || !may_have_deadline(kind) {
        return Err(Rule::Value(Column::Deadline));
    }
    let deadline = number_within(Column::Deadline, 1, 60_000_000, field)?;
    Ok(Some(deadline as u32))
}

#[tactic(auto, unfolding(crate::specs::NodeReading::frame_in))]
/// The row of a frame.
fn frame_in(place: u64, kind: FrameKind, row: &Record) -> Result<FrameRow, Rule>
    ensures value { result ≡ frame_in place kind row.now }
    ensures ranges { IfOk result IsFrameRow }
{
    let node = node_in(kind, row.field(1))?;
    no_text(Column::Name, row.field(2))?;
    no_text(Column::Eds, row.field(3))?;
    let period = period_in(kind, row.field(4))?;
    let jitter = number_within(Column::Jitter, 0, 60_000_000, row.field(5))?;
    let deadline = deadline_in(kind, period, row.field(6))?;
    Ok(FrameRow {
        place,
        kind,
        node: node as u8,
        period: period as u32,
        jitter: jitter as u32,
        deadline,
    })
}

#[tactic(auto, unfolding(crate::specs::NodeReading::device_in))]
/// The row of a device.
fn device_in(alloc: Global, place: u64, row: &Record) -> Result<DeviceRow, RecordFault>
    ensures value { Gives (λ device. device) broken result (device_in place row.now) }
    ensures ranges { IfOk result IsDeviceRow }
{
    let node = number_within(Column::Node, 1, 127, row.field(1))?;
    // The period and the jitter of a device are 0, and it has no deadline.
    number_within(Column::Period, 0, 0, row.field(4))?;
    number_within(Column::Jitter, 0, 0, row.field(5))?;
    no_text(Column::Deadline, row.field(6))?;
    let name = Name::read(alloc, Column::Name, row.field(2))?;
    let eds = Name::read(alloc, Column::Eds, row.field(3))?;
    Ok(DeviceRow {
        place,
        node: node as u8,
        name,
        eds,
        settings: SettingRows::new(alloc),
    })
}

/// The row of a record of so many fields, or the least rule that it breaks.
fn row_in(alloc: Global, width: usize, place: u64, row: &Record) -> Result<Row, RecordFault>
    ensures value { Gives (λ found. found) broken result (row_in width place row.now) }
    ensures ranges { IfOk result IsRow }
{
    if row.len() != width {
        return Err(RecordFault::Broken(Rule::Fields));
    }
    if is_device(row.field(0)) {
        return Ok(Row::Device(device_in(alloc, place, row)?));
    }
    let kind = kind_of(row.field(0)).ok_or(Rule::Value(Column::Row))?;
    Ok(Row::Frame(frame_in(place, kind, row)?))
}

/// Adds the row of a record of so many fields to those of the records before it.
fn add(
    alloc: Global,
    rows: &mut NodeRows,
    width: usize,
    place: u64,
    row: &Record,
) -> Result<(), RowFault>
    ensures { Gives (λ _. rows.new) refusal result (added width place rows.old row.now) }
{
    let found = match row_in(alloc, width, place, row) {
        Ok(found) => found,
        Err(fault) => return Err(fault.at(place)),
    };
    match rows.push(found) {
        Ok(()) => Ok(()),
        Err(fault) => Err(fault.at(place)),
    }
}

/// Which header it is, and the records under it.
fn rows_in<'a>(
    alloc: Global,
    bytes: &'a [u8],
    row: &mut Record,
) -> Result<(usize, Records<'a>), RowFault>
    ensures rows { Gives (λ r. (r.0, r.1)) refusal result (rows_in bytes.now) }
    ensures header { IfOk result (λ r. r.0 < 2) }
    ensures count { IfOk result (λ r. length r.1 ≤ length bytes.now) }
{
    match under_one_of(alloc, bytes, &HEADERS, row) {
        Ok(found) => Ok(found),
        Err(TableError::Header) => Err(RowFault::Refused(Refusal {
            rule: Rule::Header,
            place: 0,
        })),
        Err(TableError::Memory) => Err(RowFault::Memory),
    }
}

#[tactic(auto, using(cop_table::proofs::RowsLemmas::goes_on, cop_table::proofs::RowsLemmas::stops, cop_table::proofs::RowsLemmas::ends))]
/// The rows of the records under the header, which have so many fields.
fn rows_under(
    alloc: Global,
    width: usize,
    rows: &mut Records<'_>,
    row: &mut Record,
) -> Result<NodeRows, RowFault>
    requires { length rows.old < 2 ^ 64 }
    ensures { Gives (λ rows. rows) refusal result (rows_from (added width) 1 no_rows rows.old) }
{
    let mut nodes = NodeRows::new(alloc);
    let mut place = 0;
    'rows: while rows.read(row)? {
        place += 1;
        add(alloc, &mut nodes, width, place, row)?;
    }
    Ok(nodes)
}

/// The rows of a table, whose nodes may want their device rows. Of the records the first that breaks a rule counts,
/// and of its rules the one of least number.
#[tactic(auto, unfolding(crate::specs::NodeReading::node_rows_of))]
fn read_rows(alloc: Global, bytes: &[u8]) -> Result<NodeRows, RowFault>
    ensures { Gives (λ rows. rows) refusal result (node_rows_of bytes.now) }
{
    let mut row = Record::new(alloc);
    let (header, mut rows) = rows_in(alloc, bytes, &mut row)?;
    rows_under(alloc, WIDTH + header, &mut rows, &mut row)
}

/// The table of nodes, under a header without deadlines or with them. Of its records the first that breaks a rule counts,
/// and of its rules the one of least number; then the first row whose node has no device row.
pub fn read_nodes(alloc: Global, bytes: &[u8]) -> Result<NodeTable, RowFault>
    ensures { Gives (λ table. table) refusal result (nodes_of bytes.now) }
{
    match read_rows(alloc, bytes)?.into_table() {
        Ok(table) => Ok(table),
        Err(refusal) => Err(RowFault::Refused(refusal)),
    }
}
