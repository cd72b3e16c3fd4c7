//! Reading the table of PDOs.

ghost use Rattle.std.specs.Prelude.{◌≡◌, ◌≤◌, ◌<◌, ◌⊎◌, ◌^◌, [], IfOk, length};
ghost use Rattle.cop_table.specs.Reading.{Gives};
ghost use Rattle.cop_table.specs.Rows.{rows_from};
ghost use Rattle.cop_rows.specs.Refusals.{broken, refusal};
ghost use Rattle.cop_rows.specs.PdoReading.{consumer_of, consumers_of, period_in, numbers_in, one_more, pdo_in, added, pdos_of, rows_in, IsNumbers};
ghost use Rattle.cop_rows.specs.Pdos.{IsPdoRow};

use crate::fields::{cut, number_within};
use crate::pdo_rows::PdoRows;
use crate::pdo_table::{Consumer, Consumers, PdoRow, PdoTable};
use crate::refusals::{Column, RecordFault, Refusal, RowFault, Rule};
use cop_table::{Record, Records, TableError, under_header};
use std::alloc::Global;

/// The fields of the header.
const HEADER: [&[u8]; 6] = [
    b"node",
    b"tpdo",
    b"period",
    b"jitter",
    b"deadline",
    b"consumers",
];

/// The numbers of a record.
#[derive(Clone, Copy)]
struct Numbers {
    node: u8,
    tpdo: u16,
    period: u32,
    jitter: u32,
    deadline: u32,
}

/// The period of a record: 0 for a PDO that is sent by SYNC.
fn period_in(field: &[u8]) -> Result<u64, Rule>
    ensures value { result ≡ period_in field.now }
    ensures range { IfOk result (λ period. (period ≡ 0) ⊎ ((100 ≤ period) × (period ≤ 60000000))) }
{
    let period = number_within(Column::Period, 0, 60_000_000, field)?;
    if period == 0 || period >= 100 {
        Ok(period)
    } else {
        Err(Rule::Value(Column::Period))
    }
}

#[tactic(auto, unfolding(crate::specs::PdoReading::numbers_in))]
/// The numbers of a record, or the least rule that it breaks.
fn numbers_in(row: &Record) -> Result<Numbers, Rule>
    ensures value { result ≡ numbers_in row.now }
    ensures ranges { IfOk result IsNumbers }
{
    if row.len() != 6 {
        return Err(Rule::Fields);
    }
    let node = number_within(Column::Node, 1, 127, row.field(0))?;
    let tpdo = number_within(Column::Tpdo, 1, 512, row.field(1))?;
    let period = period_in(row.field(2))?;
    let jitter = number_within(Column::Jitter, 0, 60_000_000, row.field(3))?;
    let deadline = number_within(Column::Deadline, 1, 60_000_000, row.field(4))?;
    Ok(Numbers {
        node: node as u8,
        tpdo: tpdo as u16,
        period: period as u32,
        jitter: jitter as u32,
        deadline: deadline as u32,
    })
}

/// The consumer that a text names.
fn consumer_in(text: &[u8]) -> Result<Consumer, Rule>
    ensures { result ≡ consumer_of text.now }
{
    let (first, Some(rest)) = cut(text, b'.') else {
        return Err(Rule::Value(Column::Consumers));
    };
    let (second, more) = cut(rest, b'.');
    if more.is_some() {
        return Err(Rule::Value(Column::Consumers));
    }
    let node = number_within(Column::Consumers, 1, 127, first)?;
    let rpdo = number_within(Column::Consumers, 1, 512, second)?;
    Ok(Consumer {
        node: node as u8,
        rpdo: rpdo as u16,
    })
}

/// Puts the consumer that a text names at the end.
fn push_consumer(items: &mut Vec<Consumer>, text: &[u8]) -> Result<(), RecordFault>
    ensures { Gives (λ _. items.new.items) broken result (one_more items.old.items (consumer_of text.now)) }
{
    let consumer = consumer_in(text)?;
    match items.push(consumer) {
        Ok(()) => Ok(()),
        Err(_) => Err(RecordFault::Memory),
    }
}

/// The consumers that a text names: none, or some with one blank between them.
fn consumers_in(alloc: Global, text: &[u8]) -> Result<Consumers, RecordFault>
    ensures { Gives (λ consumers. consumers) broken result (consumers_of text.now) }
{
    let mut items = Vec::new(alloc);
    if text.is_empty() {
        return Ok(Consumers { items });
    }
    let mut rest = Some(text);
    'parts: while let Some(left) = rest {
        let (first, more) = cut(left, b' ');
        push_consumer(&mut items, first)?;
        rest = more;
    }
    Ok(Consumers { items })
}

/// The PDO of a record, or the least rule that it breaks.
fn pdo_in(alloc: Global, row: &Record) -> Result<PdoRow, RecordFault>
    ensures value { Gives (λ pdo. pdo) broken result (pdo_in row.now) }
    ensures ranges { IfOk result IsPdoRow }
{
    let numbers = numbers_in(row)?;
    let consumers = consumers_in(alloc, row.field(5))?;
    Ok(PdoRow {
        node: numbers.node,
        tpdo: numbers.tpdo,
        period: numbers.period,
        jitter: numbers.jitter,
        deadline: numbers.deadline,
        consumers,
    })
}

/// Adds the PDO of a record to those of the records before it.
fn add(alloc: Global, rows: &mut PdoRows, place: u64, row: &Record) -> Result<(), RowFault>
    ensures { Gives (λ _. rows.new) refusal result (added place rows.old row.now) }
{
    let pdo = match pdo_in(alloc, row) {
        Ok(pdo) => pdo,
        Err(fault) => return Err(fault.at(place)),
    };
    match rows.push(pdo) {
        Ok(()) => Ok(()),
        Err(fault) => Err(fault.at(place)),
    }
}

/// The records under the header.
fn rows_in<'a>(alloc: Global, bytes: &'a [u8], row: &mut Record) -> Result<Records<'a>, RowFault>
    ensures rows { Gives (λ r. r) refusal result (rows_in bytes.now) }
    ensures count { IfOk result (λ r. length r ≤ length bytes.now) }
{
    match under_header(alloc, bytes, &HEADER, row) {
        Ok(rows) => Ok(rows),
        Err(TableError::Header) => Err(RowFault::Refused(Refusal {
            rule: Rule::Header,
            place: 0,
        })),
        Err(TableError::Memory) => Err(RowFault::Memory),
    }
}

#[tactic(auto, using(cop_table::proofs::RowsLemmas::goes_on, cop_table::proofs::RowsLemmas::stops, cop_table::proofs::RowsLemmas::ends))]
/// The table of the records under the header.
fn pdos_under(alloc: Global, rows: &mut Records<'_>, row: &mut Record) -> Result<PdoTable, RowFault>
    requires { length rows.old < 2 ^ 64 }
    ensures { Gives (λ table. table) refusal result (rows_from added 1 [] rows.old) }
{
    let mut pdos = PdoRows::new(alloc);
    let mut place = 0;
    'rows: while rows.read(row)? {
        place += 1;
        add(alloc, &mut pdos, place, row)?;
    }
    Ok(pdos.into_table())
}

/// The table of PDOs. Of its records the first that breaks a rule counts, and of its rules the one of least number.
#[tactic(auto, unfolding(crate::specs::PdoReading::pdos_of))]
pub fn read_pdos(alloc: Global, bytes: &[u8]) -> Result<PdoTable, RowFault>
    ensures { Gives (λ table. table) refusal result (pdos_of bytes.now) }
{
    let mut row = Record::new(alloc);
    let mut rows = rows_in(alloc, bytes, &mut row)?;
    pdos_under(alloc, &mut rows, &mut row)
}
