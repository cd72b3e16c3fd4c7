//! The text of a table of PDOs.

ghost use Rattle.std.specs.Prelude.{◌≡◌, ◌++◌, OnOk, IfOk};
ghost use Rattle.cop_written.specs.Texts.{line, consumer_text, more_consumers, consumers_text, row_fields, row_lines, pdo_text};

use crate::records::{digits, push_record};
use cop_rows::Consumer;
use std::alloc::{AllocError, Global};
use std::marker::Model;

/// The consumers of a PDO, in the order given. Contracts see the list.
#[derive(Drop)]
pub struct Consumers {
    items: Vec<Consumer>,
}

impl Model for Consumers {
    ghost use Rattle.std.specs.Prelude.{List};
    ghost use Rattle.cop_rows.specs.declared.pdo_table.Consumer.{Consumer};

    ghost Value = { List Consumer };

    ghost view = { λ c. c.items.items };
}

impl Consumers {
    /// These consumers.
    pub fn new(items: Vec<Consumer>) -> Consumers
        ensures { result ≡ items.items }
    {
        Consumers { items }
    }

    /// The consumers in the order given.
    pub fn as_slice(&self) -> &[Consumer]
        ensures { result.now ≡ self.now }
    {
        &self.items
    }
}

/// A row of a PDO with jitter 0: its times are in microseconds. One that is sent by SYNC has period 0.
#[derive(Drop)]
pub struct Row {
    pub node: u8,
    pub tpdo: u16,
    pub period: u32,
    pub deadline: u32,
    pub consumers: Consumers,
}

/// Adds a consumer.
fn push_consumer(alloc: Global, text: &mut Vec<u8>, consumer: Consumer) -> Result<(), AllocError>
    ensures { OnOk result (text.new.items ≡ text.old.items ++ consumer_text consumer) }
{
    text.extend_from_slice(&digits(alloc, u32::from(consumer.node))?)?;
    text.push(b'.')?;
    text.extend_from_slice(&digits(alloc, u32::from(consumer.rpdo))?)
}

/// Adds consumers, each behind a blank.
fn push_more(alloc: Global, text: &mut Vec<u8>, consumers: &[Consumer]) -> Result<(), AllocError>
    ensures { OnOk result (text.new.items ≡ text.old.items ++ more_consumers consumers.now) }
{
    for consumer in consumers {
        text.push(b' ')?;
        push_consumer(alloc, text, *consumer)?;
    }
    Ok(())
}

/// Consumers with one blank between them.
fn consumers_text(alloc: Global, consumers: &[Consumer]) -> Result<Vec<u8>, AllocError>
    ensures { IfOk result (λ text. text.items ≡ consumers_text consumers.now) }
{
    let mut text = Vec::new(alloc);
    if let [first, rest @ ..] = consumers {
        push_consumer(alloc, &mut text, *first)?;
        push_more(alloc, &mut text, rest)?;
    }
    Ok(text)
}

/// Adds the row of a PDO.
fn push_row(alloc: Global, text: &mut Vec<u8>, row: &Row) -> Result<(), AllocError>
    ensures { OnOk result (text.new.items ≡ text.old.items ++ line (row_fields row.now)) }
{
    let node = digits(alloc, u32::from(row.node))?;
    let tpdo = digits(alloc, u32::from(row.tpdo))?;
    let period = digits(alloc, row.period)?;
    let deadline = digits(alloc, row.deadline)?;
    let consumers = consumers_text(alloc, row.consumers.as_slice())?;
    push_record(
        alloc,
        text,
        &[&node, &tpdo, &period, b"0", &deadline, &consumers],
    )
}

/// The text of a table of PDOs.
pub fn pdo_text(alloc: Global, rows: &[Row]) -> Result<Vec<u8>, AllocError>
    ensures { IfOk result (λ text. text.items ≡ pdo_text rows.now) }
{
    let mut text = Vec::from_slice(alloc, b"node,tpdo,period,jitter,deadline,consumers\n")?;
    for row in rows {
        push_row(alloc, &mut text, row)?;
    }
    Ok(text)
}
