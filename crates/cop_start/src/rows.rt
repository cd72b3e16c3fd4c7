//! The rows of a table of PDOs to start from.

ghost use Rattle.std.specs.Prelude.{◌≡◌, ◌≤◌, IfOk};
ghost use Rattle.cop_rows.specs.Fields.{is_within};
ghost use Rattle.std.specs.Option.{option_copied};
ghost use Rattle.cop_start.specs.Rows.{dict_at, fits_in, takes, is_first, consumers_by, row_consumers, deadline_of, rows_from};

use crate::frames::sync_period;
use crate::receivers::Receiver;
use crate::senders::Sender;
use crate::start::Source;
use cop_dict::{Dictionary, Direction};
use cop_pdo::{payload, same_layout};
use cop_rows::Consumer;
use cop_written::{Consumers, Row};
use std::alloc::{AllocError, Global};

/// The dictionary of a node.
fn dictionary_of(sources: &[Source], node: u8) -> Option<&Dictionary>
    ensures { option_copied result ≡ dict_at sources.now node }
{
    match sources {
        [] => None,
        [first, ..] if first.node() == node => Some(first.dictionary()),
        [_, rest @ ..] => dictionary_of(rest, node),
    }
}

/// Whether a number is one that a PDO may have.
fn is_pdo(number: u16) -> bool
    ensures { result ≡ is_within 1 512 number }
{
    number >= 1 && number <= 512
}

/// Whether an RPDO takes what a TPDO sends: both have payloads, with the same layout.
fn fits(sent: &Dictionary, tpdo: u16, taken: &Dictionary, rpdo: u16) -> bool
    ensures { result ≡ fits_in tpdo rpdo sent.now taken.now }
{
    if !is_pdo(tpdo) || !is_pdo(rpdo) {
        return false;
    }
    let Ok(sending) = payload(sent, Direction::Transmit, tpdo) else {
        return false;
    };
    let Ok(receiving) = payload(taken, Direction::Receive, rpdo) else {
        return false;
    };
    same_layout(&sending, &receiving)
}

/// Whether an RPDO is to take what a TPDO sends: it is another device's, has its identifier, and its layout.
fn takes(sources: &[Source], sender: Sender, receiver: Receiver) -> bool
    ensures { result ≡ takes sources.now sender receiver }
{
    if receiver.id != sender.id || receiver.node == sender.node {
        return false;
    }
    match (
        dictionary_of(sources, sender.node),
        dictionary_of(sources, receiver.node),
    ) {
        (Some(sent), Some(taken)) => fits(sent, sender.tpdo, taken, receiver.rpdo),
        _ => false,
    }
}

/// Whether a TPDO is the first with its identifier.
fn is_first(senders: &[Sender], sender: Sender) -> bool
    ensures { result ≡ is_first senders.now sender }
{
    for other in senders {
        if other.id == sender.id {
            return other.node == sender.node && other.tpdo == sender.tpdo;
        }
    }
    false
}

/// The RPDOs that take what a TPDO sends, by node and number.
fn consumers(
    alloc: Global,
    sources: &[Source],
    receivers: &[Receiver],
    sender: Sender,
) -> Result<Vec<Consumer>, AllocError>
    ensures { IfOk result (λ found. found.items ≡ consumers_by sources.now sender receivers.now) }
{
    let mut found = Vec::new(alloc);
    for receiver in receivers {
        if takes(sources, sender, *receiver) {
            found.push(Consumer {
                node: receiver.node,
                rpdo: receiver.rpdo,
            })?;
        }
    }
    Ok(found)
}

/// The consumers of a row: those of a TPDO that is the first with its identifier.
fn row_consumers(
    alloc: Global,
    sources: &[Source],
    senders: &[Sender],
    receivers: &[Receiver],
    sender: Sender,
) -> Result<Vec<Consumer>, AllocError>
    ensures { IfOk result (λ found. found.items ≡ row_consumers sources.now senders.now receivers.now sender) }
{
    if is_first(senders, sender) {
        consumers(alloc, sources, receivers, sender)
    } else {
        Ok(Vec::new(alloc))
    }
}

/// The deadline of a row: its period, or so many of SYNC's, at most a minute.
fn deadline(sender: Sender, sync: u32) -> u32
    requires { sync ≤ 60000000 }
    ensures { result ≡ deadline_of sync sender }
{
    if sender.every == 0 {
        return sender.period;
    }
    (u64::from(sender.every) * u64::from(sync)).min(60_000_000) as u32
}

/// The rows of the TPDOs.
pub(crate) fn rows_of(
    alloc: Global,
    sources: &[Source],
    senders: &[Sender],
    receivers: &[Receiver],
    kept: &[Sender],
) -> Result<Vec<Row>, AllocError>
    ensures { IfOk result (λ rows. rows.items ≡ rows_from sources.now senders.now receivers.now kept.now) }
{
    let sync = sync_period(sources);
    let mut rows = Vec::new(alloc);
    for sender in kept {
        let consumers = row_consumers(alloc, sources, senders, receivers, *sender)?;
        rows.push(Row {
            node: sender.node,
            tpdo: sender.tpdo,
            period: sender.period,
            deadline: deadline(*sender, sync),
            consumers: Consumers::new(consumers),
        })?;
    }
    Ok(rows)
}
