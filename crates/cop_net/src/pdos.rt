//! The PDOs of a network: what each of them sends, and who takes it.

ghost use Rattle.std.specs.Prelude.{◌≡◌, ◌<◌, ◌≤◌, ◌+◌, None, All, IfOk, IfSome, Ok, length};
ghost use Rattle.cop_table.specs.Reading.{Gives};
ghost use Rattle.cop_dict.specs.declared.mapping.Direction.TheVariants as directions;
ghost use Rattle.cop_pdo.specs.Payload.{payload_of};
ghost use Rattle.cop_rta.specs.Entries.{entry_of};
ghost use Rattle.cop_rows.specs.Pdos.{IsConsumer, IsPdoRow};
ghost use Rattle.std.specs.Option.{option_copied};
ghost use Rattle.cop_net.specs.declared.faults.Table.TheVariants.{Pdos};
ghost use Rattle.cop_net.specs.declared.faults.Rule.TheVariants as rules;
ghost use Rattle.cop_net.specs.declared.faults.PlanFault.TheVariants.{Refused};
ghost use Rattle.cop_net.specs.Faults.{refusal};
ghost use Rattle.cop_net.specs.Pdos.{unsent, unread, laid_out, transmitted, transmitted_by, received, received_by, consumer_added, sync_fault, pace_fault, period_of, tpdo_of, rpdo_of, pdo_stream, ArePdos, IsSync, pdo_added, pdos_of};
ghost use Rattle.cop_net.specs.Steps.{folded};

use crate::devices::{Device, Devices};
use crate::faults::{DevicePdo, PlanFault, ReceiveFault, Refusal, Rule, SyncFault, Table};
use crate::fixed::put;
use crate::settings::{every_at, is_usable};
use crate::signals::Signals;
use crate::uses::{Used, Uses};
use cop_dict::{Dictionary, Direction, MappingFault};
use cop_pdo::{Mapping, payload, same_layout};
use cop_rows::{Consumer, FrameRow, PdoRow};
use cop_rta::{Stream, StreamSet};
use std::alloc::Global;
use std::marker::Model;

/// The refusal of a record of the table of PDOs.
fn refused(rule: Rule, place: u64) -> PlanFault
    ensures { result ≡ Refused (record { table = Pdos; rule = rule; place = place }) }
{
    PlanFault::Refused(Refusal {
        table: Table::Pdos,
        rule,
        place,
    })
}

/// What a TPDO of a device sends.
fn sent_layout(place: u64, tpdo: u16, dict: &Dictionary) -> Result<Mapping, PlanFault>
    requires { (1 ≤ tpdo) × (tpdo ≤ 512) }
    ensures { Gives (λ m. m) refusal result (laid_out unsent place directions.Transmit (payload_of dict.now directions.Transmit tpdo)) }
{
    match payload(dict, Direction::Transmit, tpdo) {
        Ok(sent) => Ok(sent),
        Err(fault) => Err(refused(Rule::Transmit(Some(fault)), place)),
    }
}

/// The refusal of a consumer.
fn unread(place: u64, consumer: Consumer, fault: ReceiveFault) -> PlanFault
    ensures { result ≡ Refused (record { table = Pdos; rule = rules.Receive consumer fault; place = place }) }
{
    refused(Rule::Receive(consumer, fault), place)
}

/// What the RPDO of a consumer takes.
fn taken_layout(place: u64, consumer: Consumer, dict: &Dictionary) -> Result<Mapping, PlanFault>
    requires { (1 ≤ consumer.rpdo) × (consumer.rpdo ≤ 512) }
    ensures { Gives (λ m. m) refusal result (laid_out (unread consumer) place directions.Receive (payload_of dict.now directions.Receive consumer.rpdo)) }
{
    match payload(dict, Direction::Receive, consumer.rpdo) {
        Ok(taken) => Ok(taken),
        Err(fault) => Err(unread(place, consumer, ReceiveFault::Mapping(fault))),
    }
}

/// What a TPDO sends, and after how many SYNCs: 0 where it is sent by events.
#[derive(Drop)]
pub struct Sent {
    pub mapping: Mapping,
    pub every: u8,
}

/// Why a SYNC cannot send the PDO of a row each so many times.
fn sync_fault(sync: Option<FrameRow>, every: u8, row: &PdoRow) -> Option<SyncFault>
    ensures { result ≡ sync_fault sync row.now every }
{
    let Some(sync) = sync else {
        return Some(SyncFault::NoSync);
    };
    if u64::from(every) * u64::from(sync.period) > 60_000_000 {
        return Some(SyncFault::TooRare(every));
    }
    if u64::from(sync.jitter) + u64::from(row.jitter) > 40_000_000 {
        return Some(SyncFault::TooLate);
    }
    None
}

#[tactic(auto, unfolding(crate::specs::Pdos::pace_fault))]
/// Why a row and SYNC's do not go with a TPDO that is sent by so many SYNCs, or by events.
fn pace_fault(sync: Option<FrameRow>, every: u8, row: &PdoRow) -> Option<SyncFault>
    ensures { result ≡ pace_fault sync row.now every }
{
    if every == 0 {
        return if row.period == 0 {
            Some(SyncFault::NoPeriod)
        } else {
            None
        };
    }
    if row.period == 0 {
        sync_fault(sync, every, row)
    } else {
        Some(SyncFault::OwnPeriod)
    }
}

/// The PDO of a row.
fn tpdo_of(row: &PdoRow) -> DevicePdo
    ensures { result ≡ tpdo_of row.now }
{
    DevicePdo {
        direction: Direction::Transmit,
        node: row.node,
        number: row.tpdo,
    }
}

/// The PDO of a consumer.
fn rpdo_of(consumer: Consumer) -> DevicePdo
    ensures { result ≡ rpdo_of consumer }
{
    DevicePdo {
        direction: Direction::Receive,
        node: consumer.node,
        number: consumer.rpdo,
    }
}

/// The TPDO of a device.
fn transmitted(
    signals: Signals,
    place: u64,
    row: &PdoRow,
    dict: &Dictionary,
) -> Result<Sent, PlanFault>
    requires { (1 ≤ row.now.tpdo) × (row.now.tpdo ≤ 512) }
    ensures exact { Gives (λ s. s) refusal result (transmitted signals place row.now dict.now) }
    ensures paced { IfOk result (λ s. (s.every ≤ 240) × (pace_fault signals.sync row.now s.every ≡ None)) }
{
    let index = 0x17FF + row.tpdo;
    let mapping = sent_layout(place, row.tpdo, dict)?;
    if !is_usable(dict, index, signals) {
        return Err(refused(Rule::CobId(tpdo_of(row)), place));
    }
    let Some(every) = every_at(dict, index) else {
        return Err(refused(Rule::Transmission, place));
    };
    match pace_fault(signals.sync, every, row) {
        None => Ok(Sent { mapping, every }),
        Some(fault) => Err(refused(Rule::Synchrony(fault), place)),
    }
}

/// The TPDO of a device that is perhaps not there.
fn transmitted_by(
    signals: Signals,
    place: u64,
    row: &PdoRow,
    device: Option<&Device>,
) -> Result<Sent, PlanFault>
    requires { (1 ≤ row.now.tpdo) × (row.now.tpdo ≤ 512) }
    ensures exact { Gives (λ s. s) refusal result (transmitted_by signals place row.now (option_copied device.entry)) }
    ensures paced { IfOk result (λ s. (s.every ≤ 240) × (pace_fault signals.sync row.now s.every ≡ None)) }
{
    match device {
        Some(device) => transmitted(signals, place, row, &device.dictionary),
        None => Err(refused(Rule::Transmit(None), place)),
    }
}

/// The RPDO of a device takes what is sent.
fn received(
    signals: Signals,
    place: u64,
    consumer: Consumer,
    is_taken: bool,
    sent: &Mapping,
    dict: &Dictionary,
) -> Result<Mapping, PlanFault>
    requires { (1 ≤ consumer.rpdo) × (consumer.rpdo ≤ 512) }
    ensures { Gives (λ m. m) refusal result (received signals place consumer is_taken sent.now dict.now) }
{
    let layout = taken_layout(place, consumer, dict)?;
    if is_taken {
        return Err(unread(place, consumer, ReceiveFault::Taken));
    }
    if !same_layout(sent, &layout) {
        return Err(unread(place, consumer, ReceiveFault::OtherLayout));
    }
    if !is_usable(dict, 0x13FF + consumer.rpdo, signals) {
        return Err(refused(Rule::CobId(rpdo_of(consumer)), place));
    }
    Ok(layout)
}

/// The RPDO of a device that is perhaps not there.
fn received_by(
    signals: Signals,
    place: u64,
    consumer: Consumer,
    is_taken: bool,
    sent: &Mapping,
    device: Option<&Device>,
) -> Result<Mapping, PlanFault>
    requires { (1 ≤ consumer.rpdo) × (consumer.rpdo ≤ 512) }
    ensures { Gives (λ m. m) refusal result (received_by signals place consumer is_taken sent.now (option_copied device.entry)) }
{
    match device {
        Some(device) => received(signals, place, consumer, is_taken, sent, &device.dictionary),
        None => Err(unread(place, consumer, ReceiveFault::NoDevice)),
    }
}

/// Adds a consumer of what is sent.
fn add_consumer(
    devices: &Devices,
    signals: Signals,
    place: u64,
    sent: &Mapping,
    used: &mut Uses,
    consumer: Consumer,
) -> Result<(), PlanFault>
    requires { IsConsumer consumer }
    ensures { Gives (λ _. used.new) refusal result (consumer_added devices.now.devices signals place sent.now used.old consumer) }
{
    let index = 0x13FF + consumer.rpdo;
    let is_taken = used.contains(consumer.node, index);
    let device = devices.device(consumer.node);
    received_by(signals, place, consumer, is_taken, sent, device)?;
    used.push(Used {
        node: consumer.node,
        index,
    })
}

/// Adds the consumers of what is sent.
fn add_consumers(
    devices: &Devices,
    signals: Signals,
    place: u64,
    sent: &Mapping,
    used: &mut Uses,
    consumers: &[Consumer],
) -> Result<(), PlanFault>
    requires { All IsConsumer consumers.now }
    ensures { Gives (λ _. used.new) refusal result (folded (consumer_added devices.now.devices signals place sent.now) used.old consumers.now) }
{
    for consumer in consumers {
        add_consumer(devices, signals, place, sent, used, *consumer)?;
    }
    Ok(())
}

#[tactic(auto, unfolding(crate::specs::Pdos::pace_fault, crate::specs::Pdos::period_of))]
/// The period of a TPDO in microseconds: its row's, or so many of SYNC's.
fn period_of(sync: Option<FrameRow>, every: u8, row: &PdoRow) -> u64
    ensures value { result ≡ period_of sync row.now every }
    ensures range { pace_fault sync row.now every ≡ None → IsPdoRow row.now → IfSome sync IsSync → (100 ≤ result) × (result ≤ 60000000) }
{
    match sync {
        Some(sync) if every != 0 => u64::from(every) * u64::from(sync.period),
        _ => u64::from(row.period),
    }
}

/// The stream of a PDO that has so many before it.
fn stream(signals: Signals, before: usize, sent: &Sent, row: &PdoRow) -> Stream
    requires row { IsPdoRow row.now }
    requires before { before < 512 }
    requires sync { IfSome signals.sync IsSync }
    requires every { sent.now.every ≤ 240 }
    requires paced { pace_fault signals.sync row.now sent.now.every ≡ None }
    ensures { entry_of result ≡ pdo_stream signals before sent.now row.now }
{
    Stream {
        id: 0x181 + before as u16,
        bytes: sent.mapping.bytes(),
        period: period_of(signals.sync, sent.every, row) * 4,
        jitter: u64::from(row.jitter) * 4,
        deadline: Some(u64::from(row.deadline) * 4),
        every: sent.every,
    }
}

/// The streams of the PDOs, and the records that they use.
#[derive(Drop)]
pub struct Found {
    pub set: StreamSet,
    pub used: Uses,
}

impl Model for Found {
    ghost use Rattle.std.specs.Prelude.{map};
    ghost use Rattle.cop_rta.specs.Entries.{entry_of};
    ghost use Rattle.cop_net.specs.Pdos.{Traffic};

    ghost Value = { Traffic };

    ghost view = { λ p. record { streams = map entry_of p.set; used = p.used } };
}

impl Found {
    /// Adds a PDO and its consumers.
    fn add(&mut self, devices: &Devices, signals: Signals, row: &PdoRow) -> Result<(), PlanFault>
        requires row { IsPdoRow row.now }
        requires before { length self.old.streams < 512 }
        requires pdos { ArePdos self.old.streams }
        requires sync { IfSome signals.sync IsSync }
        ensures exact { Gives (λ _. self.new) refusal result (pdo_added devices.now.devices signals self.old row.now) }
    {
        let before = self.set.len();
        let place = before as u64 + 1;
        let sent = transmitted_by(signals, place, row, devices.device(row.node))?;
        self.used.push(Used {
            node: row.node,
            index: 0x17FF + row.tpdo,
        })?;
        add_consumers(
            devices,
            signals,
            place,
            &sent.mapping,
            &mut self.used,
            row.consumers.as_slice(),
        )?;
        put(&mut self.set, stream(signals, before, &sent, row))
    }
}

/// The streams of the PDOs of the rows, and the records that they use, or the first refusal by record.
pub fn find_pdos(
    alloc: Global,
    devices: &Devices,
    signals: Signals,
    rows: &[PdoRow],
) -> Result<Found, PlanFault>
    requires rows { All IsPdoRow rows.now }
    requires count { length rows.now ≤ 512 }
    requires sync { IfSome signals.sync IsSync }
    ensures { Gives (λ p. p) refusal result (pdos_of devices.now.devices signals rows.now) }
{
    let mut found = Found {
        set: StreamSet::new(alloc),
        used: Uses::new(alloc),
    };
    for row in rows {
        found.add(devices, signals, row)?;
    }
    Ok(found)
}
