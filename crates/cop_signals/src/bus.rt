//! The messages of a plan's bus: who sends each, what is in it, and who takes that.

ghost use Rattle.std.specs.Prelude.{◌≡◌, ◌≤◌, ◌++◌, [], IfOk, OnOk};
ghost use Rattle.std.specs.Option.{option_copied};
ghost use Rattle.cop_rows.specs.Pdos.{IsConsumer, IsPdoRow};
ghost use Rattle.std.specs.Prelude.{All};
ghost use Rattle.cop_dict.specs.declared.mapping.Direction.TheVariants as directions;
ghost use Rattle.cop_signals.specs.Bus.{signals_in, sent_signals, takes_in, taker, receivers_of, fixed_sender, message_of, messages_of};

use crate::places::{Signal, signals};
use crate::takers::takes_from;
use cop_dict::{Dictionary, Direction};
use cop_frame::identifiers;
use cop_net::{Consumer, Network, PdoRow};
use cop_pdo::payload;
use cop_plan::Plan;
use cop_rta::Stream;
use std::alloc::{AllocError, Global};

/// A message of the bus under a plan.
#[derive(Clone, Copy, PartialEq, Eq, Debug)]
pub struct Message {
    pub id: u16,
    pub bytes: u8,
    /// In ticks of 250 ns.
    pub period: u64,
    /// The node that sends it; none where no device of the tables does.
    pub sender: Option<u8>,
}

/// The signals of a TPDO of a dictionary that is perhaps not there.
fn signals_in(
    alloc: Global,
    dict: Option<&Dictionary>,
    tpdo: u16,
) -> Result<Vec<Signal>, AllocError>
    requires { (1 ≤ tpdo) × (tpdo ≤ 512) }
    ensures { IfOk result (λ signals. signals.items ≡ signals_in (option_copied dict.entry) tpdo) }
{
    let Some(dict) = dict else {
        return Ok(Vec::new(alloc));
    };
    match payload(dict, Direction::Transmit, tpdo) {
        Ok(mapping) => signals(alloc, dict, &mapping),
        Err(_) => Ok(Vec::new(alloc)),
    }
}

/// The signals of the PDO of a row of a network, in the order of its mapping. `Err` is want of memory.
pub fn sent_signals(
    alloc: Global,
    network: &Network<'_>,
    row: &PdoRow,
) -> Result<Vec<Signal>, AllocError>
    requires { IsPdoRow row.now }
    ensures { IfOk result (λ signals. signals.items ≡ sent_signals network.now row.now) }
{
    signals_in(alloc, network.dictionary(row.node), row.tpdo)
}

/// Whether the RPDO of a dictionary that is perhaps not there takes a signal.
fn takes_in(dict: Option<&Dictionary>, rpdo: u16, signal: Signal) -> bool
    requires { (1 ≤ rpdo) × (rpdo ≤ 512) }
    ensures { result ≡ takes_in (option_copied dict.entry) rpdo signal }
{
    let Some(dict) = dict else {
        return false;
    };
    match payload(dict, Direction::Receive, rpdo) {
        Ok(mapping) => takes_from(
            Direction::Receive,
            mapping.entries(),
            0,
            usize::from(signal.start),
            signal.bits,
        ),
        Err(_) => false,
    }
}

/// Adds the node of a consumer, where it takes a signal.
fn add_taker(
    nodes: &mut Vec<u8>,
    network: &Network<'_>,
    signal: Signal,
    consumer: Consumer,
) -> Result<(), AllocError>
    requires { IsConsumer consumer }
    ensures { OnOk result (nodes.new.items ≡ nodes.old.items ++ taker network.now signal consumer) }
{
    if takes_in(network.dictionary(consumer.node), consumer.rpdo, signal) {
        nodes.push(consumer.node)?;
    }
    Ok(())
}

/// Adds the nodes of the consumers that take a signal.
fn add_receivers(
    nodes: &mut Vec<u8>,
    network: &Network<'_>,
    signal: Signal,
    consumers: &[Consumer],
) -> Result<(), AllocError>
    requires { All IsConsumer consumers.now }
    ensures { OnOk result (nodes.new.items ≡ nodes.old.items ++ receivers_of network.now signal consumers.now) }
{
    match consumers {
        [] => Ok(()),
        [first, rest @ ..] => {
            add_taker(nodes, network, signal, *first)?;
            add_receivers(nodes, network, signal, rest)?;
            Ok(())
        }
    }
}

/// The nodes that take a signal of the PDO of a row, in the order of its consumers: those whose RPDO maps an object where the
/// signal is. `Err` is want of memory.
pub fn receivers(
    alloc: Global,
    network: &Network<'_>,
    row: &PdoRow,
    signal: Signal,
) -> Result<Vec<u8>, AllocError>
    requires { IsPdoRow row.now }
    ensures { IfOk result (λ nodes. nodes.items ≡ receivers_of network.now signal row.now.consumers) }
{
    let mut nodes = Vec::new(alloc);
    add_receivers(&mut nodes, network, signal, row.consumers.as_slice())?;
    Ok(nodes)
}

/// Who sends the frame of a fixed identifier.
fn fixed_sender(id: u16) -> Option<u8>
    ensures { result ≡ fixed_sender id }
{
    let request = identifiers::SDO_REQUEST;
    if id % 128 == 0 || (request <= id && id <= request + 127) {
        None
    } else {
        Some((id % 128) as u8)
    }
}

/// The message of a stream.
fn message_of(sender: Option<u8>, stream: &Stream) -> Message
    ensures { result ≡ message_of sender stream.now }
{
    Message {
        id: stream.id,
        bytes: stream.bytes,
        period: stream.period,
        sender,
    }
}

/// Adds the messages of streams, of which the first are those of the rows.
fn add_messages(
    messages: &mut Vec<Message>,
    rows: &[PdoRow],
    streams: &[Stream],
) -> Result<(), AllocError>
    ensures { OnOk result (messages.new.items ≡ messages.old.items ++ messages_of rows.now streams.now) }
{
    match (rows, streams) {
        (_, []) => Ok(()),
        ([], [stream, streams @ ..]) => {
            messages.push(message_of(fixed_sender(stream.id), stream))?;
            add_messages(messages, &[], streams)?;
            Ok(())
        }
        ([row, rows @ ..], [stream, streams @ ..]) => {
            messages.push(message_of(Some(row.node), stream))?;
            add_messages(messages, rows, streams)?;
            Ok(())
        }
    }
}

/// The messages of a network's bus under a plan: one for each stream of the plan, those of the PDOs first, in the order of the
/// rows. `Err` is want of memory.
pub fn messages(
    alloc: Global,
    network: &Network<'_>,
    plan: &Plan,
) -> Result<Vec<Message>, AllocError>
    ensures { IfOk result (λ messages. messages.items ≡ messages_of network.now.rows plan.now.streams) }
{
    let mut messages = Vec::new(alloc);
    add_messages(&mut messages, network.rows(), plan.streams().streams())?;
    Ok(messages)
}
