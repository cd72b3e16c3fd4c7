//! A transfer over a port, from the opening of the adapter to its closing.

ghost use Rattle.std.specs.Prelude.{◌≡◌, ◌≤◌, false, IfOk, IfErr, IfSome, IfNone, OnErr};
ghost use Rattle.cop_sdo.specs.Message.{message_of};
ghost use Rattle.cop_sdo.specs.Client.{is_idle};
ghost use Rattle.cop_transfer.specs.Transferring.{CarriedAndClosed, CarryOrCloseFails, IsTransfer, if_failed, TransferFails, IsRead, ReadFails, ReadStops, IsWritten, WriteFails, IsUnbegun};

use crate::carrying::{End, carry};
use cop_frame::{Frame, Rate};
use cop_live::{Port, close};
use cop_sdo::{Address, Client, ClientFault};
use cop_survey::{Reached, Reason, reach};
use std::alloc::{AllocError, Global};

/// The ticks for which an answer is awaited: 1 s by a read, and 10 s by a write, as devices that store a value need seconds.
pub(crate) const READ_LIMIT: u64 = 4_000_000;

const WRITE_LIMIT: u64 = 40_000_000;

/// What came of a transfer.
#[derive(Clone, Copy, Debug, PartialEq, Eq)]
pub enum Transferred {
    /// The node was asked, and the transfer ended so.
    Ended { end: End },
    /// Nothing was sent.
    Left { reason: Reason },
    /// The port or its clock failed.
    Failed,
}

/// What came of a read, and the bytes that were read: none unless it is done.
#[derive(Drop)]
pub struct ReadValue {
    pub came: Transferred,
    pub bytes: Vec<u8>,
}

// Carries a transfer to its end over an open adapter, and closes it.
fn carry_and_close<P: Port>(
    client: &mut Client,
    node: u8,
    limit: u64,
    first: &Frame,
    port: &mut P,
) -> Option<End>
    requires node { client.old.node ≡ node }
    requires asking { is_idle client.old.asking.task ≡ false }
    ensures carried { IfSome result (λ end. CarriedAndClosed P.reads P.writes P.asks limit (record { client = client.old; request = message_of first.now }) port.old end client.new port.new) }
    ensures failed { IfNone result (CarryOrCloseFails P.reads P.writes P.asks P.fails limit (record { client = client.old; request = message_of first.now }) port.old port.new) }
{
    let Some(end) = carry(client, node, limit, first, port) else {
        return None;
    };
    if close(port) { Some(end) } else { None }
}

// Reaches the bus at a rate, carries a transfer to its end, and closes the adapter.
fn transfer<P: Port>(
    client: &mut Client,
    node: u8,
    rate: Rate,
    limit: u64,
    first: &Frame,
    port: &mut P,
) -> Transferred
    requires node { client.old.node ≡ node }
    requires asking { is_idle client.old.asking.task ≡ false }
    ensures transferred { IsTransfer P.reads P.writes P.asks rate limit (record { client = client.old; request = message_of first.now }) port.old client.new port.new result }
    ensures failed { if_failed result (TransferFails P.reads P.writes P.asks P.fails rate limit (record { client = client.old; request = message_of first.now }) port.old port.new) }
{
    match reach(rate, port) {
        Reached::Open => match carry_and_close(client, node, limit, first, port) {
            Some(end) => Transferred::Ended { end },
            None => Transferred::Failed,
        },
        Reached::Left { reason } => Transferred::Left { reason },
        Reached::Failed => Transferred::Failed,
    }
}

/// Reaches the bus at a rate, reads the value of an object of a node, whole or in segments, and closes the adapter. Each answer is awaited for
/// 1 s. `Err` is want of memory for the bytes.
pub fn read<P: Port>(
    alloc: Global,
    rate: Rate,
    node: u8,
    at: Address,
    port: &mut P,
) -> Result<ReadValue, AllocError>
    requires node { (1 ≤ node) × (node ≤ 127) }
    ensures read { IfOk result (λ value. IsRead P.reads P.writes P.asks rate node at port.old port.new value) }
    ensures failed { IfOk result (λ value. if_failed value.came (ReadFails P.reads P.writes P.asks P.fails rate node at port.old port.new)) }
    ensures short { OnErr result (ReadStops P.reads P.writes P.asks P.fails rate node at port.old port.new) }
{
    let mut client = Client::new(alloc, node);
    // A client that has begun nothing can begin.
    let Ok(first) = client.upload(at.index, at.sub) else {
        return Err(AllocError);
    };
    let came = transfer(&mut client, node, rate, READ_LIMIT, &first, port);
    Ok(ReadValue {
        came,
        bytes: Vec::from_slice(alloc, client.taken())?,
    })
}

/// Reaches the bus at a rate, gives an object of a node the value of these bytes, at most 65,535, whole or in segments, and closes the adapter. Each
/// answer is awaited for 10 s. `Err` says why nothing was done.
pub fn write<P: Port>(
    alloc: Global,
    rate: Rate,
    node: u8,
    at: Address,
    bytes: &[u8],
    port: &mut P,
) -> Result<Transferred, ClientFault>
    requires node { (1 ≤ node) × (node ≤ 127) }
    ensures written { IfOk result (λ came. IsWritten P.reads P.writes P.asks rate node at bytes.now port.old port.new came) }
    ensures failed { IfOk result (λ came. if_failed came (WriteFails P.reads P.writes P.asks P.fails rate node at bytes.now port.old port.new)) }
    ensures unbegun { IfErr result (λ fault. IsUnbegun node at bytes.now port.old port.new fault) }
{
    let mut client = Client::new(alloc, node);
    let first = client.download(at.index, at.sub, bytes)?;
    Ok(transfer(&mut client, node, rate, WRITE_LIMIT, &first, port))
}
