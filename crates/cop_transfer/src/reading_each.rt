//! An object of several nodes is read in one session over a port, from the opening of the adapter to its closing.

ghost use Rattle.std.specs.Prelude.{◌≡◌, true, false, IfOk, IfSome, IfNone, OnErr};
ghost use Rattle.std.specs.List.{AllByRecursion};
ghost use Rattle.cop_transfer.specs.ReadingEach.{IsNode, ReadsOne, OneFails, OneStops, AddsEach, OneOfEachFails, OneOfEachStops, ReadsAll, ReadOrCloseFails, if_each_failed, IsEachRead, EachReadFails, EachReadStops};

use crate::carrying::{End, carry};
use crate::transferring::READ_LIMIT;
use cop_frame::Rate;
use cop_live::{Port, close};
use cop_sdo::{Address, Client};
use cop_survey::{Reached, Reason, reach, wait};
use std::alloc::{AllocError, Global};

/// How the read of a node ended, and the bytes that were read: none unless it is done.
#[derive(Drop)]
pub struct NodeValue {
    pub node: u8,
    pub end: End,
    pub bytes: Vec<u8>,
}

/// What came of a read of several nodes.
#[derive(Drop)]
pub enum EachRead {
    /// The nodes were asked, and this came of each, in their order.
    Ended { values: Vec<NodeValue> },
    /// Nothing was sent.
    Left { reason: Reason },
    /// The port or its clock failed.
    Failed,
}

// Reads an object of a node behind a pause over an open adapter, by a client of its own. `None` where the port or its clock fails.
fn read_one<P: Port>(
    alloc: Global,
    ticks: u64,
    node: u8,
    at: Address,
    port: &mut P,
) -> Result<Option<NodeValue>, AllocError>
    requires node { IsNode node }
    ensures read { IfOk result (λ came. IfSome came (λ value. ReadsOne P.reads P.writes P.asks ticks at node port.old value port.new)) }
    ensures failed { IfOk result (λ came. IfNone came (OneFails P.reads P.writes P.asks P.fails ticks at node port.old port.new)) }
    ensures short { OnErr result (OneStops P.reads P.writes P.asks ticks at node port.old port.new) }
{
    if !wait(ticks, port) {
        return Ok(None);
    }
    let mut client = Client::new(alloc, node);
    // A client that has begun nothing can begin.
    let Ok(first) = client.upload(at.index, at.sub) else {
        return Err(AllocError);
    };
    let Some(end) = carry(&mut client, node, READ_LIMIT, &first, port) else {
        return Ok(None);
    };
    let bytes = Vec::from_slice(alloc, client.taken())?;
    Ok(Some(NodeValue { node, end, bytes }))
}

// Reads an object of nodes over an open adapter, one node after the other, and adds what each told. `false` where the port or its clock fails.
fn add_values<P: Port>(
    values: &mut Vec<NodeValue>,
    alloc: Global,
    ticks: u64,
    nodes: &[u8],
    at: Address,
    port: &mut P,
) -> Result<bool, AllocError>
    requires nodes { AllByRecursion IsNode nodes.now }
    ensures read { IfOk result (λ went. went ≡ true → AddsEach P.reads P.writes P.asks ticks at nodes.now values.old.items port.old values.new.items port.new) }
    ensures failed { IfOk result (λ went. went ≡ false → OneOfEachFails P.reads P.writes P.asks P.fails ticks at nodes.now port.old port.new) }
    ensures short { OnErr result (OneOfEachStops P.reads P.writes P.asks ticks at nodes.now port.old port.new) }
{
    match nodes {
        [] => Ok(true),
        [node, rest @ ..] => {
            let Some(value) = read_one(alloc, ticks, *node, at, port)? else {
                return Ok(false);
            };
            values.push(value)?;
            add_values(values, alloc, ticks, rest, at, port)
        }
    }
}

// Reads an object of nodes over an open adapter, and closes it.
fn read_and_close<P: Port>(
    alloc: Global,
    ticks: u64,
    nodes: &[u8],
    at: Address,
    port: &mut P,
) -> Result<EachRead, AllocError>
    requires nodes { AllByRecursion IsNode nodes.now }
    ensures read { IfOk result (λ each. ReadsAll P.reads P.writes P.asks ticks at nodes.now port.old port.new each) }
    ensures failed { IfOk result (λ each. if_each_failed each (ReadOrCloseFails P.reads P.writes P.asks P.fails ticks at nodes.now port.old port.new)) }
    ensures short { OnErr result (OneOfEachStops P.reads P.writes P.asks ticks at nodes.now port.old port.new) }
{
    let mut values = Vec::new(alloc);
    if !add_values(&mut values, alloc, ticks, nodes, at, port)? {
        return Ok(EachRead::Failed);
    }
    if close(port) {
        Ok(EachRead::Ended { values })
    } else {
        Ok(EachRead::Failed)
    }
}

/// Reaches the bus at a rate once, reads the value of an object of nodes, one node after the other, whole or in segments, and closes the adapter.
/// So many ticks of 250 ns pass before the first request to each, and each answer is awaited for 1 s. `Err` is want of memory.
pub fn read_each<P: Port>(
    alloc: Global,
    rate: Rate,
    ticks: u64,
    nodes: &[u8],
    at: Address,
    port: &mut P,
) -> Result<EachRead, AllocError>
    requires nodes { AllByRecursion IsNode nodes.now }
    ensures read { IfOk result (λ each. IsEachRead P.reads P.writes P.asks rate ticks at nodes.now port.old port.new each) }
    ensures failed { IfOk result (λ each. if_each_failed each (EachReadFails P.reads P.writes P.asks P.fails rate ticks at nodes.now port.old port.new)) }
    ensures short { OnErr result (EachReadStops P.reads P.writes P.asks rate ticks at nodes.now port.old port.new) }
{
    match reach(rate, port) {
        Reached::Open => read_and_close(alloc, ticks, nodes, at, port),
        Reached::Left { reason } => Ok(EachRead::Left { reason }),
        Reached::Failed => Ok(EachRead::Failed),
    }
}
