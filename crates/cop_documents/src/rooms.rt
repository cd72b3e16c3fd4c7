//! How far each number of a plan goes.

use crate::objects::Object;
use crate::plans::pdo_name;
use crate::values::micros;
use cop_frame::Rate;
use cop_frame::identifiers::SYNC;
use cop_net::Network;
use cop_plan::Plan;
use cop_room::{Miss, Room, RowRoom};
use cop_rta::Stream;
use serde_json::Value;
use std::alloc::{AllocError, Global};

/// A number as it is, and as far as it goes. A table has no other than whole microseconds.
fn times_of(alloc: Global, now: u64, limit: u64) -> Result<Value, AllocError> {
    Object::new(alloc)
        .with("now", micros(alloc, now))
        .with("limit", micros(alloc, limit))
        .end()
}

/// The same of a number that is perhaps not there.
fn times_if(alloc: Global, now: u64, limit: Option<u64>) -> Result<Value, AllocError> {
    match limit {
        Some(limit) => times_of(alloc, now, limit),
        None => Ok(Value::Null),
    }
}

fn bytes_of(alloc: Global, now: u8, limit: u8) -> Result<Value, AllocError> {
    Object::new(alloc)
        .plain("now", now)
        .plain("limit", limit)
        .end()
}

/// With the numbers of a row.
fn with_numbers(object: Object, alloc: Global, stream: &Stream, room: &RowRoom) -> Object {
    let deadline = stream.deadline.unwrap_or(0) / 4;
    object
        .with("period", times_if(alloc, stream.period / 4, room.period))
        .with("jitter", times_of(alloc, stream.jitter / 4, room.jitter))
        .with("deadline", times_of(alloc, deadline, room.deadline))
        .with("bytes", bytes_of(alloc, stream.bytes, room.bytes))
}

fn row_of(
    alloc: Global,
    name: Result<Value, AllocError>,
    stream: &Stream,
    room: &RowRoom,
) -> Result<Value, AllocError> {
    let object = Object::new(alloc).with("pdo", name).plain("id", stream.id);
    with_numbers(object, alloc, stream, room).end()
}

/// A row whose identifier is chosen anew.
fn anew_of(
    alloc: Global,
    network: &Network<'_>,
    pdo: usize,
    room: &RowRoom,
) -> Result<Value, AllocError> {
    let Some(stream) = network.set().streams().get(pdo) else {
        return Ok(Value::Null);
    };
    let object = Object::new(alloc).with("pdo", pdo_name(alloc, network.rows().get(pdo)));
    with_numbers(object, alloc, stream, room).end()
}

/// The rows, that with the lowest identifier first.
fn rows_of(
    alloc: Global,
    network: &Network<'_>,
    plan: &Plan,
    room: &Room,
) -> Result<Value, AllocError> {
    let streams = plan.streams().streams();
    let mut rows = Vec::new(alloc);
    for pdo in plan.order() {
        if let (Some(stream), Some(room)) = (streams.get(*pdo), room.rows.get(*pdo)) {
            let name = pdo_name(alloc, network.rows().get(*pdo));
            rows.push(row_of(alloc, name, stream, room)?)?;
        }
    }
    Ok(Value::Array(rows))
}

fn sync_of(alloc: Global, plan: &Plan, room: &Room) -> Result<Value, AllocError> {
    let streams = plan.streams();
    match streams.place_of(SYNC) {
        Some(sync) => match streams.streams().get(sync) {
            Some(stream) => times_if(alloc, stream.period / 4, room.sync),
            None => Ok(Value::Null),
        },
        None => Ok(Value::Null),
    }
}

fn room_of(
    alloc: Global,
    network: &Network<'_>,
    plan: &Plan,
    room: &Room,
) -> Result<Value, AllocError> {
    let more = match room.more {
        Some(period) => micros(alloc, period),
        None => Ok(Value::Null),
    };
    Object::new(alloc)
        .with("pdos", rows_of(alloc, network, plan, room))
        .with("sync", sync_of(alloc, plan, room))
        .plain("periods", room.periods)
        .plain("clock", room.clock)
        .with("more", more)
        .end()
}

/// How far each number of a plan goes. `Err` is want of memory.
pub fn room_document(
    alloc: Global,
    network: &Network<'_>,
    plan: &Plan,
    room: &Room,
) -> Result<String, AllocError> {
    let document = Object::new(alloc)
        .text("command", "room")
        .plain("rate", plan.rate().kbits())
        .with("room", room_of(alloc, network, plan, room))
        .end()?;
    document.to_string(alloc)
}

/// How far the numbers of a PDO go at a rate where the identifiers of all are chosen anew. `Err` is want of memory.
pub fn anew_document(
    alloc: Global,
    network: &Network<'_>,
    rate: Rate,
    pdo: usize,
    room: &RowRoom,
) -> Result<String, AllocError> {
    let anew = Object::new(alloc)
        .with("anew", anew_of(alloc, network, pdo, room))
        .end();
    let document = Object::new(alloc)
        .text("command", "room")
        .plain("rate", rate.kbits())
        .with("room", anew)
        .end()?;
    document.to_string(alloc)
}

/// The row of a stream above all PDOs, by its identifier. Where the network counts disturbed transfers, these have 000h and NMT has 001h.
fn frame_of(alloc: Global, network: &Network<'_>, id: u16) -> Result<Value, AllocError> {
    let (row, node) = match (network.set().errors().is_some(), id) {
        (true, 0) => ("errors", 0),
        (true, 1) | (false, 0) => ("nmt", 0),
        (_, SYNC) => ("sync", 0),
        (_, id) => ("emcy", id & 0x7F),
    };
    Object::new(alloc)
        .text("row", row)
        .plain("node", node)
        .end()
}

fn frames_of(alloc: Global, network: &Network<'_>, miss: &Miss) -> Result<Value, AllocError> {
    let streams = network.set().streams();
    let mut frames = Vec::new(alloc);
    for index in &miss.spare {
        if let Some(stream) = streams.get(*index) {
            frames.push(frame_of(alloc, network, stream.id)?)?;
        }
    }
    Ok(Value::Array(frames))
}

fn tightest_of(
    alloc: Global,
    network: &Network<'_>,
    tightest: Option<usize>,
) -> Result<Value, AllocError> {
    match tightest {
        Some(pdo) => pdo_name(alloc, network.rows().get(pdo)),
        None => Ok(Value::Null),
    }
}

fn miss_of(alloc: Global, network: &Network<'_>, miss: &Miss) -> Result<Value, AllocError> {
    let object = Object::new(alloc).plain("rate", miss.rate.kbits());
    let stretched = match miss.stretch {
        Some(stretch) => object
            .plain("deadlines", stretch.thousandths)
            .with("tightest", tightest_of(alloc, network, stretch.tightest)),
        None => object
            .plain("deadlines", Value::Null)
            .plain("tightest", Value::Null),
    };
    stretched
        .with("without", frames_of(alloc, network, miss))
        .end()
}

/// What rates miss a plan by.
pub(crate) fn misses_of(
    alloc: Global,
    network: &Network<'_>,
    misses: &[Miss],
) -> Result<Value, AllocError> {
    let mut told = Vec::new(alloc);
    for miss in misses {
        told.push(miss_of(alloc, network, miss)?)?;
    }
    Ok(Value::Array(told))
}

/// What is missed where no rate passes, by rising rate.
pub fn no_room_document(
    alloc: Global,
    network: &Network<'_>,
    misses: &[Miss],
) -> Result<String, AllocError> {
    let document = Object::new(alloc)
        .text("command", "room")
        .plain("rate", Value::Null)
        .plain("room", Value::Null)
        .with("misses", misses_of(alloc, network, misses))
        .end()?;
    document.to_string(alloc)
}
