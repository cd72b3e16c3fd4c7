//! What a log of a real bus shows.

use crate::objects::{Object, text_of};
use crate::values::{micros, time};
use cop_logbook::{
    Breach, Broken, LateHeartbeat, Logbook, Nearest, Notice, Notices, Seen, Stranger, abort_words,
    command_words, emergency_words,
};
use cop_rta::Stream;
use serde_json::Value;
use std::alloc::{AllocError, Global};

/// What kind of frame an identifier says, as SocketCAN has it.
fn frame_word(id: u32) -> &'static str {
    if id & 0x2000_0000 != 0 {
        "error"
    } else if id & 0x4000_0000 != 0 {
        "remote"
    } else {
        "data"
    }
}

/// An object with an identifier, as SocketCAN has it: its number, its bits, and the kind of frame.
fn with_id(object: Object, id: u32) -> Object {
    let bits = if id & 0x8000_0000 != 0 { 29u8 } else { 11u8 };
    object
        .plain("id", id & 0x1FFF_FFFF)
        .plain("bits", bits)
        .text("frame", frame_word(id))
}

/// The least, the mean and the greatest distance of two frames; null where there are not two.
fn distance_of(alloc: Global, seen: &Seen) -> Result<Value, AllocError> {
    if seen.frames < 2 {
        return Ok(Value::Null);
    }
    Object::new(alloc)
        .with("least", micros(alloc, seen.least))
        .with("mean", micros(alloc, seen.mean()))
        .with("greatest", micros(alloc, seen.greatest))
        .end()
}

/// A stream of the plan: its frames, their distances against its period, and the share of the bus that they have at least.
fn stream_of(alloc: Global, book: &Logbook<'_>, stream: &Stream) -> Result<Value, AllocError> {
    let seen = book.seen(stream.id).copied().unwrap_or(Seen::NOTHING);
    Object::new(alloc)
        .plain("id", stream.id)
        .plain("frames", seen.frames)
        .with("period", time(alloc, stream.period))
        .with("distance", distance_of(alloc, &seen))
        .plain(
            "load",
            seen.billionths(book.plan().rate(), book.all().span()),
        )
        .end()
}

fn streams_of(alloc: Global, book: &Logbook<'_>) -> Result<Value, AllocError> {
    let mut streams = Vec::new(alloc);
    for stream in book.plan().streams().streams() {
        streams.push(stream_of(alloc, book, stream)?)?;
    }
    Ok(Value::Array(streams))
}

/// The error frames, and how rare disturbed transfers are to be.
fn errors_of(alloc: Global, book: &Logbook<'_>, errors: &Stream) -> Result<Value, AllocError> {
    let seen = book.disturbed();
    Object::new(alloc)
        .plain("frames", seen.frames)
        .with("period", time(alloc, errors.period))
        .with("jitter", time(alloc, errors.jitter))
        .with("distance", distance_of(alloc, seen))
        .end()
}

/// An object with the error frames, where the plan counts disturbed transfers.
fn with_errors(object: Object, alloc: Global, book: &Logbook<'_>) -> Object {
    match book.errors() {
        Some(errors) => object.with("errors", errors_of(alloc, book, &errors)),
        None => object,
    }
}

fn stranger_of(alloc: Global, stranger: &Stranger) -> Result<Value, AllocError> {
    with_id(Object::new(alloc), stranger.id)
        .plain("frames", stranger.seen.frames)
        .plain("first_line", stranger.seen.first_line)
        .end()
}

fn strangers_of(alloc: Global, book: &Logbook<'_>) -> Result<Value, AllocError> {
    let mut strangers = Vec::new(alloc);
    for stranger in &book.strangers()? {
        strangers.push(stranger_of(alloc, stranger)?)?;
    }
    Ok(Value::Array(strangers))
}

fn heartbeat_of(alloc: Global, heartbeat: &LateHeartbeat) -> Result<Value, AllocError> {
    Object::new(alloc)
        .plain("line", heartbeat.line)
        .plain("node", heartbeat.node)
        .with("distance", micros(alloc, heartbeat.distance))
        .with("period", micros(alloc, heartbeat.time))
        .end()
}

fn heartbeats_of(alloc: Global, book: &Logbook<'_>) -> Result<Value, AllocError> {
    let mut heartbeats = Vec::new(alloc);
    for heartbeat in &book.late_heartbeats()? {
        heartbeats.push(heartbeat_of(alloc, heartbeat)?)?;
    }
    Ok(Value::Array(heartbeats))
}

/// A frame that was noticed, with its line.
fn notice_of(alloc: Global, line: u64, notice: Notice) -> Result<Value, AllocError> {
    let told = Object::new(alloc).plain("line", line);
    match notice {
        Notice::Command { command, node } => told
            .text("kind", "command")
            .plain("node", node)
            .plain("command", command)
            .text("words", command_words(command)),
        Notice::BootUp { node } => told.text("kind", "boot-up").plain("node", node),
        Notice::Emergency { node, code } => told
            .text("kind", "emergency")
            .plain("node", node)
            .plain("code", code)
            .text("words", emergency_words(code)),
        Notice::Abort {
            node,
            is_client,
            index,
            sub,
            code,
        } => told
            .text("kind", "abort")
            .plain("node", node)
            .text("by", if is_client { "client" } else { "server" })
            .plain("index", index)
            .plain("sub", sub)
            .plain("code", code)
            .text("words", abort_words(code)),
    }
    .end()
}

/// How many frames of each kind were noticed, and the first of each.
fn notices_of(alloc: Global, notices: &Notices) -> Result<Value, AllocError> {
    let mut told = Vec::new(alloc);
    for (line, notice) in notices.told() {
        told.push(notice_of(alloc, *line, *notice)?)?;
    }
    let counts = notices.counts();
    Object::new(alloc)
        .plain("commands", counts.commands)
        .plain("boot_ups", counts.boot_ups)
        .plain("emergencies", counts.emergencies)
        .plain("aborts", counts.aborts)
        .plain("told", Value::Array(told))
        .end()
}

/// How near a frame can be to one before it, and what that is made of.
fn nearest_of(alloc: Global, nearest: Option<Nearest>) -> Result<Value, AllocError> {
    let Some(nearest) = nearest else {
        return Ok(Value::Null);
    };
    let least = u64::try_from(nearest.ticks()).unwrap_or(u64::MAX);
    Object::new(alloc)
        .with("time", time(alloc, least))
        .plain("periods", nearest.count)
        .with("period", time(alloc, nearest.period))
        .with("response", time(alloc, nearest.response))
        .with("transfer", time(alloc, nearest.transfer))
        .with("bit", time(alloc, nearest.bit))
        .end()
}

/// A breach with its kind and its numbers.
fn breach_of(alloc: Global, breach: &Breach) -> Result<Value, AllocError> {
    let told = with_id(
        Object::new(alloc).plain("line", breach.line),
        breach.entry.id,
    )
    .text("breaks", breach.premise());
    match breach.broken {
        Broken::Unknown => told.text("kind", "unknown"),
        Broken::Length { planned } => told
            .text("kind", "length")
            .plain("bytes", breach.entry.len)
            .plain("planned", planned),
        Broken::Soon {
            from,
            since,
            nearest,
        } => told
            .text("kind", "soon")
            .plain("from_line", from)
            .with("distance", micros(alloc, since))
            .with("least", nearest_of(alloc, nearest)),
        Broken::Crowded { from, since, ticks } => told
            .text("kind", "crowded")
            .plain("from_line", from)
            .with("distance", micros(alloc, since))
            .with(
                "transfers",
                time(alloc, u64::try_from(ticks).unwrap_or(u64::MAX)),
            ),
        Broken::Fallen { from, by } => told
            .text("kind", "fallen")
            .plain("from_line", from)
            .with("fall", micros(alloc, by)),
    }
    .end()
}

fn breaches_of(alloc: Global, book: &Logbook<'_>) -> Result<Value, AllocError> {
    let mut told = Vec::new(alloc);
    for breach in book.told() {
        told.push(breach_of(alloc, breach)?)?;
    }
    Object::new(alloc)
        .plain("count", book.breaches())
        .plain("told", Value::Array(told))
        .end()
}

/// By how much distances of two stamps may be wrong.
fn clock_of(alloc: Global, book: &Logbook<'_>) -> Result<Value, AllocError> {
    let clock = book.clock();
    Object::new(alloc)
        .with("error", micros(alloc, u64::from(clock.error)))
        .plain("drift", clock.drift)
        .end()
}

/// The number of the last line, which was left out, if it has no end.
fn unended_of(book: &Logbook<'_>) -> Value {
    match book.unended() {
        Some(line) => Value::from(line),
        None => Value::Null,
    }
}

/// The answer of a watch: what a log shows by a plan, once all its lines were taken; none where no rate passes.
pub fn watch_document(alloc: Global, book: Option<&Logbook<'_>>) -> Result<String, AllocError> {
    let document = Object::new(alloc)
        .text("command", "watch")
        .plain("planned", book.is_some());
    let Some(book) = book else {
        return document.end()?.to_string(alloc);
    };
    let (all, rate) = (book.all(), book.plan().rate());
    let document = document
        .plain("rate", rate.kbits())
        .with("clock", clock_of(alloc, book))
        .plain("frames", all.frames)
        .with("time", micros(alloc, all.span()))
        .plain("load", all.billionths(rate, all.span()))
        .with("streams", streams_of(alloc, book));
    with_errors(document, alloc, book)
        .with("unknown", strangers_of(alloc, book))
        .with("late_heartbeats", heartbeats_of(alloc, book))
        .with("noticed", notices_of(alloc, book.notices()))
        .with("unended", Ok(unended_of(book)))
        .plain("may_be_distances", book.may_be_distances())
        .plain("keeps", book.breaches() == 0)
        .with("breaches", breaches_of(alloc, book))
        .end()?
        .to_string(alloc)
}
