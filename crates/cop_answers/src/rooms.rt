//! How far each number of a plan goes, in lines.

use cop_cert::Refusal;
use cop_frame::Rate;
use cop_frame::identifiers::SYNC;
use cop_net::{Network, PdoRow};
use cop_plan::{Outcome, Plan, can_assign};
use cop_room::{Miss, Room, RowRoom, nearest_miss, room_anew};
use cop_rta::Stream;
use std::alloc::{AllocError, Global};

/// Adds how far the numbers of a row go: each as the table has it, and as far as it can go alone.
fn push_numbers(text: &mut String, stream: &Stream, room: &RowRoom) -> Result<(), AllocError> {
    if let Some(period) = room.period {
        write!(text, " period {} {period}", stream.period / 4)?;
    }
    write!(text, " jitter {} {}", stream.jitter / 4, room.jitter)?;
    let deadline = stream.deadline.unwrap_or(0) / 4;
    write!(text, " deadline {deadline} {}", room.deadline)?;
    write!(text, " bytes {} {}\n", stream.bytes, room.bytes)
}

/// Adds a row under its identifier.
fn push_row(
    text: &mut String,
    row: &PdoRow,
    stream: &Stream,
    room: &RowRoom,
) -> Result<(), AllocError> {
    write!(text, "pdo {}.{} id {:X}h", row.node, row.tpdo, stream.id)?;
    push_numbers(text, stream, room)
}

/// Adds the rows, that with the lowest identifier first.
fn push_rows(
    text: &mut String,
    network: &Network<'_>,
    plan: &Plan,
    room: &Room,
) -> Result<(), AllocError> {
    let streams = plan.streams().streams();
    for pdo in plan.order() {
        if let (Some(row), Some(stream), Some(room)) = (
            network.rows().get(*pdo),
            streams.get(*pdo),
            room.rows.get(*pdo),
        ) {
            push_row(text, row, stream, room)?;
        }
    }
    Ok(())
}

/// Adds how far the period of SYNC goes, where some row is synchronous.
fn push_sync(text: &mut String, plan: &Plan, room: &Room) -> Result<(), AllocError> {
    let streams = plan.streams();
    if let (Some(least), Some(sync)) = (room.sync, streams.place_of(SYNC)) {
        if let Some(stream) = streams.streams().get(sync) {
            write!(text, "sync period {} {least}\n", stream.period / 4)?;
        }
    }
    Ok(())
}

/// How far each number of a plan goes, in microseconds, bytes and thousandths: the rows by rising identifier, SYNC, all periods, all times,
/// and one more PDO.
pub fn room_text(
    alloc: Global,
    network: &Network<'_>,
    plan: &Plan,
    room: &Room,
) -> Result<String, AllocError> {
    let mut text = format!(in alloc; "rate {}\n", plan.rate().kbits())?;
    push_rows(&mut text, network, plan, room)?;
    push_sync(&mut text, plan, room)?;
    write!(text, "periods {}\nclock {}\n", room.periods, room.clock)?;
    match room.more {
        Some(period) => write!(text, "more {period}\n")?,
        None => text.push_str("more none\n")?,
    }
    Ok(text)
}

/// How far the numbers of a PDO go at a rate where the identifiers of all PDOs are chosen anew; none where there is no such PDO.
pub fn anew_of(
    alloc: Global,
    network: &Network<'_>,
    rate: Rate,
    pdo: usize,
) -> Result<Option<RowRoom>, AllocError> {
    let (set, pdos) = (network.set(), network.pdos());
    if pdo < pdos && can_assign(set, pdos) {
        Ok(Some(room_anew(alloc, set, pdos, rate, pdo)?))
    } else {
        Ok(None)
    }
}

/// The same in lines: the rate, and the row, which has no identifier.
pub fn anew_text(
    alloc: Global,
    network: &Network<'_>,
    rate: Rate,
    pdo: usize,
    room: &RowRoom,
) -> Result<String, AllocError> {
    let mut text = format!(in alloc; "rate {}\n", rate.kbits())?;
    if let (Some(row), Some(stream)) = (network.rows().get(pdo), network.set().streams().get(pdo)) {
        write!(text, "pdo {}.{} anew", row.node, row.tpdo)?;
        push_numbers(&mut text, stream, room)?;
    }
    Ok(text)
}

/// What each refused rate misses a plan by.
pub fn misses_of(
    alloc: Global,
    network: &Network<'_>,
    refusals: &[Refusal],
) -> Result<Vec<Miss>, AllocError> {
    let (set, pdos) = (network.set(), network.pdos());
    let mut misses = Vec::new(alloc);
    if can_assign(set, pdos) {
        for refusal in refusals {
            misses.push(nearest_miss(alloc, set, pdos, refusal.rate)?)?;
        }
    }
    Ok(misses)
}

/// What the fastest rate misses a plan by, if no rate passes.
pub(crate) fn fastest_miss(
    alloc: Global,
    network: &Network<'_>,
    outcome: &Outcome,
) -> Result<Vec<Miss>, AllocError> {
    let Outcome::Refused(refusals) = outcome else {
        return Ok(Vec::new(alloc));
    };
    let refusals = refusals.as_slice();
    let last = refusals.len().saturating_sub(1);
    misses_of(alloc, network, refusals.get(last..).unwrap_or(&[]))
}

/// Adds with how much longer deadlines a rate has a plan.
fn push_stretch(text: &mut String, network: &Network<'_>, miss: &Miss) -> Result<(), AllocError> {
    let kbits = miss.rate.kbits();
    let Some(stretch) = miss.stretch else {
        return write!(
            text,
            "at {kbits} kbit/s nothing passes, though each deadline were 60 s\n"
        );
    };
    let (whole, rest) = (stretch.thousandths / 1000, stretch.thousandths % 1000);
    write!(
        text,
        "at {kbits} kbit/s a plan passes if each deadline is {whole}.{rest:03} times as long"
    )?;
    if let Some(pdo) = stretch.tightest {
        if let Some(row) = network.rows().get(pdo) {
            write!(text, "; {}.{} is the tightest then", row.node, row.tpdo)?;
        }
    }
    text.push_str("\n")
}

/// In words what rates miss a plan by: with which deadlines one passes, and without which single frame.
pub(crate) fn miss_words(
    alloc: Global,
    network: &Network<'_>,
    misses: &[Miss],
) -> Result<String, AllocError> {
    let mut text = String::new(alloc);
    for miss in misses {
        push_stretch(&mut text, network, miss)?;
        for index in &miss.spare {
            if let Some(stream) = network.set().streams().get(*index) {
                let kbits = miss.rate.kbits();
                write!(text, "at {kbits} kbit/s a plan passes")?;
                push_spare(&mut text, network, stream)?;
                text.push_str(" alone\n")?;
            }
        }
    }
    Ok(text)
}

/// Adds the name of what could be left out. Where the network counts disturbed transfers, these have 000h and NMT has 001h.
fn push_spare(text: &mut String, network: &Network<'_>, stream: &Stream) -> Result<(), AllocError> {
    match (network.set().errors().is_some(), stream.id) {
        (true, 0) => text.push_str(" without errors"),
        (true, 1) | (false, 0) => text.push_str(" without NMT"),
        (_, SYNC) => text.push_str(" without SYNC"),
        (_, id) => write!(text, " without EMCY {}", id & 0x7F),
    }
}

/// Adds by how much longer deadlines a rate has a plan, and without which single frame.
fn push_miss(text: &mut String, network: &Network<'_>, miss: &Miss) -> Result<(), AllocError> {
    write!(text, "miss {} deadlines", miss.rate.kbits())?;
    match miss.stretch {
        Some(stretch) => {
            write!(text, " {}", stretch.thousandths)?;
            if let Some(pdo) = stretch.tightest {
                if let Some(row) = network.rows().get(pdo) {
                    write!(text, " tightest {}.{}", row.node, row.tpdo)?;
                }
            }
        }
        None => text.push_str(" none")?,
    }
    for index in &miss.spare {
        if let Some(stream) = network.set().streams().get(*index) {
            push_spare(text, network, stream)?;
        }
    }
    text.push_str("\n")
}

/// A line for each rate, by rising rate, of what it misses a plan by.
pub fn misses_text(
    alloc: Global,
    network: &Network<'_>,
    misses: &[Miss],
) -> Result<String, AllocError> {
    let mut text = String::new(alloc);
    for miss in misses {
        push_miss(&mut text, network, miss)?;
    }
    Ok(text)
}
