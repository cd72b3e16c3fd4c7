//! What is said of a plan whose identifiers leave each deadline the greatest margin.

use crate::names::{Micros, PdoName, tpdo_of};
use cop_figures::{Figures, FrameTimes, PdoTimes, Tight};
use cop_net::Network;
use std::alloc::{AllocError, Global};

/// What a PDO has, by its name.
fn pdo_words(alloc: Global, network: &Network<'_>, times: &PdoTimes) -> Result<String, AllocError> {
    let Some(row) = network.rows().get(times.pdo) else {
        return Ok(String::new(alloc));
    };
    let (name, left) = (PdoName(tpdo_of(row)), Micros(times.left()));
    format!(in alloc; "the margin is limited by {name}, which has {left} us left\n")
}

/// What an SDO frame has.
fn frame_words(alloc: Global, times: &FrameTimes) -> Result<String, AllocError> {
    let (id, left) = (times.stream.id, Micros(times.left()));
    format!(in alloc;
        "the margin is limited by the SDO frame {id:03X}h, which has {left} us left\n"
    )
}

/// Adds what is said of the SDO frames that have no more than a margin.
fn push_frames(
    words: &mut Vec<u8>,
    alloc: Global,
    frames: &[FrameTimes],
    margin: u64,
) -> Result<(), AllocError> {
    for times in frames.iter().filter(|times| times.left() <= margin) {
        words.extend_from_slice(frame_words(alloc, times)?.as_bytes())?;
    }
    Ok(())
}

/// What one error on the bus takes, and what the PDO with the least left has.
pub(crate) fn error_words(
    alloc: Global,
    network: &Network<'_>,
    tight: &Tight,
) -> Result<String, AllocError> {
    let Some(row) = network.rows().get(tight.times.pdo) else {
        return Ok(String::new(alloc));
    };
    let (cost, left) = (Micros(tight.cost), Micros(tight.times.left()));
    let name = PdoName(tpdo_of(row));
    format!(in alloc;
        "no error is counted: one error on the bus takes up to {cost} us, and {name} has {left} us left. Count errors by a row errors, plan with --margin, or give it a longer deadline\n"
    )
}

/// What the others have, where they have a greater margin, in ticks of 250 ns.
pub fn others_words(alloc: Global, others: u64) -> Result<String, AllocError> {
    let left = Micros(others);
    format!(in alloc;
        "each of the others has at least {left} us left, or as much as any identifiers leave it\n"
    )
}

/// What limits the margin of a plan, a line each: the PDOs, and the SDO frames with deadlines, that have no more than it left, which is
/// in ticks of 250 ns.
pub fn margin_words(
    alloc: Global,
    network: &Network<'_>,
    figures: &Figures,
    margin: u64,
) -> Result<Vec<u8>, AllocError> {
    let mut words = Vec::new(alloc);
    for times in figures.pdos.iter().filter(|times| times.left() <= margin) {
        words.extend_from_slice(pdo_words(alloc, network, times)?.as_bytes())?;
    }
    push_frames(&mut words, alloc, &figures.frames, margin)?;
    Ok(words)
}
