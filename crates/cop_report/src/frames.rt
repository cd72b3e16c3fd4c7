//! What a page says of the frames with fixed identifiers, and of the PDOs that are below the SDO frames.

use crate::bars::ResponseBar;
use crate::errors::push_errors;
use crate::pdos::push_margin;
use crate::rates::push_verdict;
use crate::senders::{bus_id, fixed_sender};
use crate::units::{Count, Identifier, Millis};
use cop_figures::{Figures, FrameTimes, PdoTimes};
use cop_net::Network;
use cop_rta::{IdRange, Stream, Verdict};
use std::alloc::{AllocError, Global};

/// Whether a PDO is below all SDO frames.
pub(crate) fn is_lower(times: &PdoTimes) -> bool {
    times.stream.id >= IdRange::SECOND.least
}

/// The first frame that fails where all PDOs are above it.
fn failing_below_all(frames: &[FrameTimes]) -> Option<&FrameTimes> {
    for frame in frames {
        if !matches!(frame.below_all, Verdict::Pass { .. }) {
            return Some(frame);
        }
    }
    None
}

/// Adds which PDOs are below all SDO frames, and why.
pub(crate) fn push_lower(
    page: &mut String,
    network: &Network<'_>,
    figures: &Figures,
) -> Result<(), AllocError> {
    let lower = figures.pdos.iter().filter(|times| is_lower(times)).count();
    if lower == 0 {
        return Ok(());
    }
    let pdos = Count {
        number: lower,
        thing: "PDO",
    };
    write!(
        page,
        "<p>{pdos} can wait and stand below all SDO frames, from 680h on."
    )?;
    if let Some(frame) = failing_below_all(&figures.frames) {
        let id = Identifier(frame.stream.id);
        let sender = fixed_sender(network, frame.stream.id);
        write!(page, " With all PDOs above it {id}, {sender}, ")?;
        push_verdict(page, frame.below_all, frame.stream.deadline)?;
        page.push_str(".")?;
    }
    if lower < figures.pdos.len() {
        page.push_str(
            " The PDOs above the SDO frames are those of which none could have the lowest priority among them below.",
        )?;
    }
    page.push_str("</p>\n")
}

/// The heads of the columns on deadlines.
const DEADLINE_HEADS: &str =
    "<th class=\"n\">Deadline</th><th class=\"n\">Response</th><th></th><th class=\"n\">Margin</th><th class=\"n\">Left</th>";

/// Whether a network has fixed frames, or counts disturbed transfers.
pub(crate) fn has_fixed(network: &Network<'_>) -> bool {
    network.pdos() < network.set().len()
}

/// The streams of a network behind its PDOs by rising identifier: the fixed frames, and disturbed transfers if they are counted.
fn fixed_frames(alloc: Global, network: &Network<'_>) -> Result<Vec<Stream>, AllocError> {
    let streams = network.set().streams();
    let mut frames = Vec::new(alloc);
    frames.extend_from_slice(streams.get(network.pdos()..).unwrap_or(&[]))?;
    frames.sort_unstable_by_key(|frame| frame.id);
    Ok(frames)
}

/// The times of the frame with an identifier, where it has a deadline.
pub(crate) fn frame_with(figures: &Figures, id: u16) -> Option<&FrameTimes> {
    figures.frames.iter().find(|frame| frame.stream.id == id)
}

/// Adds the deadline of a frame, and its response against it.
fn push_times(page: &mut String, frame: &FrameTimes) -> Result<(), AllocError> {
    let bar = ResponseBar {
        response: frame.response,
        deadline: frame.stream.deadline.unwrap_or(0),
    };
    let (deadline, response) = (Millis(bar.deadline), Millis(bar.response));
    write!(
        page,
        "<td class=\"n\">{deadline}</td><td class=\"n\">{response}</td>"
    )?;
    push_margin(page, bar)
}

/// Adds the line of a frame, if the stream is one.
fn push_frame(
    page: &mut String,
    network: &Network<'_>,
    figures: &Figures,
    stream: &Stream,
) -> Result<(), AllocError> {
    let Some(id) = bus_id(network, stream.id) else {
        return Ok(());
    };
    let (sender, id, bytes) = (fixed_sender(network, id), Identifier(id), stream.bytes);
    let (period, jitter) = (Millis(stream.period), Millis(stream.jitter));
    write!(
        page,
        "<tr><th scope=\"row\">{id}</th><td>{sender}</td><td class=\"n\">{bytes}</td><td class=\"n\">{period}</td><td class=\"n\">{jitter}</td>"
    )?;
    if let Some(frame) = frame_with(figures, stream.id) {
        push_times(page, frame)?;
    }
    page.push_str("</tr>\n")
}

/// Adds the fixed frames, and how disturbed transfers are counted, where there are some.
pub(crate) fn push_frames(
    page: &mut String,
    alloc: Global,
    network: &Network<'_>,
    figures: &Figures,
) -> Result<(), AllocError> {
    if !has_fixed(network) {
        return Ok(());
    }
    page.push_str(
        "<section id=\"frames\">\n<h2>Fixed frames by identifier</h2>\n\
<p>CANopen gives these frames their identifiers, and the table of nodes says how often they are sent. Times are milliseconds. Only SDO frames may \
have a deadline, and those that have one pass the same test as the PDOs.</p>\n\
<div class=\"scroll\"><table>\n<thead><tr><th>Identifier</th><th>Frame</th><th class=\"n\">Bytes</th><th class=\"n\">Period</th><th class=\"n\">Jitter</th>",
    )?;
    if !figures.frames.is_empty() {
        page.push_str(DEADLINE_HEADS)?;
    }
    page.push_str("</tr></thead>\n<tbody>\n")?;
    let frames = fixed_frames(alloc, network)?;
    for stream in frames.iter() {
        push_frame(page, network, figures, stream)?;
    }
    page.push_str("</tbody></table></div>\n")?;
    push_errors(page, network)?;
    page.push_str("</section>\n")
}
