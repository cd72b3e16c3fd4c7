//! The section of a page on the bus over time, as inline SVG: a lane for each identifier, one unit wide for each tick.

use crate::frames::frame_with;
use crate::page::Report;
use crate::script::LANES_SCRIPT;
use crate::senders::{Sender, sender_of};
use crate::units::{Count, Identifier, Millis, Short};
use cop_bus::Transfer;
use cop_figures::{Figures, Lane, Timeline};
use cop_plan::Plan;
use std::alloc::AllocError;

/// How many steps from mark to mark go into a window at most.
const PARTS: u64 = 8;

/// The part of a trace that is drawn: the moment at which it begins and how long it is, in ticks.
#[derive(Clone, Copy)]
struct Window {
    begin: u64,
    span: u64,
}

impl Window {
    /// The step from mark to mark in ticks: 1, 2 or 5 times a power of ten microseconds.
    fn step(self) -> u64 {
        let mut step: u64 = 4;
        for turn in 0..60u8 {
            if self.span <= step.saturating_mul(PARTS) {
                return step;
            }
            step = if turn % 3 == 1 {
                step.saturating_mul(5) / 2
            } else {
                step.saturating_mul(2)
            };
        }
        step
    }

    /// From the begin to the first mark, the first multiple of the step, in ticks.
    fn first(self, step: u64) -> u64 {
        let mark = self.begin.div_ceil(step.max(1)).saturating_mul(step);
        mark.saturating_sub(self.begin)
    }
}

/// How many transfers are drawn.
fn drawn(lanes: &[Lane]) -> usize {
    let mut drawn: usize = 0;
    for lane in lanes {
        drawn = drawn.saturating_add(lane.transfers.as_slice().len());
    }
    drawn
}

/// From the first moment at which a frame waits on: to the end of the trace, or of what is drawn of it.
fn window_of(timeline: &Timeline) -> Window {
    let mut begin = timeline.until;
    let mut end = 0;
    for lane in timeline.lanes.iter() {
        if let Some(first) = lane.transfers.as_slice().first() {
            begin = begin.min(first.queued).min(first.started);
        }
        if let Some(last) = lane.transfers.as_slice().last() {
            end = last.ended.max(end);
        }
    }
    if drawn(&timeline.lanes) == timeline.ended {
        end = timeline.until;
    }
    Window {
        begin,
        span: end.saturating_sub(begin),
    }
}

/// Adds a transfer: a thin bar while its frame waits, and a thick one while it is on the bus.
fn push_transfer(page: &mut String, window: Window, transfer: &Transfer) -> Result<(), AllocError> {
    let Transfer {
        queued,
        started,
        ended,
        ..
    } = *transfer;
    let (queue, start, end) = (Millis(queued), Millis(started), Millis(ended));
    write!(
        page,
        "<g><title>queued at {queue} ms, on the bus from {start} ms to {end} ms</title>"
    )?;
    if queued < started {
        let (place, width) = (
            queued.saturating_sub(window.begin),
            started.saturating_sub(queued),
        );
        write!(
            page,
            "<rect class=\"waits\" x=\"{place}\" y=\"8\" width=\"{width}\" height=\"4\"/>"
        )?;
    }
    let (place, width) = (
        started.saturating_sub(window.begin),
        ended.saturating_sub(started),
    );
    write!(
        page,
        "<rect class=\"sends\" x=\"{place}\" y=\"3\" width=\"{width}\" height=\"14\"/></g>\n"
    )
}

/// Adds the head of a lane: its identifier, who sends it, and how many transfers it has.
fn push_head(
    page: &mut String,
    sender: Sender<'_>,
    span: u64,
    lane: &Lane,
) -> Result<(), AllocError> {
    let id = Identifier(lane.id);
    let count = Count {
        number: lane.transfers.as_slice().len(),
        thing: "transfer",
    };
    write!(
        page,
        "<div class=\"lane\"><div><b>{id}</b> {sender}</div>\
<svg viewBox=\"0 0 {span} 20\" preserveAspectRatio=\"none\" role=\"img\" aria-label=\"{id}, {sender}: {count}\">\n"
    )
}

/// The longest time from the queueing of a frame to the end of its transfer, in ticks.
fn longest(lane: &Lane) -> u64 {
    let mut longest = 0u64;
    for transfer in lane.transfers.as_slice() {
        longest = longest.max(transfer.ended.saturating_sub(transfer.queued));
    }
    longest
}

/// The greatest response of an identifier, in ticks: of a PDO, of an SDO frame with a deadline, or of SYNC.
fn bound_of(figures: &Figures, id: u16) -> Option<u64> {
    if let Some(times) = figures.pdos.iter().find(|times| times.stream.id == id) {
        return Some(times.response);
    }
    if let Some(frame) = frame_with(figures, id) {
        return Some(frame.response);
    }
    match figures.sync {
        Some(sync) if sync.stream.id == id => Some(sync.response),
        _ => None,
    }
}

/// Adds the end of a lane: the longest time in the trace, and what it is at most where that is known.
fn push_end(page: &mut String, figures: &Figures, lane: &Lane) -> Result<(), AllocError> {
    let longest = Millis(longest(lane));
    write!(page, "</svg><div class=\"n\">{longest}")?;
    if let Some(bound) = bound_of(figures, lane.id) {
        let bound = Millis(bound);
        write!(page, " / {bound}")?;
    }
    page.push_str("</div></div>\n")
}

/// Adds the lane of an identifier.
fn push_lane(
    page: &mut String,
    report: Report<'_, '_>,
    plan: &Plan,
    window: Window,
    lane: &Lane,
) -> Result<(), AllocError> {
    let sender = sender_of(report.network, plan, lane.id);
    push_head(page, sender, window.span, lane)?;
    for transfer in lane.transfers.as_slice() {
        push_transfer(page, window, transfer)?;
    }
    push_end(page, report.figures, lane)
}

/// Opens the lanes, and adds the axis with its marks.
fn push_axis(page: &mut String, window: Window) -> Result<(), AllocError> {
    let (begin, span, step) = (window.begin, window.span, window.step());
    let first = window.first(step);
    write!(
        page,
        "<div id=\"lanes\" data-begin=\"{begin}\" data-span=\"{span}\" style=\"--span:{span};--first:{first};--step:{step}\">\n\
<div class=\"lane axis\"><div>ms</div><div class=\"marks\">"
    )?;
    for number in 0..PARTS + 1 {
        let offset = first.saturating_add(step.saturating_mul(number));
        if offset <= span {
            let moment = Short(begin.saturating_add(offset));
            write!(page, "<span style=\"--at:{offset}\">{moment}</span>")?;
        }
    }
    page.push_str("</div><div class=\"n\">longest / bound</div></div>\n")
}

/// Adds whether some frame of the trace is late.
fn push_lateness(page: &mut String, late: Option<usize>) -> Result<(), AllocError> {
    match late {
        Some(step) => write!(
            page,
            " The frame that step {step} of the trace queues is late.</p>\n"
        ),
        None => page.push_str(" Each PDO is on time.</p>\n"),
    }
}

/// Adds what is drawn, and of how many transfers.
fn push_words(page: &mut String, timeline: &Timeline) -> Result<(), AllocError> {
    let until = Millis(timeline.until);
    let ended = Count {
        number: timeline.ended,
        thing: "transfer",
    };
    write!(
        page,
        "<p>The trace goes up to {until} ms. In it {ended} came to an end."
    )?;
    push_lateness(page, timeline.late)?;
    let drawn = drawn(&timeline.lanes);
    if drawn < timeline.ended {
        write!(
            page,
            "<p>Only the first {drawn} transfers are drawn, in the order in which their frames were queued.</p>\n"
        )?;
    }
    Ok(())
}

/// Adds the lanes, with what shows another part of them.
fn push_lanes(
    page: &mut String,
    report: Report<'_, '_>,
    plan: &Plan,
    timeline: &Timeline,
) -> Result<(), AllocError> {
    page.push_str(
        "<p>A lane for each identifier that sends. <span class=\"key fixed\"></span> The frame waits. \
<span class=\"key pdo\"></span> The frame is on the bus. Beside a lane stand, in ms, the longest time from the queueing of a frame to the end of its \
transfer, of those drawn, and where it is known its bound: the greatest response, which counts from the event.</p>\n\
<p id=\"window\" hidden>\
<label>from <input id=\"from\" type=\"number\" step=\"any\"> ms</label> <label>to <input id=\"to\" type=\"number\" step=\"any\"> ms</label> \
<button type=\"button\" id=\"in\">Zoom in</button> <button type=\"button\" id=\"out\">Zoom out</button> \
<button type=\"button\" id=\"left\">Earlier</button> <button type=\"button\" id=\"right\">Later</button> \
<button type=\"button\" id=\"whole\">All</button></p>\n",
    )?;
    let window = window_of(timeline);
    push_axis(page, window)?;
    for lane in timeline.lanes.iter() {
        push_lane(page, report, plan, window, lane)?;
    }
    page.push_str("</div>\n<script>")?;
    page.push_str(LANES_SCRIPT)?;
    page.push_str("</script>\n")
}

/// Adds the bus over time.
pub(crate) fn push_bus(
    page: &mut String,
    report: Report<'_, '_>,
    plan: &Plan,
    timeline: &Timeline,
) -> Result<(), AllocError> {
    page.push_str("<section id=\"bus\">\n<h2>The bus over time</h2>\n")?;
    push_words(page, timeline)?;
    if !timeline.lanes.is_empty() {
        push_lanes(page, report, plan, timeline)?;
    }
    page.push_str("</section>\n")
}
