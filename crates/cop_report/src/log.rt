//! The section of a page on a log of the machine's bus.

use crate::bars::{WIDTH, part};
use crate::senders::sender_of;
use crate::units::{Escaped, Identifier, Millis};
use cop_logbook::{Loads, Logbook, Seen, Spread};
use cop_net::Network;
use cop_plan::Plan;
use cop_rta::Stream;
use std::alloc::AllocError;
use std::fmt;

/// The distances of a stream's frames as bars, ten for each period.
#[derive(Clone, Copy)]
struct Histogram<'a>(&'a Spread);

/// Writes a bar of a histogram: the number of a step, its height in hundredths, and how many it counts.
fn write_bar<W: fmt::Write>(
    f: &mut fmt::Formatter<W>,
    step: usize,
    height: u64,
    count: u64,
) -> fmt::Result {
    let place = step.saturating_mul(10);
    let top = 100u64.saturating_sub(height);
    write!(
        f,
        "<rect class=\"pdo\" x=\"{place}\" y=\"{top}\" width=\"9\" height=\"{height}\"><title>{count} from {step} tenths of the period on</title></rect>"
    )
}

impl fmt::Display for Histogram<'_> {
    fn fmt<W: fmt::Write>(&self, f: &mut fmt::Formatter<W>) -> fmt::Result {
        let counts = self.0.counts();
        let greatest = counts.iter().copied().max().unwrap_or(0);
        f.write_str(
            "<svg class=\"spread\" viewBox=\"0 0 210 100\" preserveAspectRatio=\"none\" role=\"img\" aria-label=\"distances by tenths of the period\">\
<line class=\"full\" x1=\"100\" x2=\"100\" y1=\"0\" y2=\"100\"/>",
        )?;
        for (step, count) in counts.iter().enumerate() {
            if *count > 0 {
                // What is rare is seen, too.
                let height = (part(*count, greatest) / 10).max(3);
                write_bar(f, step, height, *count)?;
            }
        }
        f.write_str("</svg>")
    }
}

/// What is seen of a share in hundredths of a percent.
#[derive(Clone, Copy)]
struct Hundredths(u64);

impl fmt::Display for Hundredths {
    fn fmt<W: fmt::Write>(&self, f: &mut fmt::Formatter<W>) -> fmt::Result {
        let (whole, rest) = (self.0 / 100, self.0 % 100);
        write!(f, "{whole}.{rest:02} %")
    }
}

/// Microseconds as milliseconds.
fn millis(micros: u64) -> Millis {
    Millis(micros.saturating_mul(4))
}

/// Adds what the log is, and whether it breaks the tables.
fn push_words(page: &mut String, plan: &Plan, log: &Logbook<'_>) -> Result<(), AllocError> {
    let all = log.all();
    let frames = all.frames;
    let load = Hundredths(all.load(plan.rate(), all.span()));
    let span = millis(all.span());
    write!(
        page,
        "<p>The log has {frames} frames in {span} ms, and they take {load} of the bus at least. "
    )?;
    match log.breaches() {
        0 => page.push_str(
            "It keeps to the tables: none of its frames shows a breach, which does not say that none can come.</p>\n",
        ),
        1 => page.push_str("It breaks the tables once.</p>\n"),
        count => write!(page, "It breaks the tables {count} times.</p>\n"),
    }
}

/// Adds a line for each breach that is told.
fn push_breaches(page: &mut String, log: &Logbook<'_>) -> Result<(), AllocError> {
    if log.breaches() == 0 {
        return Ok(());
    }
    page.push_str("<ul>\n")?;
    let words = log.words()?;
    for line in words.lines() {
        let line = Escaped(line);
        write!(page, "<li>{line}</li>\n")?;
    }
    page.push_str("</ul>\n")
}

/// The share of the bus that so many bits take in a part of the time, on a bar's width, where the bus carries so many ticks a bit.
fn share_of(bits: u64, ticks: u64, width: u64) -> u64 {
    part(bits.saturating_mul(ticks), width.saturating_mul(4))
}

/// Adds the load over time: a bar for each part, and a line where the bus is full.
fn push_loads(page: &mut String, plan: &Plan, loads: &Loads) -> Result<(), AllocError> {
    let (width, ticks) = (loads.width(), u64::from(plan.rate().ticks_per_bit()));
    let part = millis(width);
    write!(
        page,
        "<h3>Load over time</h3>\n<p>A bar for each {part} ms; the line on top is the full bus.</p>\n\
<svg class=\"loads\" viewBox=\"0 0 240 1000\" preserveAspectRatio=\"none\" role=\"img\" aria-label=\"load over time\">\n\
<line class=\"full\" x1=\"0\" x2=\"240\" y1=\"0\" y2=\"0\"/>\n"
    )?;
    for (place, bits) in loads.bits().iter().enumerate() {
        let height = share_of(*bits, ticks, width);
        if height > 0 {
            let top = WIDTH.saturating_sub(height);
            write!(
                page,
                "<rect class=\"pdo\" x=\"{place}\" y=\"{top}\" width=\"1\" height=\"{height}\"/>\n"
            )?;
        }
    }
    page.push_str("</svg>\n")
}

/// Adds the line of a stream of which two frames were seen.
fn push_distances(page: &mut String, seen: &Seen, spread: &Spread) -> Result<(), AllocError> {
    let (least, mean) = (millis(seen.least), millis(seen.mean()));
    let greatest = millis(seen.greatest);
    let histogram = Histogram(spread);
    write!(
        page,
        "<td class=\"n\">{least}</td><td class=\"n\">{mean}</td><td class=\"n\">{greatest}</td><td class=\"wide\">{histogram}</td></tr>\n"
    )
}

/// Adds the line of a stream, which is at a place of the plan.
fn push_stream(
    page: &mut String,
    network: &Network<'_>,
    log: &Logbook<'_>,
    stream: &Stream,
    place: usize,
) -> Result<(), AllocError> {
    let (Some(seen), Some(spread)) = (log.seen(stream.id), log.spread_of(place)) else {
        return Ok(());
    };
    let (id, frames, period) = (Identifier(stream.id), seen.frames, Millis(stream.period));
    let sender = sender_of(network, log.plan(), stream.id);
    write!(
        page,
        "<tr><th scope=\"row\">{id}</th><td>{sender}</td><td class=\"n\">{frames}</td><td class=\"n\">{period}</td>"
    )?;
    if frames < 2 {
        return page.push_str("<td></td><td></td><td></td><td></td></tr>\n");
    }
    push_distances(page, seen, spread)
}

/// Adds the distances of the frames of each stream against the period of its row.
fn push_streams(
    page: &mut String,
    network: &Network<'_>,
    log: &Logbook<'_>,
) -> Result<(), AllocError> {
    page.push_str(
        "<h3>Distances of frames</h3>\n\
<p>Times are milliseconds. A histogram has a bar for each tenth of the period; the line is at the period, and the last bar has all from two periods on.</p>\n\
<div class=\"scroll\"><table>\n<thead><tr><th>Identifier</th><th>Frame</th><th class=\"n\">Frames</th><th class=\"n\">Period</th>\
<th class=\"n\">Least</th><th class=\"n\">Mean</th><th class=\"n\">Greatest</th><th>Distances</th></tr></thead>\n<tbody>\n",
    )?;
    for (place, stream) in log.plan().streams().streams().iter().enumerate() {
        push_stream(page, network, log, stream, place)?;
    }
    page.push_str("</tbody></table></div>\n")
}

/// Adds what a log shows.
pub(crate) fn push_log(
    page: &mut String,
    network: &Network<'_>,
    log: &Logbook<'_>,
) -> Result<(), AllocError> {
    let plan = log.plan();
    page.push_str("<section id=\"log\">\n<h2>The log of the machine</h2>\n")?;
    push_words(page, plan, log)?;
    push_breaches(page, log)?;
    push_loads(page, plan, log.loads())?;
    push_streams(page, network, log)?;
    page.push_str("</section>\n")
}
