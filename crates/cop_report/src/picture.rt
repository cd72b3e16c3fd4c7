//! The picture of the whole, as inline SVG: who sends which identifier to whom, and how much of each deadline is used.

use crate::bars::{Margin, ResponseBar, part};
use crate::devices::{device_of, sent_by};
use crate::matrix::{MANY, push_matrix};
use crate::pdos::bar_of;
use crate::units::{Cut, Identifier, Share, Short};
use cop_figures::{Figures, PdoTimes};
use cop_net::{Consumer, Network, PdoRow};
use std::alloc::{AllocError, Global};
use std::fmt;

/// From line to line, in the unit of the picture: it is 1,200 wide, and a unit is a pixel where the page is as wide.
const PITCH: u64 = 22;

/// Where the first line is.
const TOP: u64 = 42;

/// Where the links of the senders begin and end, and those of the consumers.
const SENT: (u64, u64) = (170, 258);

const TAKEN: (u64, u64) = (872, 986);

/// The width of a bar.
const BAR: u64 = 180;

/// A device at a side of the picture: its height, or that of an identifier to which a link goes.
#[derive(Clone, Copy)]
struct Stand {
    node: u8,
    height: u64,
}

/// A point of the picture.
#[derive(Clone, Copy)]
struct Point {
    x: u64,
    y: u64,
}

/// A link between a device and an identifier.
#[derive(Clone, Copy)]
struct Link {
    from: Point,
    to: Point,
    margin: Margin,
}

impl fmt::Display for Link {
    fn fmt<W: fmt::Write>(&self, f: &mut fmt::Formatter<W>) -> fmt::Result {
        let (x, y, end, height) = (self.from.x, self.from.y, self.to.x, self.to.y);
        let (class, middle) = (self.margin.class(), x.saturating_add(end) / 2);
        write!(
            f,
            "<path class=\"{class}\" d=\"M{x} {y}C{middle} {y} {middle} {height} {end} {height}\"/>"
        )
    }
}

/// The height of a line, counted from 0.
fn height_at(line: usize) -> u64 {
    TOP.saturating_add(PITCH.saturating_mul(line as u64))
}

/// The sender of each identifier, at the height of the identifier.
fn sender_ends(
    alloc: Global,
    network: &Network<'_>,
    pdos: &[PdoTimes],
) -> Result<Vec<Stand>, AllocError> {
    let mut ends = Vec::new(alloc);
    for (line, times) in pdos.iter().enumerate() {
        if let Some(row) = network.rows().get(times.pdo) {
            ends.push(Stand {
                node: row.node,
                height: height_at(line),
            })?;
        }
    }
    Ok(ends)
}

/// The consumers of each identifier, at the height of the identifier.
fn consumer_ends(
    alloc: Global,
    network: &Network<'_>,
    pdos: &[PdoTimes],
) -> Result<Vec<Stand>, AllocError> {
    let mut ends = Vec::new(alloc);
    for (line, times) in pdos.iter().enumerate() {
        if let Some(row) = network.rows().get(times.pdo) {
            for consumer in row.consumers.as_slice() {
                ends.push(Stand {
                    node: consumer.node,
                    height: height_at(line),
                })?;
            }
        }
    }
    Ok(ends)
}

/// The mean height of the ends of a node.
fn mean_of(ends: &[Stand], node: u8) -> u64 {
    let (mut sum, mut count) = (0u64, 0u64);
    for end in ends.iter().filter(|end| end.node == node) {
        sum = sum.saturating_add(end.height);
        count = count.saturating_add(1);
    }
    sum.checked_div(count).unwrap_or(0)
}

/// Each device of some ends once, by the mean height of its ends: so links are short, and few cross.
fn stands_of(alloc: Global, ends: &[Stand]) -> Result<Vec<Stand>, AllocError> {
    let mut stands: Vec<Stand> = Vec::new(alloc);
    for end in ends {
        if !stands.iter().any(|stand| stand.node == end.node) {
            stands.push(Stand {
                node: end.node,
                height: mean_of(ends, end.node),
            })?;
        }
    }
    stands.sort_unstable_by_key(|stand| stand.height);
    Ok(stands)
}

/// Moves devices apart by a line at least, and none below the last line.
fn spread(stands: &mut Vec<Stand>, lines: usize) {
    let mut least = TOP;
    for stand in stands.iter_mut() {
        stand.height = stand.height.max(least);
        least = stand.height.saturating_add(PITCH);
    }
    let mut most = height_at(lines.saturating_sub(1));
    for stand in stands.iter_mut().rev() {
        stand.height = stand.height.min(most);
        most = stand.height.saturating_sub(PITCH);
    }
}

/// The height of a device.
fn height_of(stands: &[Stand], node: u8) -> u64 {
    match stands.iter().find(|stand| stand.node == node) {
        Some(stand) => stand.height,
        None => TOP,
    }
}

/// The devices at both sides.
#[derive(Clone, Copy)]
struct Sides<'a> {
    senders: &'a [Stand],
    consumers: &'a [Stand],
}

/// Adds the devices of a side.
fn push_devices(
    page: &mut String,
    network: &Network<'_>,
    stands: &[Stand],
    x: u64,
    anchor: &str,
) -> Result<(), AllocError> {
    for stand in stands {
        let (node, y) = (stand.node, stand.height.saturating_add(4));
        let name = Cut(device_of(network, node).name);
        write!(
            page,
            "<a href=\"#node-{node}\"><text x=\"{x}\" y=\"{y}\" text-anchor=\"{anchor}\">{node} {name}</text></a>\n"
        )?;
    }
    Ok(())
}

/// Adds the identifier of a PDO, and what it is of.
fn push_identifier(
    page: &mut String,
    row: &PdoRow,
    times: &PdoTimes,
    y: u64,
) -> Result<(), AllocError> {
    let (id, tpdo, bytes) = (Identifier(times.stream.id), row.tpdo, times.stream.bytes);
    let (x, period) = (SENT.1.saturating_add(6), Short(times.stream.period));
    write!(
        page,
        "<a href=\"#pdo-{id}\"><text x=\"{x}\" y=\"{y}\"><tspan class=\"id\">{id}</tspan> T{tpdo} · {bytes} B · {period} ms</text></a>"
    )
}

/// Adds the response of a PDO against its deadline.
fn push_bar(page: &mut String, bar: ResponseBar, y: u64) -> Result<(), AllocError> {
    let (class, top) = (bar.margin().class(), y.saturating_sub(10));
    let width = part(bar.response, bar.deadline).saturating_mul(BAR) / 1000;
    let (response, deadline) = (Short(bar.response), Short(bar.deadline));
    let share = Share {
        part: bar.deadline.saturating_sub(bar.response),
        whole: bar.deadline,
    };
    write!(
        page,
        "<rect class=\"track\" x=\"458\" y=\"{top}\" width=\"{BAR}\" height=\"12\"/>\
<rect class=\"{class}\" x=\"458\" y=\"{top}\" width=\"{width}\" height=\"12\"/>\
<text x=\"646\" y=\"{y}\">{response} of {deadline} ms, {share} left</text>"
    )
}

/// The link from the sender of a PDO to its identifier.
fn sent_link(sides: Sides<'_>, row: &PdoRow, margin: Margin, height: u64) -> Link {
    let from = Point {
        x: SENT.0,
        y: height_of(sides.senders, row.node),
    };
    let to = Point {
        x: SENT.1,
        y: height,
    };
    Link { from, to, margin }
}

/// The link from an identifier to a consumer of it.
fn taken_link(sides: Sides<'_>, consumer: Consumer, margin: Margin, height: u64) -> Link {
    let from = Point {
        x: TAKEN.0,
        y: height,
    };
    let to = Point {
        x: TAKEN.1,
        y: height_of(sides.consumers, consumer.node),
    };
    Link { from, to, margin }
}

/// Adds a PDO with its links.
fn push_pdo(
    page: &mut String,
    network: &Network<'_>,
    times: &PdoTimes,
    sides: Sides<'_>,
    height: u64,
) -> Result<(), AllocError> {
    let Some(row) = network.rows().get(times.pdo) else {
        return Ok(());
    };
    let (id, pdo, bar) = (
        Identifier(times.stream.id),
        sent_by(network, row),
        bar_of(times),
    );
    let sent = sent_link(sides, row, bar.margin(), height);
    write!(page, "<g><title>{id}, {pdo}</title>{sent}")?;
    for consumer in row.consumers.as_slice() {
        let taken = taken_link(sides, *consumer, bar.margin(), height);
        write!(page, "{taken}")?;
    }
    let line = height.saturating_add(4);
    push_identifier(page, row, times, line)?;
    push_bar(page, bar, line)?;
    page.push_str("</g>\n")
}

/// Adds the links of a network with few devices.
fn push_links(
    page: &mut String,
    alloc: Global,
    network: &Network<'_>,
    pdos: &[PdoTimes],
) -> Result<(), AllocError> {
    let mut senders = stands_of(alloc, &sender_ends(alloc, network, pdos)?)?;
    let mut consumers = stands_of(alloc, &consumer_ends(alloc, network, pdos)?)?;
    let lines = pdos.len().max(senders.len()).max(consumers.len());
    spread(&mut senders, lines);
    spread(&mut consumers, lines);
    let height = height_at(lines);
    write!(
        page,
        "<svg class=\"net\" viewBox=\"0 0 1200 {height}\" role=\"group\" aria-label=\"senders, identifiers and consumers\">\n\
<text class=\"head\" x=\"164\" y=\"16\" text-anchor=\"end\">sender</text><text class=\"head\" x=\"264\" y=\"16\">identifier, bytes, period</text>\
<text class=\"head\" x=\"458\" y=\"16\">response of deadline (full bar: the deadline)</text><text class=\"head\" x=\"992\" y=\"16\">consumers</text>\n"
    )?;
    let sides = Sides {
        senders: &senders,
        consumers: &consumers,
    };
    for (line, times) in pdos.iter().enumerate() {
        push_pdo(page, network, times, sides, height_at(line))?;
    }
    push_devices(page, network, &senders, 164, "end")?;
    push_devices(page, network, &consumers, 992, "start")?;
    page.push_str("</svg>\n")
}

/// Adds the picture of a network that has a plan.
pub(crate) fn push_picture(
    page: &mut String,
    alloc: Global,
    network: &Network<'_>,
    figures: &Figures,
) -> Result<(), AllocError> {
    let pdos = figures.pdos.as_slice();
    if pdos.is_empty() {
        return Ok(());
    }
    page.push_str(
        "<section id=\"picture\">\n<h2>Who sends what to whom</h2>\n<p>Colours tell the share of the deadline that is left: \
<span class=\"key ample\"></span> half or more <span class=\"key fair\"></span> less than half \
<span class=\"key little\"></span> less than a tenth <span class=\"key nothing\"></span> nothing.</p>\n",
    )?;
    if network.devices().len() < MANY {
        push_links(page, alloc, network, pdos)?;
    } else {
        push_matrix(page, alloc, network, pdos)?;
    }
    page.push_str("</section>\n")
}
