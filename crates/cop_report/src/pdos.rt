//! The section of a page on the PDOs.

use crate::bars::{Margin, ResponseBar};
use crate::devices::{device_of, taken_by};
use crate::frames::{is_lower, push_lower};
use crate::mappings::{objects_of, push_names, push_objects, push_sending};
use crate::names::Names;
use crate::nodes::NodeSettings;
use crate::parts::push_parts;
use crate::script::TABLE_SCRIPT;
use crate::units::{Identifier, Left, Millis, Share};
use crate::unsorted::push_unsorted;
use cop_figures::{Breakdown, Figures, PdoTimes, SyncTimes, Unsorted};
use cop_net::{Consumer, Network, PdoRow};
use std::alloc::{AllocError, Global};

/// The deadline of a PDO in ticks.
fn deadline_of(times: &PdoTimes) -> u64 {
    times.stream.deadline.unwrap_or(0)
}

/// What a PDO uses of its deadline, in millionths.
fn used(times: &PdoTimes) -> u64 {
    times.response.saturating_mul(1000000) / deadline_of(times).max(1)
}

/// The response of a PDO against its deadline.
pub(crate) fn bar_of(times: &PdoTimes) -> ResponseBar {
    ResponseBar {
        response: times.response,
        deadline: deadline_of(times),
    }
}

/// The PDO that uses the most of its deadline.
pub(crate) fn tightest(times: &[PdoTimes]) -> Option<&PdoTimes> {
    let mut found: Option<&PdoTimes> = None;
    for time in times {
        if found.is_none_or(|other| used(other) < used(time)) {
            found = Some(time);
        }
    }
    found
}

/// Adds who takes a PDO, each with a link to its node.
fn push_consumers(
    page: &mut String,
    network: &Network<'_>,
    consumers: &[Consumer],
) -> Result<(), AllocError> {
    if consumers.is_empty() {
        return page.push_str("nobody of the table");
    }
    for (number, consumer) in consumers.iter().enumerate() {
        let comma = if number == 0 { "" } else { ", " };
        let (node, taken) = (consumer.node, taken_by(network, *consumer));
        write!(page, "{comma}<a href=\"#node-{node}\">{taken}</a>")?;
    }
    Ok(())
}

/// Adds what a PDO is sent by: its period, and for a synchronous one how many SYNCs that is.
fn push_period(page: &mut String, times: &PdoTimes) -> Result<(), AllocError> {
    let period = Millis(times.stream.period);
    match times.stream.every {
        0 => write!(page, "<td class=\"n\">{period}</td>"),
        1 => write!(
            page,
            "<td class=\"n\">{period} <small>each SYNC</small></td>"
        ),
        every => write!(
            page,
            "<td class=\"n\">{period} <small>every {every} SYNCs</small></td>"
        ),
    }
}

/// Adds what a PDO needs of the bus.
fn push_stream(page: &mut String, times: &PdoTimes) -> Result<(), AllocError> {
    let bytes = times.stream.bytes;
    let jitter = Millis(times.stream.jitter);
    let deadline = Millis(deadline_of(times));
    write!(page, "<td class=\"n\">{bytes}</td>")?;
    push_period(page, times)?;
    write!(
        page,
        "<td class=\"n\">{jitter}</td><td class=\"n\">{deadline}</td>"
    )
}

/// Adds the response of a PDO, and of a synchronous one how much of it is SYNC's.
fn push_response(
    page: &mut String,
    times: &PdoTimes,
    sync: Option<SyncTimes>,
) -> Result<(), AllocError> {
    let response = Millis(times.response);
    write!(page, "<td class=\"n\">{response}")?;
    if let Some(sync) = sync {
        if times.stream.every > 0 {
            let part = Millis(sync.response);
            write!(page, " <small>SYNC {part}</small>")?;
        }
    }
    page.push_str("</td>")
}

/// Adds a response against its deadline.
pub(crate) fn push_margin(page: &mut String, bar: ResponseBar) -> Result<(), AllocError> {
    let left = bar.deadline.saturating_sub(bar.response);
    let share = Share {
        part: left,
        whole: bar.deadline,
    };
    let (class, margin) = (bar.margin().class(), Left(left));
    write!(
        page,
        "<td class=\"wide\">{bar}</td><td class=\"n {class}\">{margin}</td><td class=\"n {class}\">{share}</td>"
    )
}

/// Adds which PDO it is.
fn push_sender(
    page: &mut String,
    network: &Network<'_>,
    row: &PdoRow,
    times: &PdoTimes,
    is_tightest: bool,
) -> Result<(), AllocError> {
    let note = if is_tightest {
        " <em>tightest</em>"
    } else {
        ""
    };
    let class = match bar_of(times).margin() {
        Margin::Missed | Margin::Nothing | Margin::Little => " class=\"close\"",
        Margin::Fair | Margin::Ample => "",
    };
    let lower = if is_lower(times) {
        " <small>below SDO</small>"
    } else {
        ""
    };
    let id = Identifier(times.stream.id);
    let device = device_of(network, row.node);
    let (node, tpdo) = (row.node, row.tpdo);
    write!(
        page,
        "<tbody{class} id=\"pdo-{id}\">\n<tr><th scope=\"row\">{id}{lower}</th><td><a href=\"#node-{node}\">{device}</a>{note}</td>\
<td class=\"n\">{tpdo}</td>"
    )
}

/// What is shown of a PDO.
#[derive(Clone, Copy)]
struct Shown<'a> {
    row: &'a PdoRow,
    times: &'a PdoTimes,
    parts: &'a Breakdown,
    sync: Option<SyncTimes>,
    is_tightest: bool,
}

/// Adds what is folded below the line of a PDO: its objects, how it is sent, and what its response is made of.
fn push_folded(
    page: &mut String,
    alloc: Global,
    source: Source<'_, '_>,
    names: &Names<'_>,
    shown: Shown<'_>,
) -> Result<(), AllocError> {
    let objects = objects_of(alloc, source.network, names, shown.row)?;
    page.push_str("<tr class=\"more\"><td colspan=\"12\"><details><summary>")?;
    push_names(page, &objects)?;
    page.push_str("</summary>")?;
    push_objects(page, &objects)?;
    let id = shown.times.stream.id;
    push_sending(page, source.network, source.settings, shown.row, id)?;
    let period = shown.times.stream.period;
    push_parts(page, alloc, source.network, shown.parts, period)?;
    page.push_str("</details></td></tr></tbody>\n")
}

/// Adds the lines of a PDO.
fn push_pdo(
    page: &mut String,
    alloc: Global,
    source: Source<'_, '_>,
    names: &Names<'_>,
    shown: Shown<'_>,
) -> Result<(), AllocError> {
    let Shown { row, times, .. } = shown;
    push_sender(page, source.network, row, times, shown.is_tightest)?;
    push_stream(page, times)?;
    push_response(page, times, shown.sync)?;
    push_margin(page, bar_of(times))?;
    page.push_str("<td class=\"taken\">")?;
    push_consumers(page, source.network, row.consumers.as_slice())?;
    page.push_str("</td></tr>\n")?;
    push_folded(page, alloc, source, names, shown)
}

/// Adds what the times of synchronous PDOs count from, where there is one.
fn push_synchronous(page: &mut String, figures: &Figures) -> Result<(), AllocError> {
    let Some(sync) = figures.sync else {
        return Ok(());
    };
    if figures.pdos.iter().any(|times| times.stream.every > 0) {
        let (period, response) = (Millis(sync.stream.period), Millis(sync.response));
        write!(
            page,
            "<p>The event of a synchronous PDO is that of its SYNC, and its jitter counts from the end of SYNC's transfer. SYNC (080h) \
is sent each {period} ms; its transfer ends {response} ms after its event at the latest, and so much of the response is SYNC's.</p>\n"
        )?;
    }
    Ok(())
}

/// Adds the lines of the PDOs.
fn push_lines(
    page: &mut String,
    alloc: Global,
    source: Source<'_, '_>,
    names: &Names<'_>,
    figures: &Figures,
    breakdowns: &[Breakdown],
) -> Result<(), AllocError> {
    let most = tightest(&figures.pdos).map(|times| times.pdo);
    for (times, parts) in figures.pdos.iter().zip(breakdowns) {
        if let Some(row) = source.network.rows().get(times.pdo) {
            let shown = Shown {
                row,
                times,
                parts,
                sync: figures.sync,
                is_tightest: most == Some(times.pdo),
            };
            push_pdo(page, alloc, source, names, shown)?;
        }
    }
    Ok(())
}

/// What the table is about, above it.
const INTRODUCTION: &str = "<section id=\"pdos\">\n<h2>PDOs by identifier</h2>\n\
<p>Times are milliseconds. The response is the greatest time from an event to the end of its transfer, and a bar is full if it takes the whole \
deadline. Below each PDO stand the objects in it: click them for their bits, for how the PDO is sent, and for the parts of its response. Of the deadline is left: \
<span class=\"key ample\"></span> half or more <span class=\"key fair\"></span> less than half \
<span class=\"key little\"></span> less than a tenth <span class=\"key nothing\"></span> nothing.</p>\n";

/// The field to find PDOs, and the heads of the columns.
const HEADS: &str =
    "<p id=\"find\" hidden><label>Find <input type=\"search\"></label> <output></output></p>\n\
<div class=\"scroll\"><table>\n<thead><tr><th>Identifier</th><th>Device</th><th class=\"n\">TPDO</th>\
<th class=\"n\">Bytes</th><th class=\"n\">Period</th><th class=\"n\">Jitter</th><th class=\"n\">Deadline</th>\
<th class=\"n\">Response</th><th></th><th class=\"n\">Margin</th><th class=\"n\">Left</th><th>Taken by</th></tr></thead>\n";

/// What the lines of the PDOs are made of, besides their numbers.
#[derive(Clone, Copy)]
pub(crate) struct Source<'a, 'n> {
    pub network: &'a Network<'n>,
    pub settings: &'a [NodeSettings],
}

/// Adds the PDOs by rising identifier, with what their responses are made of and what becomes of them if controllers do not sort. All stand in
/// the same order.
pub(crate) fn push_pdos(
    page: &mut String,
    alloc: Global,
    source: Source<'_, '_>,
    names: &Names<'_>,
    figures: &Figures,
    breakdowns: &[Breakdown],
    unsorted: &[Unsorted],
) -> Result<(), AllocError> {
    page.push_str(INTRODUCTION)?;
    push_synchronous(page, figures)?;
    push_lower(page, source.network, figures)?;
    page.push_str(HEADS)?;
    push_lines(page, alloc, source, names, figures, breakdowns)?;
    page.push_str("</table></div>\n")?;
    push_unsorted(page, source.network, figures, unsorted)?;
    page.push_str("<script>")?;
    page.push_str(TABLE_SCRIPT)?;
    page.push_str("</script>\n</section>\n")
}
