//! The page of a report: one file of HTML with its style, its pictures and its scripts.

ghost use Rattle.std.specs.Prelude.{length};
ghost use Rattle.cop_plan.specs.Plans.{IsOutcome};

use crate::bars::Margin;
use crate::bus::push_bus;
use crate::devices::sent_by;
use crate::frames::{has_fixed, push_frames};
use crate::log::push_log;
use crate::misses::push_misses;
use crate::names::Names;
use crate::nearest::push_nearest;
use crate::nodes::{all_settings, push_nodes};
use crate::pdos::{Source, push_pdos, tightest};
use crate::picture::push_picture;
use crate::premises::push_premises;
use crate::rates::{load_at, push_loads, push_rates};
use crate::script::PRINT_SCRIPT;
use crate::senders::fixed_sender;
use crate::style::STYLE;
use crate::title::{VERSION, push_block, push_name, push_title};
use crate::units::{Count, Identifier, Left, Percent, Share};
use crate::warnings::push_warnings;
use cop_figures::{Breakdown, Figures, Timeline, Unsorted};
use cop_logbook::Logbook;
use cop_net::Network;
use cop_plan::Outcome;
use cop_room::Miss;
use std::alloc::{AllocError, Global};

/// A file that was read: its name, how many bytes it has, and their SHA-256.
#[derive(Clone, Copy, Debug)]
pub struct Input<'a> {
    pub name: &'a str,
    pub size: usize,
    pub digest: [u8; 32],
}

/// What a page is made of: a network, what the planner answers for it, the numbers of that, what the responses of the PDOs are made of, in
/// the order of these numbers, what a trace tells of the bus under the plan if one is to be shown, a log that was watched by the plan if there
/// is one, and the files that were read.
#[derive(Clone, Copy)]
pub struct Report<'a, 'n> {
    /// What the page is called and dated, if the call says so.
    pub title: Option<&'a str>,
    pub date: Option<&'a str>,
    pub network: &'a Network<'n>,
    pub outcome: &'a Outcome,
    pub figures: &'a Figures,
    pub breakdowns: &'a [Breakdown],
    /// What becomes of the PDOs if controllers do not sort, in the order of their numbers; empty where no rate passes.
    pub unsorted: &'a [Unsorted],
    /// What rates miss a plan by, if none passes.
    pub misses: &'a [Miss],
    pub timeline: Option<&'a Timeline>,
    pub log: Option<&'a Logbook<'a>>,
    /// Whether the rates that the plan may have were listed.
    pub are_rates_listed: bool,
    pub inputs: &'a [Input<'a>],
    /// The texts of the EDS files by the names that the table of nodes gives them.
    pub eds_files: &'a [(String, Vec<u8>)],
    /// What is worth a look before one relies on the plan, a line each.
    pub warnings: &'a str,
}

/// Adds what the page is about.
fn push_lead(
    page: &mut String,
    network: &Network<'_>,
    figures: &Figures,
    are_rates_listed: bool,
) -> Result<(), AllocError> {
    let pdos = Count {
        number: network.pdos(),
        thing: "PDO",
    };
    let devices = Count {
        number: network.devices().len(),
        thing: "device",
    };
    write!(page, "<p>{pdos} of {devices}. ")?;
    let rate = if are_rates_listed {
        "rate that was asked for and that all devices support"
    } else {
        "rate that all devices support"
    };
    if figures.rate.is_some() {
        write!(
            page,
            "This is the slowest {rate} and at which some choice of identifiers passes the \
response-time test of Davis, Burns, Bril and Lukkien (2007).</p>\n"
        )
    } else {
        write!(
            page,
            "At no {rate} any choice of identifiers passes the response-time test of Davis, Burns, \
Bril and Lukkien (2007). The reasons at each rate are below: longer deadlines or periods, fewer frames of fixed identifiers, \
or devices with a faster rate can help.</p>\n"
        )
    }
}

/// Adds the tile of the tightest PDO.
fn push_tightest(
    page: &mut String,
    network: &Network<'_>,
    figures: &Figures,
) -> Result<(), AllocError> {
    let Some(times) = tightest(&figures.pdos) else {
        return Ok(());
    };
    let Some(row) = network.rows().get(times.pdo) else {
        return Ok(());
    };
    let (margin, pdo) = (Left(times.left()), sent_by(network, row));
    let whole = times.stream.deadline.unwrap_or(0);
    let share = Share {
        part: times.left(),
        whole,
    };
    let class = Margin::of(times.response, whole).class();
    write!(
        page,
        "<div><b class=\"{class}\">{margin} ms, {share}</b>of its deadline left at the tightest: {pdo}</div>\n"
    )
}

/// Adds the tile of the load at the planned rate.
fn push_planned_load(page: &mut String, figures: &Figures) -> Result<(), AllocError> {
    let Some(rate) = figures.rate else {
        return Ok(());
    };
    let load = load_at(figures, rate);
    write!(page, "<div><b>{load}</b>load of the bus at most</div>\n")
}

/// Adds what there is to know at first sight.
fn push_header(page: &mut String, report: Report<'_, '_>) -> Result<(), AllocError> {
    let (network, figures) = (report.network, report.figures);
    page.push_str("<header>\n")?;
    push_title(page, report)?;
    push_block(page, report)?;
    push_lead(page, network, figures, report.are_rates_listed)?;
    page.push_str("<div class=\"tiles\">\n")?;
    push_tightest(page, network, figures)?;
    push_nearest(page, network, figures)?;
    push_planned_load(page, figures)?;
    push_refused_count(page, figures.refused.len())?;
    page.push_str("</div>\n")?;
    push_hint(page, report)?;
    page.push_str("</header>\n")
}

/// Adds the tile of the refused rates, if there are some.
fn push_refused_count(page: &mut String, number: usize) -> Result<(), AllocError> {
    let words = match number {
        0 => return Ok(()),
        1 => "refused rate",
        _ => "refused rates",
    };
    write!(page, "<div><b>{number}</b>{words}, with evidence</div>\n")
}

/// Adds what helps if nothing is left of a deadline, and the identifiers were not chosen for that.
fn push_hint(page: &mut String, report: Report<'_, '_>) -> Result<(), AllocError> {
    let is_for_margin = match report.outcome {
        Outcome::Planned(plan) => plan.margin().is_some(),
        Outcome::Refused(_) => true,
    };
    if is_for_margin || report.figures.pdos.iter().all(|times| times.left() > 0) {
        return Ok(());
    }
    page.push_str(
        "<p class=\"nothing\">Nothing is left of a deadline. Use <code>--margin</code>: it chooses the identifiers that leave each deadline the most.</p>\n",
    )
}

/// Adds a link to a section, where the page has it.
fn push_link(
    page: &mut String,
    is_there: bool,
    section: &str,
    words: &str,
) -> Result<(), AllocError> {
    if is_there {
        write!(page, " <a href=\"#{section}\">{words}</a>")?;
    }
    Ok(())
}

/// What the section on the refused rates is called.
pub(crate) fn why_words(is_planned: bool) -> &'static str {
    if is_planned {
        "Why no slower rate"
    } else {
        "Why no rate passes"
    }
}

/// Adds the links to the sections.
fn push_contents(page: &mut String, report: Report<'_, '_>) -> Result<(), AllocError> {
    let is_planned = matches!(report.outcome, Outcome::Planned(_));
    let has_frames = is_planned && has_fixed(report.network);
    page.push_str("<nav>")?;
    push_link(
        page,
        !report.warnings.is_empty(),
        "warnings",
        "Before you rely on this",
    )?;
    push_link(page, is_planned, "picture", "Who sends what")?;
    push_link(page, !is_planned, "misses", "The nearest miss")?;
    push_link(page, true, "rates", why_words(is_planned))?;
    push_link(page, true, "load", "Load")?;
    push_link(page, is_planned, "pdos", "PDOs")?;
    push_link(page, has_frames, "frames", "Fixed frames")?;
    push_link(
        page,
        is_planned && report.timeline.is_some(),
        "bus",
        "Bus over time",
    )?;
    push_link(page, is_planned && report.log.is_some(), "log", "The log")?;
    push_link(page, is_planned, "nodes", "Nodes")?;
    push_link(page, is_planned, "premises", "On the machine")?;
    push_link(page, true, "files", "Files")?;
    page.push_str("</nav>\n")
}

/// Adds the PDOs that keep no more of their deadlines than a margin, in ticks.
fn push_limiting_pdos(
    page: &mut String,
    network: &Network<'_>,
    figures: &Figures,
    margin: u64,
) -> Result<(), AllocError> {
    for times in figures.pdos.iter().filter(|times| times.left() <= margin) {
        if let Some(row) = network.rows().get(times.pdo) {
            let id = Identifier(times.stream.id);
            let pdo = sent_by(network, row);
            write!(page, "<li><a href=\"#pdo-{id}\">{pdo}</a></li>\n")?;
        }
    }
    Ok(())
}

/// Adds the SDO frames that keep no more of their deadlines than a margin, in ticks.
fn push_limiting_frames(
    page: &mut String,
    network: &Network<'_>,
    figures: &Figures,
    margin: u64,
) -> Result<(), AllocError> {
    for frame in figures.frames.iter().filter(|frame| frame.left() <= margin) {
        let id = Identifier(frame.stream.id);
        let sender = fixed_sender(network, frame.stream.id);
        write!(page, "<li>{id}, {sender}</li>\n")?;
    }
    Ok(())
}

/// Adds how much each deadline has left, where the identifiers were chosen by it, and what has no more.
fn push_margin(page: &mut String, report: Report<'_, '_>) -> Result<(), AllocError> {
    let Outcome::Planned(plan) = report.outcome else {
        return Ok(());
    };
    let Some(ticks) = plan.margin() else {
        return Ok(());
    };
    let margin = Left(ticks);
    write!(
        page,
        "<p>Every PDO, and every SDO frame with a deadline, keeps at least {margin} ms of its deadline in every run. \
No other identifiers at this rate leave all of them more. These have no more than that:</p>\n<ul>\n"
    )?;
    push_limiting_pdos(page, report.network, report.figures, ticks)?;
    push_limiting_frames(page, report.network, report.figures, ticks)?;
    page.push_str("</ul>\n")?;
    push_others(page, plan.others())
}

/// Adds what is kept by those deadlines that can have more, in ticks, if that is more.
fn push_others(page: &mut String, others: Option<u64>) -> Result<(), AllocError> {
    let Some(ticks) = others else {
        return Ok(());
    };
    let others = Left(ticks);
    write!(
        page,
        "<p>Each of the others keeps at least {others} ms, or as much as any identifiers at this rate leave it.</p>\n"
    )
}

/// Adds the sections that a plan alone has.
fn push_plan(page: &mut String, alloc: Global, report: Report<'_, '_>) -> Result<(), AllocError>
    requires { IsOutcome report.network.now.equipment.rates report.network.now.set (length report.network.now.rows) report.outcome.now }
{
    if let Outcome::Planned(plan) = report.outcome {
        let names = Names::new(alloc, report.eds_files)?;
        let settings = all_settings(alloc, report.network, plan)?;
        let source = Source {
            network: report.network,
            settings: &settings,
        };
        push_pdos(
            page,
            alloc,
            source,
            &names,
            report.figures,
            report.breakdowns,
            report.unsorted,
        )?;
        push_frames(page, alloc, report.network, report.figures)?;
        if let Some(timeline) = report.timeline {
            push_bus(page, report, plan, timeline)?;
        }
        if let Some(log) = report.log {
            push_log(page, report.network, log)?;
        }
        push_nodes(page, report.network, &settings)?;
        push_premises(page, report.network)?;
    }
    Ok(())
}

/// Adds all of a page.
fn push_page(page: &mut String, alloc: Global, report: Report<'_, '_>) -> Result<(), AllocError>
    requires { IsOutcome report.network.now.equipment.rates report.network.now.set (length report.network.now.rows) report.outcome.now }
{
    page.push_str(
        "<!DOCTYPE html>\n<html lang=\"en\">\n<head>\n<meta charset=\"utf-8\">\n\
<meta name=\"viewport\" content=\"width=device-width, initial-scale=1\">\n",
    )?;
    push_name(page, report)?;
    page.push_str("<style>")?;
    page.push_str(STYLE)?;
    page.push_str("</style>\n</head>\n<body>\n<main>\n")?;
    push_header(page, report)?;
    push_contents(page, report)?;
    push_warnings(page, report.warnings)?;
    push_misses(page, alloc, report)?;
    push_margin(page, report)?;
    push_picture(page, alloc, report.network, report.figures)?;
    push_rates(
        page,
        report.network,
        report.figures,
        report.are_rates_listed,
    )?;
    push_loads(page, report.network, report.figures)?;
    push_plan(page, alloc, report)?;
    write!(
        page,
        "<footer>Made by canplan {VERSION}.</footer>\n</main>\n<script>"
    )?;
    page.push_str(PRINT_SCRIPT)?;
    page.push_str("</script>\n</body>\n</html>\n")
}

/// The page of a report. `Err` is want of memory.
pub fn page_of(alloc: Global, report: Report<'_, '_>) -> Result<String, AllocError>
    requires { IsOutcome report.network.now.equipment.rates report.network.now.set (length report.network.now.rows) report.outcome.now }
{
    let mut page = String::new(alloc);
    push_page(&mut page, alloc, report)?;
    Ok(page)
}
