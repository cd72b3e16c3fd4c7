//! The sections of a page on the rates: why slower ones fail, and how much of the bus is used.

use crate::bars::LoadBar;
use crate::devices::sent_by;
use crate::errors::in_load;
use crate::page::why_words;
use crate::senders::fixed_sender;
use crate::units::{Count, Identifier, Millis, Percent};
use cop_figures::{Failing, FailingFrame, Figures, Load, Reason, RefusedRate};
use cop_frame::Rate;
use cop_net::Network;
use cop_rta::Verdict;
use std::alloc::AllocError;

/// The greatest load that the bars show, in billionths: past it a bar is cut.
const GREATEST: u64 = 1500000000;

/// The load at a rate.
pub(crate) fn load_at(figures: &Figures, rate: Rate) -> Percent {
    for load in figures.loads.iter() {
        if load.rate == rate {
            return Percent(load.pdos.saturating_add(load.fixed));
        }
    }
    Percent(0)
}

/// The first PDO that is late.
fn first_late(members: &[Failing]) -> Option<&Failing> {
    members
        .iter()
        .find(|member| matches!(member.verdict, Verdict::Late { .. }))
}

/// Whether several PDOs fail and none of them has a busy time that ends.
fn are_endless(members: &[Failing]) -> bool {
    members.len() > 1 && first_late(members).is_none()
}

/// Adds what is said of a frame: how long it needs, and until when it has time.
pub(crate) fn push_verdict(
    page: &mut String,
    verdict: Verdict,
    deadline: Option<u64>,
) -> Result<(), AllocError> {
    let deadline = Millis(deadline.unwrap_or(0));
    match verdict {
        Verdict::Late { response, .. } => {
            let response = Millis(response);
            write!(page, "needs {response} ms, its deadline is {deadline} ms")
        }
        _ => write!(
            page,
            "has no busy time that ends within 10 s, which counts as failed; its deadline is {deadline} ms"
        ),
    }
}

/// Adds a PDO that fails, and what is said of it where that is not said of all.
fn push_failing(
    page: &mut String,
    network: &Network<'_>,
    failing: &Failing,
    is_said: bool,
) -> Result<(), AllocError> {
    if let Some(row) = network.rows().get(failing.pdo) {
        let pdo = sent_by(network, row);
        write!(page, "{pdo} ")?;
        if !is_said {
            push_verdict(page, failing.verdict, failing.deadline)?;
        }
    }
    Ok(())
}

/// Adds the lines of some PDOs, each of which has some frames above it, and closes what lists them. That no busy time ends is said once.
fn push_lines(
    page: &mut String,
    network: &Network<'_>,
    above: &str,
    members: &[Failing],
) -> Result<(), AllocError> {
    let is_said = are_endless(members);
    let said = if is_said {
        ", has no busy time that ends within 10 s"
    } else {
        ""
    };
    write!(
        page,
        "<p>Each of them with {above} above it, and all other PDOs below it{said}:</p>\n<ul>\n"
    )?;
    for member in members {
        page.push_str("<li>")?;
        push_failing(page, network, member, is_said)?;
        page.push_str("</li>\n")?;
    }
    page.push_str("</ul></details>\n")
}

/// Adds all PDOs of a refusal.
fn push_members(
    page: &mut String,
    network: &Network<'_>,
    members: &[Failing],
) -> Result<(), AllocError> {
    let count = members.len();
    if count == 1 {
        return page.push_str("<p>That is so even with all other PDOs below it.</p>\n");
    }
    write!(
        page,
        "<details><summary>The {count} PDOs of which none can have the lowest priority among them</summary>\n"
    )?;
    push_lines(page, network, "the others", members)
}

/// Adds that some PDOs have no places.
fn push_places(
    page: &mut String,
    network: &Network<'_>,
    kbits: u32,
    members: &[Failing],
) -> Result<(), AllocError> {
    let Some(failing) = first_late(members).or(members.first()) else {
        return Ok(());
    };
    let count = members.len();
    write!(page, "<p>At {kbits} kbit/s ")?;
    if are_endless(members) {
        write!(
            page,
            "none of {count} PDOs, with the others above it, has a busy time that ends within 10 s, which counts as failed"
        )?;
    } else {
        push_failing(page, network, failing, false)?;
    }
    page.push_str(".</p>\n")?;
    push_members(page, network, members)
}

/// Adds how many PDOs are above an SDO frame, and why.
fn push_above(
    page: &mut String,
    network: &Network<'_>,
    above: usize,
    up: &[Failing],
) -> Result<(), AllocError> {
    if above == 0 {
        return page.push_str("<p>That is so even with all PDOs below it.</p>\n");
    }
    let pdos = Count {
        number: above,
        thing: "PDO",
    };
    if up.is_empty() {
        return write!(
            page,
            "<p>All {pdos} stay above it: below the SDO frames there are too few identifiers for them.</p>\n"
        );
    }
    write!(page, "<details><summary>{pdos} above it</summary>\n")?;
    push_lines(page, network, "the others and all SDO frames", up)
}

/// Adds that an SDO frame is late.
fn push_frame(
    page: &mut String,
    network: &Network<'_>,
    kbits: u32,
    frame: &FailingFrame,
) -> Result<(), AllocError> {
    let id = Identifier(frame.id);
    let sender = fixed_sender(network, frame.id);
    write!(
        page,
        "<p>At {kbits} kbit/s the frame {id}, {sender}, misses its deadline even where only those PDOs are above it that cannot \
stand below it: it "
    )?;
    push_verdict(page, frame.verdict, frame.deadline)?;
    page.push_str(".</p>\n")
}

/// Adds why a rate fails.
fn push_refused(
    page: &mut String,
    network: &Network<'_>,
    figures: &Figures,
    refused: &RefusedRate,
) -> Result<(), AllocError> {
    let (kbits, load) = (refused.rate.kbits(), load_at(figures, refused.rate));
    write!(
        page,
        "<h3>{kbits} kbit/s fails <small>at a load of {load}</small></h3>\n"
    )?;
    push_reason(page, network, refused)
}

/// Adds the reason for which a rate fails.
pub(crate) fn push_reason(
    page: &mut String,
    network: &Network<'_>,
    refused: &RefusedRate,
) -> Result<(), AllocError> {
    let kbits = refused.rate.kbits();
    match &refused.reason {
        Reason::Places { members } => push_places(page, network, kbits, members.as_slice()),
        Reason::Sync => write!(
            page,
            "<p>At {kbits} kbit/s SYNC itself has no busy time that ends within 10 s, so that nothing bounds what a \
synchronous PDO waits for.</p>\n"
        ),
        Reason::Sdo { frame, above, up } => {
            push_frame(page, network, kbits, frame)?;
            push_above(page, network, *above, up.as_slice())
        }
    }
}

/// Adds why each rate fails that is slower than the plan's; if no rate passes, why each does, the fastest first.
pub(crate) fn push_rates(
    page: &mut String,
    network: &Network<'_>,
    figures: &Figures,
    are_rates_listed: bool,
) -> Result<(), AllocError> {
    let is_planned = figures.rate.is_some();
    let words = why_words(is_planned);
    write!(page, "<section id=\"rates\">\n<h2>{words}</h2>\n")?;
    if figures.refused.is_empty() {
        page.push_str(if are_rates_listed {
            "<p>No slower rate that was asked for is supported by all devices.</p>\n"
        } else {
            "<p>No slower rate is supported by all devices.</p>\n"
        })?;
    }
    if is_planned {
        for refused in figures.refused.iter() {
            push_refused(page, network, figures, refused)?;
        }
    } else {
        for refused in figures.refused.iter().rev() {
            push_refused(page, network, figures, refused)?;
        }
    }
    page.push_str("</section>\n")
}

/// Adds the load at a rate.
fn push_load(page: &mut String, load: &Load, planned: Option<Rate>) -> Result<(), AllocError> {
    let kbits = load.rate.kbits();
    let class = if planned == Some(load.rate) {
        " class=\"chosen\""
    } else {
        ""
    };
    let bar = LoadBar {
        pdos: load.pdos,
        fixed: load.fixed,
        greatest: GREATEST,
    };
    let all = Percent(load.pdos.saturating_add(load.fixed));
    let (pdos, fixed) = (Percent(load.pdos), Percent(load.fixed));
    write!(
        page,
        "<tr{class}><th scope=\"row\">{kbits} kbit/s</th><td class=\"wide\">{bar}</td><td class=\"n\">{all}</td>"
    )?;
    write!(
        page,
        "<td class=\"n\">{pdos}</td><td class=\"n\">{fixed}</td></tr>\n"
    )
}

/// Adds the load at each candidate rate.
pub(crate) fn push_loads(
    page: &mut String,
    network: &Network<'_>,
    figures: &Figures,
) -> Result<(), AllocError> {
    let fixed = in_load(network);
    write!(
        page,
        "<section id=\"load\">\n<h2>Load of the bus</h2>\n\
<p>The longest frame of each stream over its period. The line is a full bus; a bar ends at 150&nbsp;%. \
<span class=\"key pdo\"></span> PDOs <span class=\"key fixed\"></span> {fixed}</p>\n"
    )?;
    page.push_str(
        "<div class=\"scroll\"><table>\n<thead><tr><th>Rate</th><th></th><th class=\"n\">Load</th><th class=\"n\">PDOs</th><th class=\"n\">Fixed</th></tr></thead>\n<tbody>\n",
    )?;
    for load in figures.loads.iter() {
        push_load(page, load, figures.rate)?;
    }
    page.push_str("</tbody></table></div>\n</section>\n")
}
