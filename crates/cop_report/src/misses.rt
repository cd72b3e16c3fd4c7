//! The section of a page on how near the fastest rate is to a plan, if no rate passes, and on what would make it pass.

use crate::devices::sent_by;
use crate::nearest::push_fastest;
use crate::page::Report;
use crate::senders::sender_in_set;
use cop_net::Network;
use cop_room::Miss;
use std::alloc::{AllocError, Global};

/// Adds with how much longer deadlines a rate has a plan.
fn push_stretch(page: &mut String, network: &Network<'_>, miss: &Miss) -> Result<(), AllocError> {
    let kbits = miss.rate.kbits();
    let Some(stretch) = miss.stretch else {
        return write!(
            page,
            "<li>at {kbits} kbit/s nothing passes, though each deadline were 60 s</li>\n"
        );
    };
    let (whole, rest) = (stretch.thousandths / 1000, stretch.thousandths % 1000);
    write!(
        page,
        "<li>at {kbits} kbit/s: each deadline {whole}.{rest:03} times as long"
    )?;
    if let Some(pdo) = stretch.tightest {
        if let Some(row) = network.rows().get(pdo) {
            let pdo = sent_by(network, row);
            write!(page, "; {pdo} is the tightest then")?;
        }
    }
    page.push_str("</li>\n")
}

/// Adds each frame without which, alone, a rate has a plan; or the same of disturbed transfers.
fn push_spares(page: &mut String, network: &Network<'_>, miss: &Miss) -> Result<(), AllocError> {
    let kbits = miss.rate.kbits();
    for index in &miss.spare {
        if let Some(stream) = network.set().streams().get(*index) {
            let sender = sender_in_set(network, stream);
            write!(page, "<li>at {kbits} kbit/s: no {sender}</li>\n")?;
        }
    }
    Ok(())
}

/// Adds what would make a plan pass, each change alone.
fn push_changes(
    page: &mut String,
    network: &Network<'_>,
    misses: &[Miss],
) -> Result<(), AllocError> {
    if misses.is_empty() {
        return Ok(());
    }
    page.push_str("<p>Each of these alone would make it pass:</p>\n<ul>\n")?;
    for miss in misses {
        push_stretch(page, network, miss)?;
        push_spares(page, network, miss)?;
    }
    page.push_str("</ul>\n")
}

/// Adds how near the fastest rate is to a plan, if no rate passes.
pub(crate) fn push_misses(
    page: &mut String,
    alloc: Global,
    report: Report<'_, '_>,
) -> Result<(), AllocError> {
    if report.figures.rate.is_some() {
        return Ok(());
    }
    page.push_str("<section id=\"misses\">\n<h2>The nearest miss</h2>\n")?;
    push_changes(page, report.network, report.misses)?;
    push_fastest(page, alloc, report.network, report.figures)?;
    page.push_str("</section>\n")
}
