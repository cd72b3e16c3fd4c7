//! What a page shows of the fastest rate, if no rate passes: how far each PDO is from its deadline.

use crate::bars::MissBar;
use crate::devices::sent_by;
use crate::rates::push_reason;
use crate::senders::{Sender, fixed_sender};
use crate::units::{Count, Millis};
use cop_figures::{Failing, Figures, Reason, RefusedRate};
use cop_net::Network;
use cop_rta::Verdict;
use std::alloc::{AllocError, Global};

/// The PDOs of which none can have the lowest priority among them, if that is the reason of a refusal.
fn members_of(refused: &RefusedRate) -> &[Failing] {
    match &refused.reason {
        Reason::Places { members } => members.as_slice(),
        Reason::Sdo { .. } | Reason::Sync => &[],
    }
}

/// The response that the test gives, in ticks; none if nothing bounds it.
fn response_in(verdict: Verdict) -> Option<u64> {
    match verdict {
        Verdict::Late { response, .. } | Verdict::Pass { response } => Some(response),
        Verdict::Long => None,
    }
}

/// What a PDO needs of its deadline, in millionths; most of all if nothing bounds it.
fn used(failing: &Failing) -> u64 {
    match response_in(failing.verdict) {
        Some(response) => response.saturating_mul(1000000) / failing.deadline.unwrap_or(0).max(1),
        None => u64::MAX,
    }
}

/// A PDO that misses its deadline, and what it needs of it, in millionths.
#[derive(Clone, Copy)]
struct Near {
    used: u64,
    failing: Failing,
}

/// The fastest rate, if no rate passes.
fn fastest(figures: &Figures) -> Option<&RefusedRate> {
    match figures.rate {
        Some(_) => None,
        None => figures.refused.last(),
    }
}

/// The PDOs of a refusal, that which misses its deadline by the least share first.
fn by_share(alloc: Global, refused: &RefusedRate) -> Result<Vec<Near>, AllocError> {
    let mut sorted = Vec::new(alloc);
    for failing in members_of(refused) {
        sorted.push(Near {
            used: used(failing),
            failing: *failing,
        })?;
    }
    sorted.sort_unstable_by_key(|near| near.used);
    Ok(sorted)
}

/// The PDO of a refusal that misses its deadline by the least share.
fn nearest(refused: &RefusedRate) -> Option<&Failing> {
    let mut found: Option<&Failing> = None;
    for failing in members_of(refused) {
        if found.is_none_or(|other| used(failing) < used(other)) {
            found = Some(failing);
        }
    }
    found
}

/// A PDO or a frame that misses its deadline.
#[derive(Clone, Copy)]
struct Missed<'a> {
    sender: Sender<'a>,
    deadline: Option<u64>,
    verdict: Verdict,
}

/// What misses its deadline by the least share: the frame of SDO that is the reason of a refusal, or else a PDO.
fn missed_by<'a>(network: &'a Network<'_>, refused: &RefusedRate) -> Option<Missed<'a>> {
    if let Reason::Sdo { frame, .. } = &refused.reason {
        return Some(Missed {
            sender: fixed_sender(network, frame.id),
            deadline: frame.deadline,
            verdict: frame.verdict,
        });
    }
    let failing = nearest(refused)?;
    let row = network.rows().get(failing.pdo)?;
    Some(Missed {
        sender: Sender::Pdo(sent_by(network, row)),
        deadline: failing.deadline,
        verdict: failing.verdict,
    })
}

/// Adds the tile of what misses its deadline by the least share.
pub(crate) fn push_nearest(
    page: &mut String,
    network: &Network<'_>,
    figures: &Figures,
) -> Result<(), AllocError> {
    let Some(refused) = fastest(figures) else {
        return Ok(());
    };
    let Some(missed) = missed_by(network, refused) else {
        return Ok(());
    };
    let Some(response) = response_in(missed.verdict) else {
        return Ok(());
    };
    let late = Millis(response.saturating_sub(missed.deadline.unwrap_or(0)));
    let (kbits, sender) = (refused.rate.kbits(), missed.sender);
    write!(
        page,
        "<div><b class=\"missed\">{late} ms late</b>the nearest miss at {kbits} kbit/s: {sender}</div>\n"
    )
}

/// Adds how much a PDO needs of its deadline.
fn push_need(page: &mut String, failing: &Failing) -> Result<(), AllocError> {
    let deadline = failing.deadline.unwrap_or(0);
    let allowed = Millis(deadline);
    let Some(response) = response_in(failing.verdict) else {
        return write!(
            page,
            "<td class=\"n\">{allowed}</td><td class=\"n missed\">more than 10 s</td><td></td><td></td>"
        );
    };
    let bar = MissBar { response, deadline };
    let (needs, late) = (Millis(response), Millis(response.saturating_sub(deadline)));
    write!(
        page,
        "<td class=\"n\">{allowed}</td><td class=\"n\">{needs}</td><td class=\"wide\">{bar}</td><td class=\"n missed\">{late}</td>"
    )
}

/// Adds the line of a PDO.
fn push_line(
    page: &mut String,
    network: &Network<'_>,
    failing: &Failing,
) -> Result<(), AllocError> {
    let (Some(row), Some(stream)) = (
        network.rows().get(failing.pdo),
        network.set().streams().get(failing.pdo),
    ) else {
        return Ok(());
    };
    let (pdo, bytes) = (sent_by(network, row), stream.bytes);
    let (period, jitter) = (Millis(stream.period), Millis(stream.jitter));
    write!(
        page,
        "<tr><th scope=\"row\">{pdo}</th><td class=\"n\">{bytes}</td><td class=\"n\">{period}</td><td class=\"n\">{jitter}</td>"
    )?;
    push_need(page, failing)?;
    page.push_str("</tr>\n")
}

/// Adds what the table is about: what is above the PDOs in it, and how many are not in it.
fn push_words(page: &mut String, refused: &RefusedRate, others: usize) -> Result<(), AllocError> {
    let kbits = refused.rate.kbits();
    write!(
        page,
        "<h3>The PDOs at {kbits} kbit/s</h3>\n<p>Times are milliseconds. None of these PDOs can have the lowest priority among them: each is shown \
with the others above it and all other PDOs below it. The one that misses its deadline by the least share is first. A bar is the response, and its red part is past the deadline."
    )?;
    if others > 0 {
        let others = Count {
            number: others,
            thing: "other PDO",
        };
        write!(page, " {others} can stand below these.")?;
    }
    page.push_str("</p>\n")
}

/// Adds the PDOs of the fastest rate that miss their deadlines, the nearest miss first; or else why the rate fails.
pub(crate) fn push_fastest(
    page: &mut String,
    alloc: Global,
    network: &Network<'_>,
    figures: &Figures,
) -> Result<(), AllocError> {
    let Some(refused) = fastest(figures) else {
        return Ok(());
    };
    let members = by_share(alloc, refused)?;
    if members.is_empty() {
        return push_reason(page, network, refused);
    }
    push_words(page, refused, network.pdos().saturating_sub(members.len()))?;
    page.push_str(
        "<div class=\"scroll\"><table>\n<thead><tr><th>PDO</th><th class=\"n\">Bytes</th><th class=\"n\">Period</th><th class=\"n\">Jitter</th>\
<th class=\"n\">Deadline</th><th class=\"n\">Response</th><th></th><th class=\"n\">Late by</th></tr></thead>\n<tbody>\n",
    )?;
    for near in members.iter() {
        push_line(page, network, &near.failing)?;
    }
    page.push_str("</tbody></table></div>\n")
}
