//! What the response of a PDO is made of.

use crate::senders::bus_id;
use crate::units::{Count, Identifier, Millis};
use cop_figures::{Breakdown, Delay};
use cop_net::Network;
use std::alloc::{AllocError, Global};
use std::cmp::Reverse;

/// How many streams that go before are told one by one; the others are told together.
const MOST: usize = 8;

/// The delays by frames, that which takes longest first.
fn by_time(
    alloc: Global,
    network: &Network<'_>,
    delays: &[Delay],
) -> Result<Vec<Delay>, AllocError> {
    let mut sorted = Vec::new(alloc);
    for delay in delays {
        if let Some(id) = bus_id(network, delay.id) {
            let (transfers, ticks) = (delay.transfers, delay.ticks);
            sorted.push(Delay {
                id,
                transfers,
                ticks,
            })?;
        }
    }
    sorted.sort_unstable_by_key(|delay| Reverse(delay.ticks));
    Ok(sorted)
}

/// Adds the disturbed transfers that go before, where they are counted.
fn push_errors(
    page: &mut String,
    network: &Network<'_>,
    delays: &[Delay],
) -> Result<(), AllocError> {
    for delay in delays {
        if bus_id(network, delay.id).is_none() {
            let (transfers, time) = (delay.transfers, Millis(delay.ticks));
            write!(
                page,
                "<li>disturbed transfers ×{transfers} <b>{time}</b></li>"
            )?;
        }
    }
    Ok(())
}

/// How long some delays take together, in ticks.
fn total(delays: &[Delay]) -> u64 {
    let mut ticks = 0u64;
    for delay in delays {
        ticks = ticks.saturating_add(delay.ticks);
    }
    ticks
}

/// Adds the streams that go before.
fn push_delays(page: &mut String, delays: &[Delay]) -> Result<(), AllocError> {
    for delay in delays.iter().take(MOST) {
        let (id, transfers, time) = (Identifier(delay.id), delay.transfers, Millis(delay.ticks));
        write!(page, "<li>{id} ×{transfers} <b>{time}</b></li>")?;
    }
    let others = delays.get(MOST..).unwrap_or(&[]);
    if others.is_empty() {
        return Ok(());
    }
    let count = Count {
        number: others.len(),
        thing: "other",
    };
    let time = Millis(total(others));
    write!(page, "<li>{count} <b>{time}</b></li>")
}

/// Adds the instances before it, where there are some: their transfers go before, and its own event is as many periods later.
fn push_instances(page: &mut String, parts: &Breakdown, period: u64) -> Result<(), AllocError> {
    if parts.instance == 0 {
        return Ok(());
    }
    let own = Millis(parts.instance.saturating_mul(parts.transfer));
    let (count, later) = (
        parts.instance,
        Millis(parts.instance.saturating_mul(period)),
    );
    write!(
        page,
        "<li>itself ×{count} <b>{own}</b></li><li>periods ×{count} <b>−{later}</b></li>"
    )
}

/// Adds what a response is made of.
pub(crate) fn push_parts(
    page: &mut String,
    alloc: Global,
    network: &Network<'_>,
    parts: &Breakdown,
    period: u64,
) -> Result<(), AllocError> {
    let (response, blocking) = (Millis(parts.response), Millis(parts.blocking));
    let (jitter, transfer) = (Millis(parts.jitter), Millis(parts.transfer));
    write!(
        page,
        "<p class=\"parts\">Response of <b>{response}</b>:</p><ul class=\"parts\"><li>jitter <b>{jitter}</b></li>\
<li>one from below <b>{blocking}</b></li>"
    )?;
    push_errors(page, network, &parts.delays)?;
    push_delays(page, &by_time(alloc, network, &parts.delays)?)?;
    push_instances(page, parts, period)?;
    write!(page, "<li>its transfer <b>{transfer}</b></li></ul>")
}
