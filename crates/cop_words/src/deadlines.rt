//! What is said of deadlines that are shorter than the frames themselves.

use crate::findings::Finding;
use crate::names::{Micros, PdoName, tpdo_of};
use cop_frame::{Rate, worst_bits};
use cop_net::{Network, PdoRow};
use cop_rta::Stream;
use std::alloc::{AllocError, Global};
use std::fmt;

/// A PDO whose frame alone takes longer than its deadline at the fastest rate.
#[derive(Clone, Copy)]
struct Short {
    /// The place of its row, from 0 on.
    pdo: usize,
    /// What its frame takes at most, in ticks of 250 ns.
    transfer: u64,
    rate: Rate,
}

/// The fastest candidate.
fn fastest(network: &Network<'_>) -> Option<Rate> {
    let rates = network.rates();
    let mut found = None;
    for rate in Rate::ALL {
        if rates.contains(rate) {
            found = Some(rate);
        }
    }
    found
}

/// What the frame of a stream takes at most, in ticks of 250 ns.
fn transfer_of(stream: &Stream, rate: Rate) -> u64 {
    let Stream { bytes, .. } = *stream;
    u64::from(worst_bits(bytes)).saturating_mul(u64::from(rate.ticks_per_bit()))
}

/// The PDOs whose frames alone take longer than their deadlines, by their rows.
fn short_ones(alloc: Global, network: &Network<'_>) -> Result<Vec<Short>, AllocError> {
    let mut short = Vec::new(alloc);
    let Some(rate) = fastest(network) else {
        return Ok(short);
    };
    let streams = network.set().streams();
    for (pdo, stream) in streams.iter().enumerate().take(network.pdos()) {
        let transfer = transfer_of(stream, rate);
        if stream.deadline.is_some_and(|deadline| deadline < transfer) {
            short.push(Short {
                pdo,
                transfer,
                rate,
            })?;
        }
    }
    Ok(short)
}

/// How many others come behind the first one.
#[derive(Clone, Copy)]
struct More(usize);

impl fmt::Display for More {
    fn fmt<W: fmt::Write>(&self, f: &mut fmt::Formatter<W>) -> fmt::Result {
        match self.0 {
            0 => Ok(()),
            others => write!(f, " and {others} more"),
        }
    }
}

/// What is said of the first of some such PDOs, behind which others come.
fn short_words(
    alloc: Global,
    row: &PdoRow,
    first: Short,
    others: usize,
) -> Result<String, AllocError> {
    let name = PdoName(tpdo_of(row));
    let (deadline, kbits) = (row.deadline, first.rate.kbits());
    let (transfer, more) = (Micros(first.transfer), More(others));
    format!(in alloc;
        "{name}{more}: its deadline of {deadline} us is less than its frame alone takes at {kbits} kbit/s, {transfer} us: is it a time in milliseconds?"
    )
}

/// That deadlines are shorter than the frames themselves, so that no rate passes.
pub(crate) fn short_finding(
    alloc: Global,
    network: &Network<'_>,
) -> Result<Option<Finding>, AllocError> {
    let short = short_ones(alloc, network)?;
    let Some(first) = short.first() else {
        return Ok(None);
    };
    let Some(row) = network.rows().get(first.pdo) else {
        return Ok(None);
    };
    let others = short.len().saturating_sub(1);
    Ok(Some(Finding {
        number: None,
        node: Some(row.node),
        record: Some((first.pdo as u64).saturating_add(1)),
        at: None,
        words: short_words(alloc, row, *first, others)?,
    }))
}
