//! What a page says of disturbed transfers, where the network counts them.

use crate::units::{Millis, Short};
use cop_frame::worst_bits;
use cop_net::Network;
use cop_rta::Stream;
use std::alloc::AllocError;
use std::fmt;

/// How rare disturbed transfers are, by their stream.
#[derive(Clone, Copy)]
pub(crate) struct Rarity(pub Stream);

impl fmt::Display for Rarity {
    fn fmt<W: fmt::Write>(&self, f: &mut fmt::Formatter<W>) -> fmt::Result {
        let (period, jitter) = (Short(self.0.period), Short(self.0.jitter));
        if self.0.jitter == 0 {
            return write!(f, "at most one each {period} ms");
        }
        write!(
            f,
            "of any n + 1 in a row the last begins at least n times {period} ms, less {jitter} ms, after the first"
        )
    }
}

/// Adds how disturbed transfers are counted, where they are.
pub(crate) fn push_errors(page: &mut String, network: &Network<'_>) -> Result<(), AllocError> {
    let Some(errors) = network.set().errors() else {
        return Ok(());
    };
    let Stream { bytes, .. } = errors;
    let (rarity, bits) = (Rarity(errors), worst_bits(bytes));
    write!(
        page,
        "<p>Disturbed transfers, up to {bits} bits each, count as one more stream above all: {rarity}.</p>\n"
    )
}

/// What disturbed transfers are in a load, where they are counted.
pub(crate) fn in_load(network: &Network<'_>) -> &'static str {
    match network.set().errors() {
        Some(_) => "fixed frames and disturbed transfers",
        None => "fixed frames",
    }
}
