//! How much of the bus some streams take.

ghost use Rattle.std.specs.Prelude.{◌≡◌, ◌≤◌, ◌<◌, ◌^◌, IfOk, length, sum_by};
ghost use Rattle.cop_figures.specs.Loads.{share_of, load_of, AreLoads};

use cop_frame::{Rate, worst_bits};
use cop_net::Network;
use cop_rta::Stream;
use std::alloc::{AllocError, Global};

/// The load of the bus at a rate, in billionths of its time.
#[derive(Clone, Copy, PartialEq, Eq, Debug)]
pub struct Load {
    pub rate: Rate,
    /// What the PDOs take.
    pub pdos: u64,
    /// What the frames of fixed identifiers take.
    pub fixed: u64,
}

/// What a stream takes of the bus: its longest transfer over its period, in billionths, rounded up.
fn share(stream: &Stream, rate: Rate) -> u64
    ensures share { result ≡ share_of rate stream.now }
    ensures most { result ≤ 2 ^ 38 }
{
    let Stream { bytes, period, .. } = *stream;
    let cost = u64::from(worst_bits(bytes)) * u64::from(rate.ticks_per_bit());
    (cost * 1000000000).div_ceil(period)
}

/// What some streams take of the bus together.
fn total(streams: &[Stream], rate: Rate) -> u64
    requires { length streams.now ≤ 1100 }
    ensures { result ≡ sum_by (share_of rate) streams.now }
{
    let mut total = 0;
    for stream in streams {
        total += share(stream, rate);
    }
    total
}

/// The load at a rate. The first streams are the PDOs.
fn load_at(streams: &[Stream], pdos: usize, rate: Rate) -> Load
    requires few { length streams.now ≤ 1100 }
    requires pdos { pdos ≤ length streams.now }
    ensures { result ≡ load_of streams.now pdos rate }
{
    Load {
        rate,
        pdos: total(&streams[..pdos], rate),
        fixed: total(&streams[pdos..], rate),
    }
}

/// The load of a network at each rate that all its devices support, the slowest first.
pub(crate) fn loads_of(alloc: Global, network: &Network<'_>) -> Result<Vec<Load>, AllocError>
    ensures { IfOk result (λ loads. AreLoads network.now loads.items) }
{
    let rates = network.rates();
    let streams = network.set().streams();
    let pdos = network.pdos();
    let mut loads = Vec::new(alloc);
    for rate in Rate::ALL {
        if rates.contains(rate) {
            loads.push(load_at(streams, pdos, rate))?;
        }
    }
    Ok(loads)
}
