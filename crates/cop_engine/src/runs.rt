//! The seeded run of a network, from its files.

ghost use Rattle.std.specs.Prelude.{◌≡◌, ◌≤◌, MatchResult};
ghost use Rattle.cop_net.specs.Devices.{handed_in};
ghost use Rattle.cop_engine.specs.Networks.{ExplainsNetwork, IsPlannedNetwork};
ghost use Rattle.cop_engine.specs.Runs.{fault_of_run, IsNetworkRun, ExplainsNetworkRun};

use crate::faults::Fault;
use crate::judgements::none_passes;
use crate::planned_networks::planned;
use crate::seeded_runs::{RunFault, run_plan};
use cop_net::{read_nodes, read_pdos};
use cop_plan::{Asked, Outcome};
use std::alloc::Global;

impl From<RunFault> for Fault {
    ghost from_gives = { λ fault result. result ≡ fault_of_run fault };

    fn from(fault: RunFault) -> Fault {
        match fault {
            RunFault::Simulation => Fault::Simulation,
            RunFault::Trace | RunFault::Memory => Fault::Memory,
        }
    }
}

/// The plan of the network of some tables and EDS files, or the refusals where no rate passes. Otherwise the first rule
/// that the network breaks, or want of memory.
pub fn outcome_of(
    alloc: Global,
    nodes: &[u8],
    pdos: &[u8],
    eds_files: &[(String, Vec<u8>)],
    asked: &Asked,
) -> Result<Outcome, Fault>
    ensures { MatchResult result (λ outcome. IsPlannedNetwork asked.now nodes.now pdos.now (handed_in eds_files.now) outcome)
        (λ fault. ExplainsNetwork asked.now.rates nodes.now pdos.now (handed_in eds_files.now) fault) }
{
    let nodes = read_nodes(alloc, nodes)?;
    let pdos = read_pdos(alloc, pdos)?;
    let planned = planned(alloc, asked, &nodes, &pdos, eds_files)?;
    Ok(planned.into_outcome())
}

/// The text and the trace of the seeded run of a network up to so many microseconds. Where no rate passes that is said,
/// and the trace is empty. Otherwise the first rule that the network breaks, the fault of a simulation in which too many
/// instances of a fixed frame wait, or want of memory.
pub fn run_bytes(
    alloc: Global,
    seed: u64,
    until: u64,
    nodes: &[u8],
    pdos: &[u8],
    eds_files: &[(String, Vec<u8>)],
    asked: &Asked,
) -> Result<(Vec<u8>, Vec<u8>), Fault>
    requires { until ≤ 1000000000 }
    ensures { MatchResult result (λ r. IsNetworkRun asked.now nodes.now pdos.now (handed_in eds_files.now) seed until r.0.items r.1.items)
        (λ fault. ExplainsNetworkRun asked.now nodes.now pdos.now (handed_in eds_files.now) seed until fault) }
{
    match outcome_of(alloc, nodes, pdos, eds_files, asked)? {
        Outcome::Planned(plan) => Ok(run_plan(alloc, &plan, seed, until, Vec::new(alloc))?),
        Outcome::Refused(_) => Ok((none_passes(alloc)?, Vec::new(alloc))),
    }
}
