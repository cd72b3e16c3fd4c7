//! Whether a refusal file has each rate that the plan refuses.

use crate::engine::{ONE_PDO, UNIT, VALVE, eds_files, plan_of};
use cop_cert::Refusal;
use cop_covering::covers_slower;
use cop_net::{all_rates, network, read_nodes, read_pdos};
use std::alloc::Global;
use std::test::Fail;

/// The refusal file of the valve's plan.
fn refusal_file(alloc: Global) -> Result<Vec<u8>, Fail> {
    let eds = eds_files(alloc, UNIT)?;
    Ok(plan_of(alloc, VALVE, ONE_PDO, &eds)?.refusals)
}

/// Whether refusals are of each rate that the valve's plan refuses.
fn covers(alloc: Global, refusals: &[Refusal]) -> Result<bool, Fail> {
    let nodes = read_nodes(alloc, VALVE)?;
    let pdos = read_pdos(alloc, ONE_PDO)?;
    let eds = eds_files(alloc, UNIT)?;
    let network = network(alloc, &all_rates(), &nodes, &pdos, &eds)?;
    Ok(covers_slower(alloc, &network, refusals)?)
}

#[test]
fn a_file_without_a_slower_rate_is_not_whole(rt: HostRuntime) -> Result<(), Fail> {
    let file = refusal_file(rt.alloc())?;
    let refusals = cop_cert::read(rt.alloc(), &file)?;
    assert!(rt; covers(rt.alloc(), refusals.as_slice())?);
    assert!(rt; !covers(rt.alloc(), &[])?);
    Ok(())
}
