use crate::engine::{ONE_PDO, UNIT, VALVE, by, eds_files};
use cop_engine::{Fault, plan_bytes};
use cop_frame::{Rate, RateSet};
use cop_plan::{Asked, Choice};
use std::alloc::Global;
use std::test::Fail;

/// The plan of the valve's network.
fn plan_of(alloc: Global, asked: &Asked) -> Result<Vec<u8>, Fault> {
    let eds = eds_files(alloc, UNIT)?;
    Ok(plan_bytes(alloc, VALVE, ONE_PDO, &eds, asked)?.plan)
}

#[test]
fn the_margin_stands_behind_the_pdos(rt: HostRuntime) -> Result<(), Fail> {
    let plan = plan_of(rt.alloc(), &by(Choice::Margin))?;
    let text = b"rate 500\npdo 5.1 id 181h response 2680\nmargin 0\nrefused 250 members 1\n";
    assert!(rt; plan.as_slice() == text.as_slice());
    let mut rates = RateSet::new();
    rates.insert(Rate::Kbit1000);
    let choice = Choice::Margin;
    let plan = plan_of(rt.alloc(), &Asked { rates, choice })?;
    let text = b"rate 1000\npdo 5.1 id 181h response 1340\nmargin 1340\n";
    assert!(rt; plan.as_slice() == text.as_slice());
    Ok(())
}
