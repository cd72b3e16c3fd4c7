//! Seeded runs of networks.

ghost use Rattle.std.specs.Prelude.{◌≤◌};

use crate::engine::{ALONE, BUSY_PDO, ONE_PDO, SLOW, UNIT, VALVE, by, eds_files};
use cop_engine::{Fault, judge_bytes, run_bytes};
use cop_plan::Choice;
use std::alloc::Global;
use std::test::Fail;

/// The valve's trace by the seed 42 up to 20 milliseconds.
const TRACE: &[u8] = b"kind,moment,id,event,bits,data
queue,36142,133,36142,131,0000000000000000
start,36142,133,,,
end,37190,133,,,
queue,37595,385,37595,116,0000000000000000
start,37595,385,,,
end,38523,385,,,
queue,79273,385,79273,115,0000000000000000
start,79273,385,,,
until,80000,0,,,
";

/// The text and the trace of a seeded run.
fn run(
    alloc: Global,
    until: u64,
    nodes: &[u8],
    pdos: &[u8],
    eds: &[u8],
) -> Result<(Vec<u8>, Vec<u8>), Fault>
    requires { until ≤ 1000000000 }
{
    let files = eds_files(alloc, eds)?;
    run_bytes(alloc, 42, until, nodes, pdos, &files, &by(Choice::Order))
}

#[test]
fn the_valve_for_20_milliseconds(rt: HostRuntime) -> Result<(), Fail> {
    let (text, trace) = run(rt.alloc(), 20000, VALVE, ONE_PDO, UNIT)?;
    assert!(rt; text.as_slice() == b"transfers 3\non time\n".as_slice());
    assert!(rt; trace.as_slice() == TRACE);
    Ok(())
}

#[test]
fn a_run_is_judged_as_it_is_told(rt: HostRuntime) -> Result<(), Fail> {
    let files = eds_files(rt.alloc(), UNIT)?;
    for until in [0, 1, 100000, 2000000] {
        let (text, trace) = run(rt.alloc(), until, VALVE, ONE_PDO, UNIT)?;
        let judged = judge_bytes(
            rt.alloc(),
            VALVE,
            ONE_PDO,
            &files,
            &by(Choice::Order),
            &trace,
        )?;
        assert!(rt; judged == text);
    }
    Ok(())
}

#[test]
fn no_rate_passes(rt: HostRuntime) -> Result<(), Fail> {
    let (text, trace) = run(rt.alloc(), 20000, ALONE, BUSY_PDO, SLOW)?;
    assert!(rt; text.as_slice() == b"no rate passes\n".as_slice());
    assert!(rt; trace.is_empty());
    Ok(())
}
