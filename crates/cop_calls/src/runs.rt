//! The seeded run of a network, whose trace is written as it goes.

use cop_answers::Inputs;
use cop_engine::{Fault, RunFault, none_passes, plan_status, run_plan};
use cop_files::{Failure, Use, file_failure, print, read_network};
use cop_orders::{MOST_UNTIL, NetworkFiles};
use cop_plan::{Outcome, Plan};
use std::fs::File;
use std::io::BufWriter;

/// How many bytes of a trace are handed to the system at once. Its records come in pieces of some 4 KiB.
const TRACE_BUFFER: usize = 256 * 1024;

/// A new file for a trace.
fn trace_file(rt: &HostRuntime, trace: &str) -> Result<BufWriter<File>, Failure> {
    let file = match File::create(rt, trace) {
        Ok(file) => file,
        Err(error) => return Err(file_failure(rt, trace, Use::Write, &error)),
    };
    match BufWriter::with_capacity(rt.alloc(), TRACE_BUFFER, file) {
        Ok(file) => Ok(file),
        Err(_) => Err(Failure::from(Fault::Memory)),
    }
}

/// The seed that draws what happens in a run, and the run's end in microseconds.
#[derive(Clone, Copy)]
pub struct Drawn {
    pub seed: u64,
    pub until: u64,
}

/// Runs a plan by a seed, and writes the trace into a file as it goes: what is said of the run.
fn run_into(rt: &HostRuntime, plan: &Plan, drawn: Drawn, trace: &str) -> Result<Vec<u8>, Failure> {
    let file = trace_file(rt, trace)?;
    let until = drawn.until.min(MOST_UNTIL);
    match run_plan(rt.alloc(), plan, drawn.seed, until, file) {
        Ok((text, _file)) => Ok(text),
        Err(RunFault::Trace) => Err(Failure {
            fault: Fault::File(String::from_str(rt.alloc(), trace)?),
            reason: Some(String::from_str(rt.alloc(), "it cannot be written to its end\n")?),
        }),
        Err(fault) => Err(Failure::from(Fault::from(fault))),
    }
}

/// Runs what the planner answers for a network, if that is a plan: what is said of it.
fn run_outcome(
    rt: &HostRuntime,
    outcome: &Outcome,
    drawn: Drawn,
    trace: &str,
) -> Result<Vec<u8>, Failure> {
    match outcome {
        Outcome::Planned(plan) => run_into(rt, plan, drawn, trace),
        Outcome::Refused(_) => Ok(none_passes(rt.alloc())?),
    }
}

/// The seeded run of a network: the trace is written, and then the run is told.
#[inline(never)]
pub fn run(
    rt: &HostRuntime,
    drawn: Drawn,
    network: NetworkFiles<'_>,
    trace: &str,
    inputs: &mut Inputs,
) -> Result<u8, Failure> {
    let tables = read_network(rt, &mut inputs.network, network)?;
    let planned = inputs.network.planned(rt.alloc(), &tables)?;
    let (_network, outcome) = planned.parts();
    print(rt, &run_outcome(rt, outcome, drawn, trace)?)?;
    Ok(plan_status(planned.is_planned()))
}
