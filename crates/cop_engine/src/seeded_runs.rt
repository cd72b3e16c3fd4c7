//! The seeded run of a plan.

ghost use Rattle.std.specs.Prelude.{◌≡◌, ◌*◌, ◌≤◌, map, IfOk, MatchResult};
ghost use Rattle.cop_sim.specs.Drawing.{fresh};
ghost use Rattle.cop_engine.specs.Recorders.{counted, Records, IsFinished};
ghost use Rattle.cop_engine.specs.Runs.{IsRun, ExplainsRun, plan_on_bus, run_fault, IsOfWriting};
ghost use Rattle.cop_engine.specs.declared.seeded_runs.RunFault.TheVariants.{Memory, Trace};

use crate::judgements::on_time_text;
use cop_bus::Step;
use cop_plan::Plan;
use cop_rta::Stream;
use cop_sim::{Seeded, SimFault, Sink, TraceSink, seeded_obeys, simulate_over};
use std::alloc::{AllocError, Global};
use std::io::Write;
use thiserror::Error;

/// Why a plan is not run.
#[derive(Clone, Copy, PartialEq, Eq, Debug, Drop, Error)]
pub enum RunFault {
    /// The simulation is given up: too many instances of a fixed frame wait.
    #[error("simulation refused")]
    Simulation,
    /// The trace is not written.
    #[error("the trace is not written")]
    Trace,
    #[error("memory")]
    Memory,
}

impl From<AllocError> for RunFault {
    ghost from_gives = { λ _ fault. fault ≡ Memory };

    fn from(_error: AllocError) -> RunFault {
        RunFault::Memory
    }
}

/// A sink that writes a trace and counts its transfers.
#[derive(Drop)]
struct Recorder<W: Write + Drop> {
    trace: TraceSink<W>,
    transfers: usize,
}

// The number of transfers after a step.
fn counted(transfers: usize, step: &Step) -> usize
    ensures { result ≡ counted transfers step.now }
{
    match step {
        Step::Start { .. } => transfers.saturating_add(1),
        Step::Queue { .. } | Step::End { .. } => transfers,
    }
}

impl<W: Write + Drop> Sink for Recorder<W> {
    ghost takes = { λ s x t. Records W.contents s x t };

    ghost has_failed = { λ s. s.trace.failed };

    fn take(&mut self, step: &Step) -> bool {
        self.transfers = counted(self.transfers, step);
        self.trace.write(step)
    }

    fn failed(&self) -> bool {
        self.trace.failed()
    }
}

// The behaviours of streams by a seed.
fn behaviours_of(alloc: Global, seed: u64, streams: &[Stream]) -> Result<Vec<Seeded>, AllocError>
    ensures { IfOk result (λ behaviours. behaviours.items ≡ map (fresh seed) streams.now) }
{
    let mut behaviours = Vec::new(alloc);
    for stream in streams {
        behaviours.push(Seeded::new(seed, stream))?;
    }
    Ok(behaviours)
}

// What a fault of the simulator means.
fn fault_of(fault: SimFault) -> RunFault
    ensures { result ≡ run_fault fault }
{
    match fault {
        SimFault::Count | SimFault::Disobeys { .. } | SimFault::Backlog { .. } => {
            RunFault::Simulation
        }
        SimFault::Sink => RunFault::Trace,
        SimFault::Memory => RunFault::Memory,
    }
}

// What is said of the run that was recorded, and the writer, with the trace's end.
fn finish<W: Write + Drop>(
    alloc: Global,
    sink: Recorder<W>,
    until: u64,
) -> Result<(Vec<u8>, W), RunFault>
    ensures { MatchResult result (λ r. IsFinished W.contents sink until r.0.items r.1) IsOfWriting }
{
    let Recorder { trace, transfers } = sink;
    let text = on_time_text(alloc, transfers as u64)?;
    match trace.finish(until) {
        Some(writer) => Ok((text, writer)),
        None => Err(RunFault::Trace),
    }
}

// Runs a plan's streams by a seed, as `run_plan` does those of the bus.
fn run_streams<W: Write + Drop>(
    alloc: Global,
    plan: &Plan,
    seed: u64,
    until: u64,
    writer: W,
) -> Result<(Vec<u8>, W), RunFault>
    requires { until ≤ 1000000000 }
    ensures { MatchResult result (λ r. IsRun plan.now seed until r.0.items (W.contents writer) (W.contents r.1)) (λ fault. ExplainsRun plan.now seed until fault) }
{
    let behaviours = behaviours_of(alloc, seed, plan.streams().streams())?;
    let mut sink = Recorder {
        trace: TraceSink::new(writer),
        transfers: 0,
    };
    if sink.trace.failed() {
        return Err(RunFault::Trace);
    }
    seeded_obeys();
    match simulate_over(alloc, plan, behaviours, until * 4, &mut sink) {
        Ok(()) => finish(alloc, sink, until * 4),
        Err(fault) => {
            // The steps so far stay in the trace of a run that is given up.
            let _handed = sink.trace.hand_over();
            Err(fault_of(fault))
        }
    }
}

/// Runs a plan's streams by a seed, up to so many microseconds, and writes the trace as it goes: what is said of the run,
/// how many transfers start and that each PDO is on time, and the writer back. The run has no disturbed transfers, even if the plan counts some.
pub fn run_plan<W: Write + Drop>(
    alloc: Global,
    plan: &Plan,
    seed: u64,
    until: u64,
    writer: W,
) -> Result<(Vec<u8>, W), RunFault>
    requires { until ≤ 1000000000 }
    ensures { MatchResult result (λ r. IsRun (plan_on_bus plan.now) seed until r.0.items (W.contents writer) (W.contents r.1)) (λ fault. ExplainsRun (plan_on_bus plan.now) seed until fault) }
{
    if plan.streams().errors().is_none() {
        return run_streams(alloc, plan, seed, until, writer);
    }
    let bus = plan.on_bus(alloc)?;
    run_streams(alloc, &bus, seed, until, writer)
}
