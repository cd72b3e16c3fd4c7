//! Sinks of the valve's run.

use crate::simulator::{VALVE, VALVE_SCRIPTS, VALVE_STEPS, plan_of, scripted};
use cop_bus::{Step, Trace, write_trace};
use cop_plan::Plan;
use cop_sim::{Scripted, SimFault, Sink, TraceSink, simulate_over};
use std::alloc::{AllocError, Global};
use std::test::Fail;

/// A sink that fails after so many steps.
#[derive(Drop)]
struct Failing {
    taken: Vec<Step>,
    room: usize,
    failed: bool,
}

impl Sink for Failing {
    ghost use Rattle.std.specs.Prelude.{◌≡◌, ◌++◌, ◌∷◌, []};

    ghost takes = { λ s x t. t.taken.items ≡ s.taken.items ++ x ∷ [] };

    ghost has_failed = { λ s. s.failed };

    fn take(&mut self, step: &Step) -> bool {
        if self.taken.len() < self.room && self.taken.push(*step).is_ok() {
            return true;
        }
        self.failed = true;
        false
    }

    fn failed(&self) -> bool {
        self.failed
    }
}

/// The behaviours of the valve's scripts.
fn valve_behaviours(alloc: Global) -> Result<Vec<Scripted>, AllocError> {
    let mut behaviours = Vec::new(alloc);
    for script in VALVE_SCRIPTS {
        behaviours.push(scripted(alloc, *script)?)?;
    }
    Ok(behaviours)
}

/// Whether a sink with room for these steps of the valve's run has taken them when it fails.
fn fails_after(alloc: Global, plan: &Plan, steps: &[Step]) -> Result<bool, AllocError> {
    let behaviours = valve_behaviours(alloc)?;
    let mut sink = Failing {
        taken: Vec::new(alloc),
        room: steps.len(),
        failed: false,
    };
    let end = simulate_over(alloc, plan, behaviours, 4000, &mut sink);
    let has_failed = matches!(end, Err(SimFault::Sink)) && sink.failed();
    Ok(has_failed && sink.taken.as_slice() == steps)
}

#[test]
fn a_sink_fails_at_each_step(rt: HostRuntime) -> Result<(), Fail> {
    let plan = plan_of(rt.alloc(), VALVE)?;
    for room in 0..VALVE_STEPS.len() {
        let has_failed = fails_after(rt.alloc(), &plan, &VALVE_STEPS[..room])?;
        assert!(rt; has_failed, "at {room}");
    }
    Ok(())
}

/// The trace of the valve's steps.
fn valve_trace(alloc: Global) -> Result<Vec<u8>, AllocError> {
    let steps = Vec::from_slice(alloc, VALVE_STEPS)?;
    write_trace(alloc, &Trace { until: 4000, steps })
}

/// The valve's run into a trace's sink.
fn run_into(alloc: Global, plan: &Plan, sink: &mut TraceSink<Vec<u8>>) -> Result<(), SimFault> {
    if sink.failed() {
        return Err(SimFault::Sink);
    }
    simulate_over(alloc, plan, valve_behaviours(alloc)?, 4000, sink)
}

/// What a trace's sink wrote of the valve's run, if it could.
fn written_trace(alloc: Global) -> Result<Option<Vec<u8>>, Fail> {
    let plan = plan_of(alloc, VALVE)?;
    let mut sink = TraceSink::new(Vec::new(alloc));
    run_into(alloc, &plan, &mut sink)?;
    Ok(sink.finish(4000))
}

/// Whether a trace's sink wrote the trace of the valve's steps.
fn is_written(alloc: Global) -> Result<bool, Fail> {
    match written_trace(alloc)? {
        Some(text) => Ok(text.as_slice() == valve_trace(alloc)?.as_slice()),
        None => Ok(false),
    }
}

#[test]
fn a_trace_is_written_as_it_goes(rt: HostRuntime) -> Result<(), Fail> {
    assert!(rt; is_written(rt.alloc())?);
    Ok(())
}
