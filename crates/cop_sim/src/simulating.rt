//! The simulator: the play of the behaviours that it is handed.

ghost use Rattle.std.specs.Prelude.{◌≡◌, ◌≤◌, ◌<◌, ◌^◌, List, false, length, OnOk, IfOk, IfErr};
ghost use Rattle.cop_frame.specs.Rate.{ticks_of};
ghost use Rattle.cop_bus.specs.declared.steps.Step.{Step};
ghost use Rattle.cop_sim.specs.Play.{actors_of, IsPlay, IsPartialPlay};
ghost use Rattle.cop_sim.specs.Sinks.{Took, IsCause, LeftOff};

use crate::behaviours::Behaviour;
use crate::faults::SimFault;
use crate::playing::first_stage;
use crate::sinks::{Sink, Steps};
use crate::turns::turn;
use cop_bus::Trace;
use cop_plan::Plan;
use std::alloc::Global;

/// Hands the steps of the play of the behaviours to a sink, one by one: one behaviour for each stream of the plan, in
/// their order. That of a stream that is sent by SYNC is asked for an instance when as many SYNCs have ended as it takes: the instance has
/// the event of the last of them, and its delay counts from the end of SYNC's transfer.
pub fn simulate_into<S: Sink>(
    alloc: Global,
    plan: &Plan,
    behaviours: Vec<Box<dyn Behaviour>>,
    until: u64,
    sink: &mut S,
) -> Result<(), SimFault>
    requires until { until ≤ 4000000000 }
    requires works { S.has_failed sink.old ≡ false }
    ensures count { OnOk result (length behaviours.items ≡ length plan.now.streams) }
    ensures play { OnOk result ((steps : List Step)
        × IsPlay (ticks_of plan.now.rate) (actors_of (λ b. offer b) (λ b. agrees b) plan.now.streams behaviours.items) until steps
        × Took S.takes sink.old steps sink.new × (length steps < 2 ^ 64)) }
    ensures works { OnOk result (S.has_failed sink.new ≡ false) }
    ensures cause { IfErr result (λ fault. IsCause plan.now (actors_of (λ b. offer b) (λ b. agrees b) plan.now.streams behaviours.items) (length behaviours.items) until (S.has_failed sink.new) fault) }
    ensures left { IfErr result (λ fault. (steps : List Step)
        × IsPartialPlay (ticks_of plan.now.rate) (actors_of (λ b. offer b) (λ b. agrees b) plan.now.streams behaviours.items) until steps
        × LeftOff S.takes sink.old steps sink.new fault) }
{
    simulate_over(alloc, plan, behaviours, until, sink)
}

/// The same of behaviours of one type: the core that [`simulate_into`] calls with boxed ones.
pub fn simulate_over<B: Behaviour, S: Sink>(
    alloc: Global,
    plan: &Plan,
    behaviours: Vec<B>,
    until: u64,
    sink: &mut S,
) -> Result<(), SimFault>
    requires until { until ≤ 4000000000 }
    requires works { S.has_failed sink.old ≡ false }
    ensures count { OnOk result (length behaviours.items ≡ length plan.now.streams) }
    ensures play { OnOk result ((steps : List Step)
        × IsPlay (ticks_of plan.now.rate) (actors_of B.offer B.agrees plan.now.streams behaviours.items) until steps
        × Took S.takes sink.old steps sink.new × (length steps < 2 ^ 64)) }
    ensures works { OnOk result (S.has_failed sink.new ≡ false) }
    ensures cause { IfErr result (λ fault. IsCause plan.now (actors_of B.offer B.agrees plan.now.streams behaviours.items) (length behaviours.items) until (S.has_failed sink.new) fault) }
    ensures left { IfErr result (λ fault. (steps : List Step)
        × IsPartialPlay (ticks_of plan.now.rate) (actors_of B.offer B.agrees plan.now.streams behaviours.items) until steps
        × LeftOff S.takes sink.old steps sink.new fault) }
{
    let set = plan.streams();
    let streams = set.streams();
    if behaviours.len() != streams.len() {
        return Err(SimFault::Count);
    }
    let mut behaviours = behaviours;
    let mut stage = first_stage(alloc, set, &mut behaviours, until)?;
    for _turn in 0..u64::MAX {
        let goes_on = turn(plan, until, &mut behaviours, &mut stage, sink)?;
        if !goes_on {
            return Ok(());
        }
    }
    Err(SimFault::Memory)
}

/// The play of the behaviours, one for each stream of the plan, in their order.
pub fn simulate(
    alloc: Global,
    plan: &Plan,
    behaviours: Vec<Box<dyn Behaviour>>,
    until: u64,
) -> Result<Trace, SimFault>
    requires until { until ≤ 4000000000 }
    ensures count { OnOk result (length behaviours.items ≡ length plan.now.streams) }
    ensures until { IfOk result (λ trace. trace.until ≡ until) }
    ensures play { IfOk result (λ trace. IsPlay (ticks_of plan.now.rate) (actors_of (λ b. offer b) (λ b. agrees b) plan.now.streams behaviours.items) until trace.steps.items) }
    ensures cause { IfErr result (λ fault. IsCause plan.now (actors_of (λ b. offer b) (λ b. agrees b) plan.now.streams behaviours.items) (length behaviours.items) until false fault) }
{
    let mut steps = Steps::new(alloc);
    match simulate_into(alloc, plan, behaviours, until, &mut steps) {
        Ok(()) => Ok(Trace {
            until,
            steps: steps.list,
        }),
        Err(SimFault::Count) => Err(SimFault::Count),
        Err(SimFault::Disobeys { stream, instance }) => Err(SimFault::Disobeys {
            stream,
            instance,
        }),
        Err(SimFault::Backlog { id }) => Err(SimFault::Backlog { id }),
        Err(SimFault::Sink) => Err(SimFault::Memory),
        Err(SimFault::Memory) => Err(SimFault::Memory),
    }
}
