//! Runs whose streams are offered at a steady pace, up to one of a hundred streams and a hundred thousand steps.

ghost use Rattle.std.specs.Prelude.{◌≤◌, ◌<◌};

use crate::simulator::{LONG, Table, fault_in, plan_for, plan_of};
use cop_bus::{Step, Trace};
use cop_frame::Rate;
use cop_plan::Plan;
use cop_rta::{SetFault, Stream, StreamSet};
use cop_sim::{Behaviour, Offer, Scripted, SimFault, Steps, simulate, simulate_over};
use std::alloc::{AllocError, Global};
use std::collections::VecDeque;
use std::test::Fail;

/// How many instances of a stream are offered, one each so many ticks from 0 on.
#[derive(Clone, Copy)]
struct Pace {
    ticks: u64,
    count: u64,
}

/// The offers of a pace, frames of 8 bytes.
fn offers_at(alloc: Global, pace: &Pace) -> Result<VecDeque<Offer>, AllocError> {
    let mut offers = VecDeque::new(alloc);
    for number in 0..pace.count {
        offers.push_back(Offer {
            event: number.saturating_mul(pace.ticks),
            delay: 0,
            frame: LONG,
        })?;
    }
    Ok(offers)
}

/// A behaviour that offers at a pace, and joins no start.
fn steady(alloc: Global, pace: &Pace) -> Result<Scripted, AllocError> {
    Ok(Scripted {
        offers: offers_at(alloc, pace)?,
        yes: Vec::new(alloc),
    })
}

/// The behaviours at paces.
fn steady_each(alloc: Global, paces: &[Pace]) -> Result<Vec<Scripted>, AllocError> {
    let mut behaviours = Vec::new(alloc);
    for pace in paces {
        behaviours.push(steady(alloc, pace)?)?;
    }
    Ok(behaviours)
}

/// The fault of a run at paces to this moment whose steps go into a sink, if there is one.
fn fault_into(
    alloc: Global,
    plan: &Plan,
    paces: &[Pace],
    until: u64,
) -> Result<Option<SimFault>, AllocError>
    requires { until ≤ 4000000000 }
{
    let behaviours = steady_each(alloc, paces)?;
    let mut steps = Steps::new(alloc);
    fault_in(simulate_over(alloc, plan, behaviours, until, &mut steps))
}

/// The same behaviours, each in a box.
fn boxed(alloc: Global, paces: &[Pace]) -> Result<Vec<Box<dyn Behaviour>>, AllocError> {
    let mut behaviours = Vec::new(alloc);
    for pace in paces {
        let one: Box<dyn Behaviour> = Box::new(alloc, steady(alloc, pace)?)?;
        behaviours.push(one)?;
    }
    Ok(behaviours)
}

/// What the simulator answers to paces.
fn simulated(alloc: Global, plan: &Plan, paces: &[Pace], until: u64) -> Result<Trace, SimFault>
    requires { until ≤ 4000000000 }
{
    simulate(alloc, plan, boxed(alloc, paces)?, until)
}

/// The fault of a run at paces to this moment whose steps are kept, if there is one.
fn fault_kept(
    alloc: Global,
    plan: &Plan,
    paces: &[Pace],
    until: u64,
) -> Result<Option<SimFault>, AllocError>
    requires { until ≤ 4000000000 }
{
    fault_in(simulated(alloc, plan, paces, until))
}

/// A PDO, and a frame of lower priority that is queued every 400 ticks and takes 540.
const HURRIED: Table = (
    b"id,bytes,period,jitter,deadline\n0x181,8,10000,0,1000\n0x705,8,100,0,\n",
    1,
    &[Rate::Kbit1000],
);

/// No instances of the PDO, and 300 of the hurried frame.
const HURRIED_PACES: &[Pace] = &[
    Pace {
        ticks: 40_000,
        count: 0,
    },
    Pace {
        ticks: 400,
        count: 300,
    },
];

/// The faults of the run with the hurried frame to this moment: where its steps go into a sink, and where they are kept.
fn hurried_to(alloc: Global, until: u64) -> Result<[Option<SimFault>; 2], Fail>
    requires { until ≤ 4000000000 }
{
    let plan = plan_of(alloc, HURRIED)?;
    let into = fault_into(alloc, &plan, HURRIED_PACES, until)?;
    let kept = fault_kept(alloc, &plan, HURRIED_PACES, until)?;
    Ok([into, kept])
}

/// Whether too many instances of the hurried frame wait.
fn is_backlog(fault: Option<SimFault>) -> bool {
    matches!(fault, Some(SimFault::Backlog { id: 0x705 }))
}

// When instance 247, counted from 0, is queued at 98,800 ticks, 183 have started: 65 wait.
#[test]
fn more_than_64_instances_wait(rt: HostRuntime) -> Result<(), Fail> {
    let [into, kept] = hurried_to(rt.alloc(), 98_799)?;
    assert!(rt; into.is_none() && kept.is_none());
    let [into, kept] = hurried_to(rt.alloc(), 98_800)?;
    assert!(rt; is_backlog(into) && is_backlog(kept));
    Ok(())
}

/// 334 instances, one each second.
const SECONDS: Pace = Pace {
    ticks: 4_000_000,
    count: 334,
};

/// A frame of 8 bytes that is sent once a second, within a second.
fn each_second(id: u16) -> Stream
    requires { id < 2048 }
{
    Stream {
        id,
        bytes: 8,
        period: 4_000_000,
        jitter: 0,
        deadline: Some(4_000_000),
        every: 0,
    }
}

/// 99 PDOs and an SDO frame, each sent once a second.
fn hundred(alloc: Global) -> Result<StreamSet, SetFault> {
    let mut set = StreamSet::new(alloc);
    for id in 0x181..0x1E4u16 {
        set.push(each_second(id))?;
    }
    set.push(each_second(0x585))?;
    Ok(set)
}

/// Their run.
fn hundred_run(alloc: Global) -> Result<Trace, Fail> {
    let set = hundred(alloc)?;
    let plan = plan_for(alloc, &set, 99, &[Rate::Kbit1000])?;
    Ok(simulated(alloc, &plan, &[SECONDS; 100], 334 * 4_000_000)?)
}

// All instances of a second are queued at its begin, and each takes 540 ticks: the last is the SDO frame's.
#[test]
fn a_hundred_streams_and_a_hundred_thousand_steps(rt: HostRuntime) -> Result<(), Fail> {
    let trace = hundred_run(rt.alloc())?;
    let last = Step::End {
        at: 333 * 4_000_000 + 54_000,
        id: 0x585,
    };
    assert!(rt; trace.steps.len() == 100_200 && trace.steps.last() == Some(&last));
    Ok(())
}
