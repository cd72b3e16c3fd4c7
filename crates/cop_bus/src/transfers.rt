//! The transfers of a judged trace.

ghost use Rattle.std.specs.Prelude.{◌≡◌, IfOk};
ghost use Rattle.cop_frame.specs.Rate.{ticks_of};
ghost use Rattle.cop_bus.specs.Late.{IsSent};
ghost use Rattle.cop_bus.specs.Transfers.{transfer_at, transfers_of};

use crate::lateness::start_at;
use crate::runs::Run;
use crate::steps::Step;
use std::alloc::{AllocError, Global};

/// A transfer that has ended. Moments are in ticks of 250 ns.
#[derive(Clone, Copy, PartialEq, Eq, Debug)]
pub struct Transfer {
    pub id: u16,
    /// When its instance was queued: at most a bit time after the start.
    pub queued: u64,
    pub started: u64,
    pub ended: u64,
}

/// The transfer of the instance that a step queues, by the moment at which it is sent, if it has ended by the end of the run.
fn transfer_at(ticks: u32, until: u64, step: &Step, sent: Option<u64>) -> Option<Transfer>
    ensures { result ≡ transfer_at ticks until step.now sent }
{
    let Step::Queue { at, id, frame, .. } = step else {
        return None;
    };
    let started = sent?;
    let ended = started.checked_add(u64::from(frame.bits) * u64::from(ticks))?;
    if ended > until {
        return None;
    }
    Some(Transfer {
        id: *id,
        queued: *at,
        started,
        ended,
    })
}

fn transfers_in(
    alloc: Global,
    ticks: u32,
    until: u64,
    steps: &[Step],
    links: &[usize],
) -> Result<Vec<Transfer>, AllocError>
    requires { IsSent steps.now links.now }
    ensures { IfOk result (λ transfers. transfers.items ≡ transfers_of ticks until steps.now) }
{
    let mut transfers = Vec::new(alloc);
    for i in 0..steps.len() {
        let start = start_at(steps, links[i]);
        if let Some(transfer) = transfer_at(ticks, until, &steps[i], start) {
            transfers.push(transfer)?;
        }
    }
    Ok(transfers)
}

/// The transfers of a run that have ended by its end, in the order in which their instances were queued.
pub fn transfers_of(alloc: Global, run: &Run<'_>) -> Result<Vec<Transfer>, AllocError>
    ensures { IfOk result (λ transfers. transfers.items ≡ transfers_of (ticks_of run.now.rate) run.now.trace.now.until run.now.trace.now.steps.items) }
{
    transfers_in(
        alloc,
        run.rate.ticks_per_bit(),
        run.trace.until,
        &run.trace.steps,
        &run.links,
    )
}
