//! The numbers of a report.

ghost use Rattle.std.specs.Prelude.{ℕ, ◌<◌, IfOk, length};
ghost use Rattle.cop_cert.specs.Assignments.{id_at};
ghost use Rattle.cop_plan.specs.Plans.{IsOutcome};
ghost use Rattle.cop_plan.specs.Values.{HaveIds, id_of};
ghost use Rattle.cop_figures.specs.Figures.{AreTimes, AreFigures};
ghost use Rattle.cop_figures.specs.Frames.{AreFrames};

use crate::frames::{FrameTimes, SyncTimes, frames_of, sync_of};
use crate::loads::{Load, loads_of};
use crate::refused::{RefusedRate, all_refused};
use crate::times::{PdoTimes, times_of};
use cop_frame::Rate;
use cop_net::Network;
use cop_plan::{Outcome, Plan};
use cop_rta::{StreamSet, verdicts_by_id};
use std::alloc::{AllocError, Global};

/// The numbers of a report.
pub struct Figures {
    /// The planned rate, if some rate passes.
    pub rate: Option<Rate>,
    /// SYNC, where it is sent and its busy time is within the horizon; none where no rate passes.
    pub sync: Option<SyncTimes>,
    /// The PDOs by rising identifier; none where no rate passes.
    pub pdos: Vec<PdoTimes>,
    /// The SDO frames that have a deadline, in the order of the network's streams; none where no rate passes.
    pub frames: Vec<FrameTimes>,
    /// The load at each rate that all devices support, the slowest first.
    pub loads: Vec<Load>,
    /// The refused rates, the slowest first.
    pub refused: Vec<RefusedRate>,
}

/// One call on each way out is cheaper to prove than the fields one by one.
impl Drop for Figures {
    fn drop(self) {
        let Figures {
            rate: _rate,
            sync: _sync,
            pdos: _pdos,
            frames: _frames,
            loads: _loads,
            refused: _refused,
        } = self;
    }
}

/// The times of the PDOs of a plan, and those of its SDO frames with deadlines. In the set the PDOs have provisional identifiers.
fn times_under(
    alloc: Global,
    set: &StreamSet,
    plan: &Plan,
) -> Result<(Vec<PdoTimes>, Vec<FrameTimes>), AllocError>
    requires renamed { HaveIds set.now (length plan.now.ids) (id_of plan.now.ids) plan.now.streams }
    requires provisional { (k : ℕ) → k < length plan.now.ids → id_at set.now k < 0x581 }
    ensures pdos { IfOk result (λ times. AreTimes plan.now times.0.items) }
    ensures frames { IfOk result (λ times. AreFrames set.now plan.now times.1.items) }
{
    let verdicts = verdicts_by_id(alloc, plan.streams(), plan.rate())?;
    let pdos = times_of(alloc, plan, &verdicts)?;
    let frames = frames_of(alloc, set, plan, &verdicts)?;
    Ok((pdos, frames))
}

/// The numbers of what a planner answers for a network. `Err` is want of memory.
pub fn figures_of(
    alloc: Global,
    network: &Network<'_>,
    outcome: &Outcome,
) -> Result<Figures, AllocError>
    requires { IsOutcome network.now.equipment.rates network.now.set (length network.now.rows) outcome.now }
    ensures { IfOk result (AreFigures network.now outcome.now) }
{
    let loads = loads_of(alloc, network)?;
    let set = network.set();
    // No two streams have one identifier: that is what names an SDO frame.
    let _ = set.streams();
    let count = network.pdos();
    match outcome {
        Outcome::Planned(plan) => {
            let (pdos, frames) = times_under(alloc, set, plan)?;
            Ok(Figures {
                rate: Some(plan.rate()),
                sync: sync_of(plan),
                pdos,
                frames,
                loads,
                refused: all_refused(alloc, set, count, plan.refusals())?,
            })
        }
        Outcome::Refused(refusals) => Ok(Figures {
            rate: None,
            sync: None,
            pdos: Vec::new(alloc),
            frames: Vec::new(alloc),
            loads,
            refused: all_refused(alloc, set, count, refusals.as_slice())?,
        }),
    }
}
