//! The times of SYNC and of the SDO frames with deadlines under a plan.

ghost use Rattle.std.specs.Prelude.{◌≡◌, ◌<◌, ℕ, IfOk, Some, length, get_or, slice_get};
ghost use Rattle.cop_rta.specs.declared.verdicts.Verdict.TheVariants.{Long};
ghost use Rattle.cop_rta.specs.Test.{place_by_id};
ghost use Rattle.cop_rta.specs.Verdict.{IsJudged, PassesBy};
ghost use Rattle.cop_cert.specs.Assignments.{id_at, IsTested};
ghost use Rattle.cop_plan.specs.Values.{HaveIds, id_of};
ghost use Rattle.cop_figures.specs.Figures.{left_of};
ghost use Rattle.cop_figures.specs.Frames.{sync_times, AreFrames};

use crate::refused::frame_of;
use cop_cert::is_tested;
use cop_frame::identifiers::SYNC;
use cop_plan::Plan;
use cop_rta::{Stream, StreamSet, Verdict, response_of, sync_response, verdicts_by_id};
use std::alloc::{AllocError, Global};

/// SYNC under a plan. Times are in ticks of 250 ns.
#[derive(Clone, Copy, PartialEq, Eq, Debug)]
pub struct SyncTimes {
    pub stream: Stream,
    /// Its greatest response: from its event to the end of its transfer. So much of the response of a synchronous PDO is SYNC's.
    pub response: u64,
}

/// An SDO frame with a deadline under a plan. Times are in ticks of 250 ns.
#[derive(Clone, Copy, PartialEq, Eq, Debug)]
pub struct FrameTimes {
    /// Its place among the network's streams.
    pub place: usize,
    pub stream: Stream,
    /// Its greatest response: from its event to the end of its transfer.
    pub response: u64,
    /// What the response-time test says of it where all PDOs are above it. Where it fails there, the PDOs that can wait have
    /// identifiers below it.
    pub below_all: Verdict,
}

impl FrameTimes {
    /// What is left between the greatest response and the deadline, in ticks of 250 ns.
    pub fn left(&self) -> u64
        ensures { result ≡ left_of self.now.stream.deadline self.now.response }
    {
        self.stream
            .deadline
            .unwrap_or(0)
            .saturating_sub(self.response)
    }
}

/// SYNC under a plan, where it is sent and its busy time is within the horizon.
pub(crate) fn sync_of(plan: &Plan) -> Option<SyncTimes>
    ensures { result ≡ sync_times plan.now }
{
    let set = plan.streams();
    let stream = frame_of(set, SYNC)?;
    let response = sync_response(set, plan.rate())?;
    Some(SyncTimes { stream, response })
}

/// An SDO frame of a plan, of which the test says this, and where all PDOs are above it that.
fn frame_time(plan: &Plan, frame: usize, verdict: Verdict, below_all: Verdict) -> FrameTimes
    requires tested { IsTested plan.now.streams (length plan.now.ids) frame }
    requires judged { IsJudged (place_by_id plan.now.streams frame plan.now.rate) verdict }
    ensures place { result.place ≡ frame }
    ensures stream { slice_get plan.now.streams frame ≡ Some result.stream }
    ensures response { PassesBy (place_by_id plan.now.streams frame plan.now.rate) result.response }
    ensures below_all { result.below_all ≡ below_all }
{
    let streams = plan.streams().streams();
    FrameTimes {
        place: frame,
        stream: streams[frame],
        response: response_of(verdict),
        below_all,
    }
}

/// The times of the SDO frames with deadlines under a plan whose streams have these verdicts, in the order of the streams. In the
/// set the PDOs have provisional identifiers, which are above them.
pub(crate) fn frames_of(
    alloc: Global,
    set: &StreamSet,
    plan: &Plan,
    verdicts: &[Verdict],
) -> Result<Vec<FrameTimes>, AllocError>
    requires renamed { HaveIds set.now (length plan.now.ids) (id_of plan.now.ids) plan.now.streams }
    requires provisional { (k : ℕ) → k < length plan.now.ids → id_at set.now k < 0x581 }
    requires verdicts { length verdicts.now ≡ length plan.now.streams }
    requires judged { (k : ℕ) → k < length plan.now.streams → IsJudged (place_by_id plan.now.streams k plan.now.rate) (get_or verdicts.now k Long) }
    ensures { IfOk result (λ frames. AreFrames set.now plan.now frames.items) }
{
    let below_all = verdicts_by_id(alloc, set, plan.rate())?;
    let streams = plan.streams().streams();
    let pdos = plan.ids().len();
    let mut frames = Vec::new(alloc);
    for frame in pdos..streams.len() {
        if is_tested(streams, pdos, frame) {
            frames.push(frame_time(plan, frame, verdicts[frame], below_all[frame]))?;
        }
    }
    Ok(frames)
}
