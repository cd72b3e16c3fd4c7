//! The times of the PDOs under a plan.

ghost use Rattle.std.specs.Prelude.{◌≡◌, ◌<◌, ℕ, IfOk, length, get_or};
ghost use Rattle.cop_rta.specs.declared.verdicts.Verdict.TheVariants.{Long};
ghost use Rattle.cop_rta.specs.Test.{place_by_id};
ghost use Rattle.cop_rta.specs.Verdict.{IsJudged};
ghost use Rattle.cop_figures.specs.Figures.{left_of, IsTimed, AreTimes};

use cop_plan::Plan;
use cop_rta::{Stream, Verdict, response_of};
use std::alloc::{AllocError, Global};

/// A PDO under a plan. Times are in ticks of 250 ns.
#[derive(Clone, Copy, PartialEq, Eq, Debug)]
pub struct PdoTimes {
    /// Its number: the place of its row in the table of PDOs, from 0 on.
    pub pdo: usize,
    /// Its stream, under the identifier of the plan. The jitter of a synchronous one is its latency after SYNC's transfer.
    pub stream: Stream,
    /// Its greatest response: from the event, which for a synchronous PDO is SYNC's, to the end of the transfer.
    pub response: u64,
}

impl PdoTimes {
    /// What is left between the greatest response and the deadline, in ticks of 250 ns.
    pub fn left(&self) -> u64
        ensures { result ≡ left_of self.now.stream.deadline self.now.response }
    {
        self.stream
            .deadline
            .unwrap_or(0)
            .saturating_sub(self.response)
    }
}

/// A PDO of a plan, whose streams have these verdicts.
fn time_of(plan: &Plan, verdicts: &[Verdict], pdo: usize) -> PdoTimes
    requires pdo { pdo < length plan.now.ids }
    requires verdicts { length verdicts.now ≡ length plan.now.streams }
    requires judged { IsJudged (place_by_id plan.now.streams pdo plan.now.rate) (get_or verdicts.now pdo Long) }
    ensures pdo { result.pdo ≡ pdo }
    ensures timed { IsTimed plan.now result }
{
    let streams = plan.streams().streams();
    PdoTimes {
        pdo,
        stream: streams[pdo],
        response: response_of(verdicts[pdo]),
    }
}

/// The times of the PDOs of a plan whose streams have these verdicts, that with the lowest identifier first.
pub(crate) fn times_of(
    alloc: Global,
    plan: &Plan,
    verdicts: &[Verdict],
) -> Result<Vec<PdoTimes>, AllocError>
    requires verdicts { length verdicts.now ≡ length plan.now.streams }
    requires judged { (k : ℕ) → k < length plan.now.streams → IsJudged (place_by_id plan.now.streams k plan.now.rate) (get_or verdicts.now k Long) }
    ensures { IfOk result (λ times. AreTimes plan.now times.items) }
{
    let order = plan.order();
    let mut times = Vec::new(alloc);
    for pdo in order {
        times.push(time_of(plan, verdicts, *pdo))?;
    }
    Ok(times)
}
