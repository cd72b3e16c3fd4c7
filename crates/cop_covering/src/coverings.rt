//! Whether refusals are of each rate that a plan refuses.

ghost use Rattle.std.specs.Prelude.{◌↔◌, IfOk, IsTrue};
ghost use Rattle.cop_covering.specs.Coverings.{IsCovered, AreCovered, CoversOutcome, CoversNetwork};

use cop_cert::Refusal;
use cop_frame::Rate;
use cop_net::Network;
use cop_plan::{Choice, Outcome, plan};
use std::alloc::{AllocError, Global};

/// Whether some refusal is of a rate.
#[tactic(auto, unfolding(crate::specs::Coverings::IsCovered))]
fn is_covered(refusals: &[Refusal], rate: Rate) -> bool
    ensures { IsTrue result ↔ IsCovered refusals.now rate }
{
    refusals.iter().any(|refusal| refusal.rate == rate)
}

/// Whether some refusal is of the rate of each that is wanted.
#[tactic(auto, unfolding(crate::specs::Coverings::AreCovered))]
fn are_covered(refusals: &[Refusal], wanted: &[Refusal]) -> bool
    ensures { IsTrue result ↔ AreCovered refusals.now wanted.now }
{
    wanted
        .iter()
        .all(|refusal| is_covered(refusals, refusal.rate))
}

/// Whether some refusal is of each rate that a planner refuses.
fn covers(refusals: &[Refusal], outcome: &Outcome) -> bool
    ensures { IsTrue result ↔ CoversOutcome refusals.now outcome.now }
{
    match outcome {
        Outcome::Planned(plan) => are_covered(refusals, plan.refusals()),
        Outcome::Refused(wanted) => are_covered(refusals, wanted.as_slice()),
    }
}

/// Whether some refusal is of each rate that the plan of a network refuses: of each candidate below its rate, or of each candidate where
/// no rate passes. Whether the refusals hold is another matter. `Err` is want of memory.
#[tactic(auto, using(crate::proofs::CoveringLemmas::covers_by))]
pub fn covers_slower(
    alloc: Global,
    network: &Network<'_>,
    refusals: &[Refusal],
) -> Result<bool, AllocError>
    ensures { IfOk result (CoversNetwork network.now refusals.now) }
{
    let outcome = plan(alloc, network, Choice::Order)?;
    Ok(covers(refusals, &outcome))
}
