//! Plans as the bus has them.

use cop_plan::{Outcome, Plan};
use std::alloc::{AllocError, Global};

/// A plan on the bus alone: its streams are frames, and NMT has its own identifier. A plan that counts disturbed transfers has these as one more
/// stream, and NMT counts as 001h there.
#[derive(Drop)]
pub enum BusPlan<'a> {
    /// The plan counts none.
    Same(&'a Plan),
    /// The plan without them. It has no refusals.
    Without(Plan),
}

impl<'a> BusPlan<'a> {
    /// A plan on the bus alone.
    pub fn of(alloc: Global, plan: &'a Plan) -> Result<BusPlan<'a>, AllocError> {
        if plan.streams().errors().is_none() {
            return Ok(BusPlan::Same(plan));
        }
        Ok(BusPlan::Without(plan.on_bus(alloc)?))
    }

    /// The plan.
    pub fn plan(&self) -> &Plan {
        match self {
            BusPlan::Same(plan) => plan,
            BusPlan::Without(plan) => plan,
        }
    }
}

/// The plan of a network on the bus alone, where a rate passes.
pub fn bus_plan_of(alloc: Global, outcome: &Outcome) -> Result<Option<BusPlan<'_>>, AllocError> {
    match outcome {
        Outcome::Planned(plan) => Ok(Some(BusPlan::of(alloc, plan)?)),
        Outcome::Refused(_) => Ok(None),
    }
}
