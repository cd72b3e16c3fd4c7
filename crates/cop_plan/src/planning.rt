//! The plan of a network.

ghost use Rattle.std.specs.Prelude.{IfOk, length};
ghost use Rattle.cop_plan.specs.Plans.{IsOutcome, IsChosenBy};

use crate::assigning::{Outcome, assign};
use crate::choices::Choice;
use crate::filling::Count;
use crate::margins::assign_with_margin;
use cop_net::Network;
use std::alloc::{AllocError, Global};

#[tactic(auto, using(crate::proofs::NetworkLemmas::can_assign_network, crate::proofs::NetworkLemmas::outcome_same))]
/// The plan of a network: the slowest rate that all devices support at which some assignment of identifiers passes, or a
/// refusal for each rate. The identifiers are those of the order of plans, or those that keep the greatest margin. `Err` is want of
/// memory.
pub fn plan(alloc: Global, network: &Network<'_>, choice: Choice) -> Result<Outcome, AllocError>
    ensures outcome { IfOk result (IsOutcome network.now.equipment.rates network.now.set (length network.now.rows)) }
    ensures choice { IfOk result (IsChosenBy choice) }
{
    let rates = network.rates();
    let mut count = Count { trials: 0, busy: 0 };
    match choice {
        Choice::Order => assign(alloc, network.set(), network.pdos(), &rates, &mut count),
        Choice::Margin => {
            assign_with_margin(alloc, network.set(), network.pdos(), &rates, &mut count)
        }
    }
}
