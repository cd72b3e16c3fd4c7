//! Behaviours that say what they were told to.

ghost use Rattle.cop_sim.specs.Scripts.{offer_of, joins_of};

use crate::behaviours::{Behaviour, Offer};
use std::collections::VecDeque;

/// A behaviour that makes these offers in order and then none, and joins the starts at these moments.
#[derive(Drop)]
pub struct Scripted {
    pub offers: VecDeque<Offer>,
    pub yes: Vec<u64>,
}

impl Behaviour for Scripted {
    ghost offer = { offer_of };

    ghost agrees = { λ s z u. joins_of s z };

    fn next(&mut self) -> Option<Offer> {
        self.offers.pop_front()
    }

    fn joins(&self, start: u64, _queued: u64) -> bool {
        self.yes.contains(&start)
    }
}
