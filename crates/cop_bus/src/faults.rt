//! Why a trace is refused.

ghost use Rattle.std.specs.Prelude.{◌≡◌};
ghost use Rattle.cop_bus.specs.declared.faults.BusFault.TheVariants.{Memory};

use std::alloc::AllocError;
use thiserror::Error;

/// Why a trace is refused.
#[derive(Clone, Copy, PartialEq, Eq, Debug, Drop, Error)]
pub enum BusFault {
    /// The first step, from 1, that breaks a rule, and the least number of a rule that it breaks. The end
    /// counts as a step. Of a text, the record from 1 that is none of a trace, or 0 for the header, by number 69.
    #[error("rule {number} is broken at {place}")]
    Refused { place: usize, number: u8 },
    #[error("out of memory")]
    Memory,
}

impl From<AllocError> for BusFault {
    ghost from_gives = { λ _ fault. fault ≡ Memory };

    fn from(_error: AllocError) -> BusFault {
        BusFault::Memory
    }
}
