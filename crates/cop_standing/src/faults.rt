//! Why a network cannot be tested as it stands.

ghost use Rattle.std.specs.Prelude.{◌≡◌};
ghost use Rattle.cop_standing.specs.declared.faults.StandingFault.TheVariants.{Memory};

use std::alloc::{AllocError, AllocFailed};
use thiserror::Error;

/// Why a network cannot be tested as it stands: the first row, from 0 on, whose PDO cannot keep its identifier.
#[derive(Clone, Copy, PartialEq, Eq, Debug, Drop, Error)]
pub enum StandingFault {
    /// The identifier that the device has for it is none that a PDO may have.
    #[error("row {row} has identifier {id}, which no PDO may have")]
    Outside { row: usize, id: u32 },
    /// An earlier row has the same one.
    #[error("row {row} has the identifier of row {earlier}")]
    Taken { row: usize, earlier: usize },
    #[error("out of memory")]
    Memory,
}

impl From<AllocError> for StandingFault {
    ghost from_gives = { λ _ fault. fault ≡ Memory };

    fn from(_error: AllocError) -> StandingFault {
        StandingFault::Memory
    }
}

impl<T: Drop> From<AllocFailed<T>> for StandingFault {
    ghost from_gives = { λ _ fault. fault ≡ Memory };

    fn from(_error: AllocFailed<T>) -> StandingFault {
        StandingFault::Memory
    }
}
