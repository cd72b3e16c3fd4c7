//! Why an order is not carried out.

ghost use Rattle.std.specs.Prelude.{◌≡◌};
ghost use Rattle.cop_engine.specs.Faults.{status_of, fault_of, fault_of_refusals, fault_of_trace};
ghost use Rattle.cop_engine.specs.declared.faults.Fault.TheVariants.{Refused, Memory};
ghost use Rattle.cop_rta.specs.declared.tables.TableFault.TheVariants as table;

use cop_bus::BusFault;
use cop_cert::CertFault;
use cop_net::{PlanFault, Refusal};
use std::alloc::{AllocError, AllocFailed};
use thiserror::Error;

/// Why an order is not carried out.
#[derive(Debug, Drop, Error)]
pub enum Fault {
    /// The first rule that a network breaks, and where.
    #[error("refused {} {}", .0.rule.number(), .0.place)]
    Network(Refusal),
    /// A rule that another input breaks, by its number, and the place there.
    #[error("refused {number} {place}")]
    Refused { number: u8, place: u64 },
    /// The simulation of a run is given up: too many instances of a fixed frame wait.
    #[error("simulation refused")]
    Simulation,
    #[error("file {0}")]
    File(String),
    #[error("usage")]
    Usage,
    #[error("memory")]
    Memory,
}

impl From<AllocError> for Fault {
    ghost from_gives = { λ _ fault. fault ≡ Memory };

    fn from(_error: AllocError) -> Fault {
        Fault::Memory
    }
}

impl<T: Drop> From<AllocFailed<T>> for Fault {
    ghost from_gives = { λ _ fault. fault ≡ Memory };

    fn from(_error: AllocFailed<T>) -> Fault {
        Fault::Memory
    }
}

impl From<PlanFault> for Fault {
    ghost from_gives = { λ fault result. result ≡ fault_of fault };

    fn from(fault: PlanFault) -> Fault {
        match fault {
            PlanFault::Refused(refusal) => Fault::Network(refusal),
            PlanFault::Memory => Fault::Memory,
        }
    }
}

impl From<CertFault> for Fault {
    ghost from_gives = { λ fault result. result ≡ fault_of_refusals fault };

    fn from(fault: CertFault) -> Fault {
        match fault {
            CertFault::Refused(breach) => Fault::Refused {
                number: breach.rule.number(),
                place: breach.place,
            },
            CertFault::Memory => Fault::Memory,
        }
    }
}

impl From<BusFault> for Fault {
    ghost from_gives = { λ fault result. result ≡ fault_of_trace fault };

    fn from(fault: BusFault) -> Fault {
        match fault {
            BusFault::Refused { place, number } => Fault::Refused {
                number,
                place: place as u64,
            },
            BusFault::Memory => Fault::Memory,
        }
    }
}

/// The program's status after a fault.
pub fn status(fault: &Fault) -> u8
    ensures { result ≡ status_of fault.now }
{
    match fault {
        Fault::Network(_) | Fault::Refused { .. } => 3,
        Fault::Simulation => 3,
        Fault::File(_) => 5,
        Fault::Usage => 2,
        Fault::Memory => 6,
    }
}
