//! Why a log is refused.

ghost use Rattle.std.specs.Prelude.{◌≡◌};
ghost use Rattle.cop_log.specs.declared.faults.LogFault.TheVariants.{Memory};

use cop_lines::LineFault;
use std::alloc::AllocError;
use thiserror::Error;

/// Why a log is refused: the first line that is wrong, from 1 on.
#[derive(Clone, Copy, PartialEq, Eq, Debug, Drop, Error)]
pub enum LogFault {
    #[error("line {number}: {fault}")]
    Line { number: u64, fault: LineFault },
    #[error("out of memory")]
    Memory,
}

impl From<AllocError> for LogFault {
    ghost from_gives = { λ _ fault. fault ≡ Memory };

    fn from(_error: AllocError) -> LogFault {
        LogFault::Memory
    }
}
