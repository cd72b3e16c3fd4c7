//! Why a line of a log is refused.

ghost use Rattle.std.specs.Prelude.{◌≡◌};

use thiserror::Error;

/// What is wrong with a line.
#[derive(Clone, Copy, PartialEq, Eq, Debug, Drop, Error)]
pub enum LineFault {
    #[error("the line has not the words of its form")]
    Form,
    #[error("the stamp is none of its form")]
    Stamp,
    #[error("the identifier is none of 11 or 29 bits")]
    Identifier,
    #[error("the data are not up to 8 bytes, as many as the length says")]
    Data,
    #[error("the line is longer than 4096 bytes")]
    Long,
    #[error("the distance is not below an hour, or the first one is not 0")]
    Distance,
}

impl LineFault {
    ghost use Rattle.cop_lines.specs.Faults.{number_of_fault};

    /// The number by which it is known.
    pub fn number(self) -> u8
        ensures { result ≡ number_of_fault self }
    {
        match self {
            LineFault::Form => 90,
            LineFault::Stamp => 91,
            LineFault::Identifier => 92,
            LineFault::Data => 93,
            LineFault::Long => 95,
            LineFault::Distance => 96,
        }
    }
}
