//! Why a refusal file is not read.

ghost use Rattle.std.specs.Prelude.{◌≡◌};
ghost use Rattle.cop_cert.specs.Faults.{number_of_rule};
ghost use Rattle.cop_cert.specs.declared.faults.CertFault.TheVariants.{Memory};

use std::alloc::AllocError;
use thiserror::Error;

/// The rule that a refusal file breaks.
#[derive(Clone, Copy, PartialEq, Eq, Debug)]
pub enum Rule {
    /// A record has another number of fields.
    Fields,
    /// The header or the version's record is another one, or there is none.
    Version,
    /// A field is no number, or the number, the rate or the PDO is out of its range.
    Number,
    /// A rate is lower than the one before it.
    Rates,
    /// A member's PDO number is not above the one before it.
    Members,
    /// A word stands where it may not, or a list is missing.
    Misplaced,
    /// A list has more than 200,000 numbers.
    TooLong,
}

impl Rule {
    /// The number by which the refusal is known.
    pub fn number(self) -> u8
        ensures { result ≡ number_of_rule self }
    {
        match self {
            Rule::Fields => 30,
            Rule::Version => 31,
            Rule::Number => 32,
            Rule::Rates => 33,
            Rule::Members => 34,
            Rule::Misplaced => 35,
            Rule::TooLong => 36,
        }
    }
}

/// A rule that is broken, and the record: 0 for the header.
#[derive(Clone, Copy, PartialEq, Eq, Debug)]
pub struct Breach {
    pub rule: Rule,
    pub place: u64,
}

/// Why a refusal file is not read.
#[derive(Debug, Drop, Error)]
pub enum CertFault {
    #[error("rule {} is broken at record {}", .0.rule.number(), .0.place)]
    Refused(Breach),
    #[error("out of memory")]
    Memory,
}

impl From<AllocError> for CertFault {
    ghost from_gives = { λ _ fault. fault ≡ Memory };

    fn from(_error: AllocError) -> CertFault {
        CertFault::Memory
    }
}
