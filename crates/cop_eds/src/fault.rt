//! Why a text is refused.

ghost use Rattle.std.specs.Prelude.{◌≡◌};
ghost use Rattle.cop_eds.specs.Rules.{number_of};
ghost use Rattle.cop_eds.specs.declared.fault.EdsFault.TheVariants.{Memory, Refused};

use std::alloc::{AllocError, AllocFailed};
use thiserror::Error;

/// The rule that a text breaks.
#[derive(Clone, Copy, Debug, PartialEq, Eq)]
pub enum Rule {
    /// A line is no comment, header or pair, or a pair outside of any section.
    Line,
    /// Two sections have one name.
    SectionRepeated,
    /// Two keys of a section are equal.
    KeyRepeated,
    /// A number is expected, of at most 64 bits.
    Number,
    /// A decimal number that would read otherwise as octal.
    AmbiguousNumber,
    /// A list names an object that has no section.
    ObjectMissing,
    /// The type of an object is not known.
    UnknownType,
    /// The compact form of an object.
    CompactForm,
    /// The text is larger than 4 MiB.
    TooLarge,
}

impl Rule {
    /// The number of the refusal, 10 to 18.
    pub fn number(self) -> u8
        ensures { result ≡ number_of self }
    {
        match self {
            Rule::Line => 10,
            Rule::SectionRepeated => 11,
            Rule::KeyRepeated => 12,
            Rule::Number => 13,
            Rule::AmbiguousNumber => 14,
            Rule::ObjectMissing => 15,
            Rule::UnknownType => 16,
            Rule::CompactForm => 17,
            Rule::TooLarge => 18,
        }
    }
}

/// A rule that is broken, and the number of the line, from 1: 0 where there is none.
#[derive(Clone, Copy, Debug, PartialEq, Eq)]
pub struct Refusal {
    pub rule: Rule,
    pub line: usize,
}

/// The refusal where the object that a line names is missing.
pub fn missing(line: usize) -> Refusal
    ensures { result ≡ record { rule = Rule.ObjectMissing; line = line } }
{
    Refusal {
        rule: Rule::ObjectMissing,
        line,
    }
}

/// Why a text is not read.
#[derive(Debug, Drop, Error)]
pub enum EdsFault {
    /// The text breaks a rule.
    #[error("refused at line {}", .0.line)]
    Refused(Refusal),
    /// Out of memory.
    #[error("out of memory")]
    Memory,
}

impl From<AllocError> for EdsFault {
    ghost from_gives = { λ _ e. e ≡ Memory };

    fn from(_e: AllocError) -> EdsFault {
        EdsFault::Memory
    }
}

impl<T: Drop> From<AllocFailed<T>> for EdsFault {
    ghost from_gives = { λ _ e. e ≡ Memory };

    fn from(_e: AllocFailed<T>) -> EdsFault {
        EdsFault::Memory
    }
}

impl From<Refusal> for EdsFault {
    ghost from_gives = { λ refusal e. e ≡ Refused refusal };

    fn from(refusal: Refusal) -> EdsFault {
        EdsFault::Refused(refusal)
    }
}
