//! Why a table is not read.

ghost use Rattle.std.specs.Prelude.{◌≡◌};
ghost use Rattle.cop_rows.specs.declared.refusals.RowFault.TheVariants.{Memory};
ghost use Rattle.cop_rows.specs.declared.refusals.RecordFault.TheVariants as records;
ghost use Rattle.cop_rows.specs.Refusals.{number_of_rule, fault_at};

use std::alloc::{AllocError, AllocFailed};
use thiserror::Error;

/// A column of a table, by the name in its header.
#[derive(Clone, Copy, PartialEq, Eq, Debug)]
pub enum Column {
    Row,
    Node,
    Name,
    Eds,
    Tpdo,
    Period,
    Jitter,
    Deadline,
    Consumers,
    Object,
    Value,
}

/// The rule that a table breaks.
#[derive(Clone, Copy, PartialEq, Eq, Debug)]
pub enum Rule {
    /// The header is another one, or there is none.
    Header,
    /// The record has another number of fields.
    Fields,
    /// A number, a range, a word or a name in this column.
    Value(Column),
    /// An earlier record has the same word and node.
    RowRepeated,
    /// The row's node has no device row; at place 0: there is no device row at all.
    NoDevice,
    /// An earlier record names the same PDO.
    PdoRepeated,
    /// There are more than 512 PDOs.
    Full,
    /// The value of an object is asked that the plan sets, or that says what a device sends and hears.
    NotSettable,
}

impl Rule {
    /// The number by which the refusal is known.
    pub fn number(self) -> u8
        ensures { result ≡ number_of_rule self }
    {
        match self {
            Rule::Header | Rule::Fields => 40,
            Rule::Value(_) => 41,
            Rule::RowRepeated | Rule::NoDevice => 42,
            Rule::PdoRepeated => 44,
            Rule::Full => 49,
            Rule::NotSettable => 57,
        }
    }
}

/// A rule that is broken, and the record, from 1 on: 0 for the header and where no device row is there.
#[derive(Clone, Copy, PartialEq, Eq, Debug)]
pub struct Refusal {
    pub rule: Rule,
    pub place: u64,
}

/// Why a table is not read.
#[derive(Debug, Drop, Error)]
pub enum RowFault {
    #[error("refused at record {}", .0.place)]
    Refused(Refusal),
    #[error("out of memory")]
    Memory,
}

impl From<AllocError> for RowFault {
    ghost from_gives = { λ _ fault. fault ≡ Memory };

    fn from(_error: AllocError) -> RowFault {
        RowFault::Memory
    }
}

/// Why a record is not read.
#[derive(Clone, Copy, Drop)]
pub(crate) enum RecordFault {
    Broken(Rule),
    Memory,
}

impl From<AllocError> for RecordFault {
    ghost from_gives = { λ _ fault. fault ≡ records.Memory };

    fn from(_error: AllocError) -> RecordFault {
        RecordFault::Memory
    }
}

impl<T: Drop> From<AllocFailed<T>> for RecordFault {
    ghost from_gives = { λ _ fault. fault ≡ records.Memory };

    fn from(_error: AllocFailed<T>) -> RecordFault {
        RecordFault::Memory
    }
}

impl From<Rule> for RecordFault {
    ghost from_gives = { λ rule fault. fault ≡ records.Broken rule };

    fn from(rule: Rule) -> RecordFault {
        RecordFault::Broken(rule)
    }
}

impl RecordFault {
    /// The fault with its record.
    pub(crate) fn at(self, place: u64) -> RowFault
        ensures { result ≡ fault_at place self }
    {
        match self {
            RecordFault::Broken(rule) => RowFault::Refused(Refusal { rule, place }),
            RecordFault::Memory => RowFault::Memory,
        }
    }
}
