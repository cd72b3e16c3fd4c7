//! Why files make no network.

ghost use Rattle.std.specs.Prelude.{◌≡◌};
ghost use Rattle.cop_net.specs.declared.faults.PlanFault.TheVariants.{Memory};
ghost use Rattle.cop_net.specs.Faults.{number_of_rule};

use cop_dict::{Direction, MappingFault};
use cop_rows::Consumer;
use cop_setup::AskFault;
use std::alloc::{AllocError, AllocFailed};
use thiserror::Error;

/// The table in which the record stands that is refused.
#[derive(Clone, Copy, PartialEq, Eq, Debug)]
pub enum Table {
    Nodes,
    Pdos,
    Settings,
}

/// What keeps a TPDO from being sent by SYNC, or by events.
#[derive(Clone, Copy, PartialEq, Eq, Debug)]
pub enum SyncFault {
    /// It is sent by events, and its row has period 0.
    NoPeriod,
    /// It is sent by SYNC, and its row has a period.
    OwnPeriod,
    /// It is sent by SYNC, and no SYNC with a period is there.
    NoSync,
    /// So many times SYNC's period is above 60 s.
    TooRare(u8),
    /// SYNC's jitter and its latency together are above 40 s.
    TooLate,
}

/// A PDO of a device: its direction, its node, and its number from 1 to 512.
#[derive(Clone, Copy, PartialEq, Eq, Debug)]
pub struct DevicePdo {
    pub direction: Direction,
    pub node: u8,
    pub number: u16,
}

/// Why an RPDO does not take what a TPDO sends.
#[derive(Clone, Copy, PartialEq, Eq, Debug)]
pub enum ReceiveFault {
    /// Its node has no device row.
    NoDevice,
    /// Its mapping breaks this rule.
    Mapping(MappingFault),
    /// It takes a PDO already: of an earlier row, or it stands earlier in this one.
    Taken,
    /// Its layout is another than the TPDO's.
    OtherLayout,
}

/// The rule that a network breaks.
#[derive(Clone, Copy, PartialEq, Eq, Debug)]
pub enum Rule {
    /// A rule of the table itself.
    Record(cop_rows::Rule),
    /// The device's EDS file is not handed in, or the text breaks this rule.
    Eds(Option<cop_eds::Refusal>),
    /// The TPDO has no payload: its mapping breaks this rule, or the node has no device row.
    Transmit(Option<MappingFault>),
    /// The COB-ID of this PDO can't be given each identifier.
    CobId(DevicePdo),
    /// The transmission type of the TPDO is absent, or none of 1 to 240, 254 and 255.
    Transmission,
    /// The row of the TPDO and SYNC do not go with its transmission type.
    Synchrony(SyncFault),
    /// The RPDO of this consumer does not take what the TPDO sends.
    Receive(Consumer, ReceiveFault),
    /// A PDO that nobody uses exists and can't be switched off: the index of the first such communication record.
    StaysOn(u16),
    /// The time of the heartbeat can't be set.
    Heartbeat,
    /// No rate is supported by all devices.
    NoRate,
    /// The device does not have the value that is asked of the object at this index and sub.
    Asked(u16, u8, AskFault),
}

impl Rule {
    /// The number by which the refusal is known.
    pub fn number(self) -> u8
        ensures { result ≡ number_of_rule self }
    {
        match self {
            Rule::Record(rule) => rule.number(),
            Rule::Eds(_) => 43,
            Rule::Transmit(_) => 45,
            Rule::CobId(_) => 46,
            Rule::Transmission => 47,
            Rule::Synchrony(_) => 53,
            Rule::Receive(_, _) => 48,
            Rule::StaysOn(_) => 50,
            Rule::Heartbeat => 51,
            Rule::NoRate => 52,
            Rule::Asked(_, _, AskFault::Aborted(_)) => 54,
            Rule::Asked(_, _, _) => 55,
        }
    }
}

/// A rule that is broken, and where: the table and its record, from 1 on. Record 0 stands for the header, and for what the
/// table as a whole lacks.
#[derive(Clone, Copy, PartialEq, Eq, Debug)]
pub struct Refusal {
    pub table: Table,
    pub rule: Rule,
    pub place: u64,
}

/// Why files make no network.
#[derive(Debug, Drop, Error)]
pub enum PlanFault {
    /// A rule is broken.
    #[error("refused {} at record {}", .0.rule.number(), .0.place)]
    Refused(Refusal),
    #[error("out of memory")]
    Memory,
}

impl From<AllocError> for PlanFault {
    ghost from_gives = { λ _ fault. fault ≡ Memory };

    fn from(_error: AllocError) -> PlanFault {
        PlanFault::Memory
    }
}

impl<T: Drop> From<AllocFailed<T>> for PlanFault {
    ghost from_gives = { λ _ fault. fault ≡ Memory };

    fn from(_error: AllocFailed<T>) -> PlanFault {
        PlanFault::Memory
    }
}
