//! A warning.

ghost use Rattle.std.specs.Prelude.{◌≡◌};
ghost use Rattle.cop_warn.specs.Warnings.{number_of};

use cop_net::FrameKind;

/// Something under which a plan may be no plan of the machine. The values are those that devices begin with, by their EDS files.
#[derive(Clone, Copy, PartialEq, Eq, Debug)]
pub enum Warning {
    /// Of the PDO of this record the deadline is not above the jitter, so that it is late at every rate.
    DeadlineWithinJitter {
        place: u64,
    },
    /// The event timer of the TPDO of this record (1800h sub 5 and on) has so many milliseconds, which are less than the row's
    /// period: it is sent more often than planned.
    EventTimer {
        place: u64,
        millis: u64,
    },
    /// The inhibit time of the TPDO of this record (1800h sub 3 and on) has so many units of 100 us, which are more than the row's
    /// period: it waits longer than planned.
    InhibitTime {
        place: u64,
        units: u64,
    },
    /// The PDO of this record is sent by SYNC, and this RPDO, which takes it, has the transmission type 254 or 255 (1400h sub 2 and on): the
    /// device uses the values at once, and not by the next SYNC.
    UsedAtOnce {
        place: u64,
        node: u8,
        rpdo: u16,
        kind: u64,
    },
    /// The node's device sends frames of this kind, and the table of nodes has no row for them.
    NoRow {
        node: u8,
        kind: FrameKind,
    },
    /// The object at this index and sub of the node's device gives a frame another identifier than the one that plans count on.
    OtherIdentifier {
        node: u8,
        index: u16,
        sub: u8,
        cob_id: u64,
    },
    /// The node's device makes SYNC itself (bit 30 of 1005h).
    MakesSync {
        node: u8,
    },
    /// The object at this index and sub of the node's device, on which a plan counts, has a low limit above its high limit: it takes no value.
    TakesNothing {
        node: u8,
        index: u16,
        sub: u8,
    },
    /// The devices of both nodes make SYNC (bit 30 of 1005h): those of the first two rows that do.
    BothMakeSync {
        first: u8,
        second: u8,
    },
    /// The node's device sends TIME (bit 30 of 1012h), which goes before all PDOs and has no row.
    MakesTime {
        node: u8,
    },
    /// The SYNC period of the node's device (1006h) has so many microseconds, and the row of SYNC has another period.
    SyncPeriod {
        node: u8,
        micros: u64,
    },
}

impl Warning {
    /// Its number: 86 of an event timer, 87 of an inhibit time, 88 of EMCY, 89 of SYNC, 118 of limits. Others have none.
    pub fn number(self) -> Option<u8>
        ensures { result ≡ number_of self }
    {
        match self {
            Warning::EventTimer { .. } => Some(86),
            Warning::InhibitTime { .. } => Some(87),
            Warning::NoRow {
                kind: FrameKind::Emcy,
                ..
            } => Some(88),
            Warning::OtherIdentifier { index: 0x1014, .. } => Some(88),
            Warning::OtherIdentifier { index: 0x1005, .. }
            | Warning::MakesSync { .. }
            | Warning::BothMakeSync { .. } => Some(89),
            Warning::TakesNothing { .. } => Some(118),
            Warning::DeadlineWithinJitter { .. }
            | Warning::UsedAtOnce { .. }
            | Warning::NoRow { .. }
            | Warning::OtherIdentifier { .. }
            | Warning::MakesTime { .. }
            | Warning::SyncPeriod { .. } => None,
        }
    }
}
