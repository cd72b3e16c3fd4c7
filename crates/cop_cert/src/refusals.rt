//! Refusals and their evidence.

ghost use Rattle.std.specs.Prelude.{◌≡◌};
ghost use Rattle.cop_cert.specs.Evidence.{busy_list_of};

use crate::items::Items;
use cop_frame::Rate;

/// What shows that a stream fails the response-time test. Numbers are ticks of 250 ns.
#[derive(Drop)]
pub enum Evidence {
    /// The busy time is above the horizon: a busy list ends there.
    Long {
        busy: Items<u64>,
    },
    /// Instance `q`, counted from 0, is late: a busy list reaches it, and a queue list ends past its deadline.
    Late {
        q: u64,
        busy: Items<u64>,
        queue: Items<u64>,
    },
}

impl Evidence {
    /// The busy list.
    pub(crate) fn busy(&self) -> &[u64]
        ensures { result.now ≡ busy_list_of self.now }
    {
        match self {
            Evidence::Long { busy } | Evidence::Late { busy, .. } => busy.as_slice(),
        }
    }
}

/// A PDO that fails where the other members and the fixed frames below a range of identifiers are above it, and what shows that.
#[derive(Drop)]
pub struct Member {
    /// The PDO's number from 0 on.
    pub pdo: usize,
    pub evidence: Evidence,
}

/// Why no assignment of identifiers passes at a rate.
#[derive(Drop)]
pub enum Cause {
    /// PDOs of which none can have the lowest priority among them, by rising PDO number.
    Places {
        members: Items<Member>,
    },
    /// SYNC's busy time is above the horizon, so nothing bounds what a synchronous PDO waits for: SYNC's busy list ends there.
    Sync {
        busy: Items<u64>,
    },
    /// An SDO frame with a deadline fails below the PDOs that cannot stand below it. These are `up`, by rising PDO number;
    /// where the second range has no room for all PDOs they are all, and `up` is empty.
    Sdo {
        up: Items<Member>,
        id: u16,
        evidence: Evidence,
    },
}

/// A rate at which no assignment of identifiers passes, and what shows it.
#[derive(Drop)]
pub struct Refusal {
    pub rate: Rate,
    pub cause: Cause,
}
