//! What is asked of a plan: which rates it may have, and which identifiers it has.

ghost use Rattle.std.specs.Prelude.{◌≡◌};
ghost use Rattle.cop_plan.specs.Values.{beyond_all};

use cop_frame::RateSet;

/// What the identifiers of a plan are chosen by, of all that pass at its rate.
#[derive(Clone, Copy, PartialEq, Eq, Debug)]
pub enum Choice {
    /// By the order of plans: without a gap, late rows as deep as they pass.
    Order,
    /// By the greatest margin: the order of plans where each deadline is lowered as far as some assignment passes, and none by more than
    /// its stream can have at its best place.
    Margin,
}

/// What the identifiers of a plan by the greatest margin leave of deadlines, in ticks.
#[derive(Clone, Copy, PartialEq, Eq, Debug)]
pub struct Kept {
    /// The greatest margin that all deadlines keep.
    pub all: u64,
    /// The greatest margin that is kept by those that can have it, while each of the others keeps what it has at its best place. It is no
    /// less than that of all.
    pub others: u64,
}

impl Kept {
    /// The margin of those that can have it, if it is greater than that of all.
    pub(crate) fn beyond(self) -> Option<u64>
        ensures { result ≡ beyond_all self }
    {
        if self.all < self.others {
            Some(self.others)
        } else {
            None
        }
    }
}

/// What is asked of a plan.
#[derive(Drop)]
pub struct Asked {
    /// The rates that it may have.
    pub rates: RateSet,
    /// What its identifiers are chosen by.
    pub choice: Choice,
}
