//! Watching whether the clock of a log falls.

ghost use Rattle.std.specs.Prelude.{◌≡◌, ◌+◌, ◌^◌, ◌≤◌, ◌<◌, ◌↔◌, IsTrue, Bool, length, List, Option};
ghost use Rattle.std.specs.Option.{ForSome};
ghost use Rattle.cop_lines.specs.declared.entries.Entry.{Entry as Seen};
ghost use Rattle.cop_log.specs.declared.anchors.Top.{Top as Highest};
ghost use Rattle.cop_log.specs.declared.findings.Finding.TheVariants.{Fallen};
ghost use Rattle.cop_log.specs.Log.{most, IsLower, entry_at};
ghost use Rattle.cop_log.specs.Watching.{IsRising, IsRisen};

use crate::anchors::Top;
use crate::clocks::Clock;
use crate::findings::Finding;
use crate::measures::{most, slack};
use cop_lines::Entry;

/// What the next entry makes of the top, and what it shows.
#[derive(Clone, Copy)]
pub(crate) struct Rise {
    pub(crate) top: Top,
    pub(crate) fallen: Option<Finding>,
}

fn is_lower(clock: Clock, from: u64, to: u64) -> bool
    ensures { IsTrue result ↔ IsLower clock from to }
{
    most(clock, to) + slack(clock) < most(clock, from)
}

fn is_behind(clock: Clock, at: u64, top: u64) -> bool
    ensures { IsTrue result ↔ (most clock at ≤ most clock top) }
{
    most(clock, at) <= most(clock, top)
}

/// Watches the stamp of the next entry, which has a number among all. As long as nothing was shown, the top is the entry with the greatest
/// stamp.
pub(crate) fn rise_next(clock: Clock, entry: Entry, number: u64, top: Option<Top>) -> Rise
    ensures shown { ForSome result.fallen (λ f. (x : Highest) × (top ≡ Option.Some x) × (f ≡ Fallen x.from number)) }
    ensures risen { (log : List Seen) (clean : Bool) → number < length log → entry ≡ entry_at log number
        → IsRising clock log number top clean → IsRisen clock log number clean result.top result.fallen }
{
    let fresh = Top {
        from: number,
        entry,
    };
    let Some(top) = top else {
        return Rise {
            top: fresh,
            fallen: None,
        };
    };
    if is_lower(clock, top.entry.at, entry.at) {
        let (from, to) = (top.from, number);
        return Rise {
            top: fresh,
            fallen: Some(Finding::Fallen { from, to }),
        };
    }
    Rise {
        top: if is_behind(clock, entry.at, top.entry.at) {
            top
        } else {
            fresh
        },
        fallen: None,
    }
}
