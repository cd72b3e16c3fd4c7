//! Watching the entries of a stream.

ghost use Rattle.std.specs.Prelude.{◌≡◌, ◌+◌, ◌*◌, ◌^◌, ◌≤◌, ◌<◌, ◌↔◌, IsTrue, Bool, length, List, Option};
ghost use Rattle.cop_lines.specs.declared.entries.Entry.{Entry as Seen};
ghost use Rattle.std.specs.Option.{ForSome};
ghost use Rattle.cop_log.specs.declared.anchors.Anchor.{Anchor as Counted};
ghost use Rattle.cop_log.specs.declared.findings.Finding.TheVariants.{Soon};
ghost use Rattle.cop_log.specs.Log.{most, IsNear, entry_at};
ghost use Rattle.cop_log.specs.Watching.{lane_of, IsWatched, IsStep};

use crate::anchors::Anchor;
use crate::findings::Finding;
use crate::measures::{most, slack};
use crate::watches::Watch;
use cop_frame::least_bits;
use cop_lines::Entry;
use cop_rta::Stream;

/// What the next entry of a stream makes of its anchor, and what it shows.
#[derive(Clone, Copy)]
pub(crate) struct Next {
    pub(crate) anchor: Anchor,
    pub(crate) soon: Option<Finding>,
}

// What so many periods take.
fn span(stream: &Stream, count: u64) -> u128
    ensures value { result ≡ count * stream.now.period }
    ensures few { result < 2 ^ 93 }
{
    u128::from(count) * u128::from(stream.period)
}

// The least time from an event to the end of its transfer, and a bit time more than is sure, less the bound.
fn is_near(watch: &Watch, from: u64, to: u64, count: u64) -> bool
    ensures { IsTrue result ↔ IsNear (lane_of watch.now) from to count }
{
    let tick = u128::from(watch.rate.ticks_per_bit());
    let soonest = u128::from(least_bits(watch.stream.bytes)) * tick + 1;
    let latest = u128::from(watch.bound) + tick;
    most(watch.clock, to) + (slack(watch.clock) + 1_000_000 * latest)
        < most(watch.clock, from) + 1_000_000 * (span(&watch.stream, count) + soonest)
}

// Whether an entry asks for less of those to come than the anchor does.
fn is_behind(watch: &Watch, anchor: Anchor, at: u64) -> bool
    ensures { IsTrue result ↔ (most watch.now.clock at ≤ most watch.now.clock anchor.entry.at + 1000000 * (anchor.count * watch.now.stream.period)) }
{
    most(watch.clock, at)
        <= most(watch.clock, anchor.entry.at) + 1_000_000 * span(&watch.stream, anchor.count)
}

/// Watches the next entry of the stream, which has a number among all entries. As long as nothing was shown, the anchor is the
/// entry that asks for most.
pub(crate) fn watch_next(watch: &Watch, entry: Entry, number: u64, anchor: Option<Anchor>) -> Next
    ensures shown { ForSome result.soon (λ f. (a : Counted) × (anchor ≡ Option.Some a) × (f ≡ Soon a.from number a.count)) }
    ensures step { (log : List Seen) (clean : Bool) → number < length log → length log < 2 ^ 64 → entry ≡ entry_at log number → (entry_at log number).id ≡ watch.now.stream.id
        → IsWatched (lane_of watch.now) log number anchor clean → IsStep (lane_of watch.now) log number clean result.anchor result.soon }
{
    let fresh = Anchor {
        from: number,
        entry,
        count: 1,
    };
    let Some(anchor) = anchor else {
        return Next {
            anchor: fresh,
            soon: None,
        };
    };
    let (from, count) = (anchor.from, anchor.count);
    if is_near(watch, anchor.entry.at, entry.at, count) {
        let to = number;
        return Next {
            anchor: fresh,
            soon: Some(Finding::Soon { from, to, count }),
        };
    }
    if is_behind(watch, anchor, entry.at) {
        let count = count.saturating_add(1);
        return Next {
            anchor: Anchor { count, ..anchor },
            soon: None,
        };
    }
    Next {
        anchor: fresh,
        soon: None,
    }
}
