//! Watching whether transfers fit between their ends.

ghost use Rattle.std.specs.Prelude.{◌≡◌, ◌+◌, ◌*◌, ◌^◌, ◌≤◌, ◌<◌, ◌↔◌, IsTrue, Bool, length, List, Option};
ghost use Rattle.cop_frame.specs.Rate.{ticks_of};
ghost use Rattle.cop_bus.specs.Run.{least_bits};
ghost use Rattle.cop_lines.specs.declared.entries.Entry.{Entry as Seen};
ghost use Rattle.std.specs.Option.{ForSome};
ghost use Rattle.cop_log.specs.declared.anchors.Pile.{Pile as Piled};
ghost use Rattle.cop_log.specs.declared.findings.Finding.TheVariants.{Crowded};
ghost use Rattle.cop_log.specs.Log.{most, IsFull, entry_at};
ghost use Rattle.cop_log.specs.Watching.{IsHeld, IsLoaded};

use crate::anchors::Pile;
use crate::clocks::Clock;
use crate::findings::Finding;
use crate::measures::{most, slack};
use cop_frame::{DISTURBED, Rate};
use cop_lines::Entry;

// More ticks than a log of 2 to the 64 entries has.
const MOST_TICKS: u128 = 1 << 85;

/// What the next entry makes of the pile, and what it shows.
#[derive(Clone, Copy)]
pub(crate) struct Load {
    pub(crate) pile: Pile,
    pub(crate) crowded: Option<Finding>,
}

/// The least ticks that a transfer of so many bytes takes.
#[tactic(auto, unfolding(cop_frame::specs::Lengths::least_bits))]
pub fn least_ticks(rate: Rate, len: u8) -> u128
    ensures value { result ≡ least_bits len * ticks_of rate }
    ensures few { result ≤ 2 ^ 20 }
{
    let bits = if len == DISTURBED {
        1
    } else {
        47 + 8 * u128::from(len)
    };
    bits * u128::from(rate.ticks_per_bit())
}

fn is_full(clock: Clock, from: u64, to: u64, ticks: u128) -> bool
    requires { ticks ≤ 2 ^ 85 }
    ensures { IsTrue result ↔ IsFull clock from to ticks }
{
    most(clock, to) + slack(clock) < most(clock, from) + 1_000_000 * ticks
}

// Whether an entry asks for less of those to come than the pile does.
fn is_lower(clock: Clock, pile: Pile, at: u64) -> bool
    requires { pile.ticks ≤ 2 ^ 85 }
    ensures { IsTrue result ↔ (most clock at ≤ most clock pile.entry.at + 1000000 * pile.ticks) }
{
    most(clock, at) <= most(clock, pile.entry.at) + 1_000_000 * pile.ticks
}

// The pile with the transfer of one entry more.
fn grown(pile: Pile, own: u128) -> Pile
    requires { own ≤ 2 ^ 20 }
    ensures from { result.from ≡ pile.from }
    ensures entry { result.entry ≡ pile.entry }
    ensures ticks { pile.ticks + own ≤ 2 ^ 85 → result.ticks ≡ pile.ticks + own }
    ensures few { result.ticks ≤ 2 ^ 85 }
{
    let ticks = if pile.ticks < MOST_TICKS - own {
        pile.ticks + own
    } else {
        MOST_TICKS
    };
    Pile {
        from: pile.from,
        entry: pile.entry,
        ticks,
    }
}

/// Watches the next entry, which has a number among all. As long as nothing was shown, the pile begins at the entry that asks for most.
pub(crate) fn load_next(
    rate: Rate,
    clock: Clock,
    entry: &Entry,
    number: u64,
    pile: Option<Pile>,
) -> Load
    ensures shown { ForSome result.crowded (λ f. (x : Piled) × (pile ≡ Option.Some x) × (f ≡ Crowded x.from number)) }
    ensures loaded { (log : List Seen) (clean : Bool) → number < length log → length log < 2 ^ 64 → entry_at log number ≡ entry.now
        → IsHeld (ticks_of rate) clock log number pile clean → IsLoaded (ticks_of rate) clock log number clean result.pile result.crowded }
{
    let fresh = Pile {
        from: number,
        entry: *entry,
        ticks: 0,
    };
    let Some(pile) = pile else {
        return Load {
            pile: fresh,
            crowded: None,
        };
    };
    let more = grown(pile, least_ticks(rate, entry.len));
    if is_full(clock, more.entry.at, entry.at, more.ticks) {
        let (from, to) = (more.from, number);
        return Load {
            pile: fresh,
            crowded: Some(Finding::Crowded { from, to }),
        };
    }
    Load {
        pile: if is_lower(clock, more, entry.at) {
            more
        } else {
            fresh
        },
        crowded: None,
    }
}
