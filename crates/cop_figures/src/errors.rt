//! What one error on the bus takes, and the PDO that has the least time left.

ghost use Rattle.std.specs.Prelude.{◌≡◌, ◌≤◌, ◌*◌, ◌⊎◌, MatchOption, length};
ghost use Rattle.cop_frame.specs.Rate.{ticks_of};
ghost use Rattle.cop_figures.specs.Errors.{error_cost, left, IsLeast, TellsTight};

use crate::figures::Figures;
use crate::times::PdoTimes;
use cop_frame::Rate;

/// A PDO that has less time left than one error takes, and no other has less.
#[derive(Clone, Copy, PartialEq, Eq, Debug)]
pub struct Tight {
    pub times: PdoTimes,
    /// What one error takes at most at the planned rate, in ticks of 250 ns.
    pub cost: u64,
}

/// What one error takes at most, in ticks of 250 ns: 31 bits until the bus is free again, and 135 of the longest frame, which is sent once
/// more.
pub fn error_cost(rate: Rate) -> u64
    ensures { result ≡ error_cost rate }
{
    166 * u64::from(rate.ticks_per_bit())
}

// Of two PDOs the one that has less left, and the first if both have as much.
fn lesser(first: PdoTimes, other: PdoTimes) -> PdoTimes
    ensures one { (result ≡ first) ⊎ (result ≡ other) }
    ensures first { left result ≤ left first }
    ensures other { left result ≤ left other }
{
    if other.left() < first.left() {
        other
    } else {
        first
    }
}

/// The PDO that has the least left, if there is any.
fn least(times: &[PdoTimes]) -> Option<PdoTimes>
    ensures { MatchOption result (length times.now ≡ 0) (IsLeast times.now) }
{
    let [first, ..] = times else {
        return None;
    };
    let mut best = *first;
    for one in times {
        best = lesser(best, *one);
    }
    Some(best)
}

/// The PDO of a plan that has the least left, if one error on the bus takes more than that.
pub fn tightest(figures: &Figures) -> Option<Tight>
    ensures { TellsTight figures.now.rate figures.now.pdos.items result }
{
    let cost = error_cost(figures.rate?);
    let times = least(&figures.pdos)?;
    if times.left() < cost {
        Some(Tight { times, cost })
    } else {
        None
    }
}
