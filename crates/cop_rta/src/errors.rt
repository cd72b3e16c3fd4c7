//! How rare disturbed transfers are.

ghost use Rattle.std.specs.Prelude.{◌≤◌};

/// How rare disturbed transfers are: their events are a period apart at least, and each begins within the jitter after its event. Times are
/// in ticks.
#[derive(Clone, Copy, PartialEq, Eq, Debug)]
pub struct Errors {
    pub period: u64,
    pub jitter: u64,
    ghost period_least: { 400 ≤ period },
    ghost period_most: { period ≤ 240000000 },
    ghost jitter_in_range: { jitter ≤ 240000000 },
}
