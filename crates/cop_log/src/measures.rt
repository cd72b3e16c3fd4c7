//! Stamps in millionths of a tick.

ghost use Rattle.std.specs.Prelude.{◌≡◌, ◌^◌, ◌<◌};
ghost use Rattle.cop_log.specs.Log.{most, slack};

use crate::clocks::Clock;

/// The most that may have passed up to a stamp.
pub(crate) fn most(clock: Clock, at: u64) -> u128
    ensures value { result ≡ most clock at }
    ensures few { result < 2 ^ 100 }
{
    4 * u128::from(at) * (1_000_000 + u128::from(clock.drift))
}

/// The error of a distance of two stamps.
pub(crate) fn slack(clock: Clock) -> u128
    ensures value { result ≡ slack clock }
    ensures few { result < 2 ^ 60 }
{
    4_000_000 * u128::from(clock.error)
}
