//! What is watched.

ghost use Rattle.std.specs.Prelude.{◌<◌, ◌^◌};

use crate::clocks::Clock;
use cop_frame::Rate;
use cop_rta::Stream;

/// A stream that is watched, and the bound of its response in ticks.
#[derive(Clone, Copy)]
pub struct Watch {
    pub stream: Stream,
    pub rate: Rate,
    pub bound: u64,
    pub clock: Clock,
    ghost bound_fits: { bound < 2 ^ 64 },
}
