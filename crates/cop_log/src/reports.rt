//! A whole log, watched.

ghost use Rattle.std.specs.Prelude.{MatchResult};
ghost use Rattle.cop_log.specs.Reading.{name_of};
ghost use Rattle.cop_log.specs.Reports.{IsReport, IsExplained};

use crate::answers::watch;
use crate::bounds::bounds_of;
use crate::clocks::Clock;
use crate::faults::LogFault;
use crate::findings::Finding;
use crate::reading::read_log;
use cop_frame::Rate;
use cop_rta::StreamSet;
use std::alloc::Global;

/// Everything in a log of any form that speaks against its being of a legal run in which all streams obey: each is
/// evident from the lines of the channel, and where such a run has the log within the error of the clock, there is none. Otherwise the
/// first line that is wrong, or want of memory.
pub fn watch_log(
    alloc: Global,
    streams: &StreamSet,
    rate: Rate,
    clock: Clock,
    channel: Option<Vec<u8>>,
    are_distances: bool,
    text: &[u8],
) -> Result<Vec<Finding>, LogFault>
    ensures { MatchResult result (λ found. IsReport streams.now rate clock (record { channel = name_of channel; are_distances = are_distances }) text.now found.items)
        (IsExplained (record { channel = name_of channel; are_distances = are_distances }) text.now) }
{
    let log = read_log(alloc, channel, are_distances, text)?;
    let bounds = bounds_of(alloc, streams, rate)?;
    let found = watch(alloc, streams, bounds, rate, clock, &log)?;
    Ok(found)
}
