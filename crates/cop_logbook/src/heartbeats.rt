//! Heartbeats that stayed away.

ghost use Rattle.std.specs.Prelude.{◌*◌, ◌/◌, ◌<◌, ◌↔◌, IsSome};

use crate::seen::Seen;
use cop_frame::identifiers::HEARTBEAT;
use cop_rta::Stream;
use std::alloc::AllocError;

/// A node whose heartbeat came after more than twice its time: the line after the greatest distance, that distance and the time in
/// microseconds.
#[derive(Clone, Copy)]
pub struct LateHeartbeat {
    pub line: u64,
    pub node: u16,
    pub distance: u64,
    pub time: u64,
}

/// What a stream's frames say, if it is the heartbeat of a node (CiA 301, 7.2.8.3.2) and stayed away.
pub(crate) fn late_heartbeat(stream: &Stream, seen: &Seen) -> Option<LateHeartbeat>
    ensures { IsSome result ↔ ((1792 < stream.now.id) × ((stream.now.id < 1920) × (2 * (stream.now.period / 4) < seen.now.greatest))) }
{
    let time = stream.period / 4;
    let is_heartbeat = stream.id > HEARTBEAT && stream.id < HEARTBEAT + 128;
    if !is_heartbeat || seen.greatest <= 2 * time {
        return None;
    }
    Some(LateHeartbeat {
        line: seen.greatest_line,
        node: stream.id & 0x7F,
        distance: seen.greatest,
        time,
    })
}

impl LateHeartbeat {
    /// Adds its line.
    pub(crate) fn write(&self, text: &mut String) -> Result<(), AllocError> {
        let (line, node, away, time) = (self.line, self.node, self.distance, self.time);
        write!(
            text,
            "line {line}: the heartbeat of node {node} comes after {away} us, its time is {time} us\n"
        )
    }
}
