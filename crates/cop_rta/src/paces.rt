//! What an equation of the test needs of a stream at any rate, made once for all its steps.

ghost use Rattle.std.specs.Prelude.{◌≡◌, ◌*◌, ◌^◌, ◌≤◌};

use crate::streams::Stream;
use cop_frame::worst_bits;

/// How often a stream is sent, and how long. How many instances it has within a time is the high half of one product,
/// which takes a small part of the time of a quotient by the period.
#[derive(Clone, Copy, PartialEq, Eq)]
pub(crate) struct Pace {
    // 2^64 by the period, rounded up.
    inverse: u64,
    // The jitter, and a period less a tick: the quotient is rounded up.
    ahead: u32,
    // The bits of the longest transfer.
    bits: u16,
    // Whether the stream is synchronous: its jitter is a latency, before which SYNC's response stands.
    is_synchronous: bool,
    ghost bits_most: { bits ≤ 166 },
    ghost ahead_most: { ahead ≤ 760000000 },
    ghost inverse_most: { inverse ≤ 2 ^ 56 },
}

impl Default for Pace {
    /// That of no frame.
    fn default() -> Pace {
        Pace {
            inverse: 0,
            ahead: 0,
            bits: 0,
            is_synchronous: false,
        }
    }
}

impl Pace {
    ghost use Rattle.cop_rta.specs.Paces.{last_time, counted_in, bits_in, most_ahead, IsPaceOf, IsPaceAfter};

    /// The pace of a stream, of whose jitter it has the latency alone.
    pub(crate) fn new(stream: &Stream) -> Pace
        ensures { IsPaceOf stream.now result }
    {
        let Stream {
            period,
            jitter,
            every,
            ..
        } = *stream;
        Pace {
            inverse: u64::MAX / period + 1,
            ahead: (jitter + (period - 1)) as u32,
            bits: worst_bits(stream.bytes) as u16,
            is_synchronous: every != 0,
        }
    }

    /// The pace with what is ahead of a latency.
    pub(crate) fn after(&self, ahead: u64) -> Pace
        requires ahead { ahead ≤ most_ahead }
        requires own { self.now.ahead ≤ 480000000 }
        ensures { IsPaceAfter ahead self.now result }
    {
        let pace = *self;
        let more = if pace.is_synchronous { ahead as u32 } else { 0 };
        Pace {
            inverse: pace.inverse,
            ahead: pace.ahead + more,
            bits: pace.bits,
            is_synchronous: pace.is_synchronous,
        }
    }

    /// How many instances may be queued within a time.
    pub(crate) fn instances(&self, time: u64) -> u64
        requires { time ≤ last_time }
        ensures value { result ≡ counted_in time self.now }
        ensures most { result ≤ 2 ^ 28 }
    {
        let Pace { ahead, inverse, .. } = *self;
        let end = time + u64::from(ahead);
        ((u128::from(end) * u128::from(inverse)) >> 64) as u64
    }

    /// How many bits they have at most. What they take is so many times a bit's ticks, which are the same for all streams:
    /// a sum over streams is multiplied once.
    pub(crate) fn bits_within(&self, time: u64) -> u64
        requires { time ≤ last_time }
        ensures value { result ≡ bits_in time self.now }
        ensures most { result ≤ 2 ^ 36 }
    {
        self.instances(time) * u64::from(self.bits)
    }
}
