//! A set of streams at a rate, with the jitters that its streams have there.

ghost use Rattle.std.specs.Prelude.{◌≡◌, ◌≤◌};
ghost use Rattle.cop_rta.specs.Test.{jitter_of, ahead_of};

use crate::sets::StreamSet;
use crate::streams::Stream;
use crate::syncs::sync_response;
use cop_frame::Rate;
use std::marker::Model;

/// A rate, and what SYNC's response at it puts in front of the latency of each synchronous stream.
#[derive(Clone, Copy)]
pub(crate) struct Clock {
    pub(crate) rate: Rate,
    pub(crate) ahead: u64,
    ghost ahead_most: { ahead ≤ 280000000 },
}

impl Clock {
    /// The jitter of a stream.
    pub(crate) fn jitter(&self, stream: &Stream) -> u64
        ensures value { result ≡ jitter_of self.now.ahead stream.now }
        ensures most { result ≤ 520000000 }
    {
        let ahead = self.ahead;
        let Stream { jitter, every, .. } = *stream;
        if every == 0 { jitter } else { ahead + jitter }
    }
}

/// A set of streams at a rate. SYNC's response there, on which the jitters of synchronous streams stand, is sought once, when it
/// is made, and it takes no memory. Contracts see the streams and the rate.
#[derive(Drop)]
pub struct AtRate<'a> {
    set: &'a StreamSet,
    clock: Clock,
}

impl<'a> Model for AtRate<'a> {
    ghost use Rattle.std.specs.Prelude.{◌≡◌};
    ghost use Rattle.cop_rta.specs.Rates.{RatedSet};
    ghost use Rattle.cop_rta.specs.Test.{ahead_of};

    ghost Value = { RatedSet };

    ghost view = { λ a. record { streams = a.set.now; rate = a.clock.rate } };

    ghost invariant = { λ a. a.clock.ahead ≡ ahead_of a.set.now a.clock.rate };
}

impl<'a> AtRate<'a> {
    /// The set at the rate.
    pub fn new(set: &'a StreamSet, rate: Rate) -> AtRate<'a>
        ensures { result ≡ record { streams = set.now; rate = rate } }
    {
        let ahead = ahead(set, rate);
        AtRate {
            set,
            clock: Clock { rate, ahead },
        }
    }

    /// The same once more.
    pub(crate) fn again(&self) -> AtRate<'a>
        ensures { result ≡ self.now }
    {
        AtRate {
            set: self.set,
            clock: self.clock,
        }
    }

    /// The set.
    pub fn set(&self) -> &'a StreamSet
        ensures { result.now ≡ self.now.streams }
    {
        let _ = &self.clock;
        self.set
    }

    /// The rate.
    pub fn rate(&self) -> Rate
        ensures { result ≡ self.now.rate }
    {
        let _ = &self.set;
        self.clock.rate
    }

    /// The jitter of a stream: from its event, or SYNC's for a synchronous one, until it is queued at the latest, in ticks.
    pub fn jitter(&self, stream: &Stream) -> u64
        ensures value { result ≡ jitter_of (ahead_of self.now.streams self.now.rate) stream.now }
        ensures most { result ≤ 520000000 }
    {
        let _ = &self.set;
        self.clock.jitter(stream)
    }

    /// The rate, with what is ahead.
    pub(crate) fn clock(&self) -> Clock
        ensures rate { result.rate ≡ self.now.rate }
        ensures ahead { result.ahead ≡ ahead_of self.now.streams self.now.rate }
    {
        let _ = &self.set;
        self.clock
    }
}

// What SYNC's response puts in front of latencies.
fn ahead(set: &StreamSet, rate: Rate) -> u64
    ensures value { result ≡ ahead_of set.now rate }
    ensures most { result ≤ 280000000 }
{
    match sync_response(set, rate) {
        Some(response) => response,
        None => 0,
    }
}
