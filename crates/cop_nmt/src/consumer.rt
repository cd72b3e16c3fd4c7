//! When a heartbeat is missing. Moments are ticks of 250 ns that the caller hands in.

ghost use Rattle.std.specs.Prelude.{◌≡◌, ◌≤◌, ◌↔◌, IsTrue, Some, None};
ghost use Rattle.cop_nmt.specs.Timers.{IsOver};

use std::marker::Model;

/// Tells when a node's heartbeat is missing. Contracts see the time that it waits and the moment of the last heartbeat.
#[derive(Debug, Drop)]
pub struct Consumer {
    time: u64,
    last: Option<u64>,
}

impl Model for Consumer {
    ghost use Rattle.cop_nmt.specs.Timers.{Timer};

    ghost Value = { Timer };

    ghost view = { λ c. record { time = c.time; last = c.last } };
}

impl Consumer {
    /// A consumer that has heard nothing yet.
    pub fn new(time: u64) -> Consumer
        requires { 1 ≤ time }
        ensures { result ≡ record { time = time; last = None } }
    {
        Consumer { time, last: None }
    }

    /// Takes note of a heartbeat.
    pub fn heard(&mut self, now: u64)
        ensures { self.new ≡ record { time = self.old.time; last = Some now } }
    {
        self.last = Some(now);
    }

    /// Whether a heartbeat was heard once, and the last one is at least the time ago.
    pub fn late(&self, now: u64) -> bool
        ensures { IsTrue result ↔ IsOver self.now now }
    {
        match self.last {
            Some(last) => last <= now && now - last >= self.time,
            None => false,
        }
    }
}
