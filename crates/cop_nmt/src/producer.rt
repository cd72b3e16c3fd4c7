//! When a heartbeat is due. Moments are ticks of 250 ns that the caller hands in.

ghost use Rattle.std.specs.Prelude.{◌≡◌, ◌≤◌, Some, None, if◌then◌else◌};
ghost use Rattle.cop_nmt.specs.Timers.{is_due};

use std::marker::Model;

/// Tells when a heartbeat is due. Contracts see its period and the moment at which one was due last.
#[derive(Debug, Drop)]
pub struct Producer {
    period: u64,
    last: Option<u64>,
}

impl Model for Producer {
    ghost use Rattle.cop_nmt.specs.Timers.{Timer};

    ghost Value = { Timer };

    ghost view = { λ p. record { time = p.period; last = p.last } };
}

impl Producer {
    /// A producer that has sent nothing yet.
    pub fn new(period: u64) -> Producer
        requires { 1 ≤ period }
        ensures { result ≡ record { time = period; last = None } }
    {
        Producer { period, last: None }
    }

    /// Whether a heartbeat is due: at the first call, and when a period has passed since one was due last.
    pub fn due(&mut self, now: u64) -> bool
        ensures due { result ≡ is_due self.old now }
        ensures kept { self.new ≡ record { time = self.old.time; last = if is_due self.old now then Some now else self.old.last } }
    {
        let due = match self.last {
            Some(last) => last <= now && now - last >= self.period,
            None => true,
        };
        if due {
            self.last = Some(now);
        }
        due
    }
}
