//! What the bus does after the steps so far.

ghost use Rattle.std.specs.Prelude.{◌≡◌, ◌+◌, ◌*◌, true, false, IfSome, IfNone};
ghost use Rattle.cop_watch.specs.Knowing.{joins};
ghost use Rattle.cop_watch.specs.Breaking.{IsAlone};

/// The transfer that runs, if one does. Moments are in ticks.
#[derive(Clone, Copy)]
pub(crate) enum Bus {
    Idle,
    /// The transfer of the stream ends at the moment.
    Sending { id: u16, end: u128 },
    /// A joiner of the stream was sent at the moment. Its queue step, which has its length, is still to come.
    Joining { id: u16, start: u64 },
}

/// A transfer of so many bits.
pub(crate) fn sending(id: u16, start: u64, bits: u32, ticks: u32) -> Bus
    ensures { result ≡ Bus.Sending id (start + bits * ticks) }
{
    Bus::Sending {
        id,
        end: u128::from(start) + u128::from(bits) * u128::from(ticks),
    }
}

impl Bus {
    pub(crate) fn is_idle(self) -> bool
        ensures idle { result ≡ true → self ≡ Bus.Idle }
        ensures busy { result ≡ false → self ≡ Bus.Idle → ⊥ }
    {
        match self {
            Bus::Idle => true,
            Bus::Sending { .. } | Bus::Joining { .. } => false,
        }
    }

    /// Whether a joiner's queue step is still to come.
    pub(crate) fn is_joining(self) -> bool
        ensures { result ≡ false → IsAlone self }
    {
        match self {
            Bus::Joining { .. } => true,
            Bus::Idle | Bus::Sending { .. } => false,
        }
    }

    /// Whether a transfer of the stream ends at the moment.
    pub(crate) fn ends(self, id: u16, at: u64) -> bool
        ensures ends { result ≡ true → self ≡ Bus.Sending id at }
        ensures other { result ≡ false → self ≡ Bus.Sending id at → ⊥ }
    {
        match self {
            Bus::Sending { id: sent, end } => sent == id && end == u128::from(at),
            Bus::Idle | Bus::Joining { .. } => false,
        }
    }

    /// When the stream's joiner was sent that is awaited, if one is.
    pub(crate) fn joined(self, id: u16) -> Option<u64>
        ensures some { IfSome result (λ start. self ≡ Bus.Joining id start) }
        ensures none { IfNone result (joins self id ≡ false) }
    {
        match self {
            Bus::Joining { id: sent, start } => { if sent == id { Some(start) } else { None } }
            Bus::Idle | Bus::Sending { .. } => None,
        }
    }
}
