//! What is found of a step, and of a trace that was read to its end.

ghost use Rattle.std.specs.Prelude.{◌≡◌, true};

/// A step that is the first of its trace to break a rule, whatever steps follow it.
#[derive(Clone, Copy, PartialEq, Eq, Debug)]
pub struct Broken {
    /// Its number, from 1.
    pub step: u64,
    /// The least rule that it breaks.
    pub rule: u8,
    /// The moment, in ticks, before which the trace does not end: if it did, an earlier step might be after its end.
    pub from: u64,
}

/// What is found of a step.
#[derive(Clone, Copy, PartialEq, Eq, Debug)]
pub enum Found {
    /// All the steps so far may stand so in a trace that breaks no rule.
    Taken,
    /// This step, or one before it, is the first that breaks a rule.
    Broken(Broken),
    /// Nothing is known of the steps.
    Unknown,
}

impl Found {
    /// Whether something is known of the steps.
    pub(crate) fn is_known(self) -> bool
        ensures { result ≡ true → self ≡ Found.Unknown → ⊥ }
    {
        match self {
            Found::Taken | Found::Broken(_) => true,
            Found::Unknown => false,
        }
    }
}

/// What is seen of a whole trace.
#[derive(Clone, Copy, PartialEq, Eq, Debug)]
pub enum Seen {
    /// It breaks no rule, and so many instances are sent in it.
    Lawful { sent: u64 },
    /// The first step, from 1, that breaks a rule, and the least rule that it breaks. The end counts as a step.
    Broken { step: u64, rule: u8 },
}
