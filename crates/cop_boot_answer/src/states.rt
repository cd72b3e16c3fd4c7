//! The states in which a boot leaves a node.

ghost use Rattle.std.specs.Prelude.{◌≡◌};
ghost use Rattle.cop_boot_answer.specs.Answers.{word_of, detail_of};

use cop_sdo::Address;

/// What is said of a node.
#[derive(Clone, Copy, PartialEq, Eq, Debug)]
pub enum State {
    /// It confirmed its settings, and has them if they were read back.
    Ready,
    /// The turns of a boot that is drawn ended before its boot did.
    Undecided,
    /// The line failed before its boot had ended.
    Unfinished,
    /// It did not boot up, or not answer.
    Silent,
    /// It booted up too often, or after it had confirmed its settings.
    Restarting,
    /// It refused to set, tell or store the object at an address, by this abort code.
    Aborted { at: Address, code: u32 },
    /// It has another value at an address than the plan has.
    Differs { at: Address, found: u32 },
    /// It takes the values that it left the factory with, after its next reset.
    Restored,
    /// It was asked nothing about its device.
    Unasked,
    /// Its device is the one that its EDS file describes.
    AsPlanned,
    /// Its device tells another value at an address than its EDS file does.
    Other { at: Address, found: u32 },
    /// A heartbeat said that it is operational, and none was overdue.
    Operational,
    /// No heartbeat said that it is operational, and the time for that had not passed yet.
    Unheard,
    /// No heartbeat said that it is operational in the time for that.
    Late,
}

/// What is said of an object of a node: where it is, and its value or the code of an abort.
#[derive(Clone, Copy, PartialEq, Eq, Debug)]
pub struct Detail {
    pub at: Address,
    pub value: u32,
}

impl State {
    /// Its word.
    pub fn word(self) -> &'static str
        ensures { result.now ≡ word_of self }
    {
        match self {
            State::Ready => "ready",
            State::Undecided => "undecided",
            State::Unfinished => "unfinished",
            State::Silent => "silent",
            State::Restarting => "restarting",
            State::Aborted { .. } => "aborted",
            State::Differs { .. } => "differs",
            State::Restored => "restored",
            State::Unasked => "unasked",
            State::AsPlanned => "as planned",
            State::Other { .. } => "other",
            State::Operational => "operational",
            State::Unheard => "unheard",
            State::Late => "late",
        }
    }

    /// What it says of an object, if it says anything of one.
    pub fn detail(self) -> Option<Detail>
        ensures { result ≡ detail_of self }
    {
        match self {
            State::Aborted { at, code } => Some(Detail { at, value: code }),
            State::Differs { at, found } | State::Other { at, found } => {
                Some(Detail { at, value: found })
            }
            State::Ready
            | State::Undecided
            | State::Unfinished
            | State::Silent
            | State::Restarting
            | State::Restored
            | State::Unasked
            | State::AsPlanned
            | State::Operational
            | State::Unheard
            | State::Late => None,
        }
    }
}
