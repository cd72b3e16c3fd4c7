//! Why a text is refused.

ghost use Rattle.std.specs.Prelude.{◌≡◌};
ghost use Rattle.cop_tidy.specs.Fault.{number_of, fault_of, IsRest};
ghost use Rattle.cop_tidy.specs.declared.fault.Question.TheVariants as questions;
ghost use Rattle.cop_tidy.specs.declared.fault.TidyFault.TheVariants as faults;

use cop_tidy_reading::{About, ReadingFault};
use std::alloc::{AllocError, AllocFailed};
use thiserror::Error;

/// What a refusal is about.
#[derive(Clone, Copy, Debug, PartialEq, Eq)]
pub enum Question {
    /// The text leaves this open.
    Asked(About),
    /// The text leaves nothing open, and what was made of it is no text of its device: the number of what stands against that, 0 where
    /// it is another device, or a change is none that may be made.
    Left(u8),
}

impl Question {
    /// The number of the refusal, 70 to 79.
    pub fn number(self) -> u8
        ensures { result ≡ number_of self }
    {
        match self {
            Question::Asked(about) => about.number(),
            Question::Left(_) => 79,
        }
    }
}

/// What a refusal is about, and at which line, from 1: 0 where it is no line's.
#[derive(Clone, Copy, Debug, PartialEq, Eq)]
pub struct Refusal {
    pub question: Question,
    pub line: usize,
}

/// Why a text is not rewritten.
#[derive(Debug, Drop, Error)]
pub enum TidyFault {
    /// It is refused.
    #[error("refused at line {}", .0.line)]
    Refused(Refusal),
    /// Out of memory.
    #[error("out of memory")]
    Memory,
}

impl From<AllocError> for TidyFault {
    ghost from_gives = { λ _ e. e ≡ faults.Memory };

    fn from(_e: AllocError) -> TidyFault {
        TidyFault::Memory
    }
}

impl<T: Drop> From<AllocFailed<T>> for TidyFault {
    ghost from_gives = { λ _ e. e ≡ faults.Memory };

    fn from(_e: AllocFailed<T>) -> TidyFault {
        TidyFault::Memory
    }
}

/// The refusal of a question at a line.
fn asked(about: About, line: usize) -> TidyFault
    ensures { result ≡ faults.Refused (record { question = questions.Asked about; line = line }) }
{
    TidyFault::Refused(Refusal {
        question: Question::Asked(about),
        line,
    })
}

impl From<ReadingFault> for TidyFault {
    ghost from_gives = { λ fault e. e ≡ fault_of fault };

    fn from(fault: ReadingFault) -> TidyFault {
        match fault {
            ReadingFault::Asked(question) => asked(question.about, question.line),
            ReadingFault::Memory => TidyFault::Memory,
        }
    }
}

/// The refusal of what was made of a text, at a line of the text: 79.
pub(crate) fn left(number: u8, line: usize) -> TidyFault
    ensures { IsRest result }
{
    TidyFault::Refused(Refusal {
        question: Question::Left(number),
        line,
    })
}
