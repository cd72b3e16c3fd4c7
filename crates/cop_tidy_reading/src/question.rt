//! What a text leaves open.

ghost use Rattle.std.specs.Prelude.{◌≡◌};
ghost use Rattle.cop_tidy_reading.specs.Questions.{number_of};
ghost use Rattle.cop_tidy_reading.specs.declared.question.ReadingFault.TheVariants.{Asked, Memory};

use std::alloc::{AllocError, AllocFailed};
use thiserror::Error;

/// What a question is about.
#[derive(Clone, Copy, Debug, PartialEq, Eq)]
pub enum About {
    /// Bytes that are no text.
    NoText,
    /// A line that is neither header, key nor comment, or may be several of them.
    NoLine,
    /// A section or a key stands twice, with different content.
    Repeated,
    /// A list names what is not there, or in two ways; a section that no list names; no rate.
    Lists,
    /// No data type, or an unknown data type or object type.
    Types,
    /// No access, or an unknown word.
    Accesses,
    /// No number, or one that does not fit.
    Numbers,
    /// A compact form or a PDO's record that cannot be completed.
    Compact,
    /// Octal or decimal.
    Radix,
}

impl About {
    /// The number of the question, 70 to 78.
    pub fn number(self) -> u8
        ensures { result ≡ number_of self }
    {
        match self {
            About::NoText => 70,
            About::NoLine => 71,
            About::Repeated => 72,
            About::Lists => 73,
            About::Types => 74,
            About::Accesses => 75,
            About::Numbers => 76,
            About::Compact => 77,
            About::Radix => 78,
        }
    }
}

/// A question, and the line at which it is asked, from 1: 0 where it is no line's.
#[derive(Clone, Copy, Debug, PartialEq, Eq)]
pub struct Question {
    pub about: About,
    pub line: usize,
}

/// Why a text is not read.
#[derive(Debug, Drop, Error)]
pub enum ReadingFault {
    /// It leaves something open.
    #[error("asked at line {}", .0.line)]
    Asked(Question),
    /// Out of memory.
    #[error("out of memory")]
    Memory,
}

impl From<AllocError> for ReadingFault {
    ghost from_gives = { λ _ e. e ≡ Memory };

    fn from(_e: AllocError) -> ReadingFault {
        ReadingFault::Memory
    }
}

impl<T: Drop> From<AllocFailed<T>> for ReadingFault {
    ghost from_gives = { λ _ e. e ≡ Memory };

    fn from(_e: AllocFailed<T>) -> ReadingFault {
        ReadingFault::Memory
    }
}

impl From<Question> for ReadingFault {
    ghost from_gives = { λ question e. e ≡ Asked question };

    fn from(question: Question) -> ReadingFault {
        ReadingFault::Asked(question)
    }
}

/// The question of a line.
pub fn asked(about: About, line: usize) -> Question
    ensures { result ≡ record { about = about; line = line } }
{
    Question { about, line }
}
