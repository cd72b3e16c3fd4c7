//! Readings side by side, of which the earliest question counts.

ghost use Rattle.std.specs.Prelude.{◌≡◌, None, Some};
ghost use Rattle.cop_tidy_reading.specs.Seen.{Gives};
ghost use Rattle.cop_tidy_reading.specs.Questions.{earlier, first_asked, both, unless, asked_behind, asked_after, read_there, checked, some_read, clear, or_ask};

use crate::question::{About, Question, ReadingFault, asked};
use cop_tidy_lines::Unclear;

/// The question of the lesser line; on one line, of the lesser number.
pub fn earlier(a: Question, b: Question) -> Question
    ensures { result ≡ earlier a b }
{
    if b.line < a.line || (b.line == a.line && b.about.number() < a.about.number()) {
        b
    } else {
        a
    }
}

/// The earliest of the questions that were asked so far.
#[derive(Clone, Copy, Debug, PartialEq, Eq)]
pub struct Earliest {
    question: Option<Question>,
}

impl Earliest {
    /// Nothing is asked yet.
    pub fn new() -> Earliest
        ensures { result.question ≡ None }
    {
        Earliest { question: None }
    }

    /// Asks a question more.
    pub fn ask(&mut self, question: Question)
        ensures { self.new.question ≡ Some (asked_behind self.old.question question) }
    {
        self.question = match self.question {
            Some(first) => Some(earlier(first, question)),
            None => Some(question),
        };
    }

    /// What was read; a question that it leaves open is asked.
    pub fn note<T: Copy>(&mut self, read: Result<T, Question>) -> Option<T>
        ensures value { result ≡ read_there read }
        ensures after { self.new.question ≡ asked_after self.old.question read }
    {
        match read {
            Ok(value) => Some(value),
            Err(question) => {
                self.ask(question);
                None
            }
        }
    }

    /// Nothing, or the earliest question.
    pub fn check(&self) -> Result<(), Question>
        ensures { result ≡ checked self.now.question }
    {
        match self.question {
            Some(question) => Err(question),
            None => Ok(()),
        }
    }
}

/// Two readings side by side: both values, or the earliest question.
#[tactic(auto, unfolding(crate::specs::Questions::both))]
pub fn both<A: Copy, B: Copy>(
    a: Result<A, Question>,
    b: Result<B, Question>,
) -> Result<(A, B), Question>
    ensures { result ≡ both a b }
{
    match (a, b) {
        (Ok(a), Ok(b)) => Ok((a, b)),
        (Ok(_), Err(question)) => Err(question),
        (Err(question), Ok(_)) => Err(question),
        (Err(first), Err(second)) => Err(earlier(first, second)),
    }
}

/// The earlier one of a question and of that which a reading beside it leaves open.
pub fn first_asked<T: Copy>(question: Question, read: Result<T, Question>) -> Question
    ensures { result ≡ first_asked question read }
{
    match read {
        Ok(_) => question,
        Err(other) => earlier(question, other),
    }
}

/// Nothing, or a question where a test fails.
pub fn unless(test: bool, about: About, line: usize) -> Result<(), Question>
    ensures { result ≡ unless test about line }
{
    if test {
        Ok(())
    } else {
        Err(asked(about, line))
    }
}

/// What was read of something that is there.
pub fn some_read<T: Copy>(read: Result<T, Question>) -> Result<Option<T>, Question>
    ensures { result ≡ some_read read }
{
    match read {
        Ok(value) => Ok(Some(value)),
        Err(question) => Err(question),
    }
}

/// What was read at a line, or the question that it leaves open.
pub fn clear<T: Copy>(line: usize, read: Result<T, Unclear>) -> Result<T, Question>
    ensures { result ≡ clear line read }
{
    match read {
        Ok(value) => Ok(value),
        Err(Unclear::NoNumber) => Err(asked(About::Numbers, line)),
        Err(Unclear::OctalOrDecimal) => Err(asked(About::Radix, line)),
    }
}

/// What was read at a line, or a question about something else.
pub fn or_asked<T: Copy>(about: About, line: usize, read: Option<T>) -> Result<T, Question>
    ensures { result ≡ or_ask about line read }
{
    match read {
        Some(value) => Ok(value),
        None => Err(asked(about, line)),
    }
}

/// What was read; its question is the fault.
pub fn answered<T: Copy>(read: Result<T, Question>) -> Result<T, ReadingFault>
    ensures { Gives (λ value. value) result read }
{
    match read {
        Ok(value) => Ok(value),
        Err(question) => Err(ReadingFault::Asked(question)),
    }
}
