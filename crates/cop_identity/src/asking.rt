//! Devices are asked over a port, question after question.

ghost use Rattle.std.specs.Prelude.{◌≡◌, None, IfSome, IfNone, IfOk, OnErr, option_to_list};
ghost use Rattle.cop_slcan.specs.Meaning.{told_of};
ghost use Rattle.cop_slcan.specs.Reading.{said_from, left_from, taken};
ghost use Rattle.cop_identity.specs.Asking.{answer_told, first_answer, WasAsked, WasNext, AskedAll, is_silent, silent_after, is_other, has_other};
ghost use Rattle.cop_identity.specs.Asking.{AskFails, NextFails, AskingFails, AskedSome};

use crate::questions::{Answer, Question, limit_of, request_of};
use cop_live::{Port, send};
use cop_slcan::{Reader, Said};
use std::alloc::{AllocError, Global};

/// What came of a question.
#[derive(Clone, Copy, Debug, PartialEq, Eq)]
pub enum Outcome {
    /// The device answered.
    Answered { answer: Answer },
    /// No answer came in 1 s, or in 10 s where a value was to be taken.
    Silent,
    /// It was not asked, since its node had not answered the one before.
    Unasked,
}

/// A question, and what came of it.
#[derive(Clone, Copy, Debug, PartialEq, Eq)]
pub struct Exchange {
    pub question: Question,
    pub outcome: Outcome,
}

// What a line answers.
fn answer_told(question: &Question, said: &Said) -> Option<Answer>
    ensures { result ≡ answer_told question.now (told_of said.now) }
{
    match said {
        Said::Heard(frame) => question.answer_in(frame),
        Said::Done | Said::Refused | Said::Other => None,
    }
}

// What a byte answers, if it ends a line.
fn answer_at(question: &Question, reader: &mut Reader, byte: u8) -> Option<Answer>
    ensures reader { reader.new ≡ (taken reader.old byte).0 }
    ensures found { result ≡ first_answer question.now (option_to_list (taken reader.old byte).1) }
{
    match reader.take(byte) {
        Some(said) => answer_told(question, &said),
        None => None,
    }
}

/// The first answer in bytes.
pub fn answer_from(question: &Question, reader: &mut Reader, bytes: &[u8]) -> Option<Answer>
    ensures found { result ≡ first_answer question.now (said_from reader.old bytes.now) }
    ensures reader { result ≡ None → reader.new ≡ left_from reader.old bytes.now }
{
    match bytes {
        [] => None,
        [byte, rest @ ..] => match answer_at(question, reader, *byte) {
            Some(answer) => Some(answer),
            None => answer_from(question, reader, rest),
        },
    }
}

/// Asks a question, and waits for the answer, as long as `limit_of` says. `None` where the port or its clock fails.
pub fn ask<P: Port>(question: &Question, port: &mut P) -> Option<Outcome>
    ensures asked { IfSome result (λ outcome. WasAsked P.reads P.writes P.asks question.now port.old outcome port.new) }
    ensures failed { IfNone result (AskFails P.reads P.writes P.asks P.fails question.now port.old port.new) }
{
    let Some(began) = port.now() else {
        return None;
    };
    if !send(port, &request_of(question)) {
        return None;
    }
    let limit = limit_of(question.demand);
    let mut reader = Reader::new();
    for _turn in 0..u64::MAX {
        let Some(now) = port.now() else {
            return None;
        };
        if now.saturating_sub(began) >= limit {
            return Some(Outcome::Silent);
        }
        let mut buffer = [0; 256];
        let Some(count) = port.read(&mut buffer) else {
            return None;
        };
        if let Some(answer) = answer_from(question, &mut reader, &buffer[..count]) {
            return Some(Outcome::Answered { answer });
        }
    }
    None
}

// Whether a node is the one that was silent.
fn is_silent(silent: Option<u8>, node: u8) -> bool
    ensures { result ≡ is_silent silent node }
{
    match silent {
        Some(number) => number == node,
        None => false,
    }
}

// The node that was silent last.
fn silent_after(silent: Option<u8>, node: u8, outcome: Outcome) -> Option<u8>
    ensures { result ≡ silent_after silent node outcome }
{
    match outcome {
        Outcome::Silent => Some(node),
        Outcome::Answered { .. } | Outcome::Unasked => silent,
    }
}

// Asks a question, unless its node was silent.
fn ask_next<P: Port>(silent: Option<u8>, question: &Question, port: &mut P) -> Option<Outcome>
    ensures asked { IfSome result (λ outcome. WasNext P.reads P.writes P.asks (is_silent silent question.now.node) question.now port.old outcome port.new) }
    ensures failed { IfNone result (NextFails P.reads P.writes P.asks P.fails (is_silent silent question.now.node) question.now port.old port.new) }
{
    if is_silent(silent, question.node) {
        Some(Outcome::Unasked)
    } else {
        ask(question, port)
    }
}

/// Asks questions in their order, and waits for each answer as long as `limit_of` says; a node that was silent is not asked again. Those of one node stand together.
/// `None` where the port or its clock fails, and otherwise want of memory.
pub fn ask_all<P: Port>(
    alloc: Global,
    questions: &[Question],
    port: &mut P,
) -> Result<Option<Vec<Exchange>>, AllocError>
    ensures asked { IfOk result (λ asked. IfSome asked (λ all. AskedAll P.reads P.writes P.asks questions.now port.old all.items port.new)) }
    ensures failed { IfOk result (λ asked. IfNone asked (AskingFails P.reads P.writes P.asks P.fails questions.now port.old port.new)) }
    ensures short { OnErr result (AskedSome P.reads P.writes P.asks questions.now port.old port.new) }
{
    let mut all = Vec::new(alloc);
    let mut silent = None;
    for question in questions {
        let Some(outcome) = ask_next(silent, question, port) else {
            return Ok(None);
        };
        silent = silent_after(silent, question.node, outcome);
        all.push(Exchange {
            question: *question,
            outcome,
        })?;
    }
    Ok(Some(all))
}

// Whether the device answered with another value.
fn is_other(outcome: &Outcome) -> bool
    ensures { result ≡ is_other outcome.now }
{
    matches!(
        outcome,
        Outcome::Answered {
            answer: Answer::Other { .. }
        }
    )
}

/// Whether some device answered with another value than is wanted.
pub fn has_other(all: &[Exchange]) -> bool
    ensures { result ≡ has_other all.now }
{
    all.iter().any(|asked| is_other(&asked.outcome))
}
