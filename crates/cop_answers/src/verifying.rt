//! Words on devices that are not as planned.

use crate::booting::silence_words;
use cop_boot_answer::{BootAnswer, State};
use cop_frame::Rate;
use cop_identity::{Answer, Exchange, Outcome, Question};
use cop_logbook::abort_words;
use std::alloc::{AllocError, Global};

const ADVICE: &str =
    "nothing was written to any device; boot --port sets what the plan sets, and --restore has a device go back to the values that it left the factory with\n";

/// Who has the value that is wanted.
fn source_of(question: &Question) -> &'static str {
    match question.at.index {
        0x1000 | 0x1018 => "its EDS file says",
        _ => "the plan has",
    }
}

/// What is said of the outcome of a question: nothing, where it is as wanted or there is none.
fn outcome_words(alloc: Global, exchange: &Exchange) -> Result<String, AllocError> {
    let Exchange { question, outcome } = exchange;
    let Question {
        node,
        at,
        wanted,
        ..
    } = *question;
    let (index, sub) = (at.index, at.sub);
    match *outcome {
        Outcome::Answered {
            answer: Answer::Other { found },
        } => {
            let source = source_of(question);
            format!(in alloc;
                "node {node}: {index:04X}h sub {sub} is {found:08X}h, and {source} {wanted:08X}h\n"
            )
        }
        Outcome::Answered {
            answer: Answer::Aborted { code },
        } => format!(in alloc;
            "node {node}: {index:04X}h sub {sub} is not told: {}\n",
            abort_words(code)
        ),
        Outcome::Silent => format!(in alloc;
            "node {node}: no answer came in 1 s where {index:04X}h sub {sub} was asked for\n"
        ),
        Outcome::Answered {
            answer: Answer::Wanted,
        }
        | Outcome::Unasked => Ok(String::new(alloc)),
    }
}

/// What is said below the lines of a verification: each answer that is not as wanted, and what to look at where no node answers.
pub fn verify_notes(
    alloc: Global,
    answer: &BootAnswer,
    exchanges: &[Exchange],
    rate: Rate,
) -> Result<Vec<u8>, AllocError> {
    let mut notes = Vec::new(alloc);
    for exchange in exchanges {
        notes.extend_from_slice(outcome_words(alloc, exchange)?.as_bytes())?;
    }
    if answer.nodes.iter().all(|line| line.state == State::Silent) {
        notes.extend_from_slice(silence_words(alloc, rate)?.as_bytes())?;
    } else if !notes.is_empty() {
        notes.extend_from_slice(ADVICE.as_bytes())?;
    }
    Ok(notes)
}
