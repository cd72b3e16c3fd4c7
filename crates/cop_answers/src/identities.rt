//! Words on devices that are others than is planned.

use cop_identity::{Answer, Exchange, Outcome, Question};
use cop_logbook::abort_words;
use std::alloc::{AllocError, Global};

const ADVICE: &str =
    "nothing was written to any device: node numbers may be swapped, or another device stands at one; look at the numbers that are set in the devices, and at the column eds of the table of nodes\nwhere an EDS file is of another version of the device, --no-identity boots without asking\n";

/// The name of what is asked.
fn name_of(question: &Question) -> &'static str {
    match (question.at.index, question.at.sub) {
        (0x1000, _) => "the device type",
        (_, 1) => "the vendor",
        _ => "the product",
    }
}

/// The node whose EDS file says a value that was found at another one.
fn owner_of(exchanges: &[Exchange], question: &Question, found: u32) -> Option<u8> {
    for Exchange {
        question: other,
        ..
    } in exchanges {
        if other.at == question.at && other.wanted == found && other.node != question.node {
            return Some(other.node);
        }
    }
    None
}

/// What is said of the outcome of a question: nothing, where it is as wanted or there is none.
fn outcome_words(
    alloc: Global,
    exchanges: &[Exchange],
    exchange: &Exchange,
) -> Result<String, AllocError> {
    let Exchange { question, outcome } = exchange;
    let Question {
        node,
        at,
        wanted,
        ..
    } = *question;
    let (index, sub, name) = (at.index, at.sub, name_of(question));
    match *outcome {
        Outcome::Answered {
            answer: Answer::Other { found },
        } => match owner_of(exchanges, question, found) {
            Some(owner) => format!(in alloc;
                "node {node}: {name} ({index:04X}h sub {sub}) is {found:08X}h, and its EDS file says {wanted:08X}h; {found:08X}h is that of node {owner}\n"
            ),
            None => format!(in alloc;
                "node {node}: {name} ({index:04X}h sub {sub}) is {found:08X}h, and its EDS file says {wanted:08X}h\n"
            ),
        },
        Outcome::Answered {
            answer: Answer::Aborted { code },
        } => format!(in alloc;
            "node {node}: {name} ({index:04X}h sub {sub}) is not told: {}\n",
            abort_words(code)
        ),
        Outcome::Answered {
            answer: Answer::Wanted,
        }
        | Outcome::Silent
        | Outcome::Unasked => Ok(String::new(alloc)),
    }
}

/// What is said where some device is another one: what was found and wanted of each, and what may be behind it.
pub fn identity_notes(alloc: Global, exchanges: &[Exchange]) -> Result<Vec<u8>, AllocError> {
    let mut notes = Vec::new(alloc);
    for exchange in exchanges {
        let words = outcome_words(alloc, exchanges, exchange)?;
        notes.extend_from_slice(words.as_bytes())?;
    }
    notes.extend_from_slice(ADVICE.as_bytes())?;
    Ok(notes)
}
