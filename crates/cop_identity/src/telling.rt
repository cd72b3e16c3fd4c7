//! What devices tell once they have been reset.

ghost use Rattle.std.specs.Prelude.{◌≡◌, IfSome, IfNone, IfOk, OnErr};
ghost use Rattle.cop_identity.specs.Telling.{of_booted, WereTold, TellFails, ToldSome, told_by, told_of, told_at};

use crate::asking::{Exchange, Outcome, ask_all};
use crate::questions::{Answer, Question};
use cop_live::{NodeSet, Port, reset_and_await};
use cop_sdo::Address;
use std::alloc::{AllocError, Global};

// Of questions those to nodes that booted up.
fn of_booted(
    alloc: Global,
    booted: &NodeSet,
    questions: &[Question],
) -> Result<Vec<Question>, AllocError>
    ensures { IfOk result (λ asked. asked.items ≡ of_booted booted.now questions.now) }
{
    questions
        .iter()
        .copied()
        .filter(|question| booted.has(question.node))
        .collect(alloc)
}

/// Resets the communication of one node alone, or of all, awaits the boot-ups of some nodes for so many ticks at most, and asks the questions
/// to those that booted up. Where there is no question nothing is done. `None` where the port or its clock fails, and otherwise want of memory.
pub fn reset_and_ask<P: Port>(
    alloc: Global,
    nodes: &[u8],
    limit: u64,
    only: Option<u8>,
    questions: &[Question],
    port: &mut P,
) -> Result<Option<Vec<Exchange>>, AllocError>
    ensures told { IfOk result (λ told. IfSome told (λ all. WereTold P.reads P.writes P.asks only nodes.now limit questions.now port.old all.items port.new)) }
    ensures failed { IfOk result (λ told. IfNone told (TellFails P.reads P.writes P.asks P.fails only nodes.now limit questions.now port.old port.new)) }
    ensures short { OnErr result (ToldSome P.reads P.writes P.asks only nodes.now limit questions.now port.old port.new) }
{
    match questions {
        [] => Ok(Some(Vec::new(alloc))),
        [_, ..] => {
            let Some(booted) = reset_and_await(nodes, limit, only, port) else {
                return Ok(None);
            };
            let asked = of_booted(alloc, &booted, questions)?;
            ask_all(alloc, &asked, port)
        }
    }
}

// The value that a device told at a question.
fn told_by(asked: &Exchange) -> Option<u32>
    ensures { result ≡ told_by asked.now }
{
    match asked.outcome {
        Outcome::Answered {
            answer: Answer::Wanted,
        } => Some(asked.question.wanted),
        Outcome::Answered {
            answer: Answer::Other { found },
        } => Some(found),
        Outcome::Answered {
            answer: Answer::Aborted { .. },
        }
        | Outcome::Silent
        | Outcome::Unasked => None,
    }
}

// The value that the device of a node told of an object at a question, if that is what was asked.
fn told_of(asked: &Exchange, node: u8, at: Address) -> Option<u32>
    ensures { result ≡ told_of node at asked.now }
{
    let Question {
        node: number,
        at: Address { index, sub },
        ..
    } = asked.question;
    if number == node && index == at.index && sub == at.sub {
        told_by(asked)
    } else {
        None
    }
}

/// The value that the device of a node told of an object, the last time that it did.
pub fn told_at(all: &[Exchange], node: u8, at: Address) -> Option<u32>
    ensures { result ≡ told_at node at all.now }
{
    match all {
        [] => None,
        [asked, rest @ ..] => match told_at(rest, node, at) {
            Some(value) => Some(value),
            None => told_of(asked, node, at),
        },
    }
}
