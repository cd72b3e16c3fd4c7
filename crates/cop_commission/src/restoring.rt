//! Devices that take the values that they left the factory with before a boot (CiA 301, object 1011h).

ghost use Rattle.std.specs.Prelude.{◌≡◌, ◌++◌, IfOk, OnOk};
ghost use Rattle.cop_commission.specs.Restoring.{can_restore, restoring, restoring_at, restoring_questions, restores_for, is_untaken, has_untaken, restoring_said, restoring_line, restoring_answer};

use crate::identities::{finding_of, finding_said};
use cop_boot_answer::{BootAnswer, NodeLine, State};
use cop_identity::{Address, Answer, Demand, Exchange, Outcome, Question};
use cop_net::Network;
use std::alloc::{AllocError, Global};

// Whether the device of a node can take them, by its EDS file.
fn can_restore(network: &Network<'_>, node: u8) -> bool
    ensures { result ≡ can_restore network.now node }
{
    match network.dictionary(node) {
        Some(dict) => dict.entry(0x1011, 1).is_some(),
        None => false,
    }
}

// That a node is to take them: the bytes of "load" are written.
fn restoring(node: u8) -> Question
    ensures { result ≡ restoring node }
{
    Question {
        node,
        demand: Demand::Take,
        at: Address {
            index: 0x1011,
            sub: 1,
        },
        wanted: 0x6461_6F6C,
    }
}

// Adds that a node is to take them, if its device can.
fn add_restoring(
    questions: &mut Vec<Question>,
    network: &Network<'_>,
    node: u8,
) -> Result<(), AllocError>
    ensures { OnOk result (questions.new.items ≡ questions.old.items ++ restoring_at network.now node) }
{
    if can_restore(network, node) {
        questions.push(restoring(node))?;
    }
    Ok(())
}

// That each of some nodes is to, where its device can. Otherwise want of memory.
fn restoring_questions(
    alloc: Global,
    network: &Network<'_>,
    nodes: &[u8],
) -> Result<Vec<Question>, AllocError>
    ensures { IfOk result (λ questions. questions.items ≡ restoring_questions network.now nodes.now) }
{
    let mut questions = Vec::new(alloc);
    for node in nodes {
        add_restoring(&mut questions, network, *node)?;
    }
    Ok(questions)
}

/// That each of some nodes is to take the values that it left the factory with, where its device can, if that is asked for. Otherwise want of
/// memory.
pub fn restores_for(
    alloc: Global,
    restore: bool,
    network: &Network<'_>,
    nodes: &[u8],
) -> Result<Vec<Question>, AllocError>
    ensures { IfOk result (λ questions. questions.items ≡ restores_for restore network.now nodes.now) }
{
    if restore {
        restoring_questions(alloc, network, nodes)
    } else {
        Ok(Vec::new(alloc))
    }
}

// Whether a device has not taken what it was to take.
fn is_untaken(outcome: &Outcome) -> bool
    ensures { result ≡ is_untaken outcome.now }
{
    !matches!(
        outcome,
        Outcome::Answered {
            answer: Answer::Wanted
        }
    )
}

/// Whether some device has not.
pub fn has_untaken(all: &[Exchange]) -> bool
    ensures { result ≡ has_untaken all.now }
{
    all.iter().any(|exchange| is_untaken(&exchange.outcome))
}

// What is said of a node that was to take them.
fn restoring_said(state: State) -> State
    ensures { result ≡ restoring_said state }
{
    match state {
        State::AsPlanned => State::Restored,
        state => state,
    }
}

// The line of a node.
fn restoring_line(all: &[Exchange], node: u8) -> NodeLine
    ensures { result ≡ restoring_line all.now node }
{
    NodeLine {
        node,
        state: restoring_said(finding_said(finding_of(node, all))),
    }
}

/// What is said where some device did not take them: the line of each of some nodes, and that they were not started. Otherwise want of memory.
pub fn restoring_answer(
    alloc: Global,
    nodes: &[u8],
    all: &[Exchange],
) -> Result<BootAnswer, AllocError>
    ensures { IfOk result (λ answer. answer ≡ restoring_answer nodes.now all.now) }
{
    let mut lines = Vec::new(alloc);
    for node in nodes {
        lines.push(restoring_line(all, *node))?;
    }
    Ok(BootAnswer {
        nodes: lines,
        started: Some(false),
        heartbeats: Vec::new(alloc),
    })
}
