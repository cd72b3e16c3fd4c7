//! What the devices of a network are asked about themselves, and what is said of their answers.

ghost use Rattle.std.specs.Prelude.{◌≡◌, ◌++◌, option_to_list, IfOk, OnOk};
ghost use Rattle.cop_commission.specs.Identities.{identity_at, question_at, questions_at, questions_to, questions_of, finding_by, weight, worse, finding_of, finding_said, identity_line, identity_answer};

use cop_boot_answer::{BootAnswer, NodeLine, State};
use cop_dict::Dictionary;
use cop_identity::{Address, Answer, Demand, Exchange, Outcome, Question};
use cop_net::Network;
use std::alloc::{AllocError, Global};

/// What the answers of a node say of its device.
#[derive(Clone, Copy)]
pub enum Finding {
    /// Nothing: it was not asked.
    Unasked,
    /// Each answer is as its EDS file says.
    AsPlanned,
    /// It does not tell what stands at an address, by this abort code.
    Aborted { at: Address, code: u32 },
    /// It did not answer.
    Silent,
    /// It is another device: this value stands at an address.
    Other { at: Address, found: u32 },
}

// The number that a dictionary has at an address; 0 says nothing.
fn identity_at(dict: &Dictionary, at: Address) -> Option<u32>
    ensures { result ≡ identity_at dict.now at }
{
    match dict.entry(at.index, at.sub) {
        Some(object) => match object.unsigned32() {
            Some(0) | None => None,
            Some(number) => Some(number as u32),
        },
        None => None,
    }
}

// The question to a node about an object, where its dictionary says what is wanted.
fn question_at(node: u8, dict: &Dictionary, at: Address) -> Option<Question>
    ensures { result ≡ question_at node dict.now at }
{
    match identity_at(dict, at) {
        Some(wanted) => Some(Question {
            node,
            demand: Demand::Tell,
            at,
            wanted,
        }),
        None => None,
    }
}

/// Adds a question, if there is one.
pub(crate) fn add(
    questions: &mut Vec<Question>,
    question: Option<Question>,
) -> Result<(), AllocError>
    ensures { OnOk result (questions.new.items ≡ questions.old.items ++ option_to_list question) }
{
    match question {
        Some(question) => questions.push(question)?,
        None => {}
    }
    Ok(())
}

/// Adds the questions to a node about its device type, vendor and product, where its dictionary says them and they are not 0. Otherwise want of
/// memory.
pub fn add_identity(
    questions: &mut Vec<Question>,
    node: u8,
    dict: &Dictionary,
) -> Result<(), AllocError>
    ensures { OnOk result (questions.new.items ≡ questions.old.items ++ questions_at node dict.now) }
{
    let device_type = Address {
        index: 0x1000,
        sub: 0,
    };
    let vendor = Address {
        index: 0x1018,
        sub: 1,
    };
    let product = Address {
        index: 0x1018,
        sub: 2,
    };
    add(questions, question_at(node, dict, device_type))?;
    add(questions, question_at(node, dict, vendor))?;
    add(questions, question_at(node, dict, product))
}

// Adds the questions to a node of a network.
fn add_node(
    questions: &mut Vec<Question>,
    network: &Network<'_>,
    node: u8,
) -> Result<(), AllocError>
    ensures { OnOk result (questions.new.items ≡ questions.old.items ++ questions_to network.now node) }
{
    match network.dictionary(node) {
        Some(dict) => add_identity(questions, node, dict),
        None => Ok(()),
    }
}

/// The questions to nodes of a network: of each its device type (1000h), vendor and product (1018h sub 1 and 2), where its EDS file says
/// them and they are not 0. Otherwise want of memory.
pub fn questions_of(
    alloc: Global,
    network: &Network<'_>,
    nodes: &[u8],
) -> Result<Vec<Question>, AllocError>
    ensures { IfOk result (λ questions. questions.items ≡ questions_of network.now nodes.now) }
{
    let mut questions = Vec::new(alloc);
    for node in nodes {
        add_node(&mut questions, network, *node)?;
    }
    Ok(questions)
}

// What the outcome of a question says.
fn finding_by(asked: &Exchange) -> Finding
    ensures { result ≡ finding_by asked.now }
{
    let at = asked.question.at;
    match asked.outcome {
        Outcome::Answered {
            answer: Answer::Wanted,
        } => Finding::AsPlanned,
        Outcome::Answered {
            answer: Answer::Other { found },
        } => Finding::Other { at, found },
        Outcome::Answered {
            answer: Answer::Aborted { code },
        } => Finding::Aborted { at, code },
        Outcome::Silent => Finding::Silent,
        Outcome::Unasked => Finding::Unasked,
    }
}

// How much a finding says against a device.
fn weight(finding: Finding) -> u8
    ensures { result ≡ weight finding }
{
    match finding {
        Finding::Unasked => 0,
        Finding::AsPlanned => 1,
        Finding::Aborted { .. } => 2,
        Finding::Silent => 3,
        Finding::Other { .. } => 4,
    }
}

// The finding that says more, and the first of two that say as much.
fn worse(first: Finding, second: Finding) -> Finding
    ensures { result ≡ worse first second }
{
    if weight(second) <= weight(first) {
        first
    } else {
        second
    }
}

// What the answers of a node say of its device.
pub(crate) fn finding_of(node: u8, all: &[Exchange]) -> Finding
    ensures { result ≡ finding_of node all.now }
{
    match all {
        [] => Finding::Unasked,
        [asked, rest @ ..] => {
            let later = finding_of(node, rest);
            if asked.question.node == node {
                worse(finding_by(asked), later)
            } else {
                later
            }
        }
    }
}

// What is said of a node's device.
pub(crate) fn finding_said(finding: Finding) -> State
    ensures { result ≡ finding_said finding }
{
    match finding {
        Finding::Unasked => State::Unasked,
        Finding::AsPlanned => State::AsPlanned,
        Finding::Aborted { at, code } => State::Aborted { at, code },
        Finding::Silent => State::Silent,
        Finding::Other { at, found } => State::Other { at, found },
    }
}

// The line of a node.
fn identity_line(all: &[Exchange], node: u8) -> NodeLine
    ensures { result ≡ identity_line all.now node }
{
    NodeLine {
        node,
        state: finding_said(finding_of(node, all)),
    }
}

/// What is said where some device is another one: the line of each of some nodes, and that they were not started. Otherwise want of memory.
pub fn identity_answer(
    alloc: Global,
    nodes: &[u8],
    all: &[Exchange],
) -> Result<BootAnswer, AllocError>
    ensures { IfOk result (λ answer. answer ≡ identity_answer nodes.now all.now) }
{
    let mut lines = Vec::new(alloc);
    for node in nodes {
        lines.push(identity_line(all, *node))?;
    }
    Ok(BootAnswer {
        nodes: lines,
        started: Some(false),
        heartbeats: Vec::new(alloc),
    })
}
