//! What is read back of the settings of nodes, and what is said of it.

ghost use Rattle.std.specs.Prelude.{◌≡◌, ◌++◌, length, OnOk, IfOk};
ghost use Rattle.cop_plan.specs.Plans.{IsPlan};
ghost use Rattle.cop_dcf.specs.Settings.{dictionary_of};
ghost use Rattle.cop_commission.specs.Readings.{is_at, is_set_again, questions_about, node_questions, settings_questions, can_store, storing, storing_at, storing_questions, standing_by, standing_read, standing_after, standing_of, standing_line, standing_lines};

use crate::relied::add_relied;
use crate::told::{question_about, told_settings};
use cop_boot::{End, Manager, Setting};
use cop_boot_answer::{NodeLine, State};
use cop_identity::{Address, Answer, Demand, Exchange, Outcome, Question};
use cop_net::Network;
use cop_plan::Plan;
use cop_readback::{ReadBack, is_wanted};
use std::alloc::{AllocError, Global};

// Whether a setting is at the address of another.
fn is_at(setting: &Setting, other: &Setting) -> bool
    ensures { result ≡ is_at setting.now other.now }
{
    other.index == setting.index && other.sub == setting.sub
}

/// Whether a later setting is at the same address.
pub fn is_set_again(setting: &Setting, rest: &[Setting]) -> bool
    ensures { result ≡ is_set_again setting.now rest.now }
{
    rest.iter().any(|later| is_at(setting, later))
}

// Adds the questions whether a node has settings: of each address the last.
fn add_questions(
    questions: &mut Vec<Question>,
    node: u8,
    settings: &[Setting],
) -> Result<(), AllocError>
    ensures { OnOk result (questions.new.items ≡ questions.old.items ++ questions_about node settings.now) }
{
    match settings {
        [] => Ok(()),
        [setting, rest @ ..] => {
            if !is_set_again(setting, rest) {
                questions.push(question_about(node, setting))?;
            }
            add_questions(questions, node, rest)
        }
    }
}

// Adds the questions whether a node has what a plan relies on that sets this in it, and then whether it has these settings.
fn add_node(
    questions: &mut Vec<Question>,
    network: &Network<'_>,
    node: u8,
    settings: &[Setting],
) -> Result<(), AllocError>
    ensures { OnOk result (questions.new.items ≡ questions.old.items ++ node_questions node (dictionary_of network.now node) settings.now) }
{
    if let Some(dict) = network.dictionary(node) {
        add_relied(questions, node, dict, settings)?;
    }
    add_questions(questions, node, settings)
}

/// The questions whether nodes of a network have what a plan relies on, and its settings, by what they told of their COB-IDs. Otherwise want of
/// memory.
pub fn settings_questions(
    alloc: Global,
    plan: &Plan,
    network: &Network<'_>,
    told: &[Exchange],
    nodes: &[u8],
) -> Result<Vec<Question>, AllocError>
    requires { IsPlan network.now.equipment.rates network.now.set (length network.now.rows) plan.now }
    ensures { IfOk result (λ questions. questions.items ≡ settings_questions network.now plan.now.ids told.now nodes.now) }
{
    let mut questions = Vec::new(alloc);
    for node in nodes {
        let settings = told_settings(alloc, plan, network, told, *node)?;
        add_node(&mut questions, network, *node, &settings)?;
    }
    Ok(questions)
}

// Whether the device of a node can store what it has, by its EDS file.
fn can_store(network: &Network<'_>, node: u8) -> bool
    ensures { result ≡ can_store network.now node }
{
    match network.dictionary(node) {
        Some(dict) => dict.entry(0x1010, 1).is_some(),
        None => false,
    }
}

// That a node is to store what it has: the bytes of "save" are written.
fn storing(node: u8) -> Question
    ensures { result ≡ storing node }
{
    Question {
        node,
        demand: Demand::Take,
        at: Address {
            index: 0x1010,
            sub: 1,
        },
        wanted: 0x6576_6173,
    }
}

// Adds that a node is to store what it has, if its device can.
fn add_storing(
    questions: &mut Vec<Question>,
    network: &Network<'_>,
    node: u8,
) -> Result<(), AllocError>
    ensures { OnOk result (questions.new.items ≡ questions.old.items ++ storing_at network.now node) }
{
    if can_store(network, node) {
        questions.push(storing(node))?;
    }
    Ok(())
}

/// That each of some nodes is to store what it has, where its device can. Otherwise want of memory.
pub fn storing_questions(
    alloc: Global,
    network: &Network<'_>,
    nodes: &[u8],
) -> Result<Vec<Question>, AllocError>
    ensures { IfOk result (λ questions. questions.items ≡ storing_questions network.now nodes.now) }
{
    let mut questions = Vec::new(alloc);
    for node in nodes {
        add_storing(&mut questions, network, *node)?;
    }
    Ok(questions)
}

// Where the outcome of a question leaves a node.
fn standing_by(asked: &Exchange) -> State
    ensures { result ≡ standing_by asked.now }
{
    let at = asked.question.at;
    match asked.outcome {
        Outcome::Answered {
            answer: Answer::Wanted,
        } => State::Ready,
        Outcome::Answered {
            answer: Answer::Other { found },
        } => State::Differs { at, found },
        Outcome::Answered {
            answer: Answer::Aborted { code },
        } => State::Aborted { at, code },
        Outcome::Silent => State::Silent,
        Outcome::Unasked => State::Restarting,
    }
}

// Where the first question to a node that was not answered as it should be leaves it.
fn standing_read(node: u8, all: &[Exchange]) -> State
    ensures { result ≡ standing_read node all.now }
{
    match all {
        [] => State::Ready,
        [asked, rest @ ..] => {
            if asked.question.node == node && !is_wanted(&asked.outcome) {
                standing_by(asked)
            } else {
                standing_read(node, rest)
            }
        }
    }
}

/// Where a node stands by the end of its boot, and by what was read back.
pub fn standing_after(end: Option<End>, read: State) -> State
    ensures { result ≡ standing_after end read }
{
    match end {
        Some(End::Ready) => read,
        Some(
            End::Aborted {
                index,
                sub,
                code,
                ..
            },
        ) => State::Aborted {
            at: Address { index, sub },
            code,
        },
        Some(End::Silent { .. }) => State::Silent,
        Some(End::Restarting { .. }) | None => State::Restarting,
    }
}

// Where a node stands.
fn standing_of(manager: &Manager, back: &ReadBack, node: u8) -> State
    ensures { result ≡ standing_of manager.now back.now node }
{
    if back.booted.has(node) {
        State::Restarting
    } else {
        standing_after(manager.end(node), standing_read(node, &back.exchanges))
    }
}

// The line of a node.
fn standing_line(manager: &Manager, back: &ReadBack, node: u8) -> NodeLine
    ensures { result ≡ standing_line manager.now back.now node }
{
    NodeLine {
        node,
        state: standing_of(manager, back, node),
    }
}

/// What is said of some nodes after a boot whose settings were read back. Otherwise want of memory.
pub fn standing_lines(
    alloc: Global,
    manager: &Manager,
    nodes: &[u8],
    back: &ReadBack,
) -> Result<Vec<NodeLine>, AllocError>
    ensures { IfOk result (λ lines. lines.items ≡ standing_lines manager.now nodes.now back.now) }
{
    let mut lines = Vec::new(alloc);
    for node in nodes {
        lines.push(standing_line(manager, back, *node))?;
    }
    Ok(lines)
}
