//! What is said of nodes by what came of the questions to them.

ghost use Rattle.std.specs.Prelude.{◌≡◌, find, IfOk};
ghost use Rattle.cop_verify.specs.Telling.{is_identity, found_at, shown_by, is_to, is_asked, is_wrong_at, unfaulted, state_of, verify_line, verify_answer, is_as_planned, are_planned};

use cop_boot_answer::{BootAnswer, NodeLine, State};
use cop_identity::{Address, Answer, Exchange, Outcome};
use cop_readback::is_wanted;
use std::alloc::{AllocError, Global};

// Whether an object tells which device it is.
fn is_identity(at: Address) -> bool
    ensures { result ≡ is_identity at }
{
    at.index == 0x1000 || at.index == 0x1018
}

// What another value than is wanted shows.
fn found_at(at: Address, found: u32) -> State
    ensures { result ≡ found_at at found }
{
    if is_identity(at) {
        State::Other { at, found }
    } else {
        State::Differs { at, found }
    }
}

// What the outcome of a question shows.
fn shown_by(asked: &Exchange) -> State
    ensures { result ≡ shown_by asked.now }
{
    let at = asked.question.at;
    match asked.outcome {
        Outcome::Answered {
            answer: Answer::Wanted,
        } => State::AsPlanned,
        Outcome::Answered {
            answer: Answer::Other { found },
        } => found_at(at, found),
        Outcome::Answered {
            answer: Answer::Aborted { code },
        } => State::Aborted { at, code },
        Outcome::Silent => State::Silent,
        Outcome::Unasked => State::Unasked,
    }
}

// Whether a question is to a node.
fn is_to(node: u8, asked: &Exchange) -> bool
    ensures { result ≡ is_to node asked.now }
{
    asked.question.node == node
}

// Whether some question is.
fn is_asked(node: u8, all: &[Exchange]) -> bool
    ensures { result ≡ is_asked node all.now }
{
    all.iter().any(|asked| is_to(node, asked))
}

// Whether a question to a node was not answered as it should be.
fn is_wrong_at(node: u8, asked: &Exchange) -> bool
    ensures { result ≡ is_wrong_at node asked.now }
{
    is_to(node, asked) && !is_wanted(&asked.outcome)
}

// The first question to a node that was not answered as it should be.
fn first_wrong(node: u8, all: &[Exchange]) -> Option<Exchange>
    ensures { result ≡ find (is_wrong_at node) all.now }
{
    match all {
        [] => None,
        [asked, rest @ ..] => {
            if is_wrong_at(node, asked) {
                Some(*asked)
            } else {
                first_wrong(node, rest)
            }
        }
    }
}

// What is said of a node of which no question was answered otherwise.
fn unfaulted(asked: bool) -> State
    ensures { result ≡ unfaulted asked }
{
    if asked {
        State::AsPlanned
    } else {
        State::Unasked
    }
}

// What is said of a node.
fn state_of(node: u8, all: &[Exchange]) -> State
    ensures { result ≡ state_of node all.now }
{
    match first_wrong(node, all) {
        Some(asked) => shown_by(&asked),
        None => unfaulted(is_asked(node, all)),
    }
}

// The line of a node.
fn verify_line(all: &[Exchange], node: u8) -> NodeLine
    ensures { result ≡ verify_line all.now node }
{
    NodeLine {
        node,
        state: state_of(node, all),
    }
}

/// What is said of some nodes by what came of the questions to them: of each the first that was not answered as it should be, or that it is as
/// planned; a node that was asked nothing is unasked. Otherwise want of memory.
pub fn verify_answer(
    alloc: Global,
    nodes: &[u8],
    all: &[Exchange],
) -> Result<BootAnswer, AllocError>
    ensures { IfOk result (λ answer. answer ≡ verify_answer nodes.now all.now) }
{
    let mut lines = Vec::new(alloc);
    for node in nodes {
        lines.push(verify_line(all, *node))?;
    }
    Ok(BootAnswer {
        nodes: lines,
        started: None,
        heartbeats: Vec::new(alloc),
    })
}

// Whether a node is as planned.
fn is_as_planned(state: State) -> bool
    ensures { result ≡ is_as_planned state }
{
    matches!(state, State::AsPlanned)
}

/// Whether each node of some lines is as planned.
pub fn are_planned(lines: &[NodeLine]) -> bool
    ensures { result ≡ are_planned lines.now }
{
    lines.iter().all(|line| is_as_planned(line.state))
}
