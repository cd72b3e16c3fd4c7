//! What is said of a boot whose line failed.

ghost use Rattle.std.specs.Prelude.{◌≡◌, IfOk};
ghost use Rattle.cop_commission.specs.Unended.{unended_state, unended_line, started_if, unended_answer};

use crate::readings::standing_after;
use cop_boot::{End, Manager};
use cop_boot_answer::{BootAnswer, NodeLine, State};
use std::alloc::{AllocError, Global};

// Where a node stands by the end of its boot, if that has ended.
fn unended_state(end: Option<End>) -> State
    ensures { result ≡ unended_state end }
{
    match end {
        None => State::Unfinished,
        Some(_) => standing_after(end, State::Ready),
    }
}

// The line of a node.
fn unended_line(manager: &Manager, node: u8) -> NodeLine
    ensures { result ≡ unended_line manager.now node }
{
    NodeLine {
        node,
        state: unended_state(manager.end(node)),
    }
}

// What is said of the start of the nodes.
fn started_if(started: bool) -> Option<bool>
    ensures { result ≡ started_if started }
{
    if started { Some(true) } else { None }
}

/// What is said of a boot over a line that failed: the line of each of some nodes by the end of its boot, as far as it came, and whether the
/// start of the nodes was sent. Otherwise want of memory.
pub fn unended_answer(
    alloc: Global,
    manager: &Manager,
    nodes: &[u8],
    started: bool,
) -> Result<BootAnswer, AllocError>
    ensures { IfOk result (λ answer. answer ≡ unended_answer manager.now nodes.now started) }
{
    let mut lines = Vec::new(alloc);
    for node in nodes {
        lines.push(unended_line(manager, *node))?;
    }
    Ok(BootAnswer {
        nodes: lines,
        started: started_if(started),
        heartbeats: Vec::new(alloc),
    })
}
