//! The nodes whose heartbeats are awaited after a start, and what is said of them.

ghost use Rattle.std.specs.Prelude.{◌≡◌, ◌++◌, OnOk, IfOk};
ghost use Rattle.cop_commission.specs.Heartbeats.{has_heartbeat, awaited_from, awaited_at, awaited_of, presence_said, beat_line, attendance_lines};

use cop_boot_answer::{NodeLine, State};
use cop_heartbeats::{Awaited, Heartbeats, Presence};
use cop_net::Network;
use std::alloc::{AllocError, Global};

// Whether a node has a heartbeat in a network.
fn has_heartbeat(network: &Network<'_>, node: u8) -> bool
    ensures { result ≡ has_heartbeat network.now node }
{
    network.heartbeat(node) != 0
}

// A node whose heartbeat has to come within one and a half of its time.
fn awaited_from(network: &Network<'_>, node: u8) -> Awaited
    ensures { result ≡ awaited_from network.now node }
{
    Awaited {
        node,
        time: u64::from(network.heartbeat(node)) * 6000,
    }
}

// Adds a node, if it has a heartbeat in a network.
fn add_awaited(
    awaited: &mut Vec<Awaited>,
    network: &Network<'_>,
    node: u8,
) -> Result<(), AllocError>
    ensures { OnOk result (awaited.new.items ≡ awaited.old.items ++ awaited_at network.now node) }
{
    if has_heartbeat(network, node) {
        awaited.push(awaited_from(network, node))?;
    }
    Ok(())
}

/// Those of some nodes of a network that have a heartbeat there. Otherwise want of memory.
pub fn awaited_of(
    alloc: Global,
    network: &Network<'_>,
    nodes: &[u8],
) -> Result<Vec<Awaited>, AllocError>
    ensures { IfOk result (λ awaited. awaited.items ≡ awaited_of network.now nodes.now) }
{
    let mut awaited = Vec::new(alloc);
    for node in nodes {
        add_awaited(&mut awaited, network, *node)?;
    }
    Ok(awaited)
}

// What is said of a node by what its heartbeats said.
fn presence_said(presence: Presence) -> State
    ensures { result ≡ presence_said presence }
{
    match presence {
        Presence::Operational => State::Operational,
        Presence::Unheard => State::Unheard,
        Presence::Late => State::Late,
    }
}

// The line of a node.
fn beat_line(heartbeats: &Heartbeats, one: Awaited) -> NodeLine
    ensures { result ≡ beat_line heartbeats.now one }
{
    NodeLine {
        node: one.node,
        state: presence_said(heartbeats.presence_of(one.node)),
    }
}

/// What is said of nodes whose heartbeats were awaited. Otherwise want of memory.
pub fn attendance_lines(
    alloc: Global,
    awaited: &[Awaited],
    heartbeats: &Heartbeats,
) -> Result<Vec<NodeLine>, AllocError>
    ensures { IfOk result (λ lines. lines.items ≡ attendance_lines awaited.now heartbeats.now) }
{
    let mut lines = Vec::new(alloc);
    for one in awaited {
        lines.push(beat_line(heartbeats, *one))?;
    }
    Ok(lines)
}
