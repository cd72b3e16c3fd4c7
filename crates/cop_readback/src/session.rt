//! A boot over a port whose settings are read back, and the start of the nodes.

ghost use Rattle.std.specs.Prelude.{◌≡◌, ◌&&◌, true, false, map, IfSome, IfNone, IfOk, OnErr};
ghost use Rattle.cop_live.specs.Log.{Sent, DidAll, BrokeOff};
ghost use Rattle.cop_readback.specs.Session.{none_booted, may_start, starts_of, ReadsBack, ReadBackFails, ReadBackStops};

use crate::reading::{all_wanted, are_ready, read_back};
use cop_boot::Manager;
use cop_identity::{Exchange, Question};
use cop_live::{NodeSet, Port, boot_over, send, start_of};
use std::alloc::{AllocError, Global};

/// How far a boot reaches.
#[derive(Clone, Copy, Debug, PartialEq, Eq)]
pub struct Reach {
    /// The node that is reset and started alone. Otherwise all are.
    pub only: Option<u8>,
    /// Whether the nodes are started where all are ready.
    pub start: bool,
}

impl Reach {
    // Whether nodes are started, where all are ready or not.
    fn starts(self, ready: bool) -> bool
        ensures { result ≡ self.start && ready }
    {
        self.start && ready
    }
}

/// What came of a boot whose settings were read back.
#[derive(Drop)]
pub struct ReadBack {
    /// What came of each question.
    pub exchanges: Vec<Exchange>,
    /// The nodes that booted up since the first question.
    pub booted: NodeSet,
    /// Whether all nodes are ready.
    pub ready: bool,
    /// Whether they were started.
    pub started: bool,
}

// Starts one node alone, or all, if they are to be started.
fn start<P: Port>(port: &mut P, only: Option<u8>, started: bool) -> bool
    ensures sent { result ≡ true → DidAll P.reads P.writes P.asks port.old (map Sent (starts_of only started)) port.new }
    ensures failed { result ≡ false → BrokeOff P.reads P.writes P.asks P.fails port.old (map Sent (starts_of only started)) port.new }
{
    !started || send(port, &start_of(only))
}

// Whether none of some nodes booted up.
fn none_booted(booted: &NodeSet, nodes: &[u8]) -> bool
    ensures { result ≡ none_booted booted.now nodes.now }
{
    nodes.iter().all(|node| !booted.has(*node))
}

// Whether the nodes may be started.
fn may_start(manager: &Manager, nodes: &[u8], exchanges: &[Exchange], booted: &NodeSet) -> bool
    ensures { result ≡ may_start manager.now nodes.now exchanges.now booted.now }
{
    let ready = manager.started() && are_ready(manager, nodes);
    ready && all_wanted(exchanges) && none_booted(booted, nodes)
}

/// Boots the nodes of a manager over a port, one alone or all, whatever bytes come, and at whatever moments; once the boot of each of some
/// nodes has ended, asks the questions in their order; and starts the nodes if they are to be started, where all are ready, each
/// question was answered as it should be, and none of them booted up meanwhile. `None` where the port or its clock fails, and otherwise want
/// of memory.
pub fn boot_and_read_back<P: Port>(
    alloc: Global,
    manager: &mut Manager,
    nodes: &[u8],
    questions: &[Question],
    reach: Reach,
    port: &mut P,
) -> Result<Option<ReadBack>, AllocError>
    ensures done { IfOk result (λ done. IfSome done (λ back. ReadsBack P.reads P.writes P.asks reach manager.old nodes.now questions.now port.old back.exchanges.items back.booted back.ready back.started manager.new port.new)) }
    ensures failed { IfOk result (λ done. IfNone done (ReadBackFails P.reads P.writes P.asks P.fails reach manager.old nodes.now questions.now port.old manager.new port.new)) }
    ensures short { OnErr result (ReadBackStops P.reads P.writes P.asks reach.only manager.old nodes.now questions.now port.old port.new) }
{
    let Some(mut boot) = boot_over(manager, nodes, reach.only, port) else {
        return Ok(None);
    };
    boot.booted = NodeSet::new();
    let Some(exchanges) = read_back(alloc, questions, manager, &mut boot, port)? else {
        return Ok(None);
    };
    let ready = may_start(manager, nodes, &exchanges, &boot.booted);
    let started = reach.starts(ready);
    if !start(port, reach.only, started) {
        return Ok(None);
    }
    Ok(Some(ReadBack {
        exchanges,
        booted: boot.booted,
        ready,
        started,
    }))
}
