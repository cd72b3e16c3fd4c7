//! The PDOs of nodes whose controllers do not send their waiting frames by identifier.

ghost use Rattle.std.specs.Prelude.{◌≡◌, ◌==◌, ◌<◌, ℕ, IfOk, length, slice_get};
ghost use Rattle.std.specs.Option.{option_map_or};
ghost use Rattle.cop_rta.specs.Test.{is_flagged};
ghost use Rattle.cop_figures.specs.Unsorted.{is_frame_of, last_id, is_up_to, node_at, IsUnsorted, AreUnsorted};

use cop_net::{Network, PdoRow};
use cop_plan::Plan;
use cop_rta::{Stream, Verdict, verdict};
use std::alloc::{AllocError, Global};

/// A PDO of a plan if its node's controller sends waiting frames in any order, and all other controllers by identifier.
#[derive(Clone, Copy, PartialEq, Eq, Debug)]
pub struct Unsorted {
    /// Its number: the place of its row in the table of PDOs, from 0 on.
    pub pdo: usize,
    /// What the response-time test says of it behind every frame with at most the greatest identifier of its node. The requests of
    /// SDO clients count as frames of other nodes.
    pub verdict: Verdict,
}

/// Whether an identifier is that of a node's emergency, SDO response or heartbeat.
fn is_frame_of(node: u8, id: u16) -> bool
    ensures { result ≡ is_frame_of node id }
{
    let node = u16::from(node);
    id == 0x80 + node || id == 0x580 + node || id == 0x700 + node
}

/// Whether a node sends the stream of a number.
fn sends(rows: &[PdoRow], node: u8, number: usize, stream: &Stream) -> bool
    ensures { result ≡ option_map_or (λ row. row.node == node) (slice_get rows.now number) (is_frame_of node stream.now.id) }
{
    match rows.get(number) {
        Some(row) => row.node == node,
        None => is_frame_of(node, stream.id),
    }
}

/// The greatest identifier that a node sends.
#[tactic(auto, using(cop_rta::specs::SumsLemmas::steps))]
fn last_id(rows: &[PdoRow], streams: &[Stream], node: u8) -> u16
    ensures { result ≡ last_id rows.now streams.now node }
{
    let mut last = 0;
    for (number, stream) in streams.iter().enumerate() {
        if sends(rows, node, number, stream) {
            last = last.max(stream.id);
        }
    }
    last
}

/// Flags the streams that have at most this identifier.
fn flag_up_to(streams: &[Stream], last: u16, out: &mut [bool])
    requires { length out.old ≡ length streams.now }
    ensures flags { length out.new ≡ length streams.now }
    ensures each { (k : ℕ) → is_flagged out.new k ≡ is_up_to streams.now last k }
{
    for (k, stream) in streams.iter().enumerate() {
        out[k] = stream.id <= last;
    }
}

/// The node of a PDO's row; 0 if it has none.
fn node_at(rows: &[PdoRow], pdo: usize) -> u8
    ensures { result ≡ node_at rows.now pdo }
{
    match rows.get(pdo) {
        Some(row) => row.node,
        None => 0,
    }
}

/// Flags the streams that have at most the greatest identifier of a PDO's node.
fn flag_before(streams: &[Stream], rows: &[PdoRow], pdo: usize, out: &mut [bool])
    requires { length out.old ≡ length streams.now }
    ensures flags { length out.new ≡ length streams.now }
    ensures each { (k : ℕ) → is_flagged out.new k ≡ is_up_to streams.now (last_id rows.now streams.now (node_at rows.now pdo)) k }
{
    flag_up_to(streams, last_id(rows, streams, node_at(rows, pdo)), out);
}

/// A PDO as if its node's controller did not sort. The flags are of the streams, and each is set anew.
fn unsorted_at(plan: &Plan, rows: &[PdoRow], ahead: &mut [bool], pdo: usize) -> Unsorted
    requires flags { length ahead.old ≡ length plan.now.streams }
    requires index { pdo < length plan.now.streams }
    ensures flags { length ahead.new ≡ length plan.now.streams }
    ensures pdo { result.pdo ≡ pdo }
    ensures judged { IsUnsorted rows.now plan.now result }
{
    let set = plan.streams();
    flag_before(set.streams(), rows, pdo, ahead);
    Unsorted {
        pdo,
        verdict: verdict(set, ahead, pdo, plan.rate()),
    }
}

/// The PDOs of a plan, each as if its node's controller did not sort. The flags are of the streams, and are set anew.
fn all_unsorted(
    alloc: Global,
    plan: &Plan,
    rows: &[PdoRow],
    ahead: &mut [bool],
) -> Result<Vec<Unsorted>, AllocError>
    requires { length ahead.old ≡ length plan.now.streams }
    ensures { IfOk result (λ all. AreUnsorted rows.now plan.now all.items) }
{
    let order = plan.order();
    let mut all = Vec::new(alloc);
    for pdo in order {
        all.push(unsorted_at(plan, rows, ahead, *pdo))?;
    }
    Ok(all)
}

/// The PDOs of a plan, that with the lowest identifier first, each as if its node's controller did not sort. `Err` is want of memory.
pub fn unsorted_of(
    alloc: Global,
    network: &Network<'_>,
    plan: &Plan,
) -> Result<Vec<Unsorted>, AllocError>
    ensures { IfOk result (λ all. AreUnsorted network.now.rows plan.now all.items) }
{
    let mut ahead = vec![in alloc; false; plan.streams().len()]?;
    all_unsorted(alloc, plan, network.rows(), &mut ahead)
}
