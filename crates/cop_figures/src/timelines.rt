//! The bus over time, as a trace tells it.

ghost use Rattle.std.specs.Prelude.{◌≡◌, ◌==◌, IfOk, MatchResult, map, filter, take};
ghost use Rattle.std.specs.BTreeSet.{IsFromIterResult};
ghost use Rattle.std.specs.Ordering.{nat_cmp};
ghost use Rattle.cop_figures.specs.Timelines.{lane_of, AreLanes, IsTimeline, ExplainsTimeline};

use cop_bus::{BusFault, Transfer, first_late, judge, read_trace, transfers_of};
use cop_cert::Items;
use cop_plan::Plan;
use std::alloc::{AllocError, Global};
use std::collections::BTreeSet;

/// How many transfers are shown at most.
pub const MOST_SHOWN: usize = 5000;

/// The transfers of an identifier, in the order in which their instances are queued.
#[derive(Drop)]
pub struct Lane {
    pub id: u16,
    pub transfers: Items<Transfer>,
}

/// What a trace tells of the bus under a plan.
#[derive(Drop)]
pub struct Timeline {
    /// The end of the trace, in ticks of 250 ns.
    pub until: u64,
    /// How many transfers end in the trace.
    pub ended: usize,
    /// The first [`MOST_SHOWN`] of these, for each identifier that sends; the lowest identifier first.
    pub lanes: Vec<Lane>,
    /// The number, from 1, of the step that queues the first late instance. Under the plan of a network there is none.
    pub late: Option<usize>,
}

/// The identifiers that send.
fn ids_of(alloc: Global, transfers: &[Transfer]) -> Result<BTreeSet<u16>, AllocError>
    ensures { IfOk result (IsFromIterResult nat_cmp (map (λ t. t.id) transfers.now)) }
{
    transfers.iter().map(|transfer| transfer.id).collect(alloc)
}

/// The transfers of an identifier.
fn transfers_with(
    alloc: Global,
    transfers: &[Transfer],
    id: u16,
) -> Result<Vec<Transfer>, AllocError>
    ensures { IfOk result (λ found. found.items ≡ filter (λ t. t.id == id) transfers.now) }
{
    transfers
        .iter()
        .copied()
        .filter(|transfer| transfer.id == id)
        .collect(alloc)
}

/// The lane of an identifier.
fn lane_of(alloc: Global, transfers: &[Transfer], id: u16) -> Result<Lane, AllocError>
    ensures { IfOk result (λ lane. lane ≡ lane_of transfers.now id) }
{
    let found = transfers_with(alloc, transfers, id)?;
    Ok(Lane {
        id,
        transfers: Items::from(found),
    })
}

/// The lanes of some identifiers.
fn lanes_with(
    alloc: Global,
    transfers: &[Transfer],
    ids: &BTreeSet<u16>,
) -> Result<Vec<Lane>, AllocError>
    ensures { IfOk result (λ lanes. lanes.items ≡ map (lane_of transfers.now) ids.now.keys) }
{
    let mut lanes = Vec::new(alloc);
    for id in ids {
        lanes.push(lane_of(alloc, transfers, *id)?)?;
    }
    Ok(lanes)
}

#[tactic(auto, using(crate::proofs::TimelineLemmas::lanes_are))]
/// The lanes of some transfers.
fn lanes_of(alloc: Global, transfers: &[Transfer]) -> Result<Vec<Lane>, AllocError>
    ensures { IfOk result (λ lanes. AreLanes transfers.now lanes.items) }
{
    let ids = ids_of(alloc, transfers)?;
    lanes_with(alloc, transfers, &ids)
}

#[tactic(auto, using(std::proofs::lemmas::List::take_all))]
/// The first transfers, at most so many.
fn first_of(transfers: &[Transfer], most: usize) -> &[Transfer]
    ensures { result.now ≡ take most transfers.now }
{
    if most < transfers.len() {
        &transfers[..most]
    } else {
        transfers
    }
}

/// What a trace tells of the bus under a plan. Otherwise the first record that is none of a trace, the first step that breaks
/// a rule, or want of memory.
pub fn timeline_of(alloc: Global, plan: &Plan, trace: &[u8]) -> Result<Timeline, BusFault>
    ensures { MatchResult result (IsTimeline plan.now.rate plan.now.streams trace.now) (ExplainsTimeline plan.now.rate plan.now.streams trace.now) }
{
    let trace = read_trace(alloc, trace)?;
    let run = judge(alloc, plan.streams(), plan.rate(), &trace)?;
    let transfers = transfers_of(alloc, &run)?;
    Ok(Timeline {
        until: trace.until,
        ended: transfers.len(),
        lanes: lanes_of(alloc, first_of(&transfers, MOST_SHOWN))?,
        late: first_late(&run),
    })
}
