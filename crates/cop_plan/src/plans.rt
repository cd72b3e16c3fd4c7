//! Plans: a rate, and identifiers for the PDOs.

ghost use Rattle.std.specs.Prelude.{◌≡◌, ◌≢◌, Some, option_map, ℕ, ◌+◌, ◌<◌, ◌≤◌, ◌∷◌, [], ◌++◌, false, length, reverse, get_or, IsSome, IfOk, OnOk, All, AllPairs};
ghost use Rattle.cop_rta.specs.declared.streams.Stream.{Stream};
ghost use Rattle.cop_rta.specs.Streams.{has_id};
ghost use Rattle.cop_cert.specs.Assignments.{least_id, id_under, IsPassing};
ghost use Rattle.cop_plan.specs.Fillings.{ArePlaced, ids_in_ranges};
ghost use Rattle.cop_plan.specs.Margins.{IsOrderTo, others_of};
ghost use Rattle.cop_plan.specs.Orders.{IsByPriority, id_at_place};
ghost use Rattle.cop_plan.specs.Planned.{IsPlanned};
ghost use Rattle.cop_plan.specs.Plans.{CanAssign};
ghost use Rattle.cop_rta.specs.Errors.{errors_of};
ghost use Rattle.cop_plan.specs.Values.{id_of, on_bus, others_beyond, timing_of, HaveIds, AreOnTime, HasTested};

use crate::choices::Kept;
use cop_cert::{Items, Refusal};
use cop_frame::Rate;
use cop_rta::{IdRange, SetFault, Stream, StreamSet};
use std::alloc::{AllocError, Global};
use std::marker::Model;

/// The slowest candidate rate at which some assignment of identifiers passes, and the assignment planned there.
/// The PDOs are the first streams, each under its identifier, which no fixed frame can have; each has a deadline and passes
/// the response-time test, and so does each SDO frame with a deadline.
#[derive(Drop)]
pub struct Plan {
    rate: Rate,
    order: Items<usize>,
    ids: Items<u16>,
    margin: Option<Kept>,
    refusals: Items<Refusal>,
    streams: StreamSet,
}

impl Model for Plan {
    ghost use Rattle.cop_plan.specs.Values.{PlanValue};
    ghost use Rattle.cop_plan.specs.Planned.{IsPlanned};

    ghost Value = { PlanValue };

    ghost view = { λ p. record { rate = p.rate; order = p.order; ids = p.ids; margin = p.margin; refusals = p.refusals; streams = p.streams } };

    ghost invariant = { λ p. IsPlanned (record { rate = p.rate; order = p.order; ids = p.ids; margin = p.margin; refusals = p.refusals; streams = p.streams }) };
}

impl Plan {
    /// The rate.
    pub fn rate(&self) -> Rate
        ensures { result ≡ self.now.rate }
    {
        self.rate
    }

    /// The PDOs' numbers from 0 on, by priority: that with the lowest identifier comes first.
    pub fn order(&self) -> &[usize]
        ensures order { result.now ≡ self.now.order }
        ensures planned { IsPlanned self.now }
    {
        self.order.as_slice()
    }

    /// The identifiers, by PDO number.
    pub fn ids(&self) -> &[u16]
        ensures ids { result.now ≡ self.now.ids }
        ensures planned { IsPlanned self.now }
    {
        self.ids.as_slice()
    }

    /// The greatest number of ticks by which each deadline can be lowered so that some assignment still passes at the rate, where the
    /// identifiers were chosen by margin: they pass with deadlines so lowered.
    pub fn margin(&self) -> Option<u64>
        ensures { result ≡ option_map (λ kept. kept.all) self.now.margin }
    {
        self.margin.map(|kept| kept.all)
    }

    /// The greatest number of ticks by which deadlines can be lowered, where none is lowered by more than its stream can have at its best
    /// place, if that is more than the margin of all. The identifiers, which were chosen by it, pass with deadlines so lowered.
    pub fn others(&self) -> Option<u64>
        ensures { result ≡ others_beyond self.now.margin }
    {
        match self.margin {
            Some(kept) => kept.beyond(),
            None => None,
        }
    }

    /// The refusals of the slower candidates, by rising rate.
    pub fn refusals(&self) -> &[Refusal]
        ensures { result.now ≡ self.now.refusals }
    {
        self.refusals.as_slice()
    }

    /// All streams under their final identifiers, the PDOs first.
    pub fn streams(&self) -> &StreamSet
        ensures items { result.now ≡ self.now.streams }
        ensures on_time { AreOnTime self.now.rate self.now.streams (length self.now.ids) }
        ensures planned { IsPlanned self.now }
    {
        &self.streams
    }

    /// The same plan on the bus alone, if its streams count disturbed transfers: without these, and with NMT under its own identifier. What
    /// passes with them passes without them. It has no refusals. `Err` is want of memory.
    pub fn on_bus(&self, alloc: Global) -> Result<Plan, AllocError>
        requires { IsSome (errors_of self.now.streams) }
        ensures { IfOk result (λ plan. plan ≡ on_bus self.now) }
    {
        let streams = self.streams();
        let _distinct = streams.streams();
        Ok(Plan {
            rate: self.rate,
            order: copied(alloc, self.order.as_slice())?,
            ids: copied(alloc, self.ids.as_slice())?,
            margin: self.margin,
            refusals: Items::new(alloc),
            streams: streams.on_bus(alloc)?,
        })
    }

    /// The same plan, whose identifiers are also those of a margin.
    pub(crate) fn keeping(self, kept: Kept) -> Plan
        ensures margin { result.margin ≡ Some kept }
        ensures rate { result.rate ≡ self.rate }
        ensures order { result.order ≡ self.order }
        ensures ids { result.ids ≡ self.ids }
        ensures refusals { result.refusals ≡ self.refusals }
        ensures streams { result.streams ≡ self.streams }
    {
        let Plan {
            rate,
            order,
            ids,
            refusals,
            streams,
            ..
        } = self;
        Plan {
            rate,
            order,
            ids,
            margin: Some(kept),
            refusals,
            streams,
        }
    }

    /// The refusals alone.
    pub(crate) fn into_refusals(self) -> Items<Refusal>
        ensures { result ≡ self.refusals }
    {
        self.refusals
    }
}

/// A copy of some values.
fn copied<T: Copy>(alloc: Global, values: &[T]) -> Result<Items<T>, AllocError>
    ensures { IfOk result (λ items. items ≡ values.now) }
{
    let mut copy = Vec::new(alloc);
    copy.extend_from_slice(values)?;
    Ok(copy.into())
}

/// The identifier at a place from the top, of which so many are of the first range.
fn id_at_place(first: usize, place: usize) -> u16
    requires first { place < first → place < 1023 }
    requires second { first ≤ place → place < first + 96 }
    ensures id { result ≡ id_at_place first place }
    ensures range { result < 2048 }
    ensures permitted { least_id ≤ result }
{
    if place < first {
        IdRange::FIRST.least + place as u16
    } else {
        IdRange::SECOND.least + (place - first) as u16
    }
}

/// The PDOs by priority: those of the first range and then those of the second. The fillings have the PDO of the lowest place first.
fn by_priority(alloc: Global, lower: &[usize], upper: &[usize]) -> Result<Vec<usize>, AllocError>
    ensures { IfOk result (λ order. order.items ≡ reverse upper.now ++ reverse lower.now) }
{
    let mut order = Vec::new(alloc);
    order.extend_from_slice(lower)?;
    order.extend_from_slice(upper)?;
    order.reverse();
    Ok(order)
}

/// The identifiers 181h, 182h, .. and 680h, 681h, .. by PDO number, for PDOs in the order of their priority, of which so many are of the
/// first range.
fn identifiers(alloc: Global, order: &[usize], first: usize) -> Result<Vec<u16>, AllocError>
    requires few { length order.now ≤ 512 }
    requires first { first ≤ length order.now }
    requires room { length order.now ≤ first + 96 }
    requires inside { All (λ p. p < length order.now) order.now }
    requires distinct { AllPairs (λ p r. p ≢ r) order.now }
    ensures count { IfOk result (λ ids. length ids.items ≡ length order.now) }
    ensures range { IfOk result (λ ids. All (λ id. id < 2048) ids.items) }
    ensures permitted { IfOk result (λ ids. All (λ id. least_id ≤ id) ids.items) }
    ensures places { IfOk result (λ ids. (i : ℕ) → i < length order.now → id_of ids.items (get_or order.now i 0) ≡ id_at_place first i) }
{
    let mut ids = vec![in alloc; IdRange::FIRST.least; order.len()]?;
    for (place, pdo) in order.iter().enumerate() {
        ids[*pdo] = id_at_place(first, place);
    }
    Ok(ids)
}

/// The stream under another identifier.
fn with_id(stream: &Stream, id: u16) -> Stream
    requires range { id < 2048 }
    requires synchronous { 1 ≤ stream.now.every → least_id ≤ id }
    ensures id { result.id ≡ id }
    ensures timing { timing_of result ≡ timing_of stream.now }
{
    let Stream {
        bytes,
        period,
        jitter,
        deadline,
        every,
        ..
    } = *stream;
    Stream {
        id,
        bytes,
        period,
        jitter,
        deadline,
        every,
    }
}

/// The identifier that a stream gets: a PDO that of its number, another stream its own.
fn id_at(streams: &[Stream], ids: &[u16], k: usize) -> u16
    requires index { k < length streams.now }
    requires range { All (λ id. id < 2048) ids.now }
    requires permitted { All (λ id. least_id ≤ id) ids.now }
    ensures id { result ≡ id_under streams.now (length ids.now) (id_of ids.now) k }
    ensures range { result < 2048 }
    ensures synchronous { (stream : Stream) → 1 ≤ (get_or streams.now k stream).every → least_id ≤ result }
{
    if k < ids.len() { ids[k] } else { streams[k].id }
}

/// Puts a stream at the end, which is known to be possible.
pub(crate) fn add(set: &mut StreamSet, stream: Stream) -> Result<(), AllocError>
    requires new { has_id set.old stream.id ≡ false }
    requires room { length set.old < 1100 }
    ensures { OnOk result (set.new ≡ set.old ++ stream ∷ []) }
{
    match set.push(stream) {
        Ok(()) => Ok(()),
        Err(SetFault::Memory) => Err(AllocError),
        Err(SetFault::Repeated) => unreachable!(),
        Err(SetFault::Full) => unreachable!(),
    }
}

/// The streams under the identifiers of the PDOs, which come first; the others keep theirs.
fn renamed(alloc: Global, set: &StreamSet, ids: &[u16]) -> Result<StreamSet, AllocError>
    requires range { All (λ id. id < 2048) ids.now }
    requires permitted { All (λ id. least_id ≤ id) ids.now }
    requires apart { (p k : ℕ) → p < length ids.now → k < length set.now → p ≢ k → id_of ids.now p ≢ id_under set.now (length ids.now) (id_of ids.now) k }
    ensures { IfOk result (HaveIds set.now (length ids.now) (id_of ids.now)) }
{
    let streams = set.streams();
    let mut renamed = StreamSet::new(alloc);
    for (k, stream) in streams.iter().enumerate() {
        add(&mut renamed, with_id(stream, id_at(streams, ids, k)))?;
    }
    Ok(renamed)
}

/// The plan of two fillings, of the second range and of the first, which were made for deadlines lowered to a margin, where there is
/// one. The first `pdos` streams are the PDOs.
pub(crate) fn planned(
    alloc: Global,
    set: &StreamSet,
    pdos: usize,
    rate: Rate,
    lower: &[usize],
    upper: &[usize],
    margin: Option<Kept>,
    refusals: Items<Refusal>,
) -> Result<Plan, AllocError>
    requires can { CanAssign set.now pdos }
    requires placed { ArePlaced pdos lower.now upper.now }
    requires order { IsOrderTo (others_of margin) rate set.now pdos (ids_in_ranges lower.now upper.now) }
    requires tested { 1 ≤ length lower.now → HasTested set.now pdos }
    ensures rate { IfOk result (λ plan. plan.rate ≡ rate) }
    ensures margin { IfOk result (λ plan. plan.margin ≡ margin) }
    ensures refusals { IfOk result (λ plan. plan.refusals ≡ refusals) }
    ensures count { IfOk result (λ plan. length plan.ids ≡ pdos) }
    ensures passing { IfOk result (λ plan. IsPassing rate set.now pdos (id_of plan.ids)) }
    ensures order { IfOk result (λ plan. IsOrderTo (others_of margin) rate set.now pdos (id_of plan.ids)) }
    ensures by_priority { IfOk result (λ plan. IsByPriority pdos (id_of plan.ids) plan.order) }
    ensures renamed { IfOk result (λ plan. HaveIds set.now pdos (id_of plan.ids) plan.streams) }
{
    let order = by_priority(alloc, lower, upper)?;
    let ids = identifiers(alloc, &order, upper.len())?;
    let streams = renamed(alloc, set, &ids)?;
    Ok(Plan {
        rate,
        order: order.into(),
        ids: ids.into(),
        margin,
        refusals,
        streams,
    })
}
