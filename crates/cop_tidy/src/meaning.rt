//! Whether the strict reading takes a text for a device.

ghost use Rattle.std.specs.Prelude.{◌≡◌, ◌↔◌, ◌<◌, ◌&&◌, ◌||◌, ◌==◌, ℕ, Ok, IsTrue, IfOk, OnOk};
ghost use Rattle.std.specs.List.{Contains};
ghost use Rattle.std.specs.Ordering.{nat_cmp};
ghost use Rattle.std.specs.BTreeSet.{contains};
ghost use Rattle.cop_frame.specs.declared.rates.Rate.{Rate};
ghost use Rattle.cop_eds_hazards.specs.Listed.{is_listed, AreListed};
ghost use Rattle.cop_tidy_device.specs.Device.{dictionary_for};
ghost use Rattle.cop_tidy.specs.Taken.{IsTaken};
ghost use Rattle.cop_tidy.specs.Meant.{has_each, is_among, IsInBoth, HaveSameSlow, HaveSameFast, HasRates, HasLists, HasAll, IsOf};

use crate::taking::Taken;
use cop_dict::Dictionary;
use cop_eds::Eds;
use cop_eds_hazards::listed_indexes;
use cop_frame::{Rate, RateSet};
use cop_tidy_device::{Device, is_dictionary_of};
use std::alloc::{AllocError, Global};
use std::collections::BTreeSet;

/// Whether these are the dictionaries of a device for the first and for the last node.
fn has_dictionaries(first: &Dictionary, last: &Dictionary, device: &Device) -> bool
    ensures { IsTrue result ↔ ((first.now ≡ dictionary_for 1 device.now) × (last.now ≡ dictionary_for 127 device.now)) }
{
    is_dictionary_of(first, device, 1) && is_dictionary_of(last, device, 127)
}

/// The set of some rates.
fn set_of_rates(rates: &[Rate]) -> RateSet
    ensures { (rate : Rate) → Contains result rate ↔ Contains rates.now rate }
{
    let mut set = RateSet::new();
    let mut rest = rates;
    while let Some((rate, others)) = rest.split_first() {
        set.insert(*rate);
        rest = others;
    }
    set
}

/// Whether a rate is in both sets, or in neither.
#[tactic(auto, unfolding(crate::specs::Meant::IsInBoth))]
fn is_in_both(left: &RateSet, right: &RateSet, rate: Rate) -> bool
    ensures { IsTrue result ↔ IsInBoth left.now right.now rate }
{
    left.contains(rate) == right.contains(rate)
}

/// Whether each of the four slowest rates is.
#[tactic(auto, unfolding(crate::specs::Meant::HaveSameSlow))]
fn have_same_slow(left: &RateSet, right: &RateSet) -> bool
    ensures { IsTrue result ↔ HaveSameSlow left.now right.now }
{
    is_in_both(left, right, Rate::Kbit10)
        && is_in_both(left, right, Rate::Kbit20)
        && is_in_both(left, right, Rate::Kbit50)
        && is_in_both(left, right, Rate::Kbit125)
}

/// Whether each of the four fastest is.
#[tactic(auto, unfolding(crate::specs::Meant::HaveSameFast))]
fn have_same_fast(left: &RateSet, right: &RateSet) -> bool
    ensures { IsTrue result ↔ HaveSameFast left.now right.now }
{
    is_in_both(left, right, Rate::Kbit250)
        && is_in_both(left, right, Rate::Kbit500)
        && is_in_both(left, right, Rate::Kbit800)
        && is_in_both(left, right, Rate::Kbit1000)
}

/// Whether each of the eight rates is.
fn have_same_by_name(left: &RateSet, right: &RateSet) -> bool
    ensures { IsTrue result ↔ (HaveSameSlow left.now right.now × HaveSameFast left.now right.now) }
{
    have_same_slow(left, right) && have_same_fast(left, right)
}

/// Whether two sets have the same rates.
pub fn are_same_rates(left: &RateSet, right: &RateSet) -> bool
    ensures { IsTrue result ↔ ((rate : Rate) → Contains left.now rate ↔ Contains right.now rate) }
{
    have_same_by_name(left, right)
}

/// Whether a text supports exactly these rates.
fn has_rates(eds: &Eds<'_>, rates: &[Rate]) -> bool
    ensures { IsTrue result ↔ HasRates eds.now rates.now }
{
    are_same_rates(&eds.rates(), &set_of_rates(rates))
}

fn add(indexes: &mut BTreeSet<u64>, added: u64) -> Result<(), AllocError>
    ensures { OnOk result ((index : ℕ) → contains nat_cmp indexes.new index ≡ (contains nat_cmp indexes.old index || (index == added))) }
{
    indexes.insert(added)?;
    Ok(())
}

/// The set of some indexes.
fn set_of(alloc: Global, indexes: &[u64]) -> Result<BTreeSet<u64>, AllocError>
    ensures { IfOk result (λ set. (index : ℕ) → contains nat_cmp set index ≡ is_among indexes.now index) }
{
    let mut set = BTreeSet::new(alloc);
    let mut rest = indexes;
    while let Some((index, others)) = rest.split_first() {
        add(&mut set, *index)?;
        rest = others;
    }
    Ok(set)
}

/// Whether a set has each index of 16 bits of another one.
fn has_each(indexes: &BTreeSet<u64>, others: &BTreeSet<u64>) -> bool
    ensures { result ≡ has_each indexes.now others.now.keys }
{
    others
        .iter()
        .all(|index| 0x10000 <= *index || indexes.contains(index))
}

/// Whether two sets have each other's indexes of 16 bits.
fn have_each(left: &BTreeSet<u64>, right: &BTreeSet<u64>) -> bool
    ensures { result ≡ has_each left.now right.now.keys && has_each right.now left.now.keys }
{
    has_each(left, right) && has_each(right, left)
}

/// Whether the lists of a text name the same indexes of 16 bits as a set has.
fn are_listed_alike(eds: &Eds<'_>, named: &BTreeSet<u64>, indexes: &BTreeSet<u64>) -> bool
    requires { AreListed eds.now named.now }
    ensures { IsTrue result ↔ ((index : ℕ) → index < 0x10000 → is_listed eds.now index ≡ contains nat_cmp indexes.now index) }
{
    have_each(named, indexes)
}

/// Whether the lists of a text name exactly these indexes, of those of 16 bits.
#[tactic(auto, unfolding(crate::specs::Meant::HasLists))]
fn has_lists(alloc: Global, eds: &Eds<'_>, listed: &[u64]) -> Result<bool, AllocError>
    ensures { IfOk result (λ b. IsTrue b ↔ HasLists eds.now listed.now) }
{
    let named = listed_indexes(alloc, eds)?;
    let indexes = set_of(alloc, listed)?;
    Ok(are_listed_alike(eds, &named, &indexes))
}

/// Whether a text, of which this is taken, has the dictionaries, the rates and the lists of a device.
fn has_all(alloc: Global, eds: &Eds<'_>, taken: &Taken, device: &Device) -> Result<bool, AllocError>
    ensures { IfOk result (λ b. IsTrue b ↔ HasAll eds.now taken.now.first taken.now.last device.now) }
{
    let has_lists = has_lists(alloc, eds, &device.listed)?;
    Ok(
        has_dictionaries(&taken.first, &taken.last, device)
            && has_rates(eds, &device.rates)
            && has_lists,
    )
}

/// Whether the strict reading takes a text, of which this is taken, for a device.
pub fn is_of(
    alloc: Global,
    eds: &Eds<'_>,
    taken: &Taken,
    device: &Device,
) -> Result<bool, AllocError>
    requires { IsTaken eds.now taken.now }
    ensures { IfOk result (λ b. IsTrue b ↔ IsOf eds.now device.now) }
{
    let has_all = has_all(alloc, eds, taken, device)?;
    Ok(has_all)
}
