//! Whether the objects and the rates of an accepted text stay.

ghost use Rattle.std.specs.Prelude.{◌≡◌, ◌⊎◌, ◌↔◌, IsTrue, All};
ghost use Rattle.cop_dict.specs.Find.{AreAlike, entry_at};
ghost use Rattle.cop_tidy.specs.Kept.{is_mistyped, is_absent, is_alone, is_unidentified, is_identified_now, IsLike, IsKept, AreKept, HasNone, HaveSame, AreAllKept};

use crate::identifying::{has_identifier, is_record};
use crate::meaning::are_same_rates;
use crate::taking::Taken;
use cop_dict::{Access, DataType, Description, Dictionary, Object};
use cop_frame::RateSet;

/// Whether an entry is a sub 1 of another type than CiA 301 says.
fn is_mistyped(entry: &Object) -> bool
    ensures { result ≡ is_mistyped entry.now }
{
    let is_number = matches!(entry.description().data_type, DataType::Unsigned32);
    entry.sub() == 1 && !is_number
}

/// Whether an object has no sub 1.
fn is_absent(dict: &Dictionary, index: u16) -> bool
    ensures { result ≡ is_absent (entry_at dict.now index 1) }
{
    match dict.entry(index, 1) {
        Some(_) => false,
        None => true,
    }
}

/// Whether an entry is a sub 0 of an object without a sub 1.
fn is_alone(dict: &Dictionary, entry: &Object) -> bool
    ensures { result ≡ is_alone dict.now entry.now }
{
    entry.sub() == 0 && is_absent(dict, entry.index())
}

/// Whether the record of a PDO has no identifier by this entry.
fn is_unidentified(dict: &Dictionary, entry: &Object) -> bool
    ensures { result ≡ is_unidentified dict.now entry.now }
{
    is_record(entry.index()) && (is_mistyped(entry) || is_alone(dict, entry))
}

/// Whether the record of a PDO had no identifier by this entry, and has one now.
fn is_identified_now(before: &Dictionary, after: &Dictionary, entry: &Object) -> bool
    ensures { result ≡ is_identified_now before.now after.now entry.now }
{
    is_unidentified(before, entry) && has_identifier(after, entry.index())
}

fn is_same_type(left: DataType, right: DataType) -> bool
    ensures { IsTrue result ↔ (right ≡ left) }
{
    right == left
}

fn is_same_access(left: Access, right: Access) -> bool
    ensures { IsTrue result ↔ (right ≡ left) }
{
    right == left
}

fn is_same_flag(left: bool, right: bool) -> bool
    ensures { IsTrue result ↔ (right ≡ left) }
{
    right == left
}

fn is_same_limit(left: Option<i128>, right: Option<i128>) -> bool
    ensures { IsTrue result ↔ (right ≡ left) }
{
    match (right, left) {
        (Some(right), Some(left)) => right == left,
        (None, None) => true,
        _ => false,
    }
}

fn are_same_bytes(left: &[u8], right: &[u8]) -> bool
    ensures { IsTrue result ↔ (right.now ≡ left.now) }
{
    right == left
}

/// Whether two descriptions have the same type, access and flag, and the same limits.
fn is_same_description(left: &Description, right: &Description) -> bool
    ensures { IsTrue result ↔ (right.now ≡ left.now) }
{
    is_same_type(left.data_type, right.data_type)
        && is_same_access(left.access, right.access)
        && is_same_flag(left.is_mappable, right.is_mappable)
        && is_same_limit(left.low, right.low)
        && is_same_limit(left.high, right.high)
}

/// Whether two entries have the same type, access, flag, limits and value.
fn are_alike(entry: &Object, other: &Object) -> bool
    ensures { IsTrue result ↔ AreAlike entry.now other.now }
{
    is_same_description(&entry.description(), &other.description())
        && are_same_bytes(entry.value(), other.value())
}

/// Whether a dictionary has what an entry is, at its place.
fn is_like(dict: &Dictionary, entry: &Object) -> bool
    ensures { IsTrue result ↔ IsLike entry.now (entry_at dict.now entry.now.index entry.now.sub) }
{
    match dict.entry(entry.index(), entry.sub()) {
        Some(other) => are_alike(entry, other),
        None => false,
    }
}

/// Whether an entry of a dictionary stands in another, or its record has an identifier there that it had not.
#[tactic(auto, using(crate::proofs::KeptLemmas::either_kept))]
fn is_kept(before: &Dictionary, after: &Dictionary, entry: &Object) -> bool
    ensures { IsTrue result ↔ IsKept before.now after.now entry.now }
{
    is_identified_now(before, after, entry) || is_like(after, entry)
}

/// Whether each entry of a dictionary stands in another.
#[tactic(auto, unfolding(crate::specs::Kept::AreKept))]
fn are_kept(before: &Dictionary, after: &Dictionary) -> bool
    ensures { IsTrue result ↔ AreKept before.now after.now }
{
    for entry in before.entries() {
        if !is_kept(before, after, entry) {
            return false;
        }
    }
    true
}

/// Whether a set has no rate.
#[tactic(auto, unfolding(crate::specs::Kept::HasNone))]
fn has_none(rates: &RateSet) -> bool
    ensures { IsTrue result ↔ HasNone rates.now }
{
    match rates.slowest() {
        Some(_) => false,
        None => true,
    }
}

/// Whether two sets have the same rates.
#[tactic(auto, unfolding(crate::specs::Kept::HaveSame))]
fn have_same(before: &RateSet, after: &RateSet) -> bool
    ensures { IsTrue result ↔ HaveSame before.now after.now }
{
    are_same_rates(before, after)
}

/// Whether a set has no rate, or the same as another.
fn are_rates_kept(before: &RateSet, after: &RateSet) -> bool
    ensures { IsTrue result ↔ (HasNone before.now ⊎ HaveSame before.now after.now) }
{
    has_none(before) || have_same(before, after)
}

/// Whether the objects and the rates that are taken of a text stay in another one.
pub fn are_all_kept(before: &Taken, after: &Taken) -> bool
    ensures { IsTrue result ↔ AreAllKept before.now after.now }
{
    are_kept(&before.first, &after.first)
        && are_kept(&before.last, &after.last)
        && are_rates_kept(&before.rates, &after.rates)
}
