//! Places filled from the lowest on.

ghost use Rattle.std.specs.Prelude.{◌≡◌, ◌<◌, ◌≤◌, ◌+◌, ◌*◌, ◌^◌, ℕ, true, not, length, IfSome, IfNone, IfOk, nat_lt, ◌&&◌, All, AllPairs};
ghost use Rattle.cop_rta.specs.Test.{Passes, is_flagged};
ghost use Rattle.cop_rta.specs.Sums.{sum_where};
ghost use Rattle.cop_cert.specs.Evidence.{is_listed};
ghost use Rattle.cop_cert.specs.Sets.{is_in_trial};
ghost use Rattle.cop_rta.specs.Placing.{place_in};
ghost use Rattle.cop_plan.specs.Fillings.{AreTrialOf, IsFilled, is_flagged_pdo, looked_at};

use cop_frame::Rate;
use cop_rta::{Place, StreamSet};
use std::alloc::{AllocError, Global};

/// How many trials were made, and how many busy times were sought for them. A trial is the judging of one PDO for one
/// place; all trials for a place share one busy time.
#[derive(Clone, Copy, PartialEq, Eq, Debug)]
pub struct Count {
    pub trials: u64,
    pub busy: u64,
}

/// The places of a range as they are filled.
#[derive(Drop)]
pub(crate) struct Filled {
    /// The PDOs that have a place; that of the lowest comes first.
    pub(crate) placed: Vec<usize>,
    /// Those that have none, by rising number: none of them passes with the others above it.
    pub(crate) left: Vec<usize>,
}

/// Whether a PDO has no place yet.
fn is_left(place: &Place<'_, '_>, pdo: usize) -> bool
    requires { pdo < length place.now.streams }
    ensures { result ≡ is_flagged place.now.flags pdo }
{
    !place.is_below(pdo)
}

/// The last of the PDOs that have no place yet that passes at the place.
fn last_passing(place: &Place<'_, '_>, pdos: usize, count: &mut Count) -> Option<usize>
    requires pdos { pdos ≤ length place.now.streams }
    requires room { count.old.trials + pdos < 2 ^ 64 }
    ensures busy { count.new.busy ≡ count.old.busy }
    ensures rises { count.old.trials ≤ count.new.trials }
    ensures trials { count.new.trials ≤ count.old.trials + sum_where (is_flagged place.now.flags) (λ _. 1) pdos }
    ensures one { IfSome result (λ _. count.old.trials + 1 ≤ count.new.trials) }
    ensures each { IfNone result (count.old.trials + sum_where (is_flagged place.now.flags) (λ _. 1) pdos ≤ count.new.trials) }
    ensures inside { IfSome result (λ p. p < pdos) }
    ensures flagged { IfSome result (λ p. is_flagged place.now.flags p ≡ true) }
    ensures passes { IfSome result (λ p. Passes (place_in place.now p)) }
    ensures last { IfSome result (λ p. (r : ℕ) → r < pdos → p < r → is_flagged place.now.flags r ≡ true → Passes (place_in place.now r) → ⊥) }
    ensures none { IfNone result ((r : ℕ) → r < pdos → is_flagged place.now.flags r ≡ true → Passes (place_in place.now r) → ⊥) }
{
    for done in 0..pdos {
        let pdo = pdos - 1 - done;
        if is_left(place, pdo) {
            count.trials += 1;
            if place.passes(pdo) {
                return Some(pdo);
            }
        }
    }
    None
}

/// How many are flagged.
fn how_many(flags: &[bool]) -> usize
    ensures number { result ≡ sum_where (is_flagged flags.now) (λ _. 1) (length flags.now) }
    ensures most { result ≤ length flags.now }
{
    let mut found = 0;
    for k in 0..flags.len() {
        if flags[k] {
            found += 1;
        }
    }
    found
}

/// Flags each PDO, or none.
pub(crate) fn flag_all(pdos: usize, flag: bool, out: &mut [bool])
    requires { length out.old ≡ pdos }
    ensures size { length out.new ≡ pdos }
    ensures each { (k : ℕ) → k < pdos → is_flagged out.new k ≡ flag }
{
    for k in 0..pdos {
        out[k] = flag;
    }
}

/// Flags what is below the flagged PDOs: the other PDOs, and the fixed frames that have no identifier below a bound.
fn flag_below(set: &StreamSet, least: u16, start: &[bool], out: &mut [bool])
    requires flags { length out.old ≡ length set.now }
    requires pdos { length start.now ≤ length set.now }
    ensures size { length out.new ≡ length set.now }
    ensures each { (k : ℕ) → k < length set.now → is_flagged out.new k ≡ not (is_in_trial least set.now (length start.now) (is_flagged start.now) k) }
{
    for (k, stream) in set.streams().iter().enumerate() {
        out[k] = if k < start.len() {
            !start[k]
        } else {
            stream.id >= least
        };
    }
}

/// The PDOs that are not below a place.
fn left(alloc: Global, place: &Place<'_, '_>, pdos: usize) -> Result<Vec<usize>, AllocError>
    requires { pdos ≤ length place.now.streams }
    ensures exact { IfOk result (λ found. (k : ℕ) → is_listed found.items k ≡ (nat_lt k pdos && is_flagged place.now.flags k)) }
    ensures rise { IfOk result (λ found. AllPairs (λ m n. m < n) found.items) }
    ensures inside { IfOk result (λ found. All (λ m. m < pdos) found.items) }
    ensures count { IfOk result (λ found. length found.items ≡ sum_where (is_flagged place.now.flags) (λ _. 1) pdos) }
{
    let mut found = Vec::new(alloc);
    for pdo in 0..pdos {
        if is_left(place, pdo) {
            found.push(pdo)?;
        }
    }
    Ok(found)
}

/// The filling of the places from one on: at each the last PDO that passes there with the PDOs that have no place yet
/// above it. So many PDOs have none yet, one at least.
fn fill_from(
    alloc: Global,
    place: Place<'_, '_>,
    pdos: usize,
    size: usize,
    count: &mut Count,
) -> Result<Filled, AllocError>
    requires pdos { pdos ≤ length place.streams }
    requires few { length place.streams ≤ 1100 }
    requires long { length place.flags ≡ length place.streams }
    requires size { size ≡ sum_where (is_flagged place.flags) (λ _. 1) pdos }
    requires some { 1 ≤ size }
    requires most { size ≤ pdos }
    requires room { count.old.trials ≤ 2 ^ 33 }
    requires busy_room { count.old.busy ≤ 2 ^ 34 }
    ensures filled { IfOk result (λ filled. (bound : ℕ) → AreTrialOf bound place.entry.streams pdos place.entry.flags
        → IsFilled bound place.entry.rate place.entry.streams pdos (is_flagged_pdo pdos place.entry.flags) filled.placed.items (is_listed filled.left.items)) }
    ensures rise { IfOk result (λ filled. AllPairs (λ m n. m < n) filled.left.items) }
    ensures inside { IfOk result (λ filled. All (λ m. m < pdos) filled.left.items) }
    ensures number { IfOk result (λ filled. length filled.placed.items + length filled.left.items ≡ size) }
    ensures rises { count.old.trials ≤ count.new.trials }
    ensures trials { 2 * count.new.trials ≤ 2 * count.old.trials + size * (size + 1) }
    ensures least { IfOk result (λ _. count.old.trials + size ≤ count.new.trials) }
    ensures busy_rises { count.old.busy ≤ count.new.busy }
    ensures busy_most { count.new.busy + 1 ≤ count.old.busy + size }
    ensures busy { IfOk result (λ filled. count.new.busy + 1 ≡ count.old.busy + looked_at filled.placed.items filled.left.items) }
{
    let mut place = place;
    let mut fill = Vec::new(alloc);
    for placed in 0..size {
        let Some(pdo) = last_passing(&place, pdos, count) else {
            let left = left(alloc, &place, pdos)?;
            return Ok(Filled { placed: fill, left });
        };
        fill.push(pdo)?;
        if placed + 1 < size {
            place.lower(pdo);
            count.busy += 1;
        }
    }
    Ok(Filled {
        placed: fill,
        left: Vec::new(alloc),
    })
}

/// The filling of the places of a range at one rate by the flagged PDOs, from the least identifier on: at each the last that passes
/// there with those of them that have no place yet and the fixed frames below the range above it, and all others below.
///
/// With n flagged PDOs it makes n(n+1)/2 trials at most, and at least one for each. It seeks one busy time for each place that it
/// looks at, and none where no PDO is flagged. It counts both.
pub(crate) fn fill_range(
    alloc: Global,
    set: &StreamSet,
    rate: Rate,
    least: u16,
    start: &[bool],
    count: &mut Count,
) -> Result<Filled, AllocError>
    requires pdos { length start.now ≤ length set.now }
    requires room { count.old.trials ≤ 2 ^ 33 }
    requires busy_room { count.old.busy ≤ 2 ^ 33 }
    ensures filled { IfOk result (λ filled. IsFilled least rate set.now (length start.now) (is_flagged start.now) filled.placed.items (is_listed filled.left.items)) }
    ensures rise { IfOk result (λ filled. AllPairs (λ m n. m < n) filled.left.items) }
    ensures inside { IfOk result (λ filled. All (λ m. m < length start.now) filled.left.items) }
    ensures number { let size = sum_where (is_flagged start.now) (λ _. 1) (length start.now) in IfOk result (λ filled. length filled.placed.items + length filled.left.items ≡ size) }
    ensures rises { count.old.trials ≤ count.new.trials }
    ensures trials { let size = sum_where (is_flagged start.now) (λ _. 1) (length start.now) in 2 * count.new.trials ≤ 2 * count.old.trials + size * (size + 1) }
    ensures least { let size = sum_where (is_flagged start.now) (λ _. 1) (length start.now) in IfOk result (λ _. count.old.trials + size ≤ count.new.trials) }
    ensures busy_rises { count.old.busy ≤ count.new.busy }
    ensures busy_most { count.new.busy ≤ count.old.busy + sum_where (is_flagged start.now) (λ _. 1) (length start.now) }
    ensures busy_some { 1 ≤ sum_where (is_flagged start.now) (λ _. 1) (length start.now) → count.old.busy + 1 ≤ count.new.busy }
    ensures busy { IfOk result (λ filled. count.new.busy ≡ count.old.busy + looked_at filled.placed.items filled.left.items) }
{
    let size = how_many(start);
    if size == 0 {
        return Ok(Filled {
            placed: Vec::new(alloc),
            left: Vec::new(alloc),
        });
    }
    let mut flags = [false; StreamSet::MOST];
    let streams = set.streams();
    let below = &mut flags[..streams.len()];
    flag_below(set, least, start, below);
    let place = Place::new(set, below, rate);
    count.busy += 1;
    fill_from(alloc, place, start.len(), size, count)
}
