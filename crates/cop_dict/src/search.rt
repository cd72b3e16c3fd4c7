//! Look-ups in objects that rise by index and sub.

ghost use Rattle.std.specs.Prelude.{◌≡◌, ◌==◌, ◌≤◌, ◌<◌, Some, None, IfOk, IfErr, IfSome, IfNone, true, false, length, slice_index_or};
ghost use Rattle.std.specs.List.{list_any};
ghost use Rattle.std.specs.List.Sorted.{IsPartitionPoint};
ghost use Rattle.std.specs.Option.{option_copied};
ghost use Rattle.cop_dict.specs.Find.{Entry, is_at, is_before, entry_at, IsSorted};
ghost use Rattle.cop_dict.specs.Dict.{found};

use crate::abort::Abort;
use crate::object::Object;

/// How many objects stand before an index and a sub.
fn count_before(objects: &[Object], index: u16, sub: u8) -> usize
    requires { IsSorted objects.now }
    ensures bound { result ≤ length objects.now }
    ensures parted { IsPartitionPoint (λ entry. is_before index sub entry ≡ true) (λ entry. is_before index sub entry ≡ false) objects.now result }
{
    objects.partition_point(|object| object.is_before(index, sub))
}

/// The place of the object at an index and a sub.
pub fn place_of(objects: &[Object], index: u16, sub: u8) -> Option<usize>
    requires { IsSorted objects.now }
    ensures inside { IfSome result (λ i. i < length objects.now) }
    ensures place { IfSome result (λ i. (d : Entry) → is_at index sub (slice_index_or objects.now i d) ≡ true) }
    ensures absent { IfNone result (entry_at objects.now index sub ≡ None) }
{
    let place = count_before(objects, index, sub);
    let object = objects.get(place)?;
    if object.is_at(index, sub) {
        Some(place)
    } else {
        None
    }
}

#[tactic(auto, using(crate::proofs::SearchLemmas::entry_here))]
/// The object at an index and a sub.
pub fn object_at(objects: &[Object], index: u16, sub: u8) -> Option<&Object>
    requires { IsSorted objects.now }
    ensures { option_copied result ≡ entry_at objects.now index sub }
{
    match place_of(objects, index, sub) {
        Some(place) => Some(&objects[place]),
        None => None,
    }
}

#[tactic(auto, using(crate::proofs::SearchLemmas::any_index))]
/// Whether any object has the index.
fn has_index(objects: &[Object], index: u16) -> bool
    requires { IsSorted objects.now }
    ensures { result ≡ list_any (λ entry. entry.index == index) objects.now }
{
    let place = count_before(objects, index, 0);
    match objects.get(place) {
        Some(object) => object.index() == index,
        None => false,
    }
}

#[tactic(auto, using(crate::proofs::SearchLemmas::entry_here))]
/// The place of the object at an index and a sub, or why there is none.
pub fn found_in(objects: &[Object], index: u16, sub: u8) -> Result<usize, Abort>
    requires { IsSorted objects.now }
    ensures inside { IfOk result (λ i. i < length objects.now) }
    ensures place { IfOk result (λ i. (d : Entry) → is_at index sub (slice_index_or objects.now i d) ≡ true) }
    ensures found { IfOk result (λ i. (d : Entry) → entry_at objects.now index sub ≡ Some (slice_index_or objects.now i d)) }
    ensures absent { IfErr result (λ abort. found objects.now index (entry_at objects.now index sub) ≡ Err abort) }
{
    if let Some(place) = place_of(objects, index, sub) {
        return Ok(place);
    }
    if has_index(objects, index) {
        Err(Abort::NoSub)
    } else {
        Err(Abort::NoObject)
    }
}
