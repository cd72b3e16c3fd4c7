//! The objects that a device holds.

ghost use Rattle.std.specs.Prelude.{◌≡◌, ◌≤◌, ◌++◌, OnOk, find, true, false};
ghost use Rattle.std.specs.List.Sorted.{IsPartitionPoint};
ghost use Rattle.std.specs.Option.{option_map};
ghost use Rattle.cop_eds.specs.Lines.{Gives};
ghost use Rattle.cop_eds.specs.Steps.{each};
ghost use Rattle.cop_eds.specs.Lists.{subs_of, described_sub, checked_object};
ghost use Rattle.cop_eds.specs.Objects.{object_in, held_subs, objects_at, is_at, is_before, AreSorted};

use crate::description::{Description, Object, described};
use crate::fault::{EdsFault, missing};
use crate::line::Place;
use crate::sections::Sections;
use crate::subs::{next_sub, own_place};
use std::alloc::AllocError;

/// Adds the object that a section describes, where that holds a value.
fn push_object(
    objects: &mut Vec<Object>,
    index: u64,
    sub: u64,
    place: Place,
    description: Description,
) -> Result<(), AllocError>
    ensures { OnOk result (objects.new.items ≡ objects.old.items ++ object_in index sub place (Ok description)) }
{
    if !description.object_type.holds_value() {
        return Ok(());
    }
    let Some(access) = description.access else {
        return Ok(());
    };
    objects.push(Object {
        index,
        sub,
        place,
        data_type: description.data_type,
        access,
        is_mappable: description.is_mappable,
    })?;
    Ok(())
}

/// The sub sections of an index keep their rules. Their objects are added where the index holds them. The section that was
/// met last is noted.
fn read_subs(
    objects: &mut Vec<Object>,
    met: &mut usize,
    text: &Sections<'_>,
    index: u64,
    holds_subs: bool,
) -> Result<(), EdsFault>
    requires { index ≤ 65535 }
    ensures value { Gives (λ done. done) result (each (described_sub text.now) (subs_of text.now index)) }
    ensures added { OnOk result (objects.new.items ≡ objects.old.items ++ held_subs text.now index holds_subs (subs_of text.now index)) }
{
    let mut from = 0;
    while let Some((sub, place)) = next_sub(text, *met, index, from) {
        *met = place.section;
        let description = described(text, place)?;
        if holds_subs {
            push_object(objects, index, sub, place, description)?;
        }
        from = sub + 1;
    }
    Ok(())
}

#[tactic(auto, unfolding(crate::specs::Lists::checked_object, crate::specs::Objects::objects_at))]
/// The object that an entry at this line names has a section; its keys and those of its sub sections keep their rules.
/// The objects at the index are added. The section that was met last is noted.
pub fn read_object(
    objects: &mut Vec<Object>,
    met: &mut usize,
    text: &Sections<'_>,
    line: usize,
    index: u64,
) -> Result<(), EdsFault>
    ensures value { Gives (λ done. done) result (checked_object text.now line index) }
    ensures added { OnOk result (objects.new.items ≡ objects.old.items ++ objects_at text.now index) }
{
    let place = own_place(text, *met, index).ok_or(missing(line))?;
    *met = place.section;
    let description = described(text, place)?;
    let holds_subs = description.object_type.holds_subs();
    if !holds_subs {
        push_object(objects, index, 0, place, description)?;
    }
    read_subs(objects, met, text, index, holds_subs)
}

fn is_at(object: &Object, index: u16, sub: u8) -> bool
    ensures { result ≡ is_at index sub object.now }
{
    object.index == u64::from(index) && object.sub == u64::from(sub)
}

fn is_before(object: &Object, index: u16, sub: u8) -> bool
    ensures { result ≡ is_before index sub object.now }
{
    let index = u64::from(index);
    object.index < index || (object.index == index && object.sub < u64::from(sub))
}

/// How many objects stand before this index and sub.
fn count_before(objects: &[Object], index: u16, sub: u8) -> usize
    ensures { AreSorted objects.now → IsPartitionPoint (λ object. is_before index sub object ≡ true) (λ object. is_before index sub object ≡ false) objects.now result }
{
    objects.partition_point(|object| is_before(object, index, sub))
}

/// The section of the object at this index and sub.
pub fn object_in(objects: &[Object], index: u16, sub: u8) -> Option<usize>
    ensures { AreSorted objects.now → result ≡ option_map (λ object. object.place.section) (find (is_at index sub) objects.now) }
{
    let place = count_before(objects, index, sub);
    let object = objects.get(place)?;
    if is_at(object, index, sub) {
        Some(object.place.section)
    } else {
        None
    }
}
