//! Reads, writes and resets of objects that rise by index and sub.

ghost use Rattle.std.specs.Prelude.{◌≡◌, ◌<◌, IfOk, IfErr, MatchResult, Ok, Err, true, length, slice_index_or};
ghost use Rattle.std.specs.Option.{ForSome};
ghost use Rattle.cop_dict.specs.declared.abort.Abort.TheVariants.{NoMemory};
ghost use Rattle.cop_dict.specs.Types.{width_of};
ghost use Rattle.cop_dict.specs.Find.{Entry, is_at, IsSorted};
ghost use Rattle.cop_dict.specs.Dict.{HasWidth, Grows, FitsAt, Follows, Reads, Writes, read_of, written, admitted, with_value, initial, initial_communication};

use crate::abort::Abort;
use crate::object::Object;
use crate::pdo::refused_by_pdos;
use crate::search::{found_in, place_of};

pub fn read_in(objects: &[Object], index: u16, sub: u8) -> Result<&[u8], Abort>
    requires { IsSorted objects.now }
    ensures { Reads (λ bytes. bytes.now) result (read_of objects.now index sub) }
{
    let place = found_in(objects, index, sub)?;
    let object = &objects[place];
    match object.description().refused_read() {
        Some(abort) => Err(abort),
        None => Ok(object.value()),
    }
}

pub fn admits_in(
    objects: &[Object],
    index: u16,
    sub: u8,
    size: Option<usize>,
) -> Result<Option<usize>, Abort>
    requires { IsSorted objects.now }
    ensures { result ≡ admitted objects.now index sub size }
{
    let place = found_in(objects, index, sub)?;
    let description = objects[place].description();
    match description.refused_size(size) {
        Some(abort) => Err(abort),
        None => Ok(description.data_type.width()),
    }
}

/// The place of the object that may be written with these bytes, or the first rule against it.
fn writable_in(objects: &[Object], index: u16, sub: u8, bytes: &[u8]) -> Result<usize, Abort>
    requires { IsSorted objects.now }
    ensures inside { IfOk result (λ i. i < length objects.now) }
    ensures place { IfOk result (λ i. (d : Entry) → is_at index sub (slice_index_or objects.now i d) ≡ true) }
    ensures fits { IfOk result (λ i. (d : Entry) → ForSome (width_of (slice_index_or objects.now i d).description.data_type) (λ width. length bytes.now ≡ width)) }
    ensures lawful { MatchResult result
        (λ _. written objects.now index sub bytes.now ≡ Ok (with_value index sub bytes.now objects.now))
        (λ abort. written objects.now index sub bytes.now ≡ Err abort) }
{
    let place = found_in(objects, index, sub)?;
    let object = &objects[place];
    if let Some(abort) = object.description().refused_write(bytes) {
        return Err(abort);
    }
    match refused_by_pdos(objects, object, bytes) {
        Some(abort) => Err(abort),
        None => Ok(place),
    }
}

pub fn write_in(objects: &mut [Object], index: u16, sub: u8, bytes: &[u8]) -> Result<(), Abort>
    requires { IsSorted objects.old }
    ensures exact { Writes result objects.old objects.new (written objects.old index sub bytes.now) }
    ensures in_place { HasWidth objects.old index sub → Follows result objects.new (written objects.old index sub bytes.now) }
    ensures memory { IfErr result (λ abort. abort ≡ NoMemory → Grows objects.old index sub bytes.now) }
    ensures sorted { IsSorted objects.new }
{
    let place = writable_in(objects, index, sub, bytes)?;
    objects[place].set(bytes)
}

pub fn store_in(objects: &mut [Object], index: u16, sub: u8, bytes: &[u8])
    requires sorted { IsSorted objects.old }
    requires fits { FitsAt objects.old index sub bytes.now }
    ensures value { objects.new ≡ with_value index sub bytes.now objects.old }
    ensures sorted { IsSorted objects.new }
{
    if let Some(place) = place_of(objects, index, sub) {
        objects[place].replace(bytes);
    }
}

pub fn reset_in(objects: &mut [Object])
    requires { IsSorted objects.old }
    ensures value { objects.new ≡ initial objects.old }
    ensures sorted { IsSorted objects.new }
{
    for object in objects.iter_mut() {
        object.reset();
    }
}

pub fn reset_communication_in(objects: &mut [Object])
    requires { IsSorted objects.old }
    ensures value { objects.new ≡ initial_communication objects.old }
    ensures sorted { IsSorted objects.new }
{
    for object in objects.iter_mut() {
        object.reset_communication();
    }
}
