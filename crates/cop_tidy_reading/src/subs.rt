//! The objects at an index: one value, or the subs of an array or a record.

ghost use Rattle.std.specs.Prelude.{◌≡◌, IfOk};
ghost use Rattle.std.specs.Option.{option_to_list};
ghost use Rattle.cop_tidy_reading.specs.Questions.{all_of};
ghost use Rattle.cop_tidy_reading.specs.Gathering.{joined_by, vec_seen};
ghost use Rattle.cop_tidy_reading.specs.SeenValues.{seen};
ghost use Rattle.cop_tidy_reading.specs.Objects.{in_section, value_implied, object_implied, in_pdos, without_section, sub_object, subs_from, one_value, listed_value, objects_of};

use crate::combining::Earliest;
use crate::compact::{in_compact, is_compact_sub};
use crate::contents::Section;
use crate::gathering::{gather, gathered};
use crate::objects::{Main, Place, Whole};
use crate::pdos::Implied;
use crate::question::Question;
use cop_dict::DataType;
use cop_eds::Amount;
use cop_tidy_device::{DeviceObject, Value};
use std::alloc::{AllocError, Global};

/// The object of the section of a sub, where that holds a value.
fn in_section(
    alloc: Global,
    whole: &Whole<'_, '_>,
    main: &Main,
    sub: u64,
    section: Section,
) -> Result<Result<Option<DeviceObject>, Question>, AllocError>
    ensures { IfOk result (λ read. read ≡ in_section (seen whole.now) main.now sub section) }
{
    let object_type = whole.sub_kind(alloc, main.index, section)?;
    let place = Place {
        main: *main,
        sub: Some(sub),
        section,
        object_type,
    };
    whole.value_at(alloc, &place)
}

fn value_implied(amount: Option<Amount>) -> Value
    ensures { result ≡ value_implied amount }
{
    match amount {
        Some(amount) => Value::Number(amount),
        None => Value::Nothing,
    }
}

/// The sub of a record that is this by CompactPDO.
fn object_implied(index: u64, sub: u64, implied: Implied) -> DeviceObject
    ensures { result ≡ object_implied index sub implied }
{
    DeviceObject {
        index,
        sub,
        data_type: DataType::numbered(implied.data_type),
        access: implied.access,
        is_mappable: false,
        low: None,
        high: None,
        value: value_implied(implied.amount),
    }
}

/// The sub of a record that a device has by CompactPDO.
fn in_pdos(whole: &Whole<'_, '_>, index: u64, sub: u64) -> Option<DeviceObject>
    ensures { result ≡ in_pdos (seen whole.now) index sub }
{
    match whole.pdos.implied(whole.listed, index, sub) {
        Some(implied) => Some(object_implied(index, sub, implied)),
        None => None,
    }
}

/// The sub that has no section of its own: by the compact form, else by CompactPDO.
fn without_section(
    alloc: Global,
    whole: &Whole<'_, '_>,
    main: &Main,
    sub: u64,
) -> Result<Result<Option<DeviceObject>, Question>, AllocError>
    ensures { IfOk result (λ read. read ≡ without_section (seen whole.now) main.now sub main.now.section) }
{
    match main.section {
        Some(section) if is_compact_sub(main, sub) => in_compact(alloc, whole, main, sub, section),
        _ => Ok(Ok(in_pdos(whole, main.index, sub))),
    }
}

/// The sub of an array or a record: by its own section, else by the compact form, else by CompactPDO.
#[tactic(auto, unfolding(crate::specs::Objects::sub_object))]
fn sub_object(
    alloc: Global,
    whole: &Whole<'_, '_>,
    main: &Main,
    sub: u64,
) -> Result<Result<Option<DeviceObject>, Question>, AllocError>
    ensures { IfOk result (λ read. read ≡ sub_object (seen whole.now) main.now sub) }
{
    match whole.contents.sub(main.index, sub) {
        Some(section) => in_section(alloc, whole, main, sub, section),
        None => without_section(alloc, whole, main, sub),
    }
}

/// The subs of an array or a record.
#[tactic(auto, using(crate::proofs::GatheringLemmas::begins, crate::proofs::GatheringLemmas::next_gathered, crate::proofs::SubLemmas::next_sub), unfolding(crate::specs::Objects::subs_from, crate::specs::Questions::all_of))]
fn all_subs(
    alloc: Global,
    whole: &Whole<'_, '_>,
    main: &Main,
) -> Result<Result<Vec<DeviceObject>, Question>, AllocError>
    ensures { IfOk result (λ read. vec_seen read ≡ joined_by option_to_list (all_of (subs_from (seen whole.now) main.now 0 256))) }
{
    let mut objects = Vec::new(alloc);
    let mut earliest = Earliest::new();
    for sub in 0..256u64 {
        let read = sub_object(alloc, whole, main, sub)?;
        gather(&mut objects, &mut earliest, read)?;
    }
    Ok(gathered(objects, earliest))
}

/// The object of an own section that holds a value.
fn one_value(
    alloc: Global,
    whole: &Whole<'_, '_>,
    main: &Main,
) -> Result<Result<Option<DeviceObject>, Question>, AllocError>
    ensures { IfOk result (λ read. read ≡ one_value (seen whole.now) main.now main.now.section) }
{
    let Some(section) = main.section else {
        return Ok(Ok(None));
    };
    let place = Place {
        main: *main,
        sub: None,
        section,
        object_type: main.object_type,
    };
    whole.value_at(alloc, &place)
}

fn listed_value(
    alloc: Global,
    read: Result<Option<DeviceObject>, Question>,
) -> Result<Result<Vec<DeviceObject>, Question>, AllocError>
    ensures { IfOk result (λ found. vec_seen found ≡ listed_value read) }
{
    let mut objects = Vec::new(alloc);
    match read {
        Ok(Some(object)) => {
            objects.push(object)?;
            Ok(Ok(objects))
        }
        Ok(None) => Ok(Ok(objects)),
        Err(question) => Ok(Err(question)),
    }
}

/// The objects at an index.
#[tactic(auto, unfolding(crate::specs::Objects::objects_of))]
pub fn objects_of(
    alloc: Global,
    whole: &Whole<'_, '_>,
    main: &Main,
) -> Result<Result<Vec<DeviceObject>, Question>, AllocError>
    ensures { IfOk result (λ read. vec_seen read ≡ objects_of (seen whole.now) main.now) }
{
    if main.object_type.holds_subs() {
        all_subs(alloc, whole, main)
    } else {
        let read = one_value(alloc, whole, main)?;
        listed_value(alloc, read)
    }
}
