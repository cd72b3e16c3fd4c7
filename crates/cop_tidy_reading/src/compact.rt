//! Compact forms of arrays and records (CiA 306, compact storage).

ghost use Rattle.std.specs.Prelude.{◌≡◌, Ok, Some, IfOk, filter, map, if◌then◌else◌};
ghost use Rattle.cop_tidy_reading.specs.Questions.{unless};
ghost use Rattle.cop_tidy_reading.specs.Gathering.{all_clear};
ghost use Rattle.cop_tidy_reading.specs.Seen.{said_of};
ghost use Rattle.cop_tidy_reading.specs.SeenValues.{seen};
ghost use Rattle.cop_tidy_reading.specs.Sections.{is_pair};
ghost use Rattle.cop_tidy_reading.specs.Objects.{values_of, is_value_key, check_value, check_values, count_object, value_object, is_compact_sub, in_compact};

use crate::combining::{Earliest, unless};
use crate::contents::Section;
use crate::items::Item;
use crate::objects::{Main, Place, Whole};
use crate::question::{About, Question};
use crate::values::Source;
use cop_dict::DataType;
use cop_eds::{Access, Amount, ObjectType};
use cop_tidy_device::{DeviceObject, Value};
use cop_tidy_lines::{Key, LineKind, SectionName};
use std::alloc::{AllocError, Global};

/// The section of the values of a compact form, where there is one.
fn values_of(whole: &Whole<'_, '_>, index: u64) -> Option<Section>
    ensures { result ≡ values_of (seen whole.now) index }
{
    whole.contents.first_named(SectionName::Values(index))
}

/// Whether a line of the section of values is of a sub of the compact form, or counts them.
fn is_value_key(compact: u64, kind: LineKind) -> bool
    ensures { result ≡ is_value_key compact kind }
{
    match kind {
        LineKind::Pair(Key::Entry(sub)) => 0 < sub && sub <= compact,
        LineKind::Pair(Key::NrOfEntries) => true,
        _ => false,
    }
}

fn is_pair(kind: LineKind) -> bool
    ensures { result ≡ is_pair kind }
{
    matches!(kind, LineKind::Pair(_))
}

/// A key of the section of values is of a sub of the compact form, or is asked for.
#[tactic(auto, unfolding(crate::specs::Objects::check_value))]
fn check_value(compact: u64, item: &Item<'_>) -> Result<(), Question>
    ensures { result ≡ check_value compact (said_of item.now) }
{
    let is_known = compact == 0 || is_value_key(compact, item.kind);
    unless(is_known, About::Compact, item.line)
}

/// The same of a line that may be no key.
fn check_item(compact: u64, item: &Item<'_>) -> Result<(), Question>
    ensures { result ≡ if is_pair item.now.kind then check_value compact (said_of item.now) else Ok tt }
{
    if is_pair(item.kind) {
        check_value(compact, item)
    } else {
        Ok(())
    }
}

/// Each key among some lines is of a sub of the compact form, or is asked for.
#[tactic(auto, using(crate::proofs::GatheringLemmas::next_among, crate::proofs::GatheringLemmas::all_asked), unfolding(crate::specs::Questions::all_of))]
fn check_part(compact: u64, part: &[Item<'_>]) -> Result<(), Question>
    ensures { result ≡ all_clear (map (check_value compact) (filter (λ said. is_pair said.kind) (map said_of part.now))) }
{
    let mut earliest = Earliest::new();
    for item in part {
        earliest.note(check_item(compact, item));
    }
    earliest.check()
}

/// Keys of the section of values that are of no sub of the compact form are asked for.
pub fn check_values(whole: &Whole<'_, '_>, main: &Main) -> Result<(), Question>
    ensures { result ≡ check_values (seen whole.now) main.now (values_of (seen whole.now) main.now.index) }
{
    match values_of(whole, main.index) {
        Some(section) => check_part(main.compact, whole.contents.part(section)),
        None => Ok(()),
    }
}

/// The number of subs of a compact form, as its sub 0.
fn count_object(main: &Main) -> DeviceObject
    ensures { result ≡ count_object main.now }
{
    DeviceObject {
        index: main.index,
        sub: 0,
        data_type: DataType::Unsigned8,
        access: Access::ReadOnly,
        is_mappable: false,
        low: None,
        high: None,
        value: Value::Number(Amount::Decimal(main.compact)),
    }
}

/// A sub of a compact form that has no section of its own: it is like the object, but for its value.
fn value_object(
    alloc: Global,
    whole: &Whole<'_, '_>,
    main: &Main,
    section: Section,
    sub: u64,
) -> Result<Result<Option<DeviceObject>, Question>, AllocError>
    ensures { IfOk result (λ read. read ≡ value_object (seen whole.now) main.now section sub) }
{
    let place = Place {
        main: *main,
        sub: None,
        section,
        object_type: ObjectType::Var,
    };
    let default = Source {
        section,
        key: Key::DefaultValue,
    };
    match values_of(whole, main.index) {
        Some(values) => {
            let own = Source {
                section: values,
                key: Key::Entry(sub),
            };
            whole.object_in(alloc, &place, sub, &[own, default])
        }
        None => whole.object_in(alloc, &place, sub, &[default]),
    }
}

/// Whether the compact form has this sub.
pub fn is_compact_sub(main: &Main, sub: u64) -> bool
    ensures { result ≡ is_compact_sub main.now sub }
{
    main.compact != 0 && sub <= main.compact
}

/// A sub of the compact form that has no section of its own.
pub fn in_compact(
    alloc: Global,
    whole: &Whole<'_, '_>,
    main: &Main,
    sub: u64,
    section: Section,
) -> Result<Result<Option<DeviceObject>, Question>, AllocError>
    ensures { IfOk result (λ read. read ≡ in_compact (seen whole.now) main.now sub section) }
{
    if sub == 0 {
        Ok(Ok(Some(count_object(main))))
    } else {
        value_object(alloc, whole, main, section, sub)
    }
}
