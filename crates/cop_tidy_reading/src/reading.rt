//! The meaning of a maker's text.

ghost use Rattle.std.specs.Prelude.{◌≡◌, Ok, if◌then◌else◌, filter, fold, map, IfOk, OnOk};
ghost use Rattle.std.specs.Ordering.{nat_cmp};
ghost use Rattle.std.specs.BTreeSet.{insert_key};
ghost use Rattle.cop_bytes.specs.Bytes.{prepared, refused_line};
ghost use Rattle.cop_tidy_reading.specs.Questions.{all_of};
ghost use Rattle.cop_tidy_reading.specs.Gathering.{joined_by, vec_seen, beside};
ghost use Rattle.cop_tidy_reading.specs.Seen.{Gives};
ghost use Rattle.cop_tidy_reading.specs.SeenValues.{seen};
ghost use Rattle.cop_tidy_reading.specs.Pdos.{implies};
ghost use Rattle.cop_tidy_reading.specs.Objects.{described_at};
ghost use Rattle.cop_tidy_reading.specs.Reading.{numbers_from, indexes_of, or_none, device_by, device_of, text_of, loosely};

use crate::checks::check_object;
use crate::combining::{Earliest, earlier};
use crate::contents::Contents;
use crate::first_keys::first_keys;
use crate::gathering::{gather_all, gathered};
use crate::items::items_of;
use crate::lists::listed;
use crate::objects::Whole;
use crate::pdos::{CompactPdo, compact_pdo, none};
use crate::question::{About, Question, ReadingFault, asked};
use crate::rates::rates_of;
use crate::repeats::check_repeats;
use crate::subs::objects_of;
use crate::words::Words;
use cop_bytes::prepared;
use cop_frame::Rate;
use cop_tidy_device::{Device, DeviceObject};
use std::alloc::{AllocError, Global};
use std::collections::BTreeSet;

/// The bytes that are read as lines.
#[tactic(auto, unfolding(crate::specs::Reading::text_of))]
fn text_of(alloc: Global, source: &[u8]) -> Result<Vec<u8>, ReadingFault>
    ensures { Gives (λ text. text.items) result (text_of source.now) }
{
    match prepared(alloc, source)? {
        Ok(readable) => Ok(readable.text),
        Err(line) => Err(ReadingFault::Asked(asked(About::NoText, line))),
    }
}

/// Adds the indexes that the lists name.
fn add_listed(indexes: &mut BTreeSet<u64>, listed: &BTreeSet<u64>) -> Result<(), AllocError>
    ensures { OnOk result (indexes.new.keys ≡ fold (insert_key nat_cmp) indexes.old.keys listed.now.keys) }
{
    for index in listed.iter() {
        indexes.insert(*index)?;
    }
    Ok(())
}

/// Adds an index, where CompactPDO tells of it.
fn add_implied(
    whole: &Whole<'_, '_>,
    indexes: &mut BTreeSet<u64>,
    index: u64,
) -> Result<(), AllocError>
    ensures { OnOk result (indexes.new.keys ≡ if implies (seen whole.now).pdos (seen whole.now).listed index then insert_key nat_cmp indexes.old.keys index else indexes.old.keys) }
{
    if whole.pdos.implies(whole.listed, index) {
        indexes.insert(index)?;
    }
    Ok(())
}

/// Adds the indexes of the records of PDOs that CompactPDO tells of.
#[tactic(auto, using(crate::proofs::ReadingLemmas::next_index, crate::proofs::ReadingLemmas::last_index))]
fn add_records(whole: &Whole<'_, '_>, indexes: &mut BTreeSet<u64>) -> Result<(), AllocError>
    ensures { OnOk result (indexes.new.keys ≡ fold (insert_key nat_cmp) indexes.old.keys (filter (implies (seen whole.now).pdos (seen whole.now).listed) (numbers_from 0x1400 0x800))) }
{
    for place in 0..0x800u64 {
        add_implied(whole, indexes, 0x1400 + place)?;
    }
    Ok(())
}

/// The indexes of the objects that a device has: those that the lists name, and those that CompactPDO tells of.
#[tactic(auto, using(crate::proofs::ReadingLemmas::rises_all))]
fn indexes_of(alloc: Global, whole: &Whole<'_, '_>) -> Result<Vec<u64>, AllocError>
    ensures { IfOk result (λ indexes. indexes.items ≡ indexes_of (seen whole.now)) }
{
    let mut indexes = BTreeSet::new(alloc);
    add_listed(&mut indexes, whole.listed)?;
    add_records(whole, &mut indexes)?;
    indexes.iter().copied().collect(alloc)
}

/// The objects beside what their sections leave open.
#[tactic(auto, unfolding(crate::specs::Questions::both))]
fn objects_beside(
    checked: Result<(), Question>,
    objects: Result<Vec<DeviceObject>, Question>,
) -> Result<Vec<DeviceObject>, Question>
    ensures { vec_seen result ≡ beside checked (vec_seen objects) }
{
    match checked {
        Ok(()) => objects,
        Err(question) => match objects {
            Ok(_) => Err(question),
            Err(other) => Err(earlier(question, other)),
        },
    }
}

/// All at an index: its objects, or what it leaves open.
#[tactic(auto, unfolding(crate::specs::Objects::described_at))]
fn described_at(
    alloc: Global,
    whole: &Whole<'_, '_>,
    index: u64,
) -> Result<Result<Vec<DeviceObject>, Question>, AllocError>
    ensures { IfOk result (λ read. vec_seen read ≡ described_at (seen whole.now) index) }
{
    let main = whole.main_at(alloc, index)?;
    let checked = check_object(alloc, whole, &main)?;
    let objects = objects_of(alloc, whole, &main)?;
    Ok(objects_beside(checked, objects))
}

/// The objects at some indexes.
#[tactic(auto, using(crate::proofs::GatheringLemmas::begins, crate::proofs::GatheringLemmas::next_gathered), unfolding(crate::specs::Questions::all_of))]
fn objects_at(
    alloc: Global,
    whole: &Whole<'_, '_>,
    indexes: &[u64],
) -> Result<Result<Vec<DeviceObject>, Question>, AllocError>
    ensures { IfOk result (λ read. vec_seen read ≡ joined_by (λ list. list) (all_of (map (described_at (seen whole.now)) indexes.now))) }
{
    let mut objects = Vec::new(alloc);
    let mut earliest = Earliest::new();
    for index in indexes {
        let read = described_at(alloc, whole, *index)?;
        gather_all(&mut objects, &mut earliest, read)?;
    }
    Ok(gathered(objects, earliest))
}

fn or_none(pdos: Result<CompactPdo, Question>) -> CompactPdo
    ensures { result ≡ or_none pdos }
{
    match pdos {
        Ok(pdos) => pdos,
        Err(_) => none(),
    }
}

/// The device of rates and objects, where they leave nothing open.
#[tactic(auto, unfolding(crate::specs::Questions::both))]
fn device_by(
    rates: Result<Vec<Rate>, Question>,
    listed: Vec<u64>,
    objects: Result<Vec<DeviceObject>, Question>,
) -> Result<Device, Question>
    ensures { result ≡ device_by (vec_seen rates) listed.items (vec_seen objects) }
{
    match rates {
        Ok(rates) => match objects {
            Ok(objects) => Ok(Device {
                rates,
                listed,
                objects,
            }),
            Err(question) => Err(question),
        },
        Err(question) => match objects {
            Ok(_) => Err(question),
            Err(other) => Err(earlier(question, other)),
        },
    }
}

/// The device beside what CompactPDO leaves open.
#[tactic(auto, unfolding(crate::specs::Questions::both))]
fn device_beside(
    pdos: Result<CompactPdo, Question>,
    device: Result<Device, Question>,
) -> Result<Device, Question>
    ensures { result ≡ beside pdos device }
{
    match pdos {
        Ok(_) => device,
        Err(question) => match device {
            Ok(_) => Err(question),
            Err(other) => Err(earlier(question, other)),
        },
    }
}

/// The device of a text whose lists are read.
#[tactic(auto, unfolding(crate::specs::Reading::device_of))]
fn device_of(
    alloc: Global,
    words: &Words,
    contents: &Contents<'_>,
    listed: &BTreeSet<u64>,
) -> Result<Result<Device, Question>, AllocError>
    ensures { IfOk result (λ read. read ≡ device_of words.now contents.now listed.now.keys) }
{
    let pdos = compact_pdo(alloc, contents, words.digits, listed)?;
    let whole = Whole {
        contents,
        words,
        listed,
        pdos: or_none(pdos),
    };
    let rates = rates_of(alloc, &whole)?;
    let indexes = indexes_of(alloc, &whole)?;
    let objects = objects_at(alloc, &whole, &indexes)?;
    Ok(device_beside(pdos, device_by(rates, indexes, objects)))
}

/// The device that a maker's text describes under the choices that were made, or the question that it leaves open: that of
/// the smallest line in the first of its stages that has one: the text (70), lines (71), names (72), lists (73), the device (74 to 78).
#[tactic(auto, unfolding(crate::specs::Reading::loosely))]
pub fn loosely(alloc: Global, source: &[u8], words: &Words) -> Result<Device, ReadingFault>
    ensures { Gives (λ device. device) result (loosely source.now words.now) }
{
    let text = text_of(alloc, source)?;
    let items = items_of(alloc, &text)?;
    let contents = Contents::of(alloc, items)?;
    let keys = first_keys(alloc, contents.items())?;
    check_repeats(&contents, &keys)?;
    let listed = listed(alloc, &contents, &keys, words)?;
    Ok(device_of(alloc, words, &contents, &listed)??)
}
