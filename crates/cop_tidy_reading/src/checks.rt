//! What the sections of an object leave open, whether a value stands there or not.

ghost use Rattle.std.specs.Prelude.{◌≡◌, IfOk};
ghost use Rattle.cop_tidy_reading.specs.SeenValues.{seen};
ghost use Rattle.cop_tidy_reading.specs.Objects.{check_count, check_own, check_sub_keys, check_subs, has_sub, check_record, check_object};
ghost use Rattle.cop_tidy_reading.specs.Pdos.{line_of};
ghost use Rattle.cop_tidy_reading.specs.Sections.{raw_of, section_named};
ghost use Rattle.cop_tidy_lines.specs.declared.names.SectionName.TheVariants as names;
ghost use Rattle.cop_tidy_lines.specs.declared.keys.Key.TheVariants as keys;

use crate::combining::{Earliest, both, unless};
use crate::compact::{check_values, is_compact_sub};
use crate::contents::Section;
use crate::objects::{Main, Whole, can_be};
use crate::question::{About, Question};
use crate::standard::is_communication;
use cop_eds::ObjectType;
use cop_tidy_lines::Key;
use std::alloc::{AllocError, Global};

/// The line of CompactSubObj, or of the section.
fn line_of(whole: &Whole<'_, '_>, section: Section) -> usize
    ensures { result ≡ line_of section.line (raw_of (seen whole.now).items section.number keys.CompactSubObj) }
{
    match whole.contents.raw(section, Key::CompactSubObj) {
        Some((line, _)) => line,
        None => section.line,
    }
}

/// The compact form of an object can be, or is asked for.
fn check_count(
    alloc: Global,
    whole: &Whole<'_, '_>,
    section: Section,
    kind: ObjectType,
) -> Result<Result<(), Question>, AllocError>
    ensures { IfOk result (λ read. read ≡ check_count (seen whole.now) section kind) }
{
    match whole.count_in(alloc, section)? {
        Ok(compact) => {
            let is_possible = can_be(kind, compact);
            Ok(unless(is_possible, About::Compact, line_of(whole, section)))
        }
        Err(question) => Ok(Err(question)),
    }
}

/// The own section of an object: its compact form and its keys.
fn check_own(
    alloc: Global,
    whole: &Whole<'_, '_>,
    main: &Main,
) -> Result<Result<(), Question>, AllocError>
    ensures { IfOk result (λ read. read ≡ check_own (seen whole.now) main.now.object_type main.now.section) }
{
    let Some(section) = main.section else {
        return Ok(Ok(()));
    };
    let count = check_count(alloc, whole, section, main.object_type)?;
    let keys = whole.check_keys(alloc, section)?;
    match both(count, keys) {
        Ok(_) => Ok(Ok(())),
        Err(question) => Ok(Err(question)),
    }
}

/// The keys of the section of a sub, where it has one.
fn check_sub(
    alloc: Global,
    whole: &Whole<'_, '_>,
    index: u64,
    sub: u64,
) -> Result<Result<(), Question>, AllocError>
    ensures { IfOk result (λ read. read ≡ check_sub_keys (seen whole.now) (section_named (seen whole.now).items (names.Sub index sub))) }
{
    match whole.contents.sub(index, sub) {
        Some(section) => whole.check_keys(alloc, section),
        None => Ok(Ok(())),
    }
}

/// The keys of the sections of all subs, one after the other.
#[tactic(auto, using(crate::proofs::EarliestLemmas::asked_all, crate::proofs::SubLemmas::next_check))]
fn check_each(
    alloc: Global,
    whole: &Whole<'_, '_>,
    index: u64,
) -> Result<Result<(), Question>, AllocError>
    ensures { IfOk result (λ read. read ≡ check_subs (seen whole.now) index) }
{
    let mut earliest = Earliest::new();
    for sub in 0..256u64 {
        let read = check_sub(alloc, whole, index, sub)?;
        earliest.note(read);
    }
    Ok(earliest.check())
}

/// The keys of the sections of all subs.
#[tactic(auto, using(crate::proofs::SubLemmas::none_checked))]
fn check_subs(
    alloc: Global,
    whole: &Whole<'_, '_>,
    index: u64,
) -> Result<Result<(), Question>, AllocError>
    ensures { IfOk result (λ read. read ≡ check_subs (seen whole.now) index) }
{
    if whole.contents.has_subs_from(index, 0) {
        check_each(alloc, whole, index)
    } else {
        Ok(Ok(()))
    }
}

/// Whether a device has a sub of an object, in whichever form.
fn has_sub(whole: &Whole<'_, '_>, main: &Main, sub: u64) -> bool
    ensures { result ≡ has_sub (seen whole.now) main.now sub }
{
    whole.contents.sub(main.index, sub).is_some()
        || (is_compact_sub(main, sub)
            || whole.pdos.implied(whole.listed, main.index, sub).is_some())
}

/// A record of a PDO has a COB-ID, or is asked for: without one it cannot be switched off.
fn check_record(whole: &Whole<'_, '_>, main: &Main) -> Result<(), Question>
    ensures { result ≡ check_record (seen whole.now) main.now main.now.section }
{
    match main.section {
        Some(section) => {
            let is_complete = !is_communication(main.index) || has_sub(whole, main, 1);
            unless(is_complete, About::Compact, section.line)
        }
        None => Ok(()),
    }
}

/// What the sections of an object leave open.
#[tactic(auto, unfolding(crate::specs::Objects::check_object))]
pub fn check_object(
    alloc: Global,
    whole: &Whole<'_, '_>,
    main: &Main,
) -> Result<Result<(), Question>, AllocError>
    ensures { IfOk result (λ read. read ≡ check_object (seen whole.now) main.now) }
{
    let own = check_own(alloc, whole, main)?;
    let subs = check_subs(alloc, whole, main.index)?;
    let record = check_record(whole, main);
    let values = check_values(whole, main);
    match both(both(own, subs), both(record, values)) {
        Ok(_) => Ok(Ok(())),
        Err(question) => Ok(Err(question)),
    }
}
