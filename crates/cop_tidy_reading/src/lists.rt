//! What the lists of objects name.

ghost use Rattle.std.specs.Prelude.{◌≡◌, ◌++◌, ◌||◌, List, length, filter, map, not, IfOk, OnOk};
ghost use Rattle.std.specs.List.{list_all, list_any, flat_map};
ghost use Rattle.std.specs.Option.{option_to_list, option_map_or};
ghost use Rattle.cop_frame.specs.RateSet.{all_rates};
ghost use Rattle.std.specs.Char.{is_digit};
ghost use Rattle.cop_eds.specs.Objects.{rising};
ghost use Rattle.cop_tidy_lines.specs.declared.names.SectionName.TheVariants as names;
ghost use Rattle.cop_tidy_reading.specs.Seen.{said_of, Gives};
ghost use Rattle.cop_tidy_reading.specs.Items.{Said};
ghost use Rattle.cop_tidy_reading.specs.Sections.{section_named};
ghost use Rattle.cop_tidy_reading.specs.FirstKeys.{HasKeys};
ghost use Rattle.cop_tidy_reading.specs.Standard.{is_guarded};
ghost use Rattle.cop_tidy_reading.specs.SeenLists.{entry_seen, with_all};
ghost use Rattle.cop_tidy_reading.specs.Lists.{is_first, entry_at, entries_of, is_there, same_index, is_bare, plain_index, is_decimal, are_decimal, is_open, nothing_named, index_by, other_index, index_of, indexes_in, indexes_at, indexes_of, count_or_0, is_upto, lacks_some, lacks_entry, lacks_any, found_index, check_found, may_be_unlisted, check_header, check_unlisted, own_index, own_indexes, with_unlisted, checked_unlisted, has_rate, states_rates, check_rates, named_by, named_if, listed};

use crate::combining::{Earliest, both, unless};
use crate::contents::{Contents, Section};
use crate::first_keys::{FirstKeys, first_key};
use crate::items::Item;
use crate::pdos::is_named;
use crate::question::{About, Question, ReadingFault, asked};
use crate::standard::is_guarded;
use crate::stated::Reader;
use crate::words::Words;
use cop_eds::number_in;
use cop_frame::Rate;
use cop_tidy_lines::{
    Digits, Key, LineKind, ListName, SectionName, Unlisted, bare, number_meant, stated_value,
};
use std::alloc::{AllocError, Global};
use std::collections::BTreeSet;

/// An entry of a list that is not empty.
#[derive(Drop)]
struct Entry {
    number: u64,
    line: usize,
    text: Vec<u8>,
}

/// What an entry names: the index of an object that has a section, or nothing.
type Named = Result<Option<u64>, Question>;

/// Whether a line is the first of its section that states this key.
fn is_first(keys: &FirstKeys<'_>, item: &Item<'_>, key: Key) -> bool
    ensures { (items : List Said) → HasKeys items keys.now → result ≡ is_first items (said_of item.now) key }
{
    match first_key(keys, item.section, key) {
        Some(first) => first.line == item.line,
        None => false,
    }
}

/// The entry of a line, where it is the first of its number and not empty.
fn entry_at(
    alloc: Global,
    contents: &Contents<'_>,
    keys: &FirstKeys<'_>,
    item: &Item<'_>,
) -> Result<Option<Entry>, AllocError>
    requires { HasKeys contents.now keys.now }
    ensures { IfOk result (λ found. map entry_seen (option_to_list found) ≡ entry_at contents.now (said_of item.now)) }
{
    let LineKind::Pair(Key::Entry(number)) = item.kind else {
        return Ok(None);
    };
    if !is_first(keys, item, Key::Entry(number)) {
        return Ok(None);
    }
    let text = bare(alloc, stated_value(item.body))?;
    let line = item.line;
    Ok((!text.is_empty()).then_some(Entry { number, line, text }))
}

/// Adds the entry of a line.
fn push_entry(
    alloc: Global,
    contents: &Contents<'_>,
    keys: &FirstKeys<'_>,
    item: &Item<'_>,
    entries: &mut Vec<Entry>,
) -> Result<(), AllocError>
    requires { HasKeys contents.now keys.now }
    ensures { OnOk result (map entry_seen entries.new.items ≡ map entry_seen entries.old.items ++ entry_at contents.now (said_of item.now)) }
{
    if let Some(entry) = entry_at(alloc, contents, keys, item)? {
        entries.push(entry)?;
    }
    Ok(())
}

/// The entries of a list, the first of each number.
fn entries_of(
    alloc: Global,
    contents: &Contents<'_>,
    keys: &FirstKeys<'_>,
    section: Section,
) -> Result<Vec<Entry>, AllocError>
    requires { HasKeys contents.now keys.now }
    ensures { IfOk result (λ entries. map entry_seen entries.items ≡ entries_of contents.now section.number) }
{
    let part = contents.part(section);
    let mut entries = Vec::new(alloc);
    for item in part {
        push_entry(alloc, contents, keys, item, &mut entries)?;
    }
    Ok(entries)
}

fn are_hexadecimal(text: &[u8]) -> bool
    ensures { result ≡ list_all (λ c. is_digit c 16) text.now }
{
    text.iter().all(|byte| char::from(*byte).is_digit(16))
}

/// Whether a text is four hexadecimal digits without a mark.
fn is_bare(text: &[u8]) -> bool
    ensures { result ≡ is_bare text.now }
{
    text.len() == 4 && (!text.is_empty() && are_hexadecimal(text))
}

/// The number that an entry is as it stands.
fn plain_index(
    alloc: Global,
    digits: Option<Digits>,
    text: &[u8],
) -> Result<Option<u64>, AllocError>
    ensures { IfOk result (λ index. index ≡ plain_index digits text.now) }
{
    match number_meant(alloc, digits, text)? {
        Ok(index) => Ok(Some(index)),
        Err(_) => Ok(None),
    }
}

/// Whether the object at an index has a section of its own.
fn is_there(contents: &Contents<'_>, index: Option<u64>) -> bool
    ensures { result ≡ is_there contents.now index }
{
    match index {
        Some(index) => contents.own(index).is_some(),
        None => false,
    }
}

/// Whether two readings are of one index.
fn same_index(a: Option<u64>, b: Option<u64>) -> bool
    ensures { result ≡ same_index a b }
{
    match (a, b) {
        (Some(a), Some(b)) => a == b,
        (None, None) => true,
        _ => false,
    }
}

/// Whether an index is of an object that a list may not leave out without a word.
fn is_open(index: Option<u64>) -> bool
    ensures { result ≡ is_open index }
{
    match index {
        Some(index) => is_guarded(index),
        None => false,
    }
}

/// An entry that names nothing: a list may leave it out, or not.
fn nothing_named(
    line: usize,
    plain: Option<u64>,
    other: Option<u64>,
) -> Result<Option<u64>, Question>
    ensures { result ≡ nothing_named line plain other }
{
    if (is_open(plain) || is_open(other)) || !(plain.is_some() || other.is_some()) {
        Err(asked(About::Lists, line))
    } else {
        Ok(None)
    }
}

/// Whether an entry of four digits names a section as a decimal number.
fn is_decimal(
    alloc: Global,
    contents: &Contents<'_>,
    digits: Option<Digits>,
    entry: &Entry,
) -> Result<bool, AllocError>
    ensures { IfOk result (λ test. test ≡ is_decimal digits contents.now (entry_seen entry.now)) }
{
    let index = plain_index(alloc, digits, &entry.text)?;
    Ok(!is_bare(&entry.text) || is_there(contents, index))
}

/// Whether each entry of four digits names a section as a decimal number.
fn are_decimal(
    alloc: Global,
    contents: &Contents<'_>,
    digits: Option<Digits>,
    entries: &[Entry],
) -> Result<bool, AllocError>
    ensures { IfOk result (λ test. test ≡ are_decimal digits contents.now (map entry_seen entries.now)) }
{
    for entry in entries {
        if !is_decimal(alloc, contents, digits, entry)? {
            return Ok(false);
        }
    }
    Ok(true)
}

/// The index of those that are there, or none where neither is and a list may leave it out; a question where both are, or
/// where an object may not be left out.
fn chosen(
    contents: &Contents<'_>,
    line: usize,
    plain: Option<u64>,
    other: Option<u64>,
) -> Result<Option<u64>, Question>
    ensures { result ≡ index_by contents.now line plain other }
{
    if is_there(contents, plain) {
        if is_there(contents, other) && !same_index(plain, other) {
            Err(asked(About::Lists, line))
        } else {
            Ok(plain)
        }
    } else if is_there(contents, other) {
        Ok(other)
    } else {
        nothing_named(line, plain, other)
    }
}

/// The other number that an entry may be, where its list is decimal or not.
fn other_index(entry: &Entry, is_list_decimal: bool) -> Option<u64>
    ensures { result ≡ other_index is_list_decimal (entry_seen entry.now) }
{
    if is_bare(&entry.text) && !is_list_decimal {
        number_in(16, &entry.text)
    } else {
        None
    }
}

/// The index that an entry names, where that has a section; its list is decimal or not.
fn index_of(
    alloc: Global,
    contents: &Contents<'_>,
    digits: Option<Digits>,
    entry: &Entry,
    is_list_decimal: bool,
) -> Result<Named, AllocError>
    ensures { IfOk result (λ read. read ≡ index_of digits contents.now is_list_decimal (entry_seen entry.now)) }
{
    let plain = plain_index(alloc, digits, &entry.text)?;
    Ok(chosen(
        contents,
        entry.line,
        plain,
        other_index(entry, is_list_decimal),
    ))
}

/// Adds what the entries of a list name.
fn push_indexes(
    alloc: Global,
    contents: &Contents<'_>,
    digits: Option<Digits>,
    entries: &[Entry],
    found: &mut Vec<Named>,
) -> Result<(), AllocError>
    ensures { OnOk result (found.new.items ≡ found.old.items ++ indexes_in digits contents.now (map entry_seen entries.now)) }
{
    let is_list_decimal = are_decimal(alloc, contents, digits, entries)?;
    for entry in entries {
        let index = index_of(alloc, contents, digits, entry, is_list_decimal)?;
        found.push(index)?;
    }
    Ok(())
}

/// How many of the entries have a number from 1 to the count.
fn count_upto(entries: &[Entry], count: u64) -> usize
    ensures { result ≡ length (filter (λ entry. is_upto count (entry_seen entry)) entries.now) }
{
    entries
        .iter()
        .filter(|entry| entry.number > 0 && entry.number <= count)
        .count()
}

fn count_or_0(count: Result<Option<u64>, Question>) -> u64
    ensures { result ≡ count_or_0 count }
{
    match count {
        Ok(Some(count)) => count,
        _ => 0,
    }
}

/// Whether there are fewer entries up to this number.
fn lacks_some(count: u64, entries: &[Entry]) -> bool
    ensures { result ≡ lacks_some count (map entry_seen entries.now) }
{
    (count_upto(entries, count) as u64) < count
}

/// Adds what a list names, and answers for whether it lacks an entry that it says it has.
fn add_list(
    alloc: Global,
    contents: &Contents<'_>,
    keys: &FirstKeys<'_>,
    digits: Option<Digits>,
    section: Section,
    found: &mut Vec<Named>,
) -> Result<bool, AllocError>
    requires { HasKeys contents.now keys.now }
    ensures found { OnOk result (found.new.items ≡ found.old.items ++ indexes_at digits contents.now section) }
    ensures lacks { IfOk result (λ lacks. lacks ≡ lacks_entry digits contents.now section) }
{
    let entries = entries_of(alloc, contents, keys, section)?;
    push_indexes(alloc, contents, digits, &entries, found)?;
    let reader = Reader {
        contents,
        section,
        digits,
    };
    let count = count_or_0(reader.number(alloc, Key::SupportedObjects)?);
    Ok(lacks_some(count, &entries))
}

/// The same of the list of this name, where there is one.
fn add_named(
    alloc: Global,
    contents: &Contents<'_>,
    keys: &FirstKeys<'_>,
    digits: Option<Digits>,
    list: ListName,
    found: &mut Vec<Named>,
) -> Result<bool, AllocError>
    requires { HasKeys contents.now keys.now }
    ensures found { OnOk result (found.new.items ≡ found.old.items ++ flat_map (indexes_at digits contents.now) (option_to_list (section_named contents.now (names.List list)))) }
    ensures lacks { IfOk result (λ lacks. lacks ≡ list_any (lacks_entry digits contents.now) (option_to_list (section_named contents.now (names.List list)))) }
{
    match contents.first_named(SectionName::List(list)) {
        Some(section) => add_list(alloc, contents, keys, digits, section, found),
        None => Ok(false),
    }
}

/// Adds what the three lists name, and answers for whether one lacks an entry that it says it has.

#[tactic(auto, using(crate::proofs::ListLemmas::three_found))]
fn add_lists(
    alloc: Global,
    contents: &Contents<'_>,
    keys: &FirstKeys<'_>,
    digits: Option<Digits>,
    found: &mut Vec<Named>,
) -> Result<bool, AllocError>
    requires { HasKeys contents.now keys.now }
    ensures found { OnOk result (found.new.items ≡ found.old.items ++ indexes_of digits contents.now) }
    ensures lacks { IfOk result (λ lacks. lacks ≡ lacks_any digits contents.now) }
{
    let first = add_named(alloc, contents, keys, digits, ListName::Mandatory, found)?;
    let second = add_named(alloc, contents, keys, digits, ListName::Optional, found)?;
    let third = add_named(alloc, contents, keys, digits, ListName::Manufacturer, found)?;
    Ok(first || (second || third))
}

/// Asks for the first entry that names nothing it may leave out, or two things.
fn check_entries(found: &[Named]) -> Result<(), Question>
    ensures { result ≡ check_found found.now }
{
    let mut earliest = Earliest::new();
    for index in found {
        earliest.note(*index);
    }
    earliest.check()
}

/// Adds the index that an entry names.
fn add_index(named: &mut BTreeSet<u64>, index: Named) -> Result<(), AllocError>
    ensures { OnOk result (named.new.keys ≡ with_all named.old.keys (found_index index)) }
{
    if let Ok(Some(index)) = index {
        named.insert(index)?;
    }
    Ok(())
}

/// The indexes that the lists name.
#[tactic(auto, using(crate::proofs::ListLemmas::with_more))]
fn named_in(alloc: Global, found: &[Named]) -> Result<BTreeSet<u64>, AllocError>
    ensures { IfOk result (λ named. named.keys ≡ rising (flat_map found_index found.now)) }
{
    let mut named = BTreeSet::new(alloc);
    for index in found {
        add_index(&mut named, *index)?;
    }
    Ok(named)
}

/// Adds the index of an object whose own section a line begins.
fn add_own(named: &mut BTreeSet<u64>, kind: LineKind) -> Result<(), AllocError>
    ensures { OnOk result (named.new.keys ≡ with_all named.old.keys (own_index kind)) }
{
    if let LineKind::Header(SectionName::Object(index)) = kind {
        named.insert(index)?;
    }
    Ok(())
}

/// Adds each object that has a section of its own.
#[tactic(auto, using(crate::proofs::ListLemmas::with_more))]
fn add_unlisted(contents: &Contents<'_>, named: &mut BTreeSet<u64>) -> Result<(), AllocError>
    ensures { OnOk result (named.new.keys ≡ with_all named.old.keys (own_indexes contents.now)) }
{
    let items = contents.items();
    for item in items {
        add_own(named, item.kind)?;
    }
    Ok(())
}

/// The indexes of a device: those that the lists name, and all that have a section of their own where that is chosen.
#[tactic(auto, using(crate::proofs::ListLemmas::rising_more))]
fn named_by(
    alloc: Global,
    contents: &Contents<'_>,
    choice: Option<Unlisted>,
    found: &[Named],
) -> Result<BTreeSet<u64>, AllocError>
    ensures { IfOk result (λ named. named.keys ≡ rising (with_unlisted choice contents.now (flat_map found_index found.now))) }
{
    let mut named = named_in(alloc, found)?;
    match choice {
        Some(Unlisted::Add) => add_unlisted(contents, &mut named)?,
        _ => {}
    }
    Ok(named)
}

/// Whether no list needs to name the section that a line begins; some list lacks an entry or not.
fn may_be_unlisted(named: &BTreeSet<u64>, lacks_entry: bool, kind: LineKind) -> bool
    ensures { result ≡ may_be_unlisted named.now.keys lacks_entry kind }
{
    match kind {
        LineKind::Header(SectionName::Object(index)) => {
            is_named(named, index) || !(lacks_entry || is_guarded(index))
        }
        LineKind::Header(SectionName::Sub(index, _)) => {
            is_named(named, index) || !is_guarded(index)
        }
        _ => true,
    }
}

/// Asks for a header that no list may leave out without a word.
fn check_header(named: &BTreeSet<u64>, lacks_entry: bool, item: &Item<'_>) -> Result<(), Question>
    ensures { result ≡ check_header named.now.keys lacks_entry (said_of item.now) }
{
    let is_free = may_be_unlisted(named, lacks_entry, item.kind);
    unless(is_free, About::Lists, item.line)
}

/// Asks for the first header that no list may leave out without a word.
fn check_unlisted(
    contents: &Contents<'_>,
    named: &BTreeSet<u64>,
    lacks_entry: bool,
) -> Result<(), Question>
    ensures { result ≡ check_unlisted contents.now named.now.keys lacks_entry }
{
    let items = contents.items();
    let mut earliest = Earliest::new();
    for item in items {
        earliest.note(check_header(named, lacks_entry, item));
    }
    earliest.check()
}

/// The same, unless it is chosen that what no list names is left out.
fn checked_unlisted(
    contents: &Contents<'_>,
    choice: Option<Unlisted>,
    named: &BTreeSet<u64>,
    lacks_entry: bool,
) -> Result<(), Question>
    ensures { result ≡ checked_unlisted choice contents.now named.now.keys lacks_entry }
{
    match choice {
        Some(Unlisted::Leave) => Ok(()),
        _ => check_unlisted(contents, named, lacks_entry),
    }
}

/// Whether a section says something of a rate.
fn has_rate(
    alloc: Global,
    contents: &Contents<'_>,
    section: Section,
    rate: Rate,
) -> Result<bool, AllocError>
    ensures { IfOk result (λ test. test ≡ has_rate contents.now section rate) }
{
    let entry = contents.entry(alloc, section, Key::BaudRate(rate))?;
    Ok(entry.is_some())
}

/// Whether a section says something of some rate.
fn has_rates(alloc: Global, contents: &Contents<'_>, section: Section) -> Result<bool, AllocError>
    ensures { IfOk result (λ test. test ≡ list_any (has_rate contents.now section) all_rates) }
{
    for rate in Rate::ALL {
        if has_rate(alloc, contents, section, rate)? {
            return Ok(true);
        }
    }
    Ok(false)
}

/// Whether DeviceInfo says something of a rate.
fn states_rates(
    alloc: Global,
    contents: &Contents<'_>,
    section: Option<Section>,
) -> Result<bool, AllocError>
    ensures { IfOk result (λ test. test ≡ states_rates contents.now section) }
{
    match section {
        Some(section) => has_rates(alloc, contents, section),
        None => Ok(false),
    }
}

fn line_or_0(section: Option<Section>) -> usize
    ensures { result ≡ option_map_or (λ section. section.line) section 0 }
{
    match section {
        Some(section) => section.line,
        None => 0,
    }
}

/// Asks for the rates of a device that states none, where none are chosen.
fn check_rates(
    alloc: Global,
    contents: &Contents<'_>,
    rates: &[Rate],
) -> Result<Result<(), Question>, AllocError>
    ensures { IfOk result (λ read. read ≡ check_rates rates.now contents.now) }
{
    let section = contents.device_info();
    let are_stated = states_rates(alloc, contents, section)?;
    let are_known = !rates.is_empty() || are_stated;
    Ok(unless(are_known, About::Lists, line_or_0(section)))
}

/// The indexes, where nothing is left open.
fn named_if(
    read: Result<((), ((), ())), Question>,
    named: BTreeSet<u64>,
) -> Result<BTreeSet<u64>, ReadingFault>
    ensures { Gives (λ named. named.keys) result (named_if read named.keys) }
{
    match read {
        Ok(_) => Ok(named),
        Err(question) => Err(ReadingFault::Asked(question)),
    }
}

/// The indexes that the lists name and that have a section. The earliest line that leaves something open is asked for.
pub fn listed(
    alloc: Global,
    contents: &Contents<'_>,
    keys: &FirstKeys<'_>,
    words: &Words,
) -> Result<BTreeSet<u64>, ReadingFault>
    requires { HasKeys contents.now keys.now }
    ensures { Gives (λ named. named.keys) result (listed words.now contents.now) }
{
    let mut found = Vec::new(alloc);
    let lacks_entry = add_lists(alloc, contents, keys, words.digits, &mut found)?;
    let named = named_by(alloc, contents, words.unlisted, &found)?;
    let entries = check_entries(&found);
    let unlisted = checked_unlisted(contents, words.unlisted, &named, lacks_entry);
    let rates = check_rates(alloc, contents, &words.rates)?;
    named_if(both(entries, both(unlisted, rates)), named)
}
