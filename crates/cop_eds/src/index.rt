//! The index of a text's names: what its headers and pairs are looked up by.

ghost use Rattle.std.specs.Prelude.{◌≡◌, ◌↔◌, ◌<◌, ◌+◌, ◌∷◌, [], ℕ, List, length, true, false, IfOk, OnOk, is_some, ◌&&◌, MatchOption, Some, None, slice_get, Contains};
ghost use Rattle.std.specs.List.{All, AllAdjacentBelow};
ghost use Rattle.std.specs.List.Sorted.{IsSorted, IsPartitionPoint};
ghost use Rattle.std.specs.Str.{bytes_eq};
ghost use Rattle.cop_eds.specs.declared.line.Line.{Line};
ghost use Rattle.cop_eds.specs.declared.entry.Entry.{Entry};
ghost use Rattle.cop_eds.specs.Lines.{IsWithin, is_kind};
ghost use Rattle.cop_eds.specs.Index.{line_key, header_key, pair_key, sort_key, entry_cmp, is_below, is_found_by, IsEntry, IsIndex, IsNext};
ghost use Rattle.cop_eds.specs.Lines.{first_from};

use crate::entry::{Entry, compare_keys};
use crate::line::{Kind, Line};
use crate::lines::text_of;
use crate::names::code_of;
use crate::text::{key_of, name_of};
use std::alloc::{AllocError, Global};
use std::cmp::Ordering;

/// What the section of this name is found by.
pub fn header_entry(name: &[u8]) -> Entry<'_>
    ensures key { sort_key result ≡ header_key name.now }
    ensures line { result.line ≡ 0 }
{
    match code_of(name) {
        Some(code) => coded_entry(code),
        None => Entry {
            group: 1,
            code: 0,
            name,
            line: 0,
        },
    }
}

/// What the object's section with this number is found by.
pub fn coded_entry<'a>(code: u64) -> Entry<'a>
    ensures key { sort_key result ≡ 0 ∷ code ∷ [] }
    ensures line { result.line ≡ 0 }
{
    Entry {
        group: 0,
        code,
        name: &[],
        line: 0,
    }
}

/// What a key of a section is found by.
pub fn pair_entry(section: usize, key: &[u8]) -> Entry<'_>
    ensures key { sort_key result ≡ pair_key section key.now }
    ensures line { result.line ≡ 0 }
{
    Entry {
        group: 2,
        code: section as u64,
        name: key,
        line: 0,
    }
}

/// What a line is found by, where it is a header or a pair.
pub fn line_entry<'a>(source: &'a [u8], line: &Line) -> Option<Entry<'a>>
    requires { IsWithin (length source.now) line.now }
    ensures { MatchOption result (line_key source.now line.now ≡ None) (λ entry. line_key source.now line.now ≡ Some (sort_key entry)) }
{
    let text = text_of(source, line);
    match line.kind {
        Kind::Other => None,
        Kind::Header => Some(header_entry(name_of(text))),
        Kind::Pair => Some(pair_entry(line.section as usize, key_of(text))),
    }
}

/// Whether two kinds are the same.
pub fn is_kind(left: Kind, right: Kind) -> bool
    ensures { result ≡ is_kind left right }
{
    matches!(
        (left, right),
        (Kind::Other, Kind::Other) | (Kind::Header, Kind::Header) | (Kind::Pair, Kind::Pair)
    )
}

/// Adds the entries of the lines of a kind, in their order.
fn push_entries<'a>(
    entries: &mut Vec<Entry<'a>>,
    source: &'a [u8],
    lines: &[Line],
    kind: Kind,
) -> Result<(), AllocError>
    requires within { All (IsWithin (length source.now)) lines.now }
    requires sound { All (IsEntry source.now lines.now) entries.old.items }
    ensures sound { OnOk result (All (IsEntry source.now lines.now) entries.new.items) }
    ensures complete { OnOk result ((place : ℕ) (line : Line) → place < length lines.now → slice_get lines.now place ≡ Some line
        → (is_kind line.kind kind && is_some (line_key source.now line)) ≡ true
        → (entry : Entry) × Contains entries.new.items entry × (entry.line ≡ place + 1)) }
    ensures kept { OnOk result ((entry : Entry) → Contains entries.old.items entry → Contains entries.new.items entry) }
{
    for (place, line) in lines.iter().enumerate() {
        if !is_kind(line.kind, kind) {
            continue;
        }
        let Some(entry) = line_entry(source, line) else {
            continue;
        };
        entries.push(Entry {
            line: place + 1,
            ..entry
        })?;
    }
    Ok(())
}

/// The index of the lines. Headers come first, so that a text whose names rise gives entries in order.
pub fn index_of<'a>(
    alloc: Global,
    source: &'a [u8],
    lines: &[Line],
) -> Result<Vec<Entry<'a>>, AllocError>
    requires { All (IsWithin (length source.now)) lines.now }
    ensures { IfOk result (λ entries. IsIndex source.now lines.now entries.items) }
{
    let mut entries = Vec::new(alloc);
    push_entries(&mut entries, source, lines, Kind::Header)?;
    push_entries(&mut entries, source, lines, Kind::Pair)?;
    entries.sort()?;
    Ok(entries)
}

fn is_below(entry: &Entry<'_>, key: &Entry<'_>) -> bool
    ensures { result ≡ is_below (sort_key key.now) entry.now }
{
    compare_keys(entry, key) == Ordering::Less
}

/// How many entries stand before those of a key.
fn lower_bound(entries: &[Entry<'_>], key: &Entry<'_>) -> usize
    ensures { IsSorted entry_cmp entries.now → IsPartitionPoint (λ e. is_below (sort_key key.now) e ≡ true) (λ e. is_below (sort_key key.now) e ≡ false) entries.now result }
{
    entries.partition_point(|entry| is_below(entry, key))
}

pub fn has_key(entry: &Entry<'_>, key: &Entry<'_>) -> bool
    ensures { result ≡ bytes_eq (sort_key entry.now) (sort_key key.now) }
{
    entry.group == key.group && entry.code == key.code && entry.name.eq_ignore_ascii_case(key.name)
}

/// Whether no two neighbours are found by the same.
pub fn are_apart(entries: &[Entry<'_>]) -> bool
    ensures { result ≡ true ↔ AllAdjacentBelow (λ x y. bytes_eq (sort_key x) (sort_key y) ≡ false) entries.now (length entries.now) }
{
    for i in 1..entries.len() {
        if has_key(&entries[i - 1], &entries[i]) {
            return false;
        }
    }
    true
}

/// The first line that a key finds, and its number.
pub fn find_in(lines: &[Line], entries: &[Entry<'_>], key: &Entry<'_>) -> Option<(usize, Line)>
    ensures { (text : List ℕ) → IsIndex text lines.now entries.now → result ≡ first_from 1 (is_found_by text (sort_key key.now)) lines.now }
{
    let place = lower_bound(entries, key);
    if place >= entries.len() {
        return None;
    }
    let entry = entries[place];
    if !has_key(&entry, key) {
        return None;
    }
    let number = entry.line;
    if number == 0 || number > lines.len() {
        return None;
    }
    Some((number, lines[number - 1]))
}

/// The number of the first object's section from a number on, and its header.
pub fn next_code(lines: &[Line], entries: &[Entry<'_>], code: u64) -> Option<(u64, (usize, Line))>
    ensures { (text : List ℕ) → IsIndex text lines.now entries.now → IsNext text lines.now code result }
{
    let place = lower_bound(entries, &coded_entry(code));
    if place >= entries.len() {
        return None;
    }
    let entry = entries[place];
    if entry.group != 0 {
        return None;
    }
    let header = find_in(lines, entries, &coded_entry(entry.code))?;
    Some((entry.code, header))
}
