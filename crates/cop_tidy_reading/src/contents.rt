//! The sections of a text, by what they are of.

ghost use Rattle.std.specs.Prelude.{◌≡◌, ◌==◌, ◌&&◌, ◌<◌, ◌≤◌, ℕ, length, drop, filter, map, nat_lt, nat_le, find, Option, Some, None, IfOk, OnOk, cond, true, false};
ghost use Rattle.std.specs.List.Sorted.{IsNonDecreasingBy, IsPartitionPoint};
ghost use Rattle.std.specs.Option.{option_map, option_or};
ghost use Rattle.std.specs.BTreeMap.{get};
ghost use Rattle.std.specs.Cow.{cow_slice_items};
ghost use Rattle.cop_tidy_reading.specs.Seen.{said_of};
ghost use Rattle.cop_tidy_reading.specs.Items.{Said};
ghost use Rattle.cop_tidy_reading.specs.Sections.{NamePlace, list_place, place_of, same_place, section_at, begins_at, section_at_place, section_named, states, is_pair, pairs_of, raw_by, raw_of, entry_of, has_subs_from};
ghost use Rattle.cop_tidy_reading.specs.Index.{place_cmp, section_of, IsNext, is_sub_at};
ghost use Rattle.cop_tidy_lines.specs.declared.names.SectionName.TheVariants as names;

use crate::items::Item;
use crate::ranks::states;
use cop_tidy_lines::{Key, LineKind, ListName, SectionName, bare_text, stated_value};
use std::alloc::{AllocError, Global};
use std::borrow::CowSlice;
use std::collections::BTreeMap;
use std::marker::Model;

/// A section: its first line, and its number among the sections of its text.
#[derive(Clone, Copy, Debug, PartialEq, Eq)]
pub struct Section {
    pub line: usize,
    pub number: usize,
}

/// The headers and keys of a text, and the first section of each name.
#[derive(Drop)]
pub struct Contents<'a> {
    items: Vec<Item<'a>>,
    firsts: BTreeMap<(u64, u64, u64), Section>,
}

impl<'a> Model for Contents<'a> {
    ghost use Rattle.std.specs.Prelude.{List, map};
    ghost use Rattle.std.specs.List.Sorted.{IsNonDecreasingBy};
    ghost use Rattle.cop_tidy_reading.specs.Items.{Said};
    ghost use Rattle.cop_tidy_reading.specs.Seen.{said_of};
    ghost use Rattle.cop_tidy_reading.specs.Index.{section_of, HasFirsts};

    ghost Value = { List Said };

    ghost view = { λ c. map said_of c.items.items };

    ghost invariant = { λ c. IsNonDecreasingBy section_of c.items.items × HasFirsts (map said_of c.items.items) c.firsts };
}

fn list_place(list: ListName) -> u64
    ensures { result ≡ list_place list }
{
    match list {
        ListName::Mandatory => 0,
        ListName::Optional => 1,
        ListName::Manufacturer => 2,
    }
}

/// What two sections have in common where they are of one thing; nothing reads those without it.
fn place_of(name: SectionName) -> Option<(u64, u64, u64)>
    ensures { result ≡ place_of name }
{
    match name {
        SectionName::Object(index) => Some((0, index, 0)),
        SectionName::Sub(index, sub) => Some((1, index, sub)),
        SectionName::Values(index) => Some((2, index, 0)),
        SectionName::List(list) => Some((3, list_place(list), 0)),
        SectionName::DeviceInfo => Some((4, 0, 0)),
        SectionName::Names(_) | SectionName::Unread => None,
    }
}

/// The place of the section that a line begins.
fn place_begun(kind: LineKind) -> Option<(u64, u64, u64)>
    ensures { (q : NamePlace) → begins_at q kind ≡ same_place result (Some q) }
{
    match kind {
        LineKind::Header(name) => place_of(name),
        _ => None,
    }
}

/// Notes a section at a place, where it is the first.
#[tactic(auto, using(crate::proofs::IndexLemmas::noted, crate::proofs::IndexLemmas::kept))]
fn note_at(
    firsts: &mut BTreeMap<(u64, u64, u64), Section>,
    place: (u64, u64, u64),
    section: Section,
) -> Result<(), AllocError>
    ensures { OnOk result ((q : NamePlace) → get place_cmp firsts.new q ≡ option_or (get place_cmp firsts.old q) (cond (same_place (Some place) (Some q)) (Some section) None)) }
{
    if firsts.contains_key(&place) {
        return Ok(());
    }
    firsts.insert(place, section)?;
    Ok(())
}

/// Notes the section that a line begins, where it is the first of its name.
#[tactic(auto, using(crate::proofs::IndexLemmas::none_noted))]
fn note(firsts: &mut BTreeMap<(u64, u64, u64), Section>, item: &Item<'_>) -> Result<(), AllocError>
    ensures { OnOk result ((q : NamePlace) → get place_cmp firsts.new q ≡ option_or (get place_cmp firsts.old q) (cond (begins_at q item.now.kind) (Some (section_at (said_of item.now))) None)) }
{
    match place_begun(item.kind) {
        Some(place) => {
            let section = Section {
                line: item.line,
                number: item.section,
            };
            note_at(firsts, place, section)
        }
        None => Ok(()),
    }
}

/// The first section of each name.
#[tactic(auto, using(crate::proofs::IndexLemmas::next_first, crate::proofs::IndexLemmas::none_noted))]
fn firsts_of(
    alloc: Global,
    items: &[Item<'_>],
) -> Result<BTreeMap<(u64, u64, u64), Section>, AllocError>
    ensures { IfOk result (λ firsts. (q : NamePlace) → get place_cmp firsts q ≡ section_at_place (map said_of items.now) (Some q)) }
{
    let mut firsts = BTreeMap::new(alloc);
    for item in items {
        note(&mut firsts, item)?;
    }
    Ok(firsts)
}

/// How many items stand before a section.
fn count_before(items: &[Item<'_>], number: usize) -> usize
    requires { IsNonDecreasingBy section_of items.now }
    ensures bound { result ≤ length items.now }
    ensures parted { IsPartitionPoint (λ item. nat_lt (section_of item) number ≡ true) (λ item. nat_lt (section_of item) number ≡ false) items.now result }
{
    items.partition_point(|item| item.section < number)
}

/// How many items stand before a section and in it.
fn count_upto(items: &[Item<'_>], number: usize) -> usize
    requires { IsNonDecreasingBy section_of items.now }
    ensures bound { result ≤ length items.now }
    ensures parted { IsPartitionPoint (λ item. nat_le (section_of item) number ≡ true) (λ item. nat_le (section_of item) number ≡ false) items.now result }
{
    items.partition_point(|item| item.section <= number)
}

/// Where a section begins and ends among the items.
fn bounds_of(items: &[Item<'_>], number: usize) -> (usize, usize)
    requires { IsNonDecreasingBy section_of items.now }
    ensures order { result.0 ≤ result.1 }
    ensures bound { result.1 ≤ length items.now }
    ensures before { IsPartitionPoint (λ item. nat_lt (section_of item) number ≡ true) (λ item. nat_lt (section_of item) number ≡ false) items.now result.0 }
    ensures upto { IsPartitionPoint (λ item. nat_le (section_of item) number ≡ true) (λ item. nat_le (section_of item) number ≡ false) items.now result.1 }
{
    let before = count_before(items, number);
    let upto = count_upto(items, number);
    (before, upto)
}

/// The header and the keys of a section.
fn part_of<'c, 'a>(items: &'c [Item<'a>], number: usize) -> &'c [Item<'a>]
    requires { IsNonDecreasingBy section_of items.now }
    ensures { filter (λ said. is_pair said.kind) (map said_of result.now) ≡ pairs_of (map said_of items.now) number }
{
    let (before, upto) = bounds_of(items, number);
    &items[before..upto]
}

/// How many headers stand at the front of a section: one, or none.
fn count_headers(part: &[Item<'_>]) -> usize
    ensures bound { result ≤ length part.now }
    ensures value { filter (λ said. is_pair said.kind) (map said_of (drop result part.now)) ≡ filter (λ said. is_pair said.kind) (map said_of part.now) }
{
    match part {
        [first, ..] if matches!(first.kind, LineKind::Header(_)) => 1,
        _ => 0,
    }
}

/// A section without its header.
fn behind_header<'c, 'a>(part: &'c [Item<'a>]) -> &'c [Item<'a>]
    ensures { filter (λ said. is_pair said.kind) (map said_of result.now) ≡ filter (λ said. is_pair said.kind) (map said_of part.now) }
{
    &part[count_headers(part)..]
}

/// The first key of this name: its line, and its value as it stands there.
fn raw_in<'a>(part: &[Item<'a>], key: Key) -> Option<(usize, &'a [u8])>
    ensures { option_map (λ raw. (raw.0, raw.1.now)) result ≡ raw_by (find (λ said. states key said.kind) (map said_of part.now)) }
{
    for item in part {
        if states(key, item.kind) {
            return Some((item.line, stated_value(item.body)));
        }
    }
    None
}

/// The first place from this one on that has a section.
fn place_from(
    firsts: &BTreeMap<(u64, u64, u64), Section>,
    place: (u64, u64, u64),
) -> Option<(u64, u64, u64)>
    ensures { IsNext firsts.now place result }
{
    match firsts.range(place..).next() {
        Some((found, _)) => Some(*found),
        None => None,
    }
}

/// Whether a place is of a sub of the index.
fn is_sub_at(index: u64, place: Option<(u64, u64, u64)>) -> bool
    ensures { result ≡ is_sub_at index place }
{
    match place {
        Some(place) => place.0 == 1 && place.1 == index,
        None => false,
    }
}

impl<'a> Contents<'a> {
    /// The sections of these items.
    pub fn of(alloc: Global, items: Vec<Item<'a>>) -> Result<Contents<'a>, AllocError>
        requires { IsNonDecreasingBy section_of items.items }
        ensures { IfOk result (λ contents. contents ≡ map said_of items.entry.items) }
    {
        let firsts = firsts_of(alloc, &items)?;
        Ok(Contents { items, firsts })
    }

    /// The headers and keys.
    pub fn items<'c>(&'c self) -> &'c [Item<'a>]
        ensures { map said_of result.now ≡ self.now }
    {
        &self.items
    }

    /// The first section that has this name.
    pub fn first_named(&self, name: SectionName) -> Option<Section>
        ensures { result ≡ section_named self.now name }
    {
        match place_of(name) {
            Some(place) => self.firsts.get(&place).copied(),
            None => None,
        }
    }

    /// The own section of the object at an index.
    pub fn own(&self, index: u64) -> Option<Section>
        ensures { result ≡ section_named self.now (names.Object index) }
    {
        self.first_named(SectionName::Object(index))
    }

    /// The section of a sub.
    pub fn sub(&self, index: u64, sub: u64) -> Option<Section>
        ensures { result ≡ section_named self.now (names.Sub index sub) }
    {
        self.first_named(SectionName::Sub(index, sub))
    }

    pub fn device_info(&self) -> Option<Section>
        ensures { result ≡ section_named self.now names.DeviceInfo }
    {
        self.first_named(SectionName::DeviceInfo)
    }

    /// Whether a sub of the index has a section, from this one on.
    #[tactic(auto, using(crate::proofs::SubLemmas::decides))]
    pub fn has_subs_from(&self, index: u64, least: u64) -> bool
        ensures { result ≡ has_subs_from self.now index least }
    {
        is_sub_at(index, place_from(&self.firsts, (1, index, least)))
    }

    /// The header and the keys of a section.
    pub fn part<'c>(&'c self, section: Section) -> &'c [Item<'a>]
        ensures { filter (λ said. is_pair said.kind) (map said_of result.now) ≡ pairs_of self.now section.number }
    {
        part_of(&self.items, section.number)
    }

    /// The keys of a section.
    pub fn pairs<'c>(&'c self, section: Section) -> &'c [Item<'a>]
        ensures { filter (λ said. is_pair said.kind) (map said_of result.now) ≡ pairs_of self.now section.number }
    {
        behind_header(self.part(section))
    }

    /// The first key of this name in a section: its line, and its value as it stands there.
    pub fn raw(&self, section: Section, key: Key) -> Option<(usize, &'a [u8])>
        ensures { option_map (λ raw. (raw.0, raw.1.now)) result ≡ raw_of self.now section.number key }
    {
        raw_in(self.part(section), key)
    }

    /// The same without comments, quotes and blanks round it, where something is left.
    pub fn entry(
        &self,
        alloc: Global,
        section: Section,
        key: Key,
    ) -> Result<Option<(usize, CowSlice<'a, u8>)>, AllocError>
        ensures { IfOk result (λ found. option_map (λ entry. (entry.0, cow_slice_items entry.1)) found ≡ entry_of self.now section.number key) }
    {
        match self.raw(section, key) {
            Some((line, raw)) => {
                let value = bare_text(alloc, raw)?;
                Ok((!value.as_slice().is_empty()).then_some((line, value)))
            }
            None => Ok(None),
        }
    }
}
