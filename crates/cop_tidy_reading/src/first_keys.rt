//! The first line of each key of each section.

ghost use Rattle.std.specs.Prelude.{◌≡◌, List, cond, map, Some, None, IfOk, OnOk};
ghost use Rattle.std.specs.Option.{option_or, option_map};
ghost use Rattle.std.specs.BTreeMap.{get};
ghost use Rattle.cop_tidy_reading.specs.Seen.{said_of};
ghost use Rattle.cop_tidy_reading.specs.Items.{Said};
ghost use Rattle.cop_tidy_reading.specs.Sections.{NamePlace, same_place, pair_of};
ghost use Rattle.cop_tidy_reading.specs.Index.{place_cmp};
ghost use Rattle.cop_tidy_reading.specs.FirstKeys.{key_place, place_stated, states_at, HasKeys};

use crate::items::Item;
use crate::ranks::rank;
use cop_tidy_lines::{Key, LineKind};
use std::alloc::{AllocError, Global};
use std::collections::BTreeMap;

/// The first line of each key of each section, by the number of the section and that of the key.
pub type FirstKeys<'a> = BTreeMap<(usize, u64, u64), Item<'a>>;

/// What two lines have in common that state one key of one section; nothing reads those without it.
fn key_place(section: usize, key: Key) -> Option<(usize, u64, u64)>
    ensures { result ≡ key_place section key }
{
    match rank(key) {
        Some((kind, number)) => Some((section, kind, number)),
        None => None,
    }
}

/// The place of the key that a line states.
fn place_stated(section: usize, kind: LineKind) -> Option<(usize, u64, u64)>
    ensures { result ≡ place_stated section kind }
{
    match kind {
        LineKind::Pair(key) => key_place(section, key),
        _ => None,
    }
}

/// Notes a line at a place, where it is the first.
#[tactic(auto, using(crate::proofs::IndexLemmas::noted, crate::proofs::IndexLemmas::kept))]
fn note_at<'a>(
    keys: &mut FirstKeys<'a>,
    place: (usize, u64, u64),
    item: Item<'a>,
) -> Result<(), AllocError>
    ensures { OnOk result ((q : NamePlace) → get place_cmp keys.new q ≡ option_or (get place_cmp keys.old q) (cond (same_place (Some place) (Some q)) (Some item.entry) None)) }
{
    if keys.contains_key(&place) {
        return Ok(());
    }
    keys.insert(place, item)?;
    Ok(())
}

/// Notes the key that a line states, where it is the first of its name in its section.
#[tactic(auto, using(crate::proofs::IndexLemmas::none_noted))]
fn note<'a>(keys: &mut FirstKeys<'a>, item: Item<'a>) -> Result<(), AllocError>
    ensures { OnOk result ((q : NamePlace) → get place_cmp keys.new q ≡ option_or (get place_cmp keys.old q) (cond (states_at q (said_of item.entry)) (Some item.entry) None)) }
{
    match place_stated(item.section, item.kind) {
        Some(place) => note_at(keys, place, item),
        None => Ok(()),
    }
}

/// The first line of each key of each section.
#[tactic(auto, using(crate::proofs::FirstKeyLemmas::next_key, crate::proofs::FirstKeyLemmas::no_key))]
pub fn first_keys<'a>(alloc: Global, items: &[Item<'a>]) -> Result<FirstKeys<'a>, AllocError>
    ensures { IfOk result (λ keys. HasKeys (map said_of items.now) keys) }
{
    let mut keys = BTreeMap::new(alloc);
    for item in items {
        note(&mut keys, *item)?;
    }
    Ok(keys)
}

/// The first line of a section that states a key.
#[tactic(auto, using(crate::proofs::FirstKeyLemmas::key_found, crate::proofs::FirstKeyLemmas::key_missing))]
pub fn first_key<'a>(keys: &FirstKeys<'a>, section: usize, key: Key) -> Option<Item<'a>>
    ensures { (items : List Said) → HasKeys items keys.now → option_map said_of result ≡ pair_of items section key }
{
    match rank(key) {
        Some((kind, number)) => keys.get(&(section, kind, number)).copied(),
        None => None,
    }
}
