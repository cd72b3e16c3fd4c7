//! Sections and keys that stand twice: the first one counts, where the other says the same.

ghost use Rattle.std.specs.Prelude.{◌≡◌, ◌≤◌, ◌∷◌, List, [], drop, length, map, MatchOption};
ghost use Rattle.cop_tidy_reading.specs.Seen.{said_of, Gives};
ghost use Rattle.cop_tidy_reading.specs.Items.{Said};
ghost use Rattle.cop_tidy_reading.specs.Sections.{is_pair};
ghost use Rattle.cop_tidy_reading.specs.FirstKeys.{HasKeys};
ghost use Rattle.cop_tidy_reading.specs.Repeats.{says_same, pairs_among, are_same, agrees, without_first, behind, is_first_or_same, is_as_first, stands_once, check_line, check_repeats};

use crate::combining::{Earliest, answered, unless};
use crate::contents::{Contents, Section};
use crate::first_keys::{FirstKeys, first_key};
use crate::items::Item;
use crate::question::{About, Question, ReadingFault};
use cop_eds::same_name;
use cop_tidy_lines::{Key, LineKind, SectionName, stated_key, stated_value};

/// Whether two lines state the same value of the same key.
fn says_same(a: &Item<'_>, b: &Item<'_>) -> bool
    ensures { result ≡ says_same (said_of a.now) (said_of b.now) }
{
    same_name(stated_key(a.body), stated_key(b.body))
        && stated_value(a.body) == stated_value(b.body)
}

/// Whether a line states a key.
fn is_pair(kind: LineKind) -> bool
    ensures { result ≡ is_pair kind }
{
    matches!(kind, LineKind::Pair(_))
}

/// The first key among some items, and the items behind it.
#[tactic(auto, using(crate::proofs::RepeatLemmas::skips))]
fn next_pair<'c, 'a>(items: &'c [Item<'a>]) -> Option<(&'c Item<'a>, &'c [Item<'a>])>
    ensures { MatchOption result (pairs_among (map said_of items.now) ≡ []) (λ next. pairs_among (map said_of items.now) ≡ said_of next.0.now ∷ pairs_among (map said_of next.1.now)) }
{
    for (place, item) in items.iter().enumerate() {
        if is_pair(item.kind) {
            return Some((item, &items[place + 1..]));
        }
    }
    None
}

/// Whether a line is no key, or states what the first key of the other section states.
fn agrees(item: &Item<'_>, rest: &[Item<'_>]) -> bool
    ensures { result ≡ agrees (said_of item.now) (pairs_among (map said_of rest.now)) }
{
    if !is_pair(item.kind) {
        return true;
    }
    match next_pair(rest) {
        Some((other, _)) => says_same(item, other),
        None => false,
    }
}

/// How many items there are up to the first key, that key among them.
#[tactic(auto, using(crate::proofs::RepeatLemmas::skips, crate::proofs::RepeatLemmas::no_first))]
fn count_taken(items: &[Item<'_>]) -> usize
    ensures bound { result ≤ length items.now }
    ensures value { pairs_among (map said_of (drop result items.now)) ≡ without_first (pairs_among (map said_of items.now)) }
{
    for (place, item) in items.iter().enumerate() {
        if is_pair(item.kind) {
            return place + 1;
        }
    }
    items.len()
}

/// How many of the other section's items stand beside a line: a key of this one stands beside a key of that one.
fn count_beside(item: &Item<'_>, rest: &[Item<'_>]) -> usize
    ensures bound { result ≤ length rest.now }
    ensures value { pairs_among (map said_of (drop result rest.now)) ≡ behind (said_of item.now) (pairs_among (map said_of rest.now)) }
{
    if is_pair(item.kind) {
        count_taken(rest)
    } else {
        0
    }
}

/// What is left of the other section behind a line.
fn behind<'c, 'a>(item: &Item<'_>, rest: &'c [Item<'a>]) -> &'c [Item<'a>]
    ensures { pairs_among (map said_of result.now) ≡ behind (said_of item.now) (pairs_among (map said_of rest.now)) }
{
    &rest[count_beside(item, rest)..]
}

/// Whether the keys of two sections are the same with the same values, in the same order.
fn are_same(a: &[Item<'_>], b: &[Item<'_>]) -> bool
    ensures { result ≡ are_same (pairs_among (map said_of a.now)) (pairs_among (map said_of b.now)) }
{
    let mut rest = b;
    for item in a {
        if !agrees(item, rest) {
            return false;
        }
        rest = behind(item, rest);
    }
    next_pair(rest).is_none()
}

/// Whether a section says what the first of its name says.
fn is_first_or_same(contents: &Contents<'_>, item: &Item<'_>, name: SectionName) -> bool
    ensures { result ≡ is_first_or_same contents.now (said_of item.now) name }
{
    let section = Section {
        line: item.line,
        number: item.section,
    };
    match contents.first_named(name) {
        Some(first) => {
            first.number == item.section || are_same(contents.part(first), contents.part(section))
        }
        None => true,
    }
}

/// Whether a key has the value that the first of its name in the section has.
fn is_as_first(keys: &FirstKeys<'_>, item: &Item<'_>, key: Key) -> bool
    ensures { (items : List Said) → HasKeys items keys.now → result ≡ is_as_first items (said_of item.now) key }
{
    match first_key(keys, item.section, key) {
        Some(first) => stated_value(first.body) == stated_value(item.body),
        None => true,
    }
}

/// Whether a line says what the first of its name says.
fn stands_once(contents: &Contents<'_>, keys: &FirstKeys<'_>, item: &Item<'_>) -> bool
    requires { HasKeys contents.now keys.now }
    ensures { result ≡ stands_once contents.now (said_of item.now) item.now.kind }
{
    match item.kind {
        LineKind::Header(name) => is_first_or_same(contents, item, name),
        LineKind::Pair(key) => is_as_first(keys, item, key),
        _ => true,
    }
}

/// Asks for a line that says otherwise than the first of its name.
fn check_line(
    contents: &Contents<'_>,
    keys: &FirstKeys<'_>,
    item: &Item<'_>,
) -> Result<(), Question>
    requires { HasKeys contents.now keys.now }
    ensures { result ≡ check_line contents.now (said_of item.now) }
{
    unless(
        stands_once(contents, keys, item),
        About::Repeated,
        item.line,
    )
}

/// Asks for the first section or key that stands twice with different content.
pub fn check_repeats(contents: &Contents<'_>, keys: &FirstKeys<'_>) -> Result<(), ReadingFault>
    requires { HasKeys contents.now keys.now }
    ensures { Gives (λ done. done) result (check_repeats contents.now) }
{
    let items = contents.items();
    let mut earliest = Earliest::new();
    for item in items {
        earliest.note(check_line(contents, keys, item));
    }
    answered(earliest.check())
}
