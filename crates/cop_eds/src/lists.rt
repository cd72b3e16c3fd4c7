//! The lists of objects, and the objects that they name.

ghost use Rattle.std.specs.Prelude.{◌≡◌, ℕ, List, [], IfOk, OnOk, MatchResult, Ok};
ghost use Rattle.std.specs.Option.{option_map};
ghost use Rattle.std.specs.Ordering.{nat_cmp};
ghost use Rattle.std.specs.Map.{keys_of};
ghost use Rattle.std.specs.BTreeSet.{insert_key};
ghost use Rattle.cop_eds.specs.Lines.{Gives, Fails, Sees};
ghost use Rattle.cop_eds.specs.Sections.{place_of};
ghost use Rattle.cop_eds.specs.Steps.{needed};
ghost use Rattle.cop_eds.specs.Lists.{listed_at, listed_from, listed_in, listed};
ghost use Rattle.cop_eds.specs.Objects.{objects_of, rising};
ghost use Rattle.cop_eds.specs.Found.{AreFound, Adds};

use crate::bits::Bits;
use crate::description::{Object, number_at};
use crate::fault::{EdsFault, Refusal, missing};
use crate::found::{Found, find_object, in_order, spans_of};
use crate::line::Place;
use crate::sections::Sections;
use itoa::Buffer;
use std::alloc::Global;

fn needed<'a>(line: usize, entry: Option<(usize, &'a [u8])>) -> Result<(usize, &'a [u8]), Refusal>
    ensures { Sees {Y = ℕ × List ℕ} (λ e. (e.0, e.1.now)) result (needed line (option_map (λ e. (e.0, e.1.now)) entry.entry)) }
{
    entry.ok_or(missing(line))
}

/// The index at a place of a list. What it names is looked at.
#[tactic(auto, unfolding(crate::specs::Lists::listed_at))]
fn listed_at(
    found: &mut Found,
    text: &Sections<'_>,
    list: Place,
    place: u64,
) -> Result<u64, EdsFault>
    requires { AreFound text.now found.old.objects.items found.old.parts.items found.old.seen }
    ensures value { Gives (λ index. index) result (listed_at text.now list place) }
    ensures sound { OnOk result (AreFound text.now found.new.objects.items found.new.parts.items found.new.seen) }
    ensures keys { IfOk result (λ index. rising (keys_of found.new.parts.items) ≡ insert_key nat_cmp (rising (keys_of found.old.parts.items)) index) }
{
    let mut buffer = Buffer::new();
    let key = buffer.format(place).as_bytes();
    // Most lists have their keys in order, each on a line of its own after that of the count.
    let near = list.line.saturating_add(place as usize);
    let entry = needed(list.line, text.entry_near(near, list.section, key))?;
    let index = number_at(entry.0, entry.1)?;
    find_object(found, text, entry.0, index)?;
    Ok(index)
}

/// Looks at what a list names, its first so many.
fn listed_from(
    found: &mut Found,
    text: &Sections<'_>,
    list: Place,
    count: u64,
) -> Result<(), EdsFault>
    requires { AreFound text.now found.old.objects.items found.old.parts.items found.old.seen }
    ensures sound { OnOk result (AreFound text.now found.new.objects.items found.new.parts.items found.new.seen) }
    ensures added { Adds (listed_from text.now list [] count) (rising (keys_of found.old.parts.items)) (rising (keys_of found.new.parts.items)) result }
{
    for place in 0..count {
        listed_at(found, text, list, place + 1)?;
    }
    Ok(())
}

/// Looks at what the list in the section of this name names.
#[tactic(auto, unfolding(crate::specs::Lists::listed_in))]
fn listed_in(found: &mut Found, text: &Sections<'_>, name: &[u8]) -> Result<(), EdsFault>
    requires { AreFound text.now found.old.objects.items found.old.parts.items found.old.seen }
    ensures sound { OnOk result (AreFound text.now found.new.objects.items found.new.parts.items found.new.seen) }
    ensures added { Adds (listed_in text.now (place_of text.now name.now)) (rising (keys_of found.old.parts.items)) (rising (keys_of found.new.parts.items)) result }
{
    let Some(list) = text.named(name) else {
        return Ok(());
    };
    let count = text.entry(list.section, b"SupportedObjects");
    let count = needed(list.line, count)?;
    let count = number_at(count.0, count.1)?;
    listed_from(found, text, list, count)
}

/// The objects at the indexes that the three lists name, by rising index and sub.
pub fn objects(alloc: Global, text: &Sections<'_>) -> Result<Vec<Object>, EdsFault>
    ensures read { MatchResult result (λ objects. (indexes : List ℕ) × (listed text.now ≡ Ok indexes)) (λ fault. Fails fault (listed text.now)) }
    ensures held { IfOk result (λ objects. objects.items ≡ objects_of text.now) }
{
    let mut found = Found {
        objects: Vec::new(alloc),
        parts: Vec::new(alloc),
        seen: Bits::new(alloc),
        met: 0,
    };
    listed_in(&mut found, text, b"MandatoryObjects")?;
    listed_in(&mut found, text, b"OptionalObjects")?;
    listed_in(&mut found, text, b"ManufacturerObjects")?;
    let spans = spans_of(alloc, &found.parts)?;
    Ok(in_order(alloc, &found.objects, &spans)?)
}
