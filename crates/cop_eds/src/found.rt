//! The objects at the indexes that were looked at so far.

ghost use Rattle.std.specs.Prelude.{◌≡◌, IfOk, OnOk, length};
ghost use Rattle.std.specs.List.{AllByRecursion, flat_map};
ghost use Rattle.std.specs.Map.{keys_of};
ghost use Rattle.std.specs.Ordering.{nat_cmp};
ghost use Rattle.std.specs.BTreeMap.{IsFromIterResult, values};
ghost use Rattle.std.specs.BTreeSet.{insert_key};
ghost use Rattle.cop_eds.specs.Lines.{Gives};
ghost use Rattle.cop_eds.specs.Lists.{checked_object};
ghost use Rattle.cop_eds.specs.Objects.{rising};
ghost use Rattle.cop_eds.specs.Found.{IsInside, spanned, AreFound};

use crate::bits::Bits;
use crate::description::Object;
use crate::fault::EdsFault;
use crate::objects::read_object;
use crate::sections::Sections;
use std::alloc::{AllocError, Global};
use std::collections::BTreeMap;

/// The places of an index's objects among all that were found.
#[derive(Clone, Copy)]
pub struct Span {
    pub from: usize,
    pub to: usize,
}

/// The objects at the indexes that were looked at, in the order in which these were met: each index beside the places of
/// its objects. `met` is the section of an object that was met last.
#[derive(Drop)]
pub struct Found {
    pub objects: Vec<Object>,
    pub parts: Vec<(u64, Span)>,
    pub seen: Bits,
    pub met: usize,
}

/// Adds the objects at the index that an entry at this line names. Each index is looked at once.
pub fn find_object(
    found: &mut Found,
    text: &Sections<'_>,
    line: usize,
    index: u64,
) -> Result<(), EdsFault>
    requires { AreFound text.now found.old.objects.items found.old.parts.items found.old.seen }
    ensures value { Gives (λ done. done) result (checked_object text.now line index) }
    ensures sound { OnOk result (AreFound text.now found.new.objects.items found.new.parts.items found.new.seen) }
    ensures keys { OnOk result (rising (keys_of found.new.parts.items) ≡ insert_key nat_cmp (rising (keys_of found.old.parts.items)) index) }
{
    if found.seen.contains(index) {
        return Ok(());
    }
    let from = found.objects.len();
    read_object(&mut found.objects, &mut found.met, text, line, index)?;
    let to = found.objects.len();
    found.parts.push((index, Span { from, to }))?;
    found.seen.insert(index)?;
    Ok(())
}

/// The parts by rising index.
pub fn spans_of(alloc: Global, parts: &[(u64, Span)]) -> Result<BTreeMap<u64, Span>, AllocError>
    ensures { IfOk result (λ spans. IsFromIterResult nat_cmp parts.now spans) }
{
    parts.iter().copied().collect(alloc)
}

/// The objects by rising index.
pub fn in_order(
    alloc: Global,
    all: &[Object],
    spans: &BTreeMap<u64, Span>,
) -> Result<Vec<Object>, AllocError>
    requires { AllByRecursion (IsInside (length all.now)) (values spans.now) }
    ensures { IfOk result (λ objects. objects.items ≡ flat_map (spanned all.now) (values spans.now)) }
{
    let mut objects = Vec::with_capacity(alloc, all.len())?;
    for span in spans.values() {
        objects.extend_from_slice(&all[span.from..span.to])?;
    }
    Ok(objects)
}
