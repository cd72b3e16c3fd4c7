//! Numbers of PDOs that are above what the lists name.

ghost use Rattle.std.specs.Prelude.{◌≡◌, ◌≤◌, ◌+◌, if◌then◌else◌, IfOk};
ghost use Rattle.cop_eds_hazards.specs.Listed.{is_listed, AreListed};
ghost use Rattle.cop_eds_hazards.specs.Counted.{listed_among, miscount_at, is_plain, miscounts_in, miscounts_of};

use crate::every::push_some;
use crate::hazards::{Hazard, hazard_at};
use crate::listed::{is_listed, listed_indexes};
use crate::stated::{stated, stated_or_0};
use crate::tests::is_above;
use cop_eds::{Eds, Place};
use std::alloc::{AllocError, Global};
use std::collections::BTreeSet;

/// 1 where the lists name an index, else 0.
fn listed_once(eds: &Eds<'_>, indexes: &BTreeSet<u64>, index: u64) -> u64
    requires { AreListed eds.now indexes.now }
    ensures value { result ≡ (if is_listed eds.now index then 1 else 0) }
    ensures most { result ≤ 1 }
{
    if is_listed(eds, indexes, index) { 1 } else { 0 }
}

/// How many of so many indexes from one on the lists name.
#[tactic(auto, unfolding(crate::specs::Counted::listed_among))]
fn listed_among(eds: &Eds<'_>, indexes: &BTreeSet<u64>, first: u64, size: u64) -> u64
    requires listed { AreListed eds.now indexes.now }
    requires first { first ≤ 65535 }
    requires size { size ≤ 512 }
    ensures { result ≡ listed_among eds.now first size }
{
    let mut count = 0;
    for number in 0..size {
        count += listed_once(eds, indexes, first + number);
    }
    count
}

/// That a key states more PDOs than the lists name records from an index on.
fn miscount_at(
    eds: &Eds<'_>,
    indexes: &BTreeSet<u64>,
    section: usize,
    key: &[u8],
    first: u64,
) -> Option<Hazard>
    requires listed { AreListed eds.now indexes.now }
    requires first { first ≤ 65535 }
    ensures { result ≡ miscount_at eds.now section key.now first }
{
    let count = listed_among(eds, indexes, first, 512);
    if is_above(count, stated(eds, section, key)) {
        hazard_at(85, eds.key_line(section, key))
    } else {
        None
    }
}

/// Whether CompactPDO describes no sub-index.
fn is_plain(eds: &Eds<'_>, section: usize) -> bool
    ensures { result ≡ is_plain eds.now section }
{
    match stated_or_0(eds, section, b"CompactPDO") {
        Some(subs) => 0 == subs,
        None => false,
    }
}

/// The miscounts of the section that begins at a place.
fn miscounts_in(
    alloc: Global,
    eds: &Eds<'_>,
    indexes: &BTreeSet<u64>,
    place: Option<Place>,
) -> Result<Vec<Hazard>, AllocError>
    requires { AreListed eds.now indexes.now }
    ensures { IfOk result (λ found. found.items ≡ miscounts_in eds.now place) }
{
    let mut found = Vec::new(alloc);
    if let Some(place) = place {
        let section = place.section;
        if is_plain(eds, section) {
            push_some(
                &mut found,
                miscount_at(eds, indexes, section, b"NrOfRXPDO", 0x1400),
            )?;
            push_some(
                &mut found,
                miscount_at(eds, indexes, section, b"NrOfTXPDO", 0x1800),
            )?;
        }
    }
    Ok(found)
}

/// The lines of NrOfRXPDO and then of NrOfTXPDO that state more PDOs than the lists name communication records, where CompactPDO
/// describes none: warning 85. `Err` is want of memory.
#[tactic(auto, unfolding(crate::specs::Counted::miscounts_of))]
pub fn miscounts(alloc: Global, eds: &Eds<'_>) -> Result<Vec<Hazard>, AllocError>
    ensures { IfOk result (λ found. found.items ≡ miscounts_of eds.now) }
{
    let indexes = listed_indexes(alloc, eds)?;
    miscounts_in(alloc, eds, &indexes, eds.place(b"DeviceInfo"))
}
