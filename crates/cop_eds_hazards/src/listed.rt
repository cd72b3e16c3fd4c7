//! What the lists of objects name.

ghost use Rattle.std.specs.Prelude.{◌≡◌, ◌||◌, ℕ, decimal, IfOk, OnOk};
ghost use Rattle.std.specs.Ordering.{nat_cmp};
ghost use Rattle.std.specs.BTreeSet.{contains};
ghost use Rattle.cop_eds_hazards.specs.Stated.{stated};
ghost use Rattle.cop_eds_hazards.specs.Listed.{names, is_named_by, is_named_in, count_of, is_listed, AreListed};

use crate::stated::stated;
use cop_eds::Eds;
use itoa::Buffer;
use std::alloc::{AllocError, Global};
use std::collections::BTreeSet;

/// Adds the index that an entry of a list names.
fn add_entry(
    indexes: &mut BTreeSet<u64>,
    eds: &Eds<'_>,
    section: usize,
    place: u64,
) -> Result<(), AllocError>
    ensures { OnOk result ((index : ℕ) → contains nat_cmp indexes.new index ≡ (contains nat_cmp indexes.old index || names index (stated eds.now section (decimal place)))) }
{
    let mut buffer = Buffer::new();
    let key = buffer.format(place).as_bytes();
    if let Some(index) = stated(eds, section, key) {
        indexes.insert(index)?;
    }
    Ok(())
}

/// Adds the indexes that the first so many entries of a list name.
#[tactic(auto, unfolding(crate::specs::Listed::is_named_by))]
fn add_entries(
    indexes: &mut BTreeSet<u64>,
    eds: &Eds<'_>,
    section: usize,
    count: u64,
) -> Result<(), AllocError>
    ensures { OnOk result ((index : ℕ) → contains nat_cmp indexes.new index ≡ (contains nat_cmp indexes.old index || is_named_by eds.now section index count)) }
{
    for place in 0..count {
        add_entry(indexes, eds, section, place + 1)?;
    }
    Ok(())
}

/// How many entries a list says that it has.
pub fn count_of(eds: &Eds<'_>, section: usize) -> u64
    ensures { result ≡ count_of eds.now section }
{
    stated(eds, section, b"SupportedObjects").unwrap_or(0)
}

/// Adds the indexes that the list in the section of this name names.
fn add_list(indexes: &mut BTreeSet<u64>, eds: &Eds<'_>, name: &[u8]) -> Result<(), AllocError>
    ensures { OnOk result ((index : ℕ) → contains nat_cmp indexes.new index ≡ (contains nat_cmp indexes.old index || is_named_in eds.now name.now index)) }
{
    match eds.section(name) {
        Some(section) => add_entries(indexes, eds, section, count_of(eds, section)),
        None => Ok(()),
    }
}

/// The indexes that the three lists of an accepted text name. `Err` is want of memory.
#[tactic(auto, unfolding(crate::specs::Listed::is_listed))]
pub fn listed_indexes(alloc: Global, eds: &Eds<'_>) -> Result<BTreeSet<u64>, AllocError>
    ensures { IfOk result (λ indexes. AreListed eds.now indexes) }
{
    let mut indexes = BTreeSet::new(alloc);
    add_list(&mut indexes, eds, b"MandatoryObjects")?;
    add_list(&mut indexes, eds, b"OptionalObjects")?;
    add_list(&mut indexes, eds, b"ManufacturerObjects")?;
    Ok(indexes)
}

/// Whether the lists name an index.
pub fn is_listed(eds: &Eds<'_>, indexes: &BTreeSet<u64>, index: u64) -> bool
    requires { AreListed eds.now indexes.now }
    ensures { result ≡ is_listed eds.now index }
{
    indexes.contains(&index)
}
