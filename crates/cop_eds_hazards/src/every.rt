//! All hazards of a text.

ghost use Rattle.std.specs.Prelude.{◌≡◌, ◌++◌, IfOk, OnOk};
ghost use Rattle.std.specs.Option.{option_to_list};
ghost use Rattle.cop_eds_hazards.specs.Listed.{AreListed};
ghost use Rattle.cop_eds_hazards.specs.Hazards.{hazard_at};
ghost use Rattle.cop_eds_hazards.specs.Every.{hazards_by, all_beyond_of, all_beyond, hazards_of};

use crate::compact::implicit_line;
use crate::hazards::{Hazard, hazard_at};
use crate::listed::{count_of, listed_indexes};
use crate::tests::{Test, passes};
use cop_eds::Eds;
use std::alloc::{AllocError, Global};
use std::collections::BTreeSet;

/// Adds a hazard of this number at each line that passes a test.
#[tactic(auto, using(crate::proofs::EveryLemmas::takes, crate::proofs::EveryLemmas::skips, crate::proofs::EveryLemmas::ends))]
fn push_lines(
    found: &mut Vec<Hazard>,
    alloc: Global,
    eds: &Eds<'_>,
    indexes: &BTreeSet<u64>,
    number: u8,
    test: Test,
) -> Result<(), AllocError>
    requires { AreListed eds.now indexes.now }
    ensures { OnOk result (found.new.items ≡ found.old.items ++ hazards_by number test eds.now) }
{
    let lines = eds.lines();
    for (place, line) in lines.iter().enumerate() {
        if passes(alloc, eds, indexes, test, line)? {
            found.push(Hazard {
                number,
                line: place + 1,
            })?;
        }
    }
    Ok(())
}

/// Adds a hazard, if there is one.
pub fn push_some(found: &mut Vec<Hazard>, hazard: Option<Hazard>) -> Result<(), AllocError>
    ensures { OnOk result (found.new.items ≡ found.old.items ++ option_to_list hazard) }
{
    if let Some(hazard) = hazard {
        found.push(hazard)?;
    }
    Ok(())
}

/// Adds each entry behind the number of entries of the list in the section of this name.
fn push_beyond_of(
    found: &mut Vec<Hazard>,
    alloc: Global,
    eds: &Eds<'_>,
    indexes: &BTreeSet<u64>,
    name: &[u8],
) -> Result<(), AllocError>
    requires { AreListed eds.now indexes.now }
    ensures { OnOk result (found.new.items ≡ found.old.items ++ all_beyond_of eds.now name.now) }
{
    match eds.place(name) {
        Some(place) => {
            let count = count_of(eds, place.section);
            let test = Test::Beyond(place.section, count);
            push_lines(found, alloc, eds, indexes, 83, test)
        }
        None => Ok(()),
    }
}

/// Adds each entry behind the number of entries of its list.
fn push_beyond(
    found: &mut Vec<Hazard>,
    alloc: Global,
    eds: &Eds<'_>,
    indexes: &BTreeSet<u64>,
) -> Result<(), AllocError>
    requires { AreListed eds.now indexes.now }
    ensures { OnOk result (found.new.items ≡ found.old.items ++ all_beyond eds.now) }
{
    push_beyond_of(found, alloc, eds, indexes, b"MandatoryObjects")?;
    push_beyond_of(found, alloc, eds, indexes, b"OptionalObjects")?;
    push_beyond_of(found, alloc, eds, indexes, b"ManufacturerObjects")
}

/// All hazards of a text, by rising number and line, those of 83 list by list: what `first_hazard` gives is the first of them,
/// where no section is left as it is. `Err` is want of memory.
#[tactic(auto, unfolding(crate::specs::Every::hazards_of))]
pub fn all_hazards(alloc: Global, eds: &Eds<'_>) -> Result<Vec<Hazard>, AllocError>
    ensures { IfOk result (λ found. found.items ≡ hazards_of eds.now) }
{
    let indexes = listed_indexes(alloc, eds)?;
    let mut found = Vec::new(alloc);
    push_lines(&mut found, alloc, eds, &indexes, 80, Test::Unlisted)?;
    push_lines(&mut found, alloc, eds, &indexes, 81, Test::Unidentified)?;
    push_some(&mut found, hazard_at(82, implicit_line(eds, &indexes)))?;
    push_beyond(&mut found, alloc, eds, &indexes)?;
    push_lines(&mut found, alloc, eds, &indexes, 84, Test::Unseen)?;
    Ok(found)
}
