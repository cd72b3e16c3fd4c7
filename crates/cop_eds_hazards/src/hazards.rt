//! The first hazard of a text.

ghost use Rattle.std.specs.Prelude.{◌≡◌, IfOk};
ghost use Rattle.cop_eds_hazards.specs.Listed.{AreListed};
ghost use Rattle.cop_eds_hazards.specs.Hazards.{first_line, beyond_of, beyond_line, unlisted_line, hazard_at, hazard_of};
ghost use Rattle.cop_eds_hazards.specs.Compact.{implicit_line};
ghost use Rattle.cop_eds_hazards.specs.declared.tests.Test.TheVariants as tests;

use crate::compact::implicit_line;
use crate::listed::{count_of, listed_indexes};
use crate::tests::{Test, first_line};
use cop_eds::Eds;
use std::alloc::{AllocError, Global};
use std::collections::BTreeSet;

/// A hazard: its number, 80 to 84, and the number of the line at which it stands.
#[derive(Clone, Copy, Debug, PartialEq, Eq)]
pub struct Hazard {
    pub number: u8,
    pub line: usize,
}

/// The first line at which the list in the section of this name has an entry behind its number of entries.
fn beyond_of(
    alloc: Global,
    eds: &Eds<'_>,
    indexes: &BTreeSet<u64>,
    name: &[u8],
) -> Result<Option<usize>, AllocError>
    requires { AreListed eds.now indexes.now }
    ensures { IfOk result (λ line. line ≡ beyond_of eds.now name.now) }
{
    match eds.place(name) {
        Some(place) => {
            let count = count_of(eds, place.section);
            first_line(alloc, eds, indexes, Test::Beyond(place.section, count))
        }
        None => Ok(None),
    }
}

/// The first line at which a list has an entry behind its number of entries.
fn beyond_line(
    alloc: Global,
    eds: &Eds<'_>,
    indexes: &BTreeSet<u64>,
) -> Result<Option<usize>, AllocError>
    requires { AreListed eds.now indexes.now }
    ensures { IfOk result (λ line. line ≡ beyond_line eds.now) }
{
    let mandatory = beyond_of(alloc, eds, indexes, b"MandatoryObjects")?;
    let optional = beyond_of(alloc, eds, indexes, b"OptionalObjects")?;
    let manufacturer = beyond_of(alloc, eds, indexes, b"ManufacturerObjects")?;
    Ok(mandatory.or(optional.or(manufacturer)))
}

/// The first line of an object by which a device does something on the bus and which no list names, unless such sections are left as they are.
fn unlisted_line(
    alloc: Global,
    eds: &Eds<'_>,
    indexes: &BTreeSet<u64>,
    is_left: bool,
) -> Result<Option<usize>, AllocError>
    requires { AreListed eds.now indexes.now }
    ensures { IfOk result (λ line. line ≡ unlisted_line is_left eds.now) }
{
    if is_left {
        Ok(None)
    } else {
        first_line(alloc, eds, indexes, Test::Unlisted)
    }
}

/// The hazard of this number at a line.
pub fn hazard_at(number: u8, line: Option<usize>) -> Option<Hazard>
    ensures { result ≡ hazard_at number line }
{
    match line {
        Some(line) => Some(Hazard { number, line }),
        None => None,
    }
}

/// The first hazard of a text, by its number: 80 a section by which a device does something on the bus and that no list names,
/// unless such sections are left as they are; 81 a listed record of a PDO without an identifier; 82 PDOs that CompactPDO leaves out; 83 an entry
/// behind the number of entries of its list; 84 a section in another spelling, or one of a listed object under a name that CiA 306 does not
/// have, which nothing reads.
#[tactic(auto, unfolding(crate::specs::Hazards::hazard_of))]
pub fn first_hazard(
    alloc: Global,
    eds: &Eds<'_>,
    is_left: bool,
) -> Result<Option<Hazard>, AllocError>
    ensures { IfOk result (λ found. found ≡ hazard_of is_left eds.now) }
{
    let indexes = listed_indexes(alloc, eds)?;
    let unlisted = unlisted_line(alloc, eds, &indexes, is_left)?;
    let unidentified = first_line(alloc, eds, &indexes, Test::Unidentified)?;
    let implicit = implicit_line(eds, &indexes);
    let beyond = beyond_line(alloc, eds, &indexes)?;
    let unseen = first_line(alloc, eds, &indexes, Test::Unseen)?;
    let lists = hazard_at(83, beyond).or(hazard_at(84, unseen));
    let records = hazard_at(81, unidentified).or(hazard_at(82, implicit).or(lists));
    Ok(hazard_at(80, unlisted).or(records))
}
