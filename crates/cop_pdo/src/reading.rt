//! The payload of a PDO, read from its records.

ghost use Rattle.std.specs.Prelude.{◌≡◌, ◌≤◌, ◌+◌, Ok, Err, IfOk, MatchResult};
ghost use Rattle.cop_dict.specs.Find.{entry_at};
ghost use Rattle.cop_dict.specs.Mapping.{mapped_from, layout};
ghost use Rattle.cop_pdo.specs.Payload.{communication_of, count_by, unsigned8_of, payload_of, seen, HasObjects};

use crate::mapping::{Mapping, total};
use arrayvec::ArrayVec;
use cop_dict::{DataType, Dictionary, Direction, Mapped, MappingFault, Object, number};

/// The index of a PDO's communication record.
fn communication(direction: Direction, number: u16) -> u16
    requires { number ≤ 512 }
    ensures { result ≡ communication_of direction number }
{
    match direction {
        Direction::Receive => 0x13FF + number,
        Direction::Transmit => 0x17FF + number,
    }
}

/// The number that an UNSIGNED8 holds.
fn unsigned8(entry: &Object) -> Option<u64>
    ensures { result ≡ unsigned8_of entry.now }
{
    match entry.description().data_type {
        DataType::Unsigned8 => Some(number(entry.value())),
        _ => None,
    }
}

/// How many entries a mapping record has.
fn count_in(dict: &Dictionary, index: u16) -> Result<u64, MappingFault>
    ensures { result ≡ count_by (entry_at dict.now index 0) }
{
    let entry = dict.entry(index, 0).ok_or(MappingFault::Absent)?;
    match unsigned8(entry) {
        Some(count) if count > 0 => Ok(count),
        _ => Err(MappingFault::Absent),
    }
}

/// What the first so many entries of a mapping record say.
fn entries_in(
    dict: &Dictionary,
    index: u16,
    count: u8,
) -> Result<ArrayVec<Mapped, 64>, MappingFault>
    requires { count ≤ 64 }
    ensures { MatchResult result
        (λ entries. mapped_from dict.now index 1 count ≡ Ok entries.items)
        (λ fault. mapped_from dict.now index 1 count ≡ Err fault) }
{
    let mut entries = ArrayVec::new();
    for done in 0..count {
        entries.push(dict.mapped(index, done + 1)?);
    }
    Ok(entries)
}

/// What the first so many entries of a mapping record say, where they are at most 64 of at most 64 bits together.
#[tactic(auto, using(crate::proofs::PayloadLemmas::too_many, crate::proofs::PayloadLemmas::stops, crate::proofs::PayloadLemmas::too_long, crate::proofs::PayloadLemmas::fits))]
fn layout_in(
    dict: &Dictionary,
    index: u16,
    count: u64,
) -> Result<ArrayVec<Mapped, 64>, MappingFault>
    ensures { MatchResult result
        (λ entries. layout dict.now index count ≡ Ok entries.items)
        (λ fault. layout dict.now index count ≡ Err fault) }
{
    if count > 64 {
        return Err(MappingFault::TooLong);
    }
    let entries = entries_in(dict, index, count as u8)?;
    if total(&entries) > 64 {
        return Err(MappingFault::TooLong);
    }
    Ok(entries)
}

/// The payload of a PDO of a device, from 1 to 512: the mapped objects in the order of its mapping's entries, or the first
/// rule that its records break (CiA 301, "PDO mapping parameter record"). It takes no memory.
#[tactic(auto, unfolding(crate::specs::Payload::payload_of))]
pub fn payload(
    dict: &Dictionary,
    direction: Direction,
    number: u16,
) -> Result<Mapping, MappingFault>
    requires { (1 ≤ number) × (number ≤ 512) }
    ensures exact { seen result ≡ payload_of dict.now direction number }
    ensures direction { IfOk result (λ mapping. mapping.direction ≡ direction) }
    ensures objects { IfOk result (HasObjects dict.now) }
{
    let communication = communication(direction, number);
    if dict.entry(communication, 1).is_none() {
        return Err(MappingFault::Absent);
    }
    let mapping = communication + 0x200;
    let count = count_in(dict, mapping)?;
    let entries = layout_in(dict, mapping, count)?;
    Ok(Mapping { direction, entries })
}
