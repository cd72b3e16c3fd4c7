//! The rules for writing PDO communication and mapping records.

ghost use Rattle.std.specs.Prelude.{◌≡◌, ◌≤◌, length};
ghost use Rattle.std.specs.Option.{ForSome};
ghost use Rattle.cop_dict.specs.Types.{width_of};
ghost use Rattle.cop_dict.specs.Number.{number};
ghost use Rattle.cop_dict.specs.Rules.{first_broken};
ghost use Rattle.cop_dict.specs.Find.{IsSorted};
ghost use Rattle.cop_dict.specs.Mapping.{layout_bits};
ghost use Rattle.cop_dict.specs.Pdo.{is_communication, is_mapping, is_restricted, keeps_pdo, pdo_exists, has_entries, is_cob_id, names_restricted, cob_id_rules, refused_layout, refused_count, refused_mapping, refused_by_pdos};

use crate::abort::Abort;
use crate::mapping::{MappingFault, layout_bits};
use crate::numbers::{is_zero, number, small_number};
use crate::object::Object;
use crate::search::object_at;

fn is_communication(index: u16) -> bool
    ensures { result ≡ is_communication index }
{
    matches!(index, 0x1400..=0x15FF | 0x1800..=0x19FF)
}

fn is_mapping(index: u16) -> bool
    ensures { result ≡ is_mapping index }
{
    matches!(index, 0x1600..=0x17FF | 0x1A00..=0x1BFF)
}

/// Identifiers that no PDO may have.
fn is_restricted(id: u64) -> bool
    ensures { result ≡ is_restricted id }
{
    matches!(
        id,
        0..=0x7F | 0x101..=0x180 | 0x581..=0x5FF | 0x601..=0x67F | 0x6E0..=0x6FF | 0x701..=0x7FF
    )
}

fn keeps_pdo(object: &Object) -> bool
    ensures { result ≡ keeps_pdo object.now }
{
    object.unsigned32().is_none_or(|cob_id| cob_id < 1 << 31)
}

/// Whether the PDO of a communication record exists.
fn pdo_exists(objects: &[Object], index: u16) -> bool
    requires { IsSorted objects.now }
    ensures { result ≡ pdo_exists objects.now index }
{
    object_at(objects, index, 1).is_some_and(|object| keeps_pdo(object))
}

/// Whether sub 0 of a record is there and isn't 0.
fn has_entries(objects: &[Object], index: u16) -> bool
    requires { IsSorted objects.now }
    ensures { result ≡ has_entries objects.now index }
{
    object_at(objects, index, 0).is_some_and(|object| !is_zero(object.value()))
}

fn is_cob_id(object: &Object) -> bool
    ensures { result ≡ is_cob_id object.now }
{
    is_communication(object.index()) && object.sub() == 1
}

/// Whether a COB-ID lets a PDO exist with an identifier that it may not have.
fn names_restricted(cob_id: u64) -> bool
    ensures { result ≡ names_restricted cob_id }
{
    cob_id < 1 << 31 && (cob_id % (1 << 30) >= 1 << 29 || is_restricted(cob_id % (1 << 11)))
}

/// The first rule that a write to a COB-ID breaks.
fn refused_cob_id(object: &Object, bytes: &[u8]) -> Option<Abort>
    requires { ForSome (width_of object.now.description.data_type) (λ width. length bytes.now ≡ width) }
    ensures { result ≡ first_broken (cob_id_rules object.now (number bytes.now)) }
{
    let Some(old) = object.unsigned32() else {
        return Some(Abort::DeviceState);
    };
    let new = number(bytes);
    if old < 1 << 31 && old % (1 << 30) != new % (1 << 30) {
        Some(Abort::DeviceState)
    } else if names_restricted(new) {
        Some(Abort::InvalidValue)
    } else {
        None
    }
}

/// The code of a mapping that can't be used.
fn refused_layout(bits: Result<usize, MappingFault>) -> Option<Abort>
    ensures { result ≡ refused_layout bits }
{
    match bits {
        Ok(_) => None,
        Err(MappingFault::TooLong) => Some(Abort::MappingTooLong),
        Err(_) => Some(Abort::NotMappable),
    }
}

#[tactic(auto, using(crate::proofs::MappingLemmas::too_many))]
/// The rule for a number that is written to sub 0 of a mapping record.
fn refused_count(objects: &[Object], object: &Object, bytes: &[u8]) -> Option<Abort>
    requires { IsSorted objects.now }
    ensures { result ≡ refused_count objects.now object.now (number bytes.now) }
{
    if object.sub() != 0 {
        return None;
    }
    match small_number(bytes) {
        Some(0) => None,
        Some(count) => refused_layout(layout_bits(objects, object.index(), count)),
        None => Some(Abort::MappingTooLong),
    }
}

/// The first rule that a write to a mapping record breaks.
fn refused_mapping(objects: &[Object], object: &Object, bytes: &[u8]) -> Option<Abort>
    requires sorted { IsSorted objects.now }
    requires low { 0x200 ≤ object.now.index }
    ensures { result ≡ refused_mapping objects.now object.now (number bytes.now) }
{
    if pdo_exists(objects, object.index() - 0x200) {
        return Some(Abort::DeviceState);
    }
    if object.sub() > 0 && has_entries(objects, object.index()) {
        return Some(Abort::DeviceState);
    }
    refused_count(objects, object, bytes)
}

#[tactic(auto, unfolding(crate::specs::Pdo::refused_by_pdos))]
/// The first rule on PDOs that a write breaks.
pub fn refused_by_pdos(objects: &[Object], object: &Object, bytes: &[u8]) -> Option<Abort>
    requires sorted { IsSorted objects.now }
    requires fits { ForSome (width_of object.now.description.data_type) (λ width. length bytes.now ≡ width) }
    ensures { result ≡ refused_by_pdos objects.now object.now bytes.now }
{
    if is_cob_id(object) {
        refused_cob_id(object, bytes)
    } else if is_mapping(object.index()) {
        refused_mapping(objects, object, bytes)
    } else {
        None
    }
}
