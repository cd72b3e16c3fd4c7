//! What PDO mappings mean.

ghost use Rattle.std.specs.Prelude.{◌≡◌, ◌<◌, ◌^◌};
ghost use Rattle.cop_dict.specs.Types.{bits_of};
ghost use Rattle.cop_dict.specs.Find.{IsSorted};
ghost use Rattle.cop_dict.specs.Mapping.{direction_of, fields_of, has_bits, is_dummy, can_move, can_map, mapped_by, mapped_at, layout_bits};

use crate::data_type::{DataType, is_readable, is_writable};
use crate::object::Object;
use crate::search::object_at;
use cop_eds::Access;
use thiserror::Error;

/// Which way a PDO goes, seen from its device.
#[derive(Clone, Copy, Debug, PartialEq, Eq)]
pub enum Direction {
    /// An RPDO.
    Receive,
    /// A TPDO.
    Transmit,
}

/// What one entry of a mapping record says: an object and its length in bits.
#[derive(Clone, Copy, Debug, Default, PartialEq, Eq)]
pub struct Mapped {
    pub index: u16,
    pub sub: u8,
    pub bits: u8,
}

/// Why a mapping can't be used.
#[derive(Clone, Copy, Debug, PartialEq, Eq, Error)]
pub enum MappingFault {
    /// An entry isn't there, or isn't an UNSIGNED32.
    #[error("a record, its count or an entry is absent")]
    Absent,
    /// More than 64 entries, or more than 64 bits.
    #[error("more than 64 entries or bits")]
    TooLong,
    /// Nothing stands where an entry says.
    #[error("a mapped object is absent")]
    NoObject,
    /// The object can't be mapped at all, by its access, or with this length.
    #[error("an object can't be mapped so")]
    NotMappable,
}

impl Direction {
    /// The direction of the PDO that the mapping record at an index belongs to.
    pub fn of_record(index: u16) -> Direction
        ensures { result ≡ direction_of index }
    {
        if index < 0x1800 {
            Direction::Receive
        } else {
            Direction::Transmit
        }
    }

    /// Whether a PDO of this direction may move a value of this access.
    fn can_move(self, access: Access) -> bool
        ensures { result ≡ can_move self access }
    {
        match self {
            Direction::Receive => is_writable(access),
            Direction::Transmit => is_readable(access),
        }
    }
}

impl Mapped {
    /// The fields of a mapping entry's value.
    fn of_number(number: u64) -> Mapped
        requires { number < 2 ^ 32 }
        ensures { result ≡ fields_of number }
    {
        Mapped {
            index: (number / (1 << 16)) as u16,
            sub: (number / (1 << 8) % (1 << 8)) as u8,
            bits: (number % (1 << 8)) as u8,
        }
    }

    /// Whether values of a type have this length.
    fn has_bits(self, data_type: DataType) -> bool
        ensures { result ≡ has_bits self.bits (bits_of data_type) }
    {
        data_type.bits() == Some(usize::from(self.bits))
    }

    /// Whether these bits go nowhere.
    pub fn is_dummy(self, direction: Direction) -> bool
        ensures { result ≡ is_dummy direction self }
    {
        matches!(direction, Direction::Receive)
            && matches!(self.index, 1..=7)
            && self.sub == 0
            && self.has_bits(DataType::numbered(u64::from(self.index)))
    }

    /// Whether a PDO of this direction may move the object so.
    fn can_map(self, direction: Direction, object: &Object) -> bool
        ensures { result ≡ can_map direction self object.now }
    {
        let description = object.description();
        description.is_mappable
            && self.has_bits(description.data_type)
            && direction.can_move(description.access)
    }
}

fn mapped_by(
    objects: &[Object],
    direction: Direction,
    mapped: Mapped,
) -> Result<Mapped, MappingFault>
    requires { IsSorted objects.now }
    ensures { result ≡ mapped_by objects.now direction mapped }
{
    if mapped.is_dummy(direction) {
        return Ok(mapped);
    }
    match object_at(objects, mapped.index, mapped.sub) {
        Some(object) if mapped.can_map(direction, object) => Ok(mapped),
        Some(_) => Err(MappingFault::NotMappable),
        None => Err(MappingFault::NoObject),
    }
}

#[tactic(auto, unfolding(crate::specs::Mapping::mapped_at))]
/// What the entry of a mapping record at a sub says.
pub fn mapped_at(objects: &[Object], record_index: u16, sub: u8) -> Result<Mapped, MappingFault>
    requires { IsSorted objects.now }
    ensures { result ≡ mapped_at objects.now record_index sub }
{
    let entry = object_at(objects, record_index, sub).ok_or(MappingFault::Absent)?;
    let number = entry.unsigned32().ok_or(MappingFault::Absent)?;
    let direction = Direction::of_record(record_index);
    mapped_by(objects, direction, Mapped::of_number(number))
}

#[tactic(auto)]
/// The bits of the first so many entries of a mapping record.
pub fn layout_bits(objects: &[Object], record_index: u16, count: u8) -> Result<usize, MappingFault>
    requires { IsSorted objects.now }
    ensures { result ≡ layout_bits objects.now record_index count }
{
    if count > 64 {
        return Err(MappingFault::TooLong);
    }
    let mut bits = 0;
    for done in 0..count {
        bits += usize::from(mapped_at(objects, record_index, done + 1)?.bits);
    }
    if bits > 64 {
        return Err(MappingFault::TooLong);
    }
    Ok(bits)
}
