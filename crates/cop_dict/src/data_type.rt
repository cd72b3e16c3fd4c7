//! Data types of entries, and who may read and write.

ghost use Rattle.std.specs.Prelude.{◌≡◌, ◌≤◌, ◌<◌, ◌^◌, IfSome};
ghost use Rattle.cop_dict.specs.Types.{width_of, bits_of, half_of, greatest_of, is_text, is_opaque, is_boolean, is_unsigned32, type_numbered, is_readable, is_writable};
ghost use Rattle.cop_dict.specs.Number.{value_of};

use cop_eds::Access;

/// The data type of a value. Numbers are little endian, signed ones in two's complement.
#[derive(Clone, Copy, Debug, PartialEq, Eq)]
pub enum DataType {
    /// One byte, 0 or 1; in a PDO one bit.
    Boolean,
    Integer8,
    Integer16,
    Integer32,
    Integer64,
    Unsigned8,
    Unsigned16,
    Unsigned32,
    Unsigned64,
    /// Four bytes, whose number isn't looked at.
    Real32,
    /// Eight bytes, whose number isn't looked at.
    Real64,
    VisibleString,
    OctetString,
    Domain,
    /// Any other: it holds no value, and can't be read, written or mapped.
    Opaque,
}

impl DataType {
    /// The data type that a number names (CiA 301, "Data type entry usage"); `Opaque` where it
    /// is none of those known here.
    pub fn numbered(number: u64) -> DataType
        ensures { result ≡ type_numbered number }
    {
        match number {
            0x01 => DataType::Boolean,
            0x02 => DataType::Integer8,
            0x03 => DataType::Integer16,
            0x04 => DataType::Integer32,
            0x05 => DataType::Unsigned8,
            0x06 => DataType::Unsigned16,
            0x07 => DataType::Unsigned32,
            0x08 => DataType::Real32,
            0x09 => DataType::VisibleString,
            0x0A => DataType::OctetString,
            0x0F => DataType::Domain,
            0x11 => DataType::Real64,
            0x15 => DataType::Integer64,
            0x1B => DataType::Unsigned64,
            _ => DataType::Opaque,
        }
    }

    /// How many bytes each value has, where all have as many.
    pub fn width(self) -> Option<usize>
        ensures value { result ≡ width_of self }
        ensures bound { IfSome result (λ width. width ≤ 8) }
    {
        match self {
            DataType::Boolean | DataType::Integer8 | DataType::Unsigned8 => Some(1),
            DataType::Integer16 | DataType::Unsigned16 => Some(2),
            DataType::Integer32 | DataType::Unsigned32 | DataType::Real32 => Some(4),
            DataType::Integer64 | DataType::Unsigned64 | DataType::Real64 => Some(8),
            DataType::VisibleString | DataType::OctetString | DataType::Domain | DataType::Opaque =>
                None,
        }
    }

    /// How many bits each value has in a PDO, where all have as many.
    pub fn bits(self) -> Option<usize>
        ensures value { result ≡ bits_of self }
        ensures bound { IfSome result (λ bits. bits ≤ 64) }
    {
        match self {
            DataType::Boolean => Some(1),
            _ => self.width().map(|width| 8 * width),
        }
    }

    /// The first pattern that stands for a negative number, in a signed type.
    pub fn half(self) -> Option<u64>
        ensures value { result ≡ half_of self }
        ensures bound { IfSome result (λ half. (1 ≤ half) × (half ≤ 2 ^ 63)) }
    {
        match self {
            DataType::Integer8 => Some(1 << 7),
            DataType::Integer16 => Some(1 << 15),
            DataType::Integer32 => Some(1 << 31),
            DataType::Integer64 => Some(1 << 63),
            _ => None,
        }
    }

    /// The greatest number, in a type that has numbers. Strings, DOMAIN, REAL and opaque types have
    /// none.
    pub fn greatest(self) -> Option<u64>
        ensures { result ≡ greatest_of self }
    {
        match self {
            DataType::Boolean => Some(1),
            DataType::Integer8 => Some(0x7F),
            DataType::Integer16 => Some(0x7FFF),
            DataType::Integer32 => Some(0x7FFF_FFFF),
            DataType::Integer64 => Some(0x7FFF_FFFF_FFFF_FFFF),
            DataType::Unsigned8 => Some(0xFF),
            DataType::Unsigned16 => Some(0xFFFF),
            DataType::Unsigned32 => Some(0xFFFF_FFFF),
            DataType::Unsigned64 => Some(u64::MAX),
            DataType::Real32
            | DataType::Real64
            | DataType::VisibleString
            | DataType::OctetString
            | DataType::Domain
            | DataType::Opaque => None,
        }
    }

    /// The number that a pattern stands for.
    pub(crate) fn value_of(self, pattern: u64) -> i128
        ensures { result ≡ value_of self pattern }
    {
        match self.half() {
            Some(half) if pattern >= half => i128::from(pattern) - 2 * i128::from(half),
            _ => i128::from(pattern),
        }
    }

    pub(crate) fn is_opaque(self) -> bool
        ensures { result ≡ is_opaque self }
    {
        matches!(self, DataType::Opaque)
    }

    /// Whether a value is the bytes of a text.
    pub(crate) fn is_text(self) -> bool
        ensures { result ≡ is_text self }
    {
        matches!(self, DataType::VisibleString)
    }

    pub(crate) fn is_boolean(self) -> bool
        ensures { result ≡ is_boolean self }
    {
        matches!(self, DataType::Boolean)
    }

    pub fn is_unsigned32(self) -> bool
        ensures { result ≡ is_unsigned32 self }
    {
        matches!(self, DataType::Unsigned32)
    }
}

/// Whether SDO and TPDOs may read a value of this access.
pub fn is_readable(access: Access) -> bool
    ensures { result ≡ is_readable access }
{
    !matches!(access, Access::WriteOnly)
}

/// Whether SDO and RPDOs may write a value of this access.
pub fn is_writable(access: Access) -> bool
    ensures { result ≡ is_writable access }
{
    !matches!(access, Access::ReadOnly | Access::Constant)
}
