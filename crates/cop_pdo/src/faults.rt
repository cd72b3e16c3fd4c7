//! The numbers of refused payloads.

ghost use Rattle.std.specs.Prelude.{◌≡◌};
ghost use Rattle.cop_pdo.specs.Payload.{number_of};

use cop_dict::MappingFault;

/// The number by which a refused payload is known: 20 a record, its count or an entry is absent, 21 more than 64 entries
/// or bits, 22 a mapped object is absent, 23 an object can't be mapped so.
pub fn refusal_number(fault: MappingFault) -> u8
    ensures { result ≡ number_of fault }
{
    match fault {
        MappingFault::Absent => 20,
        MappingFault::TooLong => 21,
        MappingFault::NoObject => 22,
        MappingFault::NotMappable => 23,
    }
}
