//! What CiA 301 says of the objects of the communication profile.

use cop_eds::Access;

/// The number of a data type of CiA 301.
pub const UNSIGNED8: u64 = 5;

const UNSIGNED16: u64 = 6;

const UNSIGNED32: u64 = 7;

const VISIBLE_STRING: u64 = 9;

/// Whether an index is of the mapping record of a PDO.
pub fn is_mapping(index: u64) -> bool {
    matches!(index, 0x1600..=0x17FF | 0x1A00..=0x1BFF)
}

/// Whether an index is of a record of a PDO, or lies among them.
pub fn is_pdo(index: u64) -> bool {
    matches!(index, 0x1400..=0x1BFF)
}

/// Whether an index is of the communication record of a PDO.
fn is_communication(index: u64) -> bool {
    is_pdo(index) && !is_mapping(index)
}

/// The data type of a sub of the communication record of a PDO.
pub fn communication_type(sub: u64) -> Option<u64> {
    match sub {
        0 | 2 | 4 | 6 => Some(UNSIGNED8),
        1 => Some(UNSIGNED32),
        3 | 5 => Some(UNSIGNED16),
        _ => None,
    }
}

/// The data type of an array whose sub 0 is a number of entries.
fn counted(sub: u64) -> u64 {
    if sub == 0 { UNSIGNED8 } else { UNSIGNED32 }
}

/// The data type of an object, where CiA 301 leaves no choice.
pub fn data_type(index: u64, sub: u64) -> Option<u64> {
    match index {
        0x1000 | 0x1002 | 0x1005 | 0x1006 | 0x1007 | 0x1014 => Some(UNSIGNED32),
        0x1001 | 0x100D | 0x1019 | 0x1029 => Some(UNSIGNED8),
        0x1003 | 0x1010 | 0x1011 | 0x1016 | 0x1018 => Some(counted(sub)),
        0x1008..=0x100A => Some(VISIBLE_STRING),
        0x100C | 0x1015 | 0x1017 => Some(UNSIGNED16),
        _ if is_communication(index) => communication_type(sub),
        _ if is_mapping(index) => Some(counted(sub)),
        _ => None,
    }
}

/// The data type by which the PDOs of a device can be planned: of the identifier of a PDO, and of its mapping.
pub fn forced_type(index: u64, sub: u64) -> Option<u64> {
    if is_communication(index) && sub == 1 {
        Some(UNSIGNED32)
    } else if is_mapping(index) {
        Some(counted(sub))
    } else {
        None
    }
}

/// The access of an object, where CiA 301 leaves no choice.
pub fn access(index: u64, sub: u64) -> Option<Access> {
    match index {
        0x1000..=0x1002 | 0x1018 => Some(Access::ReadOnly),
        0x1003 if sub >= 1 => Some(Access::ReadOnly),
        0x1008..=0x100A => Some(Access::Constant),
        _ => None,
    }
}
