//! What CiA 301 says of the objects of the communication profile.

ghost use Rattle.std.specs.Prelude.{◌≡◌, ◌==◌, ◌||◌};
ghost use Rattle.cop_dict.specs.Mapping.{is_between};
ghost use Rattle.cop_dict.specs.Pdo.{is_communication, is_mapping};
ghost use Rattle.cop_tidy_reading.specs.Standard.{is_pdo, is_guarded, is_needed, communication_type, counted, standard_type, forced_type, standard_access};

use cop_eds::Access;

const UNSIGNED8: u64 = 5;

const UNSIGNED16: u64 = 6;

const UNSIGNED32: u64 = 7;

const VISIBLE_STRING: u64 = 9;

fn is_between(low: u64, high: u64, index: u64) -> bool
    ensures { result ≡ is_between low high index }
{
    low <= index && index <= high
}

/// Whether an index is of a communication record of a PDO.
pub fn is_communication(index: u64) -> bool
    ensures { result ≡ is_communication index }
{
    is_between(0x1400, 0x15FF, index) || is_between(0x1800, 0x19FF, index)
}

/// Whether an index is of the mapping record of a PDO.
pub fn is_mapping(index: u64) -> bool
    ensures { result ≡ is_mapping index }
{
    is_between(0x1600, 0x17FF, index) || is_between(0x1A00, 0x1BFF, index)
}

/// Whether an index is of a record of a PDO.
pub fn is_pdo(index: u64) -> bool
    ensures { result ≡ is_pdo index }
{
    is_between(0x1400, 0x1BFF, index)
}

/// Whether an object does something on the bus that a list may not leave out without a word: SYNC, EMCY, heartbeats, SDO and PDOs.
pub fn is_guarded(index: u64) -> bool
    ensures { result ≡ is_guarded index }
{
    (index == 0x1005 || (index == 0x1006 || is_between(0x1014, 0x1017, index)))
        || (index == 0x1200 || (is_pdo(index) || 0xFFFF < index))
}

/// Whether a plan reads the values of an object.
pub fn is_needed(index: u64) -> bool
    ensures { result ≡ is_needed index }
{
    (index == 0x1000 || (is_between(0x1005, 0x1007, index) || (index == 0x1010 || index == 0x1011)))
        || (is_between(0x1014, 0x1018, index) || (index == 0x1200 || is_pdo(index)))
}

/// The data type of a sub of the communication record of a PDO.
pub fn communication_type(sub: u64) -> Option<u64>
    ensures { result ≡ communication_type sub }
{
    if sub == 1 {
        Some(UNSIGNED32)
    } else if sub == 3 || sub == 5 {
        Some(UNSIGNED16)
    } else if sub <= 6 {
        Some(UNSIGNED8)
    } else {
        None
    }
}

/// The data type of an array whose sub 0 is a number of entries.
fn counted(sub: u64) -> u64
    ensures { result ≡ counted sub }
{
    if sub == 0 { UNSIGNED8 } else { UNSIGNED32 }
}

fn is_word(index: u64) -> bool
    ensures { result ≡ (index == 0x1000) || ((index == 0x1002) || (is_between 0x1005 0x1007 index || (index == 0x1014))) }
{
    index == 0x1000 || (index == 0x1002 || (is_between(0x1005, 0x1007, index) || index == 0x1014))
}

fn is_byte(index: u64) -> bool
    ensures { result ≡ (index == 0x1001) || ((index == 0x100D) || ((index == 0x1019) || (index == 0x1029))) }
{
    index == 0x1001 || (index == 0x100D || (index == 0x1019 || index == 0x1029))
}

fn is_array(index: u64) -> bool
    ensures { result ≡ (index == 0x1003) || ((index == 0x1010) || ((index == 0x1011) || ((index == 0x1016) || (index == 0x1018)))) }
{
    index == 0x1003
        || (index == 0x1010 || (index == 0x1011 || (index == 0x1016 || index == 0x1018)))
}

/// The data type of an object, where CiA 301 leaves no choice.
#[tactic(auto, unfolding(crate::specs::Standard::standard_type))]
pub fn data_type(index: u64, sub: u64) -> Option<u64>
    ensures { result ≡ standard_type index sub }
{
    if is_word(index) {
        Some(UNSIGNED32)
    } else if is_byte(index) {
        Some(UNSIGNED8)
    } else if is_array(index) {
        Some(counted(sub))
    } else if is_between(0x1008, 0x100A, index) {
        Some(VISIBLE_STRING)
    } else if index == 0x100C || (index == 0x1015 || index == 0x1017) {
        Some(UNSIGNED16)
    } else if is_communication(index) {
        communication_type(sub)
    } else if is_mapping(index) {
        Some(counted(sub))
    } else {
        None
    }
}

/// The data type by which the PDOs of a device can be planned, whatever a text says: the identifier of a PDO, and its mapping.
#[tactic(auto, unfolding(crate::specs::Standard::forced_type))]
pub fn forced_type(index: u64, sub: u64) -> Option<u64>
    ensures { result ≡ forced_type index sub }
{
    if is_communication(index) && sub == 1 {
        Some(UNSIGNED32)
    } else if is_mapping(index) {
        Some(counted(sub))
    } else {
        None
    }
}

/// The access of an object, where CiA 301 leaves no choice.
#[tactic(auto, unfolding(crate::specs::Standard::standard_access))]
pub fn access(index: u64, sub: u64) -> Option<Access>
    ensures { result ≡ standard_access index sub }
{
    if is_between(0x1000, 0x1002, index) || (index == 0x1018 || (index == 0x1003 && 0 < sub)) {
        Some(Access::ReadOnly)
    } else if is_between(0x1008, 0x100A, index) {
        Some(Access::Constant)
    } else {
        None
    }
}
