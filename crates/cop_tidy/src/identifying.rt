//! PDOs that a dictionary can switch off.

ghost use Rattle.std.specs.Prelude.{◌≡◌};
ghost use Rattle.std.specs.List.{list_all};
ghost use Rattle.cop_dict.specs.Find.{entry_at};
ghost use Rattle.cop_tidy.specs.Identified.{is_record, is_identifier, identified};

use cop_dict::{DataType, Dictionary, Object};

/// Whether an index is of the communication record of a PDO.
pub(crate) fn is_record(index: u16) -> bool
    ensures { result ≡ is_record index }
{
    matches!(index, 0x1400..=0x15FF | 0x1800..=0x19FF)
}

/// Whether an object has an UNSIGNED32 at sub 1.
pub(crate) fn has_identifier(dict: &Dictionary, index: u16) -> bool
    ensures { result ≡ is_identifier (entry_at dict.now index 1) }
{
    match dict.entry(index, 1) {
        Some(entry) => matches!(entry.description().data_type, DataType::Unsigned32),
        None => false,
    }
}

/// Whether an entry is of no PDO's communication record, or has an identifier beside it.
fn is_identified(dict: &Dictionary, entry: &Object) -> bool
    ensures { result ≡ identified dict.now entry.now }
{
    !is_record(entry.index()) || has_identifier(dict, entry.index())
}

/// Whether each PDO's record that has an entry has an identifier.
pub fn are_identified(dict: &Dictionary) -> bool
    ensures { result ≡ list_all (identified dict.now) dict.now }
{
    dict.entries()
        .iter()
        .all(|entry| is_identified(dict, entry))
}
