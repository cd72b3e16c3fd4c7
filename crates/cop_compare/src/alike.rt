//! Whether two entries are alike.

ghost use Rattle.std.specs.Prelude.{◌≡◌, ◌↔◌, IsTrue};
ghost use Rattle.cop_compare.specs.Differences.{IsChangeOf};

use crate::difference::Change;
use cop_dict::{Description, Object};

fn is_same_limit(old: Option<i128>, new: Option<i128>) -> bool
    ensures { IsTrue result ↔ (new ≡ old) }
{
    match (old, new) {
        (Some(old), Some(new)) => new == old,
        (None, None) => true,
        _ => false,
    }
}

/// Whether two descriptions have the same type, access and flag, and the same limits.
fn is_same_description(old: Description, new: Description) -> bool
    ensures { IsTrue result ↔ (new ≡ old) }
{
    new.data_type == old.data_type
        && new.access == old.access
        && new.is_mappable == old.is_mappable
        && is_same_limit(old.low, new.low)
        && is_same_limit(old.high, new.high)
}

/// How an entry differs from what stood at its address; `None` where they are alike.
pub fn change_of(old: &Object, new: &Object) -> Option<Change>
    ensures { IsChangeOf old.now new.now result }
{
    if new.value() != old.value() {
        Some(Change::Value)
    } else if !is_same_description(old.description(), new.description()) {
        Some(Change::Description)
    } else {
        None
    }
}
