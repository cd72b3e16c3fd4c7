//! Where the sections of the objects at an index begin.

ghost use Rattle.std.specs.Prelude.{◌≡◌, ◌≤◌, ◌+◌, ◌-◌, [], ◌∷◌, IfSome, MatchOption};
ghost use Rattle.cop_eds.specs.Lists.{subs_from, own_place};

use crate::line::Place;
use crate::names::{object_code, sub_code};
use crate::sections::Sections;

/// The first sub section of an index from a sub on. It is looked for behind the section that was met last first.
pub fn next_sub(text: &Sections<'_>, met: usize, index: u64, from: u64) -> Option<(u64, Place)>
    requires index { index ≤ 65535 }
    requires from { from ≤ 256 }
    ensures { MatchOption result (subs_from text.now index from (256 - from) ≡ [])
        (λ sub. (from ≤ sub.0) × (sub.0 ≤ 255) × (subs_from text.now index from (256 - from) ≡ sub ∷ subs_from text.now index (sub.0 + 1) (256 - (sub.0 + 1)))) }
{
    if from > 255 {
        return None;
    }
    let first = sub_code(index, from);
    let (code, place) = text.next_code(met, first)?;
    if code - first > 255 - from {
        return None;
    }
    Some((from + (code - first), place))
}

/// Where the own section of the object at an index begins. It is looked for behind the section that was met last first.
pub fn own_place(text: &Sections<'_>, met: usize, index: u64) -> Option<Place>
    ensures value { result ≡ own_place text.now index }
    ensures bound { IfSome result (λ place. index ≤ 65535) }
{
    if index > 0xFFFF {
        return None;
    }
    text.coded(met, object_code(index))
}
