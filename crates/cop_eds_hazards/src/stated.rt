//! Numbers that the keys of a section state.

ghost use Rattle.std.specs.Prelude.{◌≡◌};
ghost use Rattle.cop_eds_hazards.specs.Stated.{ok_number, stated, stated_or_0};
ghost use Rattle.cop_eds.specs.Number.{number_of};

use cop_eds::{Eds, number_of};

/// The number that a text is, where it is one.
pub fn ok_number(text: &[u8]) -> Option<u64>
    ensures { result ≡ ok_number (number_of text.now) }
{
    match number_of(text) {
        Ok(number) => Some(number),
        Err(_) => None,
    }
}

/// The number that a key of a section states.
pub fn stated(eds: &Eds<'_>, section: usize, key: &[u8]) -> Option<u64>
    ensures { result ≡ stated eds.now section key.now }
{
    match eds.value(section, key) {
        Some(value) => ok_number(value),
        None => None,
    }
}

/// The same, where an absent key states 0.
pub(crate) fn stated_or_0(eds: &Eds<'_>, section: usize, key: &[u8]) -> Option<u64>
    ensures { result ≡ stated_or_0 eds.now section key.now }
{
    match eds.value(section, key) {
        Some(value) => ok_number(value),
        None => Some(0),
    }
}
