//! The warning on limits that admit nothing.

ghost use Rattle.std.specs.Prelude.{◌≡◌};
ghost use Rattle.cop_warn.specs.Warnings.{is_relied, is_shut, is_relied_and_shut, limits_warning};

use crate::warning::Warning;
use cop_dict::{Dictionary, Object};

/// Whether a plan counts on an object at an index, or a boot sets or asks it.
fn is_relied(index: u16) -> bool
    ensures { result ≡ is_relied index }
{
    matches!(
        index,
        0x1005..=0x1007 | 0x1010 | 0x1011 | 0x1014..=0x1018 | 0x1200 | 0x1400..=0x1BFF
    )
}

/// Whether the low limit of an object is above its high limit.
fn is_shut(entry: &Object) -> bool
    ensures { result ≡ is_shut entry.now }
{
    let description = entry.description();
    match (description.low, description.high) {
        (Some(low), Some(high)) => high < low,
        _ => false,
    }
}

/// Whether a plan counts on an object that takes no value.
fn is_relied_and_shut(entry: &Object) -> bool
    ensures { result ≡ is_relied_and_shut entry.now }
{
    is_relied(entry.index()) && is_shut(entry)
}

/// That an object of a device, on which a plan counts, takes no value: the first one.
pub(crate) fn limits_warning(node: u8, dict: &Dictionary) -> Option<Warning>
    ensures { result ≡ limits_warning node dict.now }
{
    match dict
        .entries()
        .iter()
        .find(|entry| is_relied_and_shut(entry))
    {
        Some(entry) => Some(Warning::TakesNothing {
            node,
            index: entry.index(),
            sub: entry.sub(),
        }),
        None => None,
    }
}
