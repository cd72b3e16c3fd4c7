//! The warning on two devices that make SYNC.

ghost use Rattle.std.specs.Prelude.{◌≡◌};
ghost use Rattle.std.specs.Option.{option_copied};
ghost use Rattle.cop_warn.specs.Warnings.{makes_sync_by, is_other_maker, other_maker, makers_warning};

use crate::numbers::word_at;
use crate::warning::Warning;
use cop_dict::Dictionary;
use cop_net::{DeviceRow, Network};

/// Whether a device makes SYNC.
fn makes_sync(dict: Option<&Dictionary>) -> bool
    ensures { result ≡ makes_sync_by (option_copied dict.entry) }
{
    let Some(dict) = dict else {
        return false;
    };
    match word_at(dict, 0x1005, 0) {
        Some(cob_id) => cob_id / 0x4000_0000 % 2 == 1,
        None => false,
    }
}

/// Whether the device of a row makes SYNC, and is not of this node.
fn is_other_maker(network: &Network<'_>, node: u8, row: &DeviceRow) -> bool
    ensures { result ≡ is_other_maker network.now node row.now }
{
    row.node != node && makes_sync(network.dictionary(row.node))
}

/// The first node that makes SYNC, other than this one.
fn other_maker(network: &Network<'_>, node: u8, devices: &[DeviceRow]) -> Option<u8>
    ensures { result ≡ other_maker network.now node devices.now }
{
    match devices {
        [] => None,
        [row, rest @ ..] => {
            if is_other_maker(network, node, row) {
                Some(row.node)
            } else {
                other_maker(network, node, rest)
            }
        }
    }
}

/// That two devices make SYNC.
pub(crate) fn makers_warning(network: &Network<'_>, devices: &[DeviceRow]) -> Option<Warning>
    ensures { result ≡ makers_warning network.now devices.now }
{
    let Some(first) = other_maker(network, 0, devices) else {
        return None;
    };
    match other_maker(network, first, devices) {
        Some(second) => Some(Warning::BothMakeSync { first, second }),
        None => None,
    }
}
