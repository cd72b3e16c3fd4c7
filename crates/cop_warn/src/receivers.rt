//! Warnings on the RPDOs that take PDOs by SYNC.

ghost use Rattle.std.specs.Prelude.{◌≡◌, ◌++◌, All, OnOk};
ghost use Rattle.cop_rows.specs.Pdos.{IsConsumer, IsPdoRow};
ghost use Rattle.cop_warn.specs.Warnings.{at_once_warning, of_consumers, of_receivers};

use crate::numbers::natural_at;
use crate::rows::push_some;
use crate::warning::Warning;
use cop_net::{Consumer, Network, PdoRow};
use std::alloc::AllocError;

/// That an RPDO uses at once what comes by SYNC.
fn at_once_warning(network: &Network<'_>, place: u64, consumer: &Consumer) -> Option<Warning>
    requires { IsConsumer consumer.now }
    ensures { result ≡ at_once_warning network.now place consumer.now }
{
    let Some(dict) = network.dictionary(consumer.node) else {
        return None;
    };
    match natural_at(dict, 0x13FF + consumer.rpdo, 2) {
        Some(kind) if kind == 254 || kind == 255 => Some(Warning::UsedAtOnce {
            place,
            node: consumer.node,
            rpdo: consumer.rpdo,
            kind,
        }),
        _ => None,
    }
}

/// Adds what is found of those that take a PDO by SYNC.
fn push_consumers(
    found: &mut Vec<Warning>,
    network: &Network<'_>,
    place: u64,
    consumers: &[Consumer],
) -> Result<(), AllocError>
    requires { All IsConsumer consumers.now }
    ensures { OnOk result (found.new.items ≡ found.old.items ++ of_consumers network.now place consumers.now) }
{
    match consumers {
        [] => Ok(()),
        [consumer, rest @ ..] => {
            push_some(found, at_once_warning(network, place, consumer))?;
            push_consumers(found, network, place, rest)
        }
    }
}

/// Adds what is found of those that take the PDO of a row.
pub(crate) fn push_receivers(
    found: &mut Vec<Warning>,
    network: &Network<'_>,
    place: u64,
    row: &PdoRow,
) -> Result<(), AllocError>
    requires { IsPdoRow row.now }
    ensures { OnOk result (found.new.items ≡ found.old.items ++ of_receivers network.now place row.now) }
{
    if row.period == 0 {
        push_consumers(found, network, place, row.consumers.as_slice())
    } else {
        Ok(())
    }
}
