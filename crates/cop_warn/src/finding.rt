//! The warnings of a network.

ghost use Rattle.std.specs.Prelude.{◌≡◌, ◌≤◌, ◌+◌, ◌++◌, [], All, OnOk, IfOk, length};
ghost use Rattle.cop_rows.specs.Pdos.{IsPdoRow};
ghost use Rattle.cop_warn.specs.Warnings.{of_rows, of_devices, warnings_of};

use crate::devices::push_device;
use crate::makers::makers_warning;
use crate::receivers::push_receivers;
use crate::rows::{push_row, push_some};
use crate::warning::Warning;
use cop_net::{DeviceRow, FrameRow, Network, NodeTable, PdoRow};
use std::alloc::{AllocError, Global};

/// Adds what is found of rows, the first of which has the record of this number.
fn push_rows(
    found: &mut Vec<Warning>,
    network: &Network<'_>,
    place: u64,
    rows: &[PdoRow],
) -> Result<(), AllocError>
    requires rows { All IsPdoRow rows.now }
    requires count { place + length rows.now ≤ 4294967295 }
    ensures { OnOk result (found.new.items ≡ found.old.items ++ of_rows network.now place rows.now) }
{
    match rows {
        [] => Ok(()),
        [row, rest @ ..] => {
            push_row(found, place, row, network.dictionary(row.node))?;
            push_receivers(found, network, place, row)?;
            push_rows(found, network, place + 1, rest)
        }
    }
}

/// Adds what is found of devices.
fn push_devices(
    found: &mut Vec<Warning>,
    network: &Network<'_>,
    frames: &[FrameRow],
    devices: &[DeviceRow],
) -> Result<(), AllocError>
    ensures { OnOk result (found.new.items ≡ found.old.items ++ of_devices network.now frames.now devices.now) }
{
    match devices {
        [] => Ok(()),
        [row, rest @ ..] => {
            if let Some(dict) = network.dictionary(row.node) {
                push_device(found, frames, row.node, dict)?;
            }
            push_devices(found, network, frames, rest)
        }
    }
}

/// The rows of the PDOs of a network.
fn rows_of<'b>(network: &'b Network<'_>) -> &'b [PdoRow]
    ensures rows { result.now ≡ network.now.rows }
    ensures each { All IsPdoRow result.now }
    ensures count { length result.now ≤ 512 }
{
    network.rows()
}

/// What is worth a look before one relies on a plan of a network, by the frames of its table of nodes: first of the PDOs by record,
/// then of the devices in the order of their rows, and last of two that make SYNC. `Err` is want of memory.
#[tactic(auto, unfolding(crate::specs::Warnings::warnings_of))]
pub fn warnings_of(
    alloc: Global,
    nodes: &NodeTable,
    network: &Network<'_>,
) -> Result<Vec<Warning>, AllocError>
    ensures { IfOk result (λ found. found.items ≡ warnings_of nodes.now.frames network.now) }
{
    let mut found = Vec::new(alloc);
    push_rows(&mut found, network, 1, rows_of(network))?;
    push_devices(&mut found, network, nodes.frames(), network.devices())?;
    push_some(&mut found, makers_warning(network, network.devices()))?;
    Ok(found)
}
