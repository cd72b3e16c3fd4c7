//! The devices that the rows of a table name.

ghost use Rattle.std.specs.Prelude.{◌≡◌, ◌≤◌, All};
ghost use Rattle.cop_table.specs.Reading.{Gives};
ghost use Rattle.cop_net.specs.Faults.{refusal};
ghost use Rattle.cop_net.specs.Devices.{handed_in, text_of, device_added, devices_of};

use crate::devices::{Devices, refused};
use crate::eds_files::EdsFiles;
use crate::faults::PlanFault;
use crate::shelf::Shelf;
use cop_frame::RateSet;
use cop_rows::DeviceRow;
use std::alloc::Global;

/// Adds the device of a row.
fn add_row(
    alloc: Global,
    devices: &mut Devices,
    files: &EdsFiles<'_>,
    row: &DeviceRow,
) -> Result<(), PlanFault>
    requires { row.now.node ≤ 127 }
    ensures { Gives (λ _. devices.new) refusal result (device_added (text_of files.now) devices.old row.now) }
{
    match files.read(row.eds.as_bytes()) {
        Some(Ok(blueprint)) => devices.add(alloc, row, blueprint),
        Some(Err(refusal)) => Err(refused(row.place, Some(*refusal))),
        None => Err(refused(row.place, None)),
    }
}

#[tactic(auto, unfolding(crate::specs::Devices::devices_of))]
/// The devices of the rows and the candidates of the rates that are wanted, or the first refusal by record.
pub fn equip(
    alloc: Global,
    wanted: &RateSet,
    rows: &[DeviceRow],
    files: &EdsFiles<'_>,
) -> Result<Devices, PlanFault>
    requires { All (λ row. row.node ≤ 127) rows.now }
    ensures { Gives (λ d. d) refusal result (devices_of wanted.now files.now rows.now) }
{
    let mut devices = Devices::new(alloc, wanted)?;
    for row in rows {
        add_row(alloc, &mut devices, files, row)?;
    }
    Ok(devices)
}

/// Adds the device of a row, whose file is read for it unless it was read before.
fn supply_row<'a>(
    alloc: Global,
    devices: &mut Devices,
    shelf: &mut Shelf<'a>,
    row: &'a DeviceRow,
) -> Result<(), PlanFault>
    requires { row.now.node ≤ 127 }
    ensures row { Gives (λ _. devices.new) refusal result (device_added (text_of shelf.old) devices.old row.now) }
    ensures files { shelf.new ≡ shelf.old }
{
    match shelf.take(alloc, row)? {
        Some(Ok(blueprint)) => {
            devices.add(alloc, row, &blueprint)?;
            Ok(shelf.put_back(row, blueprint)?)
        }
        Some(Err(refusal)) => Err(refused(row.place, Some(refusal))),
        None => Err(refused(row.place, None)),
    }
}

#[tactic(auto, unfolding(crate::specs::Devices::devices_of))]
/// The same of files that are read while rows name them.
pub fn supply<'a>(
    alloc: Global,
    wanted: &RateSet,
    rows: &'a [DeviceRow],
    files: &'a [(String, Vec<u8>)],
) -> Result<Devices, PlanFault>
    requires { All (λ row. row.node ≤ 127) rows.now }
    ensures { Gives (λ d. d) refusal result (devices_of wanted.now (handed_in files.now) rows.now) }
{
    let mut devices = Devices::new(alloc, wanted)?;
    let mut shelf = Shelf::new(alloc, files, rows)?;
    for row in rows {
        supply_row(alloc, &mut devices, &mut shelf, row)?;
    }
    Ok(devices)
}
