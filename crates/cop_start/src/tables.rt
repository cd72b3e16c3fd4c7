//! The rows that tables start with.

ghost use Rattle.std.specs.Prelude.{◌≡◌, ◌++◌, [], OnOk, IfOk, take};
ghost use Rattle.cop_start.specs.Senders.{senders_of, receivers_of};
ghost use Rattle.cop_start.specs.Frames.{frames_of};
ghost use Rattle.cop_start.specs.Rows.{rows_of};
ghost use Rattle.cop_start.specs.Devices.{stem, devices_of};

use crate::frames::frames;
use crate::receivers::receivers;
use crate::rows::rows_of;
use crate::senders::{Sender, senders};
use crate::start::{Source, Start};
use cop_written::{Device, Frame, Row, Text};
use std::alloc::{AllocError, Global};

/// What a table of nodes and a table of PDOs start with.
#[derive(Drop)]
pub struct Tables {
    pub devices: Vec<Device>,
    pub frames: Vec<Frame>,
    /// The TPDOs that may have rows. Those behind the 512th have none.
    pub senders: Vec<Sender>,
    pub rows: Vec<Row>,
}

/// The name of a device: that of its file without the last four bytes, which are `.eds`.
fn stem(file: &[u8]) -> &[u8]
    ensures { result.now ≡ stem file.now }
{
    if file.len() > 4 {
        &file[..file.len() - 4]
    } else {
        file
    }
}

/// Adds the rows of devices.
fn add_devices(
    alloc: Global,
    devices: &mut Vec<Device>,
    sources: &[Source],
) -> Result<(), AllocError>
    ensures { OnOk result (devices.new.items ≡ devices.old.items ++ devices_of sources.now) }
{
    match sources {
        [] => Ok(()),
        [first, rest @ ..] => {
            devices.push(Device {
                node: first.node(),
                name: Text::new(Vec::from_slice(alloc, stem(first.file()))?),
                eds: Text::new(Vec::from_slice(alloc, first.file())?),
            })?;
            add_devices(alloc, devices, rest)
        }
    }
}

#[tactic(auto, using(crate::proofs::TakeLemmas::taken_at_most))]
/// What the tables of devices start with: a row for each of the first 512 TPDOs that may have one.
pub fn first_tables(alloc: Global, start: &Start) -> Result<Tables, AllocError>
    ensures devices { IfOk result (λ t. t.devices.items ≡ devices_of start.now) }
    ensures frames { IfOk result (λ t. t.frames.items ≡ frames_of start.now) }
    ensures senders { IfOk result (λ t. t.senders.items ≡ senders_of start.now) }
    ensures rows { IfOk result (λ t. t.rows.items ≡ rows_of start.now) }
{
    let sources = start.sources();
    let mut devices = Vec::new(alloc);
    add_devices(alloc, &mut devices, sources)?;
    let senders = senders(alloc, start)?;
    let receivers = receivers(alloc, start)?;
    let frames = frames(alloc, start, &senders)?;
    let kept = &senders[..senders.len().min(512)];
    let rows = rows_of(alloc, sources, &senders, &receivers, kept)?;
    Ok(Tables {
        devices,
        frames,
        senders,
        rows,
    })
}
