//! The table of nodes.

ghost use Rattle.std.specs.Prelude.{◌≡◌, ◌<◌, ◌==◌, IfSome, length};
ghost use Rattle.std.specs.List.{position};
ghost use Rattle.cop_table.specs.Reading.{Gives};
ghost use Rattle.cop_rows.specs.Refusals.{broken};
ghost use Rattle.cop_rows.specs.SettingReading.{with_asked, asked_in};
ghost use Rattle.cop_rows.specs.SettingRows.{is_settable, AreSettingRows};

use crate::names::Name;
use crate::refusals::{RecordFault, Rule};
use crate::setting_rows::{SettingRow, SettingRows};
use crate::settings::Asked;
use std::marker::Model;

/// The row of a device, with the values that a table of settings asks of it. `place` is its record, from 1 on.
#[derive(Drop)]
pub struct DeviceRow {
    pub place: u64,
    pub node: u8,
    pub name: Name,
    /// The name of the device's EDS file.
    pub eds: Name,
    pub settings: SettingRows,
}

/// What a frame of fixed identifier is, or that a row says how rare disturbed transfers are.
#[derive(Clone, Copy, PartialEq, Eq, Debug)]
pub enum FrameKind {
    Nmt,
    Sync,
    Emcy,
    SdoResponse,
    SdoRequest,
    Heartbeat,
    /// No frame that any device sends: how rare disturbed transfers are.
    Errors,
}

/// The row of a frame: its times are in microseconds, and one with period 0 is never sent. `place` is its record, from
/// 1 on. The node of NMT, of SYNC and of disturbed transfers is 0. Only an SDO frame that is sent may have a deadline.
/// Disturbed transfers are a period apart at least, and each begins within the jitter after its event; period 0 means none.
#[derive(Clone, Copy, PartialEq, Eq, Debug)]
pub struct FrameRow {
    pub place: u64,
    pub kind: FrameKind,
    pub node: u8,
    pub period: u32,
    pub jitter: u32,
    pub deadline: Option<u32>,
}

/// The table of nodes. Contracts see its device rows and its other rows, each in the order of the records.
#[derive(Drop)]
pub struct NodeTable {
    pub(crate) devices: Vec<DeviceRow>,
    pub(crate) frames: Vec<FrameRow>,
}

/// Whether a row may ask for the value of an object: error behaviour, and all that are not in the communication profile area.
fn is_settable(index: u16) -> bool
    ensures { result ≡ is_settable index }
{
    index >= 0x2000 || index == 0x1029
}

/// The place of a node's row.
fn place_of(devices: &[DeviceRow], node: u8) -> Option<usize>
    ensures place { result ≡ position (λ d. d.node == node) devices.now }
    ensures within { IfSome result (λ place. place < length devices.now) }
{
    devices.iter().position(|row| row.node == node)
}

/// Asks a value of a device.
fn ask_device(device: &mut DeviceRow, row: SettingRow) -> Result<(), RecordFault>
    ensures value { Gives (λ _. device.new) broken result (with_asked device.old row) }
    ensures others { device.new ≡ record device.old { settings = device.new.settings } }
    ensures apart { AreSettingRows device.old.settings → AreSettingRows device.new.settings }
{
    if !is_settable(row.index) {
        return Err(RecordFault::Broken(Rule::NotSettable));
    }
    device.settings.push(row)
}

impl Model for NodeTable {
    ghost use Rattle.cop_rows.specs.Nodes.{NodeLists, IsNodeTable};

    ghost Value = { NodeLists };

    ghost view = { λ t. record { devices = t.devices.items; frames = t.frames.items } };

    ghost invariant = { λ t. IsNodeTable (record { devices = t.devices.items; frames = t.frames.items }) };
}

impl NodeTable {
    ghost use Rattle.cop_rows.specs.Nodes.{IsNodeTable};

    /// The rows of the devices, in the order of the records.
    pub fn devices(&self) -> &[DeviceRow]
        ensures rows { result.now ≡ self.now.devices }
        ensures table { IsNodeTable self.now }
    {
        &self.devices
    }

    /// The rows of the frames, in the order of the records.
    pub fn frames(&self) -> &[FrameRow]
        ensures rows { result.now ≡ self.now.frames }
        ensures table { IsNodeTable self.now }
    {
        &self.frames
    }

    /// Asks a value of a device, if its object may be set and no earlier row has it.
    pub(crate) fn ask(&mut self, asked: Asked) -> Result<(), RecordFault>
        ensures { Gives (λ _. self.new) broken result (asked_in self.old asked) }
    {
        match place_of(&self.devices, asked.node) {
            Some(place) => ask_device(&mut self.devices[place], asked.row),
            None => Err(RecordFault::Broken(Rule::NoDevice)),
        }
    }
}
