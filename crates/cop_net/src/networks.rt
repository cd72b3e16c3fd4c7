//! A network.

ghost use Rattle.std.specs.Prelude.{◌≡◌, ◌≤◌, ◌↔◌, None, [], length, get_or};
ghost use Rattle.std.specs.List.{Contains};
ghost use Rattle.std.specs.Option.{option_copied, option_map, option_map_or};
ghost use Rattle.cop_frame.specs.declared.rates.Rate.{Rate};
ghost use Rattle.cop_net.specs.Heartbeats.{heartbeat_of};
ghost use Rattle.cop_net.specs.Network.{IsNetwork};

use crate::devices::Devices;
use crate::frames::Frames;
use cop_dict::Dictionary;
use cop_frame::RateSet;
use cop_rows::{DeviceRow, NodeTable, PdoRow, PdoTable};
use cop_rta::StreamSet;
use cop_setup::Setting;
use std::marker::Model;

/// A network: the tables, the dictionary of each device, the candidates, and the streams.
#[derive(Drop)]
pub struct Network<'a> {
    pub(crate) nodes: &'a NodeTable,
    pub(crate) pdos: &'a PdoTable,
    pub(crate) frames: Frames<'a>,
    pub(crate) devices: Devices,
    pub(crate) set: StreamSet,
}

impl<'a> Model for Network<'a> {
    ghost use Rattle.std.specs.Prelude.{◌≡◌};
    ghost use Rattle.cop_net.specs.Network.{Net, IsNetwork};

    ghost Value = { Net };

    ghost view = { λ n. record { nodes = n.nodes.now; rows = n.pdos.now; equipment = n.devices; set = n.set } };

    ghost invariant = { λ n. IsNetwork (record { nodes = n.nodes.now; rows = n.pdos.now; equipment = n.devices; set = n.set }) × (n.frames ≡ n.nodes.now.frames) };
}

impl<'a> Network<'a> {
    /// The rows of the devices, in the order of the records.
    pub fn devices(&self) -> &[DeviceRow]
        ensures rows { result.now ≡ self.now.nodes.devices }
        ensures network { IsNetwork self.now }
    {
        self.nodes.devices()
    }

    /// The rows of the PDOs, in the order of the records.
    pub fn rows(&self) -> &[PdoRow]
        ensures rows { result.now ≡ self.now.rows }
        ensures network { IsNetwork self.now }
    {
        self.pdos.rows()
    }

    /// The streams that are tested: the PDOs, with the provisional identifiers 181h, 182h, .., and then the frames of fixed identifiers.
    /// If a row of the table of nodes says how rare disturbed transfers are, NMT counts as 001h. The last stream is then that of disturbed
    /// transfers, with the identifier 000h, 9 bytes and no deadline.
    pub fn set(&self) -> &StreamSet
        ensures set { result.now ≡ self.now.set }
        ensures network { IsNetwork self.now }
    {
        &self.set
    }

    /// How many PDOs there are: so many streams are theirs.
    pub fn pdos(&self) -> usize
        ensures count { result ≡ length self.now.rows }
        ensures most { result ≤ 512 }
        ensures network { IsNetwork self.now }
    {
        self.rows().len()
    }

    /// The candidates, which are the rates that are wanted and that all devices support; there is one.
    pub fn rates(&self) -> RateSet
        ensures rates { (rate : Rate) → Contains result rate ↔ Contains self.now.equipment.rates rate }
        ensures network { IsNetwork self.now }
    {
        self.devices.rates()
    }

    /// The time of a node's heartbeat in ms, 0 where it sends none.
    pub fn heartbeat(&self, node: u8) -> u16
        ensures { result ≡ heartbeat_of self.now.nodes.frames node }
    {
        self.frames.time(node)
    }

    /// The dictionary of a node's device, with its initial values.
    pub fn dictionary(&self, node: u8) -> Option<&Dictionary>
        ensures { option_copied result ≡ option_map (λ device. device.dictionary) (get_or self.now.equipment.devices node None) }
    {
        match self.devices.device(node) {
            Some(device) => Some(&device.dictionary),
            None => None,
        }
    }

    /// The settings that are asked of a node's device, in their order: none, if there is no device.
    pub fn settings(&self, node: u8) -> &[Setting]
        ensures { result.now ≡ option_map_or (λ device. device.settings) (get_or self.now.equipment.devices node None) [] }
    {
        match self.devices.device(node) {
            Some(device) => device.settings.as_slice(),
            None => &[],
        }
    }
}
