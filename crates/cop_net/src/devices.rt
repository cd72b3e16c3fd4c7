//! The devices of a network.

ghost use Rattle.std.specs.Prelude.{◌≡◌, ◌≤◌, ◌↔◌, IfOk, None, Ok, get_or, length};
ghost use Rattle.cop_dict.specs.Dict.{initial};
ghost use Rattle.std.specs.List.{Contains};
ghost use Rattle.cop_frame.specs.declared.rates.Rate.{Rate};
ghost use Rattle.cop_net.specs.Rates.{is_some_rate};
ghost use Rattle.std.specs.Option.{option_copied};
ghost use Rattle.cop_table.specs.Reading.{Gives};
ghost use Rattle.cop_net.specs.Faults.{refusal};
ghost use Rattle.cop_net.specs.declared.faults.Table.TheVariants.{Nodes};
ghost use Rattle.cop_net.specs.declared.faults.Rule.TheVariants as rules;
ghost use Rattle.cop_net.specs.declared.faults.PlanFault.TheVariants.{Refused};
ghost use Rattle.cop_net.specs.Devices.{no_device, described, entries_of};

use crate::asking::settings_asked;
use crate::faults::{PlanFault, Refusal, Rule, Table};
use crate::rates::{same, supported};
use cop_dict::{Blueprint, Dictionary};
use cop_eds::EdsFault;
use cop_frame::RateSet;
use cop_rows::DeviceRow;
use cop_setup::SettingList;
use std::alloc::Global;
use std::marker::Model;

/// A device: the record of its row, its dictionary, and the settings that are asked of it.
#[derive(Drop)]
pub struct Device {
    pub place: u64,
    pub dictionary: Dictionary,
    pub settings: SettingList,
}

/// The devices by their nodes, and the candidates: the rates that are wanted and that all of them support.
#[derive(Drop)]
pub struct Devices {
    // One place for each node from 0 to 127.
    devices: Vec<Option<Device>>,
    rates: RateSet,
}

impl Model for Devices {
    ghost use Rattle.std.specs.Prelude.{◌≡◌, length};
    ghost use Rattle.cop_net.specs.Rates.{in_order};
    ghost use Rattle.cop_net.specs.Devices.{Equipment};

    ghost Value = { Equipment };

    ghost view = { λ d. record { devices = d.devices.items; rates = in_order d.rates } };

    ghost invariant = { λ d. length d.devices.items ≡ 128 };
}

/// The refusal of a device's EDS file.
pub fn refused(place: u64, refusal: Option<cop_eds::Refusal>) -> PlanFault
    ensures { result ≡ Refused (record { table = Nodes; rule = rules.Eds refusal; place = place }) }
{
    PlanFault::Refused(Refusal {
        table: Table::Nodes,
        rule: Rule::Eds(refusal),
        place,
    })
}

/// The dictionary of a device that an accepted text describes.
fn dictionary_of(
    alloc: Global,
    blueprint: &Blueprint<'_>,
    row: &DeviceRow,
) -> Result<Dictionary, PlanFault>
    ensures value { Gives (λ d. d) refusal result (entries_of row.now.place row.now.node blueprint.now) }
    ensures stays { IfOk result (λ d. initial d ≡ d) }
{
    match blueprint.dictionary(alloc, row.node) {
        Ok(dictionary) => Ok(dictionary),
        Err(EdsFault::Refused(refusal)) => Err(refused(row.place, Some(refusal))),
        Err(EdsFault::Memory) => Err(PlanFault::Memory),
    }
}

impl Devices {
    /// No device, and each rate that is wanted.
    pub fn new(alloc: Global, wanted: &RateSet) -> Result<Devices, PlanFault>
        ensures { Gives (λ d. d) refusal result (Ok (no_device wanted.now)) }
    {
        let mut devices = Vec::new(alloc);
        for _node in 0..128u8 {
            devices.push(None)?;
        }
        Ok(Devices {
            devices,
            rates: same(wanted),
        })
    }

    /// Adds the device of a row, which an accepted text describes.
    pub fn add(
        &mut self,
        alloc: Global,
        row: &DeviceRow,
        blueprint: &Blueprint<'_>,
    ) -> Result<(), PlanFault>
        requires { row.now.node ≤ 127 }
        ensures { Gives (λ _. self.new) refusal result (described self.old row.now blueprint.now) }
    {
        let mut dictionary = dictionary_of(alloc, blueprint, row)?;
        let settings = settings_asked(alloc, &mut dictionary, row)?;
        self.devices[usize::from(row.node)] = Some(Device {
            place: row.place,
            dictionary,
            settings,
        });
        self.rates = supported(&self.rates, blueprint.eds());
        Ok(())
    }

    /// How many nodes have a place: all from 0 to 127.
    pub fn nodes(&self) -> u8
        ensures nodes { result ≡ 128 }
        ensures places { length self.now.devices ≡ 128 }
    {
        self.devices.len() as u8
    }

    /// The candidates.
    pub fn rates(&self) -> RateSet
        ensures { (rate : Rate) → Contains result rate ↔ Contains self.now.rates rate }
    {
        same(&self.rates)
    }

    /// Whether there is a candidate.
    pub fn has_rate(&self) -> bool
        ensures { result ≡ is_some_rate self.now.rates }
    {
        self.rates.slowest().is_some()
    }

    /// The device of a node.
    pub fn device(&self, node: u8) -> Option<&Device>
        ensures { option_copied result ≡ get_or self.now.devices node None }
    {
        match self.devices.get(usize::from(node)) {
            Some(Some(device)) => Some(device),
            _ => None,
        }
    }
}
