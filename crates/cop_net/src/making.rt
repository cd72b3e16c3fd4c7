//! How a network is made of its tables and files.

ghost use Rattle.std.specs.Prelude.{◌≡◌, ◌≤◌, All, IfOk, length, map};
ghost use Rattle.cop_table.specs.Reading.{Gives};
ghost use Rattle.cop_rta.specs.Entries.{entry_of};
ghost use Rattle.cop_rows.specs.Nodes.{IsNodeTable};
ghost use Rattle.cop_rows.specs.Pdos.{IsPdoRow, IsPdoTable};
ghost use Rattle.cop_net.specs.Devices.{handed_in};
ghost use Rattle.cop_net.specs.Faults.{refusal};
ghost use Rattle.cop_net.specs.Sets.{AreOneSet};
ghost use Rattle.cop_net.specs.Fixed.{IsTimed};
ghost use Rattle.cop_net.specs.Network.{AreDescribed, accepted, streams_of, with_streams, network_of};

use crate::devices::Devices;
use crate::eds_files::EdsFiles;
use crate::equipping::{equip, supply};
use crate::faults::{PlanFault, Rule};
use crate::fixed::{put_fixed, through};
use crate::frames::Frames;
use crate::networks::Network;
use crate::pdos::find_pdos;
use crate::signals::Signals;
use crate::strays::{check_devices, refused};
use cop_frame::RateSet;
use cop_rows::{DeviceRow, FrameRow, NodeTable, PdoRow, PdoTable};
use cop_rta::StreamSet;
use std::alloc::Global;

/// The rows of the devices of a table.
fn device_rows(nodes: &NodeTable) -> &[DeviceRow]
    ensures rows { result.now ≡ nodes.now.devices }
    ensures nodes { All (λ row. row.node ≤ 127) result.now }
{
    nodes.devices()
}

/// The rows of the frames of a table.
fn frame_rows(nodes: &NodeTable) -> &[FrameRow]
    ensures rows { result.now ≡ nodes.now.frames }
    ensures timed { All IsTimed result.now }
    ensures table { IsNodeTable nodes.now }
{
    nodes.frames()
}

#[tactic(auto, unfolding(crate::specs::Network::streams_of))]
/// The streams of the frames and the PDOs of the tables, and of disturbed transfers where a row counts them.
fn streams_of(
    alloc: Global,
    frames: &Frames<'_>,
    rows: &[PdoRow],
    devices: &Devices,
) -> Result<StreamSet, PlanFault>
    requires timed { All IsTimed frames.now }
    requires rows { All IsPdoRow rows.now }
    requires count { length rows.now ≤ 512 }
    ensures { Gives (λ set. map entry_of set) refusal result (streams_of frames.now rows.now devices.now) }
{
    let signals = Signals::new(frames, rows.len());
    let found = find_pdos(alloc, devices, signals, rows)?;
    check_devices(frames, &found.used, devices)?;
    if !devices.has_rate() {
        return Err(refused(Rule::NoRate, 0));
    }
    let mut set = found.set;
    put_fixed(&mut set, frames)?;
    through(alloc, frames.errors(), set)
}

/// The network of the tables, by the rows that are in them, and of their devices.
fn network_of_rows<'a>(
    alloc: Global,
    nodes: &'a NodeTable,
    pdos: &'a PdoTable,
    frames: &'a [FrameRow],
    rows: &[PdoRow],
    devices: Devices,
) -> Result<Network<'a>, PlanFault>
    requires frames { (frames.now ≡ nodes.now.frames) × IsNodeTable nodes.now × All IsTimed frames.now }
    requires rows { (rows.now ≡ pdos.now) × IsPdoTable pdos.now }
    requires devices { AreDescribed nodes.now.devices devices }
    ensures exact { Gives accepted refusal result (with_streams nodes.now pdos.now devices) }
    ensures tables { IfOk result (λ n. (n.nodes ≡ nodes.now) × (n.rows ≡ pdos.now)) }
{
    let frames = Frames::new(frames);
    let set = streams_of(alloc, &frames, rows, &devices)?;
    Ok(Network {
        nodes,
        pdos,
        frames,
        devices,
        set,
    })
}

/// The network of the tables and of EDS files that are read, whose plan may have the rates that are wanted. Otherwise the
/// first rule that is broken: of the devices by record (43); then of the PDOs by record (45, the TPDO's 46, 47, 53, and of
/// each consumer in turn 48 and 46); then of the devices by node (51, 50); then 52. The streams of a network that breaks no rule are apart and few enough for one set,
/// which so refuses none of them.
#[tactic(auto, using(crate::proofs::NetworkLemmas::accepted_one_set), unfolding(crate::specs::Network::network_of))]
pub fn network_of_files<'a>(
    alloc: Global,
    wanted: &RateSet,
    nodes: &'a NodeTable,
    pdos: &'a PdoTable,
    files: &EdsFiles<'_>,
) -> Result<Network<'a>, PlanFault>
    ensures exact { Gives accepted refusal result (network_of wanted.now nodes.now pdos.now files.now) }
    ensures one_set { IfOk (network_of wanted.now nodes.now pdos.now files.now) (λ made. AreOneSet made.streams) }
    ensures tables { IfOk result (λ n. (n.nodes ≡ nodes.now) × (n.rows ≡ pdos.now)) }
{
    let (frames, rows) = (frame_rows(nodes), pdos.rows());
    let devices = equip(alloc, wanted, device_rows(nodes), files)?;
    network_of_rows(alloc, nodes, pdos, frames, rows, devices)
}

#[tactic(auto, using(crate::proofs::NetworkLemmas::accepted_one_set), unfolding(crate::specs::Network::network_of))]
/// The network of the tables and of the EDS files, which have names and texts, whose plan may have the rates that are
/// wanted; of two files with one name the first counts. It is [`network_of_files`] of those that are read.
pub fn network<'a>(
    alloc: Global,
    wanted: &RateSet,
    nodes: &'a NodeTable,
    pdos: &'a PdoTable,
    files: &[(String, Vec<u8>)],
) -> Result<Network<'a>, PlanFault>
    ensures exact { Gives accepted refusal result (network_of wanted.now nodes.now pdos.now (handed_in files.now)) }
    ensures one_set { IfOk (network_of wanted.now nodes.now pdos.now (handed_in files.now)) (λ made. AreOneSet made.streams) }
    ensures tables { IfOk result (λ n. (n.nodes ≡ nodes.now) × (n.rows ≡ pdos.now)) }
{
    let (frames, rows) = (frame_rows(nodes), pdos.rows());
    let devices = supply(alloc, wanted, device_rows(nodes), files)?;
    network_of_rows(alloc, nodes, pdos, frames, rows, devices)
}
