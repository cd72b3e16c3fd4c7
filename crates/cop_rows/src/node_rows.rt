//! The rows of nodes while their table is read.

ghost use Rattle.std.specs.Prelude.{◌≡◌, ◌≤◌, ◌<◌};
ghost use Rattle.cop_table.specs.Reading.{Gives};
ghost use Rattle.cop_rows.specs.NodeReading.{pushed, with_devices, no_rows, first_lacking, lacks_device, has_node, number_of_kind};
ghost use Rattle.cop_rows.specs.NodeRows.{IsRow, IsDeviceRow, IsFrameRow, flag_of};
ghost use Rattle.cop_rows.specs.Refusals.{broken};
ghost use Rattle.cop_rows.specs.declared.node_rows.Row.TheVariants as variants;

use crate::node_table::{DeviceRow, FrameKind, FrameRow, NodeTable};
use crate::refusals::{RecordFault, Refusal, Rule};
use std::alloc::Global;
use std::marker::Model;

/// A row of the table.
#[derive(Drop)]
pub(crate) enum Row {
    Device(DeviceRow),
    Frame(FrameRow),
}

/// Device rows with distinct nodes, and rows of frames with distinct kinds and nodes, each in the order given.
/// Contracts see the two lists.
#[derive(Drop)]
pub(crate) struct NodeRows {
    devices: Vec<DeviceRow>,
    frames: Vec<FrameRow>,
    // Which rows are there: the devices by node, then the frames by kind and node.
    flags: [bool; 1024],
}

impl Model for NodeRows {
    ghost use Rattle.cop_rows.specs.Nodes.{NodeLists};
    ghost use Rattle.cop_rows.specs.NodeRows.{IsNodeRows, KnowsRows};

    ghost Value = { NodeLists };

    ghost view = { λ r. record { devices = r.devices.items; frames = r.frames.items } };

    ghost invariant = { λ r. IsNodeRows (record { devices = r.devices.items; frames = r.frames.items })
        × KnowsRows r.flags (record { devices = r.devices.items; frames = r.frames.items }) };
}

/// Whether frames of a kind are a node's.
pub(crate) fn has_node(kind: FrameKind) -> bool
    ensures { result ≡ has_node kind }
{
    !matches!(kind, FrameKind::Nmt | FrameKind::Sync | FrameKind::Errors)
}

#[tactic(auto, unfolding(crate::specs::NodeReading::number_of_kind))]
/// The number of a kind, from 1 on.
fn number_of_kind(kind: FrameKind) -> usize
    ensures number { result ≡ number_of_kind kind }
    ensures most { result ≤ 7 }
{
    match kind {
        FrameKind::Nmt => 1,
        FrameKind::Sync => 2,
        FrameKind::Emcy => 3,
        FrameKind::SdoResponse => 4,
        FrameKind::SdoRequest => 5,
        FrameKind::Heartbeat => 6,
        FrameKind::Errors => 7,
    }
}

/// The place of a frame's flag.
fn flag_of(kind: FrameKind, node: u8) -> usize
    requires { node ≤ 127 }
    ensures place { result ≡ flag_of kind node }
    ensures within { result < 1024 }
{
    number_of_kind(kind) * 128 + usize::from(node)
}

impl NodeRows {
    /// No row.
    pub(crate) fn new(alloc: Global) -> NodeRows
        ensures { result ≡ no_rows }
    {
        NodeRows {
            devices: Vec::new(alloc),
            frames: Vec::new(alloc),
            flags: [false; 1024],
        }
    }

    fn push_device(&mut self, row: DeviceRow) -> Result<(), RecordFault>
        requires { IsDeviceRow row }
        ensures { Gives (λ _. self.new) broken result (pushed self.old (variants.Device row)) }
    {
        let flag = usize::from(row.node);
        if self.flags[flag] {
            return Err(RecordFault::Broken(Rule::RowRepeated));
        }
        match self.devices.push(row) {
            Ok(()) => {
                self.flags[flag] = true;
                Ok(())
            }
            Err(_) => Err(RecordFault::Memory),
        }
    }

    fn push_frame(&mut self, row: FrameRow) -> Result<(), RecordFault>
        requires { IsFrameRow row }
        ensures { Gives (λ _. self.new) broken result (pushed self.old (variants.Frame row)) }
    {
        let flag = flag_of(row.kind, row.node);
        if self.flags[flag] {
            return Err(RecordFault::Broken(Rule::RowRepeated));
        }
        match self.frames.push(row) {
            Ok(()) => {
                self.flags[flag] = true;
                Ok(())
            }
            Err(_) => Err(RecordFault::Memory),
        }
    }

    /// Puts a row at the end of its list.
    pub(crate) fn push(&mut self, row: Row) -> Result<(), RecordFault>
        requires { IsRow row }
        ensures { Gives (λ _. self.new) broken result (pushed self.old row) }
    {
        match row {
            Row::Device(device) => self.push_device(device),
            Row::Frame(frame) => self.push_frame(frame),
        }
    }

    /// Whether a row's node has no device row.
    fn lacks_device(&self, frame: FrameRow) -> bool
        requires { frame.node ≤ 127 }
        ensures { result ≡ lacks_device self.now.devices frame }
    {
        has_node(frame.kind) && !self.flags[usize::from(frame.node)]
    }

    #[tactic(auto, using(crate::proofs::LackingLemmas::lacking_here, crate::proofs::LackingLemmas::lacking_next, crate::proofs::LackingLemmas::lacking_none))]
    /// The record of the first row whose node has no device row.
    fn first_lacking(&self) -> Option<u64>
        ensures { result ≡ first_lacking self.now.devices self.now.frames }
    {
        for frame in &self.frames {
            if self.lacks_device(*frame) {
                return Some(frame.place);
            }
        }
        None
    }

    /// The table of these rows, where each has its device row and there is one.
    pub(crate) fn into_table(self) -> Result<NodeTable, Refusal>
        ensures { result ≡ with_devices self }
    {
        if let Some(place) = self.first_lacking() {
            return Err(Refusal {
                rule: Rule::NoDevice,
                place,
            });
        }
        if self.devices.is_empty() {
            return Err(Refusal {
                rule: Rule::NoDevice,
                place: 0,
            });
        }
        Ok(NodeTable {
            devices: self.devices,
            frames: self.frames,
        })
    }
}
