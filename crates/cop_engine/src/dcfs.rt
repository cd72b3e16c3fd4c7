//! The DCF files of a plan.

ghost use Rattle.std.specs.Prelude.{◌≡◌, ◌++◌, length, Ok, Some, OnOk, IfOk};
ghost use Rattle.std.specs.Option.{option_copied, option_map, option_to_list};
ghost use Rattle.std.specs.String.{string_bytes};
ghost use Rattle.cop_eds.specs.Reading.{reading};
ghost use Rattle.cop_net.specs.Devices.{text_of};
ghost use Rattle.cop_plan.specs.Plans.{IsPlan};
ghost use Rattle.cop_dcf.specs.Dcf.{dcf_of};
ghost use Rattle.cop_dcf.specs.Settings.{node_settings};
ghost use Rattle.cop_engine.specs.Dcfs.{dcf_name, eds_text, dcf_file, device_row, dcf_at, dcfs_below, HaveTexts};

use cop_cert::Items;
use cop_dcf::{settings, write};
use cop_eds::Eds;
use cop_net::{DeviceRow, EdsFiles, Network};
use cop_plan::Plan;
use std::alloc::{AllocError, Global};
use std::marker::Model;

/// A DCF file: its name, as `node-005.dcf`, and its text.
#[derive(Drop)]
pub struct DcfFile {
    name: String,
    text: Vec<u8>,
}

impl Model for DcfFile {
    ghost use Rattle.std.specs.String.{string_bytes};
    ghost use Rattle.cop_net.specs.Devices.{File};

    ghost Value = { File };

    ghost view = { λ f. record { name = string_bytes f.name; text = f.text.items } };
}

impl DcfFile {
    /// The name of the file.
    pub fn name(&self) -> &str
        ensures { result.now ≡ self.now.name }
    {
        self.name.as_str()
    }

    /// The text.
    pub fn text(&self) -> &[u8]
        ensures { result.now ≡ self.now.text }
    {
        &self.text
    }
}

/// The name of the DCF file of a node.
fn dcf_name(alloc: Global, node: u8) -> Result<String, AllocError>
    ensures { IfOk result (λ name. string_bytes name ≡ dcf_name node) }
{
    let (hundreds, tens, ones) = (node / 100, node / 10 % 10, node % 10);
    format!(in alloc; "node-{hundreds}{tens}{ones}.dcf")
}

/// The row of a node's device.
fn device_row(rows: &[DeviceRow], node: u8) -> Option<&DeviceRow>
    ensures { option_copied result ≡ device_row rows.now node }
{
    match rows {
        [] => None,
        [row, rest @ ..] => {
            if row.node == node {
                Some(row)
            } else {
                device_row(rest, node)
            }
        }
    }
}

/// The EDS of a device.
fn eds_of<'b, 'a>(eds_files: &'b EdsFiles<'a>, row: &DeviceRow) -> &'b Eds<'a>
    requires { option_map reading (text_of eds_files.now row.now.eds) ≡ Some (Ok (eds_text eds_files.now row.now)) }
    ensures { result.now ≡ eds_text eds_files.now row.now }
{
    match eds_files.read(row.eds.as_bytes()) {
        Some(Ok(blueprint)) => blueprint.eds(),
        _ => unreachable!(),
    }
}

/// The text of the DCF of a device's node, by its EDS.
fn dcf_text(
    alloc: Global,
    network: &Network<'_>,
    plan: &Plan,
    row: &DeviceRow,
    eds: &Eds<'_>,
) -> Result<Vec<u8>, AllocError>
    requires plan { IsPlan network.now.equipment.rates network.now.set (length network.now.rows) plan.now }
    ensures { IfOk result (λ v. v.items ≡ dcf_of eds.now (node_settings network.now plan.now.ids row.now.node) row.now.node row.now.name plan.now.rate row.now.eds) }
{
    let settings = settings(alloc, plan, network, row.node)?;
    let (name, eds_name) = (row.name.as_bytes(), row.eds.as_bytes());
    write(alloc, eds, &settings, row.node, name, plan.rate(), eds_name)
}

/// The DCF file of a device's node.
fn dcf_file(
    alloc: Global,
    network: &Network<'_>,
    plan: &Plan,
    eds_files: &EdsFiles<'_>,
    row: &DeviceRow,
) -> Result<DcfFile, AllocError>
    requires plan { IsPlan network.now.equipment.rates network.now.set (length network.now.rows) plan.now }
    requires accepted { option_map reading (text_of eds_files.now row.now.eds) ≡ Some (Ok (eds_text eds_files.now row.now)) }
    ensures { IfOk result (λ file. file ≡ dcf_file eds_files.now network.now plan.now row.now) }
{
    let text = dcf_text(alloc, network, plan, row, eds_of(eds_files, row))?;
    Ok(DcfFile {
        name: dcf_name(alloc, row.node)?,
        text,
    })
}

#[tactic(auto, using(crate::proofs::DcfLemmas::text_accepted, crate::proofs::DcfLemmas::none_here, crate::proofs::DcfLemmas::one_here))]
/// Adds the DCF file of a node, where it has a device.
fn push_dcf(
    files: &mut Items<DcfFile>,
    alloc: Global,
    network: &Network<'_>,
    plan: &Plan,
    eds_files: &EdsFiles<'_>,
    node: u8,
) -> Result<(), AllocError>
    requires plan { IsPlan network.now.equipment.rates network.now.set (length network.now.rows) plan.now }
    requires texts { HaveTexts eds_files.now network.now.nodes.devices }
    ensures { OnOk result (files.new ≡ files.old ++ option_to_list (dcf_at eds_files.now network.now plan.now node)) }
{
    let Some(row) = device_row(network.devices(), node) else {
        return Ok(());
    };
    files.push(dcf_file(alloc, network, plan, eds_files, row)?)
}

#[tactic(auto, using(crate::proofs::DcfLemmas::dcfs_more, crate::proofs::DcfLemmas::dcfs_none))]
/// The DCF files of a plan, one for each device, by rising node.
pub(crate) fn dcf_files(
    alloc: Global,
    network: &Network<'_>,
    plan: &Plan,
    eds_files: &EdsFiles<'_>,
) -> Result<Items<DcfFile>, AllocError>
    requires plan { IsPlan network.now.equipment.rates network.now.set (length network.now.rows) plan.now }
    requires texts { HaveTexts eds_files.now network.now.nodes.devices }
    ensures { IfOk result (λ files. files ≡ dcfs_below eds_files.now network.now plan.now 128) }
{
    let mut files = Items::new(alloc);
    for node in 0..128 {
        push_dcf(&mut files, alloc, network, plan, eds_files, node)?;
    }
    Ok(files)
}
