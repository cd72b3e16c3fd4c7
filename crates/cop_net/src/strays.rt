//! What a device must let each plan set.

ghost use Rattle.std.specs.Prelude.{◌≡◌, ◌<◌, not, ◌&&◌, is_some, IfSome};
ghost use Rattle.std.specs.Option.{option_copied};
ghost use Rattle.cop_table.specs.Reading.{Gives};
ghost use Rattle.cop_net.specs.declared.faults.Table.TheVariants.{Nodes};
ghost use Rattle.cop_net.specs.declared.faults.PlanFault.TheVariants.{Refused};
ghost use Rattle.cop_net.specs.Faults.{refusal};
ghost use Rattle.cop_net.specs.Uses.{is_used};
ghost use Rattle.cop_net.specs.Settings.{is_stuck};
ghost use Rattle.cop_net.specs.Network.{has_stray, first_stray, settable, all_settable};

use crate::devices::{Device, Devices};
use crate::faults::{PlanFault, Refusal, Rule, Table};
use crate::frames::Frames;
use crate::settings::{beats, is_stuck};
use crate::uses::Uses;
use cop_dict::{Dictionary, Object};

/// The refusal of a record of the table of nodes.
pub fn refused(rule: Rule, place: u64) -> PlanFault
    ensures { result ≡ Refused (record { table = Nodes; rule = rule; place = place }) }
{
    PlanFault::Refused(Refusal {
        table: Table::Nodes,
        rule,
        place,
    })
}

/// Whether an entry of a node is the COB-ID of a PDO that nobody uses and that can't be switched off.
fn is_stray(used: &Uses, node: u8, entry: &Object) -> bool
    requires { node < 128 }
    ensures { result ≡ (is_stuck entry.now && not (is_used used.now node entry.now.index)) }
{
    is_stuck(entry) && !used.contains(node, entry.index())
}

/// The communication record of the first PDO of a node that nobody uses and that can't be switched off, by its index.
fn stray_of(used: &Uses, node: u8, dict: &Dictionary) -> Option<u16>
    requires { node < 128 }
    ensures any { is_some result ≡ has_stray used.now node dict.now }
    ensures first { IfSome result (λ index. index ≡ first_stray used.now node dict.now) }
{
    for entry in dict.entries() {
        if is_stray(used, node, entry) {
            return Some(entry.index());
        }
    }
    None
}

/// A device takes what each plan sets.
fn check_device(
    frames: &Frames<'_>,
    used: &Uses,
    node: u8,
    device: Option<&Device>,
) -> Result<(), PlanFault>
    requires { node < 128 }
    ensures { Gives (λ u. u) refusal result (settable frames.now used.now node (option_copied device.entry)) }
{
    let Some(device) = device else {
        return Ok(());
    };
    if !beats(&device.dictionary, frames.time(node)) {
        return Err(refused(Rule::Heartbeat, device.place));
    }
    match stray_of(used, node, &device.dictionary) {
        Some(index) => Err(refused(Rule::StaysOn(index), device.place)),
        None => Ok(()),
    }
}

/// All devices take what each plan sets; of several that don't, the one of the lowest node counts.
pub fn check_devices(frames: &Frames<'_>, used: &Uses, devices: &Devices) -> Result<(), PlanFault>
    ensures { Gives (λ u. u) refusal result (all_settable frames.now used.now 0 devices.now.devices) }
{
    for node in 0..devices.nodes() {
        check_device(frames, used, node, devices.device(node))?;
    }
    Ok(())
}
