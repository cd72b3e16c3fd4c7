//! The RPDOs of all devices that exist.

ghost use Rattle.std.specs.Prelude.{◌≡◌, ◌≤◌, ◌++◌, [], OnOk, IfOk};
ghost use Rattle.cop_start.specs.Senders.{receiver_at, device_receivers, receivers_of};

use crate::start::{Source, Start};
use cop_dict::Dictionary;
use cop_pdo::exists;
use std::alloc::{AllocError, Global};

/// An RPDO that exists, as its EDS file describes it: bits 0 to 29 of its COB-ID.
#[derive(Clone, Copy, PartialEq, Eq, Debug)]
pub struct Receiver {
    pub node: u8,
    pub rpdo: u16,
    pub id: u32,
}

/// Adds an RPDO of a device, where it exists.
fn add_receiver(
    receivers: &mut Vec<Receiver>,
    node: u8,
    dict: &Dictionary,
    rpdo: u16,
) -> Result<(), AllocError>
    requires { (1 ≤ rpdo) × (rpdo ≤ 512) }
    ensures { OnOk result (receivers.new.items ≡ receivers.old.items ++ receiver_at node dict.now rpdo) }
{
    let Some(entry) = dict.entry(0x13FF + rpdo, 1) else {
        return Ok(());
    };
    let Some(cob_id) = entry.unsigned32() else {
        return Ok(());
    };
    let cob_id = cob_id as u32;
    if exists(cob_id) {
        receivers.push(Receiver {
            node,
            rpdo,
            id: cob_id % (1 << 30),
        })?;
    }
    Ok(())
}

/// Adds the RPDOs of a device that exist.
fn add_device(receivers: &mut Vec<Receiver>, node: u8, dict: &Dictionary) -> Result<(), AllocError>
    ensures { OnOk result (receivers.new.items ≡ receivers.old.items ++ device_receivers node dict.now) }
{
    for before in 0..512 {
        add_receiver(receivers, node, dict, before + 1)?;
    }
    Ok(())
}

/// Adds those of devices.
fn add_devices(receivers: &mut Vec<Receiver>, sources: &[Source]) -> Result<(), AllocError>
    ensures { OnOk result (receivers.new.items ≡ receivers.old.items ++ receivers_of sources.now) }
{
    match sources {
        [] => Ok(()),
        [first, rest @ ..] => {
            add_device(receivers, first.node(), first.dictionary())?;
            add_devices(receivers, rest)
        }
    }
}

/// The RPDOs of all devices that exist, by node and number.
pub(crate) fn receivers(alloc: Global, start: &Start) -> Result<Vec<Receiver>, AllocError>
    ensures { IfOk result (λ receivers. receivers.items ≡ receivers_of start.now) }
{
    let mut receivers = Vec::new(alloc);
    add_devices(&mut receivers, start.sources())?;
    Ok(receivers)
}
