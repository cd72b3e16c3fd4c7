//! The TPDOs of all devices that may have a row.

ghost use Rattle.std.specs.Prelude.{◌≡◌, ◌≤◌, ◌++◌, [], OnOk, IfOk};
ghost use Rattle.cop_start.specs.Senders.{sender_at, device_senders, senders_of};

use crate::offers::{Offer, Pace, offered, paced};
use crate::start::{Source, Start};
use cop_dict::Dictionary;
use std::alloc::{AllocError, Global};

/// A TPDO that may have a row: bits 0 to 29 of its COB-ID, after how many SYNCs it is sent, 0 where it is sent by events, and the
/// period of its row in microseconds, with where it comes from.
#[derive(Clone, Copy, PartialEq, Eq, Debug)]
pub struct Sender {
    pub node: u8,
    pub tpdo: u16,
    pub id: u32,
    pub every: u8,
    pub pace: Pace,
    pub period: u32,
}

/// Adds a TPDO of a device, where it may have a row.
fn add_sender(
    senders: &mut Vec<Sender>,
    node: u8,
    dict: &Dictionary,
    tpdo: u16,
) -> Result<(), AllocError>
    requires { (1 ≤ tpdo) × (tpdo ≤ 512) }
    ensures { OnOk result (senders.new.items ≡ senders.old.items ++ sender_at node dict.now tpdo) }
{
    if let Offer::Sends { id, every } = offered(dict, tpdo) {
        let (pace, period) = paced(dict, tpdo, every);
        senders.push(Sender {
            node,
            tpdo,
            id,
            every,
            pace,
            period,
        })?;
    }
    Ok(())
}

/// Adds the TPDOs of a device that may have rows.
fn add_device(senders: &mut Vec<Sender>, node: u8, dict: &Dictionary) -> Result<(), AllocError>
    ensures { OnOk result (senders.new.items ≡ senders.old.items ++ device_senders node dict.now) }
{
    for before in 0..512 {
        add_sender(senders, node, dict, before + 1)?;
    }
    Ok(())
}

/// Adds those of devices.
fn add_devices(senders: &mut Vec<Sender>, sources: &[Source]) -> Result<(), AllocError>
    ensures { OnOk result (senders.new.items ≡ senders.old.items ++ senders_of sources.now) }
{
    match sources {
        [] => Ok(()),
        [first, rest @ ..] => {
            add_device(senders, first.node(), first.dictionary())?;
            add_devices(senders, rest)
        }
    }
}

/// The TPDOs of all devices that may have rows, by node and number.
pub(crate) fn senders(alloc: Global, start: &Start) -> Result<Vec<Sender>, AllocError>
    ensures { IfOk result (λ senders. senders.items ≡ senders_of start.now) }
{
    let mut senders = Vec::new(alloc);
    add_devices(&mut senders, start.sources())?;
    Ok(senders)
}
