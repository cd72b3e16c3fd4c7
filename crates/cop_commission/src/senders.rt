//! The identifiers by which a device sends PDOs as it was built.

ghost use Rattle.std.specs.Prelude.{◌≡◌, ◌++◌, OnOk};
ghost use Rattle.std.specs.List.{filter_map};
ghost use Rattle.cop_commission.specs.Senders.{sent_id, own_sender, own_senders};

use cop_dict::Object;
use cop_live::Sender;
use cop_net::Network;
use std::alloc::AllocError;

/// The identifier of a TPDO that exists.
fn sent_id(entry: &Object) -> Option<u16>
    ensures { result ≡ sent_id entry.now }
{
    if entry.index() < 0x1800 || entry.index() > 0x19FF || entry.sub() != 1 {
        return None;
    }
    match entry.unsigned32() {
        Some(cob_id) if cob_id < 1 << 31 => Some((cob_id % 2048) as u16),
        Some(_) | None => None,
    }
}

/// A node sends the TPDO of an entry.
fn own_sender(node: u8, entry: &Object) -> Option<Sender>
    ensures { result ≡ own_sender node entry.now }
{
    match sent_id(entry) {
        Some(id) => Some(Sender { id, node }),
        None => None,
    }
}

/// Adds the TPDOs of entries.
fn add_own(senders: &mut Vec<Sender>, node: u8, entries: &[Object]) -> Result<(), AllocError>
    ensures { OnOk result (senders.new.items ≡ senders.old.items ++ filter_map (own_sender node) entries.now) }
{
    for entry in entries {
        if let Some(sender) = own_sender(node, entry) {
            senders.push(sender)?;
        }
    }
    Ok(())
}

/// Adds the TPDOs that exist in the device of the node that is meant alone, as its EDS file says.
pub fn add_own_senders(
    senders: &mut Vec<Sender>,
    network: &Network<'_>,
    only: Option<u8>,
) -> Result<(), AllocError>
    ensures { OnOk result (senders.new.items ≡ senders.old.items ++ own_senders network.now only) }
{
    let Some(node) = only else {
        return Ok(());
    };
    let Some(dict) = network.dictionary(node) else {
        return Ok(());
    };
    add_own(senders, node, dict.entries())
}
