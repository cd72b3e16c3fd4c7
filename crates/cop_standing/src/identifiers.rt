//! The identifiers that devices have for their PDOs before any plan.

ghost use Rattle.std.specs.Prelude.{◌≡◌, ◌↔◌, ℕ, ◌<◌, ◌≤◌, ◌^◌, IsTrue, length, get_or, MatchOption, MatchResult};
ghost use Rattle.std.specs.Option.{option_copied};
ghost use Rattle.cop_net.specs.Network.{IsNetwork};
ghost use Rattle.cop_net.specs.Signals.{IsPdoId};
ghost use Rattle.cop_rows.specs.Pdos.{IsPdoRow};
ghost use Rattle.cop_plan.specs.Values.{id_of};
ghost use Rattle.cop_standing.specs.Identifiers.{identifier_of, row_identifier, standing_id, AreIds, Explains};

use crate::faults::StandingFault;
use cop_dict::Dictionary;
use cop_net::{Network, PdoRow};
use std::alloc::Global;

/// Bits 0 to 29 of the COB-ID of a TPDO, whether or not it exists; 0 where there is no COB-ID.
fn identifier_of(dict: Option<&Dictionary>, tpdo: u16) -> u32
    requires { tpdo ≤ 512 }
    ensures { result ≡ identifier_of (option_copied dict.entry) tpdo }
{
    let Some(dict) = dict else {
        return 0;
    };
    let Some(entry) = dict.entry(0x17FF + tpdo, 1) else {
        return 0;
    };
    let Some(cob_id) = entry.unsigned32() else {
        return 0;
    };
    (cob_id % (1 << 30)) as u32
}

/// The identifier that the device of a row has for its PDO.
fn row_identifier(network: &Network<'_>, row: &PdoRow) -> u32
    requires { row.now.tpdo ≤ 512 }
    ensures { result ≡ row_identifier network.now row.now }
{
    identifier_of(network.dictionary(row.node), row.tpdo)
}

/// The identifier that the device of a row, from 0 on, has for its PDO.
fn standing_id(network: &Network<'_>, row: usize) -> u32
    requires { row < length network.now.rows }
    ensures { result ≡ standing_id network.now row }
{
    row_identifier(network, &network.rows()[row])
}

/// Whether an identifier is one that PDOs may have.
fn is_pdo_id(id: u32) -> bool
    ensures { IsTrue result ↔ IsPdoId id }
{
    (0x181 <= id && id <= 0x57F) || (0x680 <= id && id <= 0x6DF)
}

/// Where an identifier stands among some.
fn place_of(ids: &[u16], id: u16) -> Option<usize>
    ensures { MatchOption result ((k : ℕ) → k < length ids.now → id_of ids.now k ≡ id → ⊥) (λ k. (k < length ids.now) × (id_of ids.now k ≡ id)) }
{
    for k in 0..ids.len() {
        if ids[k] == id {
            return Some(k);
        }
    }
    None
}

/// The identifiers that devices have for the PDOs of a network, by its rows, or the first row that cannot keep its own.
pub(crate) fn standing_ids(alloc: Global, network: &Network<'_>) -> Result<Vec<u16>, StandingFault>
    ensures { MatchResult result (λ ids. AreIds network.now (length network.now.rows) ids.items) (Explains network.now) }
{
    let mut ids = Vec::new(alloc);
    for row in 0..network.pdos() {
        let id = standing_id(network, row);
        if !is_pdo_id(id) {
            return Err(StandingFault::Outside { row, id });
        }
        if let Some(earlier) = place_of(&ids, id as u16) {
            return Err(StandingFault::Taken { row, earlier });
        }
        ids.push(id as u16)?;
    }
    Ok(ids)
}
