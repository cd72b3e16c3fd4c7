//! Which TPDOs of a device have another identifier (CiA 301, "PDO communication parameter record").

ghost use Rattle.std.specs.Prelude.{◌≡◌, ◌≤◌, IfOk};
ghost use Rattle.cop_compare.specs.Identifiers.{identifier_in, identifier_of, is_same, identifier_change, identifier_changes};

use crate::adding::add;
use cop_dict::Dictionary;
use cop_pdo::exists;
use std::alloc::{AllocError, Global};

/// A TPDO whose identifier did not stay.
#[derive(Clone, Copy, Debug, PartialEq, Eq)]
pub struct IdentifierChange {
    /// Its number in its device, 1 to 512.
    pub tpdo: u16,
    /// Its identifier in the old dictionary; none if it does not exist there.
    pub old: Option<u32>,
    /// Its identifier in the new dictionary; none if it does not exist there.
    pub new: Option<u32>,
}

/// The identifier that a COB-ID gives a PDO; none if the PDO does not exist.
fn identifier_in(cob_id: u32) -> Option<u32>
    ensures { result ≡ identifier_in cob_id }
{
    if exists(cob_id) {
        Some(cob_id % (1 << 29))
    } else {
        None
    }
}

/// The identifier of a TPDO; none if it does not exist.
fn identifier_of(dict: &Dictionary, tpdo: u16) -> Option<u32>
    requires { tpdo ≤ 512 }
    ensures { result ≡ identifier_of dict.now tpdo }
{
    let entry = dict.entry(0x17FF + tpdo, 1)?;
    let cob_id = entry.unsigned32()?;
    identifier_in(cob_id as u32)
}

fn is_same(old: Option<u32>, new: Option<u32>) -> bool
    ensures { result ≡ is_same old new }
{
    match (old, new) {
        (None, None) => true,
        (Some(old), Some(new)) => old == new,
        _ => false,
    }
}

/// What becomes of the identifier of a TPDO, if it does not stay.
fn identifier_change(old: &Dictionary, new: &Dictionary, tpdo: u16) -> Option<IdentifierChange>
    requires { tpdo ≤ 512 }
    ensures { result ≡ identifier_change old.now new.now tpdo }
{
    let old = identifier_of(old, tpdo);
    let new = identifier_of(new, tpdo);
    if is_same(old, new) {
        None
    } else {
        Some(IdentifierChange { tpdo, old, new })
    }
}

/// The TPDOs from 1 to 512 whose identifiers in two dictionaries of a device differ, by rising number. `Err` is want of memory.
pub fn identifier_changes(
    alloc: Global,
    old: &Dictionary,
    new: &Dictionary,
) -> Result<Vec<IdentifierChange>, AllocError>
    ensures { IfOk result (λ all. all.items ≡ identifier_changes old.now new.now) }
{
    let mut all = Vec::new(alloc);
    for tpdo in 1..513 {
        add(&mut all, identifier_change(old, new, tpdo))?;
    }
    Ok(all)
}
