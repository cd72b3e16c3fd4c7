//! What a plan sets in a node.

ghost use Rattle.std.specs.Prelude.{◌≡◌, ◌<◌, ◌++◌, [], IfOk, IfSome, OnOk, length, option_and_then, if◌then◌else◌, None, ℕ};
ghost use Rattle.std.specs.List.{cons_option, filter_map};
ghost use Rattle.cop_dict.specs.Find.{unsigned32_of, entry_at};
ghost use Rattle.cop_dict.specs.Pdo.{is_cob_id};
ghost use Rattle.cop_net.specs.Settings.{whole_of};
ghost use Rattle.cop_plan.specs.Plans.{IsPlan};
ghost use Rattle.cop_dcf.specs.Identifiers.{id_in};
ghost use Rattle.cop_dcf.specs.Settings.{off_set, on_set, set_of, time_set, node_settings};
ghost use Rattle.cop_setup.specs.Settings.{cob_id_set};

use crate::identifiers::{Places, id_in, identifiers};
use cop_dict::{DataType, Dictionary, Object};
use cop_net::Network;
use cop_pdo::{exists, off, on};
use cop_plan::Plan;
use cop_setup::{Setting, Width};
use std::alloc::{AllocError, Global};

/// The COB-ID of an entry that is one.
fn cob_id(entry: &Object) -> Option<u32>
    ensures { result ≡ (if is_cob_id entry.now then unsigned32_of entry.now else None) }
{
    let is_record = matches!(entry.index(), 0x1400..=0x15FF | 0x1800..=0x19FF);
    if !is_record || entry.sub() != 1 {
        return None;
    }
    match entry.unsigned32() {
        Some(cob_id) => Some(cob_id as u32),
        None => None,
    }
}

/// The setting of a COB-ID.
fn cob_id_set(index: u16, cob_id: u32) -> Setting
    ensures { result ≡ cob_id_set index cob_id }
{
    Setting {
        index,
        sub: 1,
        value: cob_id,
        width: Width::Four,
    }
}

/// A PDO that is used, or that exists, is switched off.
fn off_set(entry: &Object, id: Option<u16>) -> Option<Setting>
    ensures { result ≡ set_of off_set (λ index. id) entry.now }
{
    let cob_id = cob_id(entry)?;
    if id.is_some() || exists(cob_id) {
        Some(cob_id_set(entry.index(), off(cob_id)))
    } else {
        None
    }
}

/// A PDO that is used gets its identifier.
fn on_set(entry: &Object, id: Option<u16>) -> Option<Setting>
    requires { IfSome id (λ id. id < 2048) }
    ensures { result ≡ set_of on_set (λ index. id) entry.now }
{
    let cob_id = cob_id(entry)?;
    let id = id?;
    Some(cob_id_set(entry.index(), on(cob_id, id)))
}

/// The heartbeat's time in ms, where the device has another.
fn time_set(dict: &Dictionary, time: u16) -> Option<Setting>
    ensures { cons_option result [] ≡ time_set time (option_and_then whole_of (entry_at dict.now 0x1017 0)) }
{
    let entry = dict.entry(0x1017, 0)?;
    if matches!(entry.description().data_type, DataType::Boolean) {
        return None;
    }
    let now = entry.integer()?;
    if now == i128::from(time) {
        return None;
    }
    Some(Setting {
        index: 0x1017,
        sub: 0,
        value: u32::from(time),
        width: Width::Two,
    })
}

/// Adds what is switched off.
fn add_offs(
    settings: &mut Vec<Setting>,
    entries: &[Object],
    places: &Places,
) -> Result<(), AllocError>
    ensures { OnOk result (settings.new.items ≡ settings.old.items ++ filter_map (set_of off_set (id_in places.now)) entries.now) }
{
    for entry in entries {
        if let Some(setting) = off_set(entry, id_in(places, entry.index())) {
            settings.push(setting)?;
        }
    }
    Ok(())
}

/// Adds what is asked of the device.
fn add_asked(settings: &mut Vec<Setting>, asked: &[Setting]) -> Result<(), AllocError>
    ensures { OnOk result (settings.new.items ≡ settings.old.items ++ asked.now) }
{
    settings.extend_from_slice(asked)?;
    Ok(())
}

/// Adds the identifiers of the PDOs that are used.
fn add_ons(
    settings: &mut Vec<Setting>,
    entries: &[Object],
    places: &Places,
) -> Result<(), AllocError>
    requires { (index : ℕ) → IfSome (id_in places.now index) (λ id. id < 2048) }
    ensures { OnOk result (settings.new.items ≡ settings.old.items ++ filter_map (set_of on_set (id_in places.now)) entries.now) }
{
    for entry in entries {
        if let Some(setting) = on_set(entry, id_in(places, entry.index())) {
            settings.push(setting)?;
        }
    }
    Ok(())
}

/// What a plan sets in a node of its network, in order: each PDO that is used, and each other that exists, is switched
/// off; then come the settings that are asked of the device; each PDO that is used gets its identifier; the heartbeat gets its
/// time. `Err` is want of memory.
pub fn settings(
    alloc: Global,
    plan: &Plan,
    network: &Network<'_>,
    node: u8,
) -> Result<Vec<Setting>, AllocError>
    requires { IsPlan network.now.equipment.rates network.now.set (length network.now.rows) plan.now }
    ensures { IfOk result (λ v. v.items ≡ node_settings network.now plan.now.ids node) }
{
    let mut settings = Vec::new(alloc);
    let Some(dict) = network.dictionary(node) else {
        return Ok(settings);
    };
    let places = identifiers(network.rows(), plan.ids(), node);
    add_offs(&mut settings, dict.entries(), &places)?;
    add_asked(&mut settings, network.settings(node))?;
    add_ons(&mut settings, dict.entries(), &places)?;
    if let Some(setting) = time_set(dict, network.heartbeat(node)) {
        settings.push(setting)?;
    }
    Ok(settings)
}
