//! What a DCF sets in each section of its text.

ghost use Rattle.std.specs.Prelude.{◌≡◌, ◌<◌, ◌≤◌, ◌+◌, ◌++◌, ◌∷◌, ◌^◌, [], length, get_or, decimal, List, None, IfOk, OnOk, option_map};
ghost use Rattle.std.specs.List.{cons_option};
ghost use Rattle.cop_eds.specs.Rows.{rows_of};
ghost use Rattle.cop_eds.specs.Edits.{Change, section_count};
ghost use Rattle.cop_dcf.specs.Dcf.{value_set, values_from, file_number, device_set, device_number, changes_of};
ghost use Rattle.cop_dcf.specs.Changes.{KnowsSettings, AreBySection};

use crate::hexadecimal::hexadecimal;
use crate::key_line::{KeyLine, SectionKeys};
use cop_eds::Eds;
use cop_frame::Rate;
use cop_setup::Setting;
use std::alloc::{AllocError, Global};

/// How many sections a text has.
fn section_count(eds: &Eds<'_>) -> usize
    ensures value { result ≡ section_count (rows_of eds.now) }
    ensures most { result < 2 ^ 63 }
{
    match eds.lines().last() {
        Some(line) => line.section as usize,
        None => 0,
    }
}

/// By the numbers of so many sections, the last setting of the object that each describes.
fn settings_by_section(
    alloc: Global,
    eds: &Eds<'_>,
    settings: &[Setting],
    count: usize,
) -> Result<Vec<Option<Setting>>, AllocError>
    ensures { IfOk result (λ v. KnowsSettings v.items eds.now settings.now count) }
{
    let mut table = vec![in alloc; None; count]?;
    for setting in settings {
        if let Some(section) = eds.object(setting.index, setting.sub)
            && section < count
        {
            table[section] = Some(*setting);
        }
    }
    Ok(table)
}

/// The value that a section gets.
fn value_keys(
    alloc: Global,
    section: usize,
    setting: Option<Setting>,
) -> Result<SectionKeys, AllocError>
    ensures { IfOk result (λ k. k ≡ cons_option (option_map (value_set section) setting) []) }
{
    let mut keys = SectionKeys::new(alloc);
    if let Some(setting) = setting {
        let value = hexadecimal(alloc, setting)?;
        keys.push(KeyLine::new(alloc, section, b"ParameterValue", &value)?)?;
    }
    Ok(keys)
}

/// The values that the sections get.
fn values_by_section(
    alloc: Global,
    table: &[Option<Setting>],
) -> Result<Vec<SectionKeys>, AllocError>
    ensures size { IfOk result (λ v. length v.items ≡ length table.now) }
    ensures keys { IfOk result (λ v. AreBySection v.items (values_from (λ section. get_or table.now section None) 0 (length table.now))) }
{
    // Two more sections may be added.
    let mut keys = Vec::with_capacity(alloc, table.len().saturating_add(2))?;
    for (section, setting) in table.iter().enumerate() {
        keys.push(value_keys(alloc, section, *setting)?)?;
    }
    Ok(keys)
}

/// Adds a section in which nothing is set.
fn add_section(keys: &mut Vec<SectionKeys>, alloc: Global) -> Result<(), AllocError>
    ensures size { OnOk result (length keys.new.items ≡ length keys.old.items + 1) }
    ensures keys { OnOk result ((changes : List Change) → AreBySection keys.old.items changes → AreBySection keys.new.items changes) }
{
    keys.push(SectionKeys::new(alloc))?;
    Ok(())
}

/// Sets a key in its section.
fn add_key(keys: &mut Vec<SectionKeys>, key: KeyLine) -> Result<(), AllocError>
    requires { key.section < length keys.old.items }
    ensures size { OnOk result (length keys.new.items ≡ length keys.old.items) }
    ensures keys { OnOk result ((changes : List Change) → AreBySection keys.old.items changes → AreBySection keys.new.items (changes ++ key ∷ [])) }
{
    let section = key.section();
    keys[section].push(key)?;
    Ok(())
}

/// The numbers of the sections FileInfo and DeviceComissioning; one that is absent comes behind the last.
pub fn named_sections(eds: &Eds<'_>) -> (usize, usize)
    ensures file { result.0 ≡ file_number (rows_of eds.now) }
    ensures device { result.1 ≡ device_number (rows_of eds.now) }
    ensures most { (result.0 ≤ section_count (rows_of eds.now) + 2) × (result.1 ≤ section_count (rows_of eds.now) + 2) }
{
    let count = section_count(eds);
    let file = eds.section(b"FileInfo");
    let device = eds.section(b"DeviceComissioning");
    match (file, device) {
        (Some(file), Some(device)) => (file, device),
        (Some(file), None) => (file, count + 1),
        (None, Some(device)) => (count + 1, device),
        (None, None) => (count + 1, count + 2),
    }
}

/// The line of a key whose value is a number.
fn number_key(
    alloc: Global,
    section: usize,
    key: &'static [u8],
    number: u32,
) -> Result<KeyLine, AllocError>
    ensures { IfOk result (λ k. k ≡ record { section = section; key = key.now; value = decimal number }) }
{
    let text = format!(in alloc; "{number}")?;
    KeyLine::new(alloc, section, key, text.as_bytes())
}

/// Sets the node, its name and the rate.
fn add_device(
    keys: &mut Vec<SectionKeys>,
    alloc: Global,
    section: usize,
    node: u8,
    name: &[u8],
    rate: Rate,
) -> Result<(), AllocError>
    requires { section < length keys.old.items }
    ensures { OnOk result ((changes : List Change) → AreBySection keys.old.items changes → AreBySection keys.new.items (changes ++ device_set section node name.now rate)) }
{
    add_key(
        keys,
        number_key(alloc, section, b"NodeID", u32::from(node))?,
    )?;
    add_key(keys, KeyLine::new(alloc, section, b"NodeName", name)?)?;
    add_key(keys, number_key(alloc, section, b"Baudrate", rate.kbits())?)?;
    Ok(())
}

/// What a DCF sets in each section of its text, those among them that the text has not yet.
pub fn section_keys(
    alloc: Global,
    eds: &Eds<'_>,
    settings: &[Setting],
    node: u8,
    name: &[u8],
    rate: Rate,
    eds_name: &[u8],
) -> Result<Vec<SectionKeys>, AllocError>
    ensures { IfOk result (λ v. AreBySection v.items (changes_of eds.now settings.now node name.now rate eds_name.now)) }
{
    let count = section_count(eds);
    let table = settings_by_section(alloc, eds, settings, count + 1)?;
    let mut keys = values_by_section(alloc, &table)?;
    add_section(&mut keys, alloc)?;
    add_section(&mut keys, alloc)?;
    let (file, device) = named_sections(eds);
    add_key(&mut keys, KeyLine::new(alloc, file, b"LastEDS", eds_name)?)?;
    add_device(&mut keys, alloc, device, node, name, rate)?;
    Ok(keys)
}
