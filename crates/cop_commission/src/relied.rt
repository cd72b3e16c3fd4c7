//! What a plan relies on in a device, beside what it sets: types, mappings, and PDOs that are off.

ghost use Rattle.std.specs.Prelude.{◌≡◌, ◌≤◌, ◌++◌, OnOk};
ghost use Rattle.std.specs.Prelude.{true};
ghost use Rattle.cop_dict.specs.Pdo.{is_communication, is_mapping};
ghost use Rattle.cop_commission.specs.Relied.{is_of_pdo, is_on, is_used, is_set, count_in, count_at, is_used_type, is_used_mapping, is_off_alone, question_to, relied_on, relied_questions};

use crate::identities::add;
use cop_boot::Setting;
use cop_dict::{Dictionary, Object};
use cop_identity::{Address, Demand, Question, number_of};
use std::alloc::AllocError;

// Whether a setting gives the PDO of a communication record its COB-ID.
fn is_of_pdo(index: u16, setting: &Setting) -> bool
    ensures { result ≡ is_of_pdo index setting.now }
{
    setting.index == index && setting.sub == 1
}

// Whether a setting switches the PDO on.
fn is_on(index: u16, setting: &Setting) -> bool
    ensures { result ≡ is_on index setting.now }
{
    is_of_pdo(index, setting) && setting.value < 1 << 31
}

// Whether some setting switches the PDO on.
fn is_used(settings: &[Setting], index: u16) -> bool
    ensures { result ≡ is_used settings.now index }
{
    settings.iter().any(|setting| is_on(index, setting))
}

// Whether some setting gives the PDO a COB-ID.
fn is_set(settings: &[Setting], index: u16) -> bool
    ensures { result ≡ is_set settings.now index }
{
    settings.iter().any(|setting| is_of_pdo(index, setting))
}

fn is_communication(entry: &Object) -> bool
    ensures { result ≡ is_communication entry.now.index }
{
    matches!(entry.index(), 0x1400..=0x15FF | 0x1800..=0x19FF)
}

fn is_mapping(entry: &Object) -> bool
    ensures value { result ≡ is_mapping entry.now.index }
    ensures low { result ≡ true → 0x200 ≤ entry.now.index }
{
    matches!(entry.index(), 0x1600..=0x17FF | 0x1A00..=0x1BFF)
}

// How many entries a mapping has by its count.
fn count_in(entry: &Object) -> u32
    ensures { result ≡ count_in entry.now }
{
    let value = entry.value();
    if value.len() <= 1 {
        number_of(value)
    } else {
        0
    }
}

// How many entries the mapping at an index has.
fn count_at(dict: &Dictionary, index: u16) -> u32
    ensures { result ≡ count_at dict.now index }
{
    match dict.entry(index, 0) {
        Some(entry) => count_in(entry),
        None => 0,
    }
}

// Whether an entry is the transmission type of a PDO that is used.
fn is_used_type(settings: &[Setting], entry: &Object) -> bool
    ensures { result ≡ is_used_type settings.now entry.now }
{
    is_communication(entry) && entry.sub() == 2 && is_used(settings, entry.index())
}

// Whether an entry is the count, or one of the entries, of the mapping of a PDO that is used.
fn is_used_mapping(dict: &Dictionary, settings: &[Setting], entry: &Object) -> bool
    ensures { result ≡ is_used_mapping dict.now settings.now entry.now }
{
    is_mapping(entry)
        && u32::from(entry.sub()) <= count_at(dict, entry.index())
        && is_used(settings, entry.index() - 0x200)
}

// Whether an entry is the COB-ID of a PDO that no setting touches.
fn is_off_alone(settings: &[Setting], entry: &Object) -> bool
    ensures { result ≡ is_off_alone settings.now entry.now }
{
    is_communication(entry) && entry.sub() == 1 && !is_set(settings, entry.index())
}

// The question to a node about an entry of at most four bytes.
fn question_to(node: u8, demand: Demand, entry: &Object) -> Option<Question>
    ensures { result ≡ question_to node demand entry.now }
{
    let value = entry.value();
    if value.len() > 4 {
        return None;
    }
    Some(Question {
        node,
        demand,
        at: Address {
            index: entry.index(),
            sub: entry.sub(),
        },
        wanted: number_of(value),
    })
}

// What a node is asked about an entry.
fn relied_on(node: u8, dict: &Dictionary, settings: &[Setting], entry: &Object) -> Option<Question>
    ensures { result ≡ relied_on node dict.now settings.now entry.now }
{
    if is_used_type(settings, entry) || is_used_mapping(dict, settings, entry) {
        question_to(node, Demand::Tell, entry)
    } else if is_off_alone(settings, entry) {
        question_to(node, Demand::TellOff, entry)
    } else {
        None
    }
}

/// Adds the questions whether the device of a node has what a plan that sets this in it relies on besides: of each PDO that is used its
/// transmission type and its mapping, as its EDS file has them, and that each PDO which is left alone is off. Otherwise want of memory.
pub fn add_relied(
    questions: &mut Vec<Question>,
    node: u8,
    dict: &Dictionary,
    settings: &[Setting],
) -> Result<(), AllocError>
    ensures { OnOk result (questions.new.items ≡ questions.old.items ++ relied_questions node dict.now settings.now) }
{
    for entry in dict.entries() {
        add(questions, relied_on(node, dict, settings, entry))?;
    }
    Ok(())
}
