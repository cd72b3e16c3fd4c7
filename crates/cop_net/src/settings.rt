//! Which settings a device takes.

ghost use Rattle.std.specs.Prelude.{◌≡◌, ◌≤◌, ◌+◌, true, IfSome};
ghost use Rattle.cop_dict.specs.Pdo.{is_communication};
ghost use Rattle.cop_net.specs.Signals.{ranges_of};
ghost use Rattle.cop_net.specs.Settings.{may_hold, may_switch_on, may_switch, is_usable, is_stuck, whole_of, holds_time, beats};
ghost use Rattle.cop_net.specs.Pdos.{every_at};

use crate::signals::Signals;
use cop_dict::{Access, DataType, Description, Dictionary, Object};
use cop_pdo::{exists, off, on};
use cop_rta::IdRange;

/// Whether a description lets a number be written as an UNSIGNED32.
fn may_hold(description: Description, n: u32) -> bool
    ensures { result ≡ may_hold description n }
{
    if matches!(description.access, Access::ReadOnly | Access::Constant) {
        return false;
    }
    let number = i128::from(n);
    !description.high.is_some_and(|high| number > high)
        && !description.low.is_some_and(|low| number < low)
}

/// Whether a description lets a COB-ID be switched on with the least and with the greatest identifier of a range.
fn may_switch_on(description: Description, cob_id: u32, range: IdRange) -> bool
    requires some { 1 ≤ range.count }
    requires most { range.least + range.count ≤ 2048 }
    ensures { result ≡ may_switch_on description cob_id range }
{
    let greatest = range.least + (range.count - 1);
    may_hold(description, on(cob_id, range.least)) && may_hold(description, on(cob_id, greatest))
}

/// Whether a description lets a COB-ID be switched off, and on with the least and with the greatest identifier of each range
/// that is open.
fn may_switch(description: Description, cob_id: u32, signals: Signals) -> bool
    ensures { result ≡ may_switch description cob_id (ranges_of signals) }
{
    may_hold(description, off(cob_id))
        && may_switch_on(description, cob_id, IdRange::FIRST)
        && (!signals.is_second_open || may_switch_on(description, cob_id, IdRange::SECOND))
}

/// Whether the PDO of a communication record can be switched off and then on with each identifier of the ranges that are
/// open. The limits of its COB-ID are an interval, so the least and the greatest of a range tell of all.
pub fn is_usable(dict: &Dictionary, index: u16, signals: Signals) -> bool
    requires { is_communication index ≡ true }
    ensures { result ≡ is_usable dict.now index (ranges_of signals) }
{
    let Some(entry) = dict.entry(index, 1) else {
        return false;
    };
    let Some(cob_id) = entry.unsigned32() else {
        return false;
    };
    may_switch(entry.description(), cob_id as u32, signals)
}

/// Whether an entry is the COB-ID of a PDO that exists and can't be switched off.
pub fn is_stuck(entry: &Object) -> bool
    ensures { result ≡ is_stuck entry.now }
{
    let is_record = matches!(entry.index(), 0x1400..=0x15FF | 0x1800..=0x19FF);
    if !is_record || entry.sub() != 1 {
        return false;
    }
    let Some(cob_id) = entry.unsigned32() else {
        return true;
    };
    let cob_id = cob_id as u32;
    exists(cob_id) && !may_hold(entry.description(), off(cob_id))
}

/// The number that an entry of an integer type has; a BOOLEAN is none.
pub fn whole_of(entry: &Object) -> Option<i128>
    ensures { result ≡ whole_of entry.now }
{
    match entry.description().data_type {
        DataType::Boolean => None,
        _ => entry.integer(),
    }
}

/// Whether an entry has a time, in ms, or lets it be written.
fn holds_time(time: u16, entry: &Object) -> bool
    ensures { result ≡ holds_time time entry.now (whole_of entry.now) }
{
    let Some(now) = whole_of(entry) else {
        return false;
    };
    if now == i128::from(time) {
        return true;
    }
    let description = entry.description();
    matches!(description.data_type, DataType::Unsigned16) && may_hold(description, u32::from(time))
}

#[tactic(auto, using(crate::proofs::SettingLemmas::time_alone))]
/// Whether the heartbeat of a device can have a time, in ms.
pub fn beats(dict: &Dictionary, time: u16) -> bool
    ensures { result ≡ beats dict.now time }
{
    match dict.entry(0x1017, 0) {
        Some(entry) => holds_time(time, entry),
        None => time == 0,
    }
}

/// After how many SYNCs the TPDO of a communication record is sent, 0 where it is sent by events.
pub fn every_at(dict: &Dictionary, index: u16) -> Option<u8>
    ensures value { result ≡ every_at dict.now index }
    ensures most { IfSome result (λ every. every ≤ 240) }
{
    let Some(entry) = dict.entry(index, 2) else {
        return None;
    };
    let Some(number) = whole_of(entry) else {
        return None;
    };
    if number >= 1 && number <= 240 {
        return Some(number as u8);
    }
    if number == 254 || number == 255 {
        return Some(0);
    }
    None
}
