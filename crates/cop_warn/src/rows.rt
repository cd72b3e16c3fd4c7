//! Warnings on the rows of PDOs.

ghost use Rattle.std.specs.Prelude.{◌≡◌, ◌≤◌, ◌+◌, ◌++◌, OnOk};
ghost use Rattle.std.specs.Option.{option_copied, option_to_list};
ghost use Rattle.cop_warn.specs.Warnings.{deadline_warning, timer_warning, inhibit_warning, of_row, of_sender};

use crate::numbers::natural_at;
use crate::warning::Warning;
use cop_dict::Dictionary;
use cop_net::PdoRow;
use std::alloc::AllocError;

/// Adds a warning, if there is one.
pub(crate) fn push_some(
    found: &mut Vec<Warning>,
    warning: Option<Warning>,
) -> Result<(), AllocError>
    ensures { OnOk result (found.new.items ≡ found.old.items ++ option_to_list warning) }
{
    if let Some(warning) = warning {
        found.push(warning)?;
    }
    Ok(())
}

/// Whether the deadline of a row is not above its jitter.
fn deadline_warning(place: u64, row: &PdoRow) -> Option<Warning>
    ensures { result ≡ deadline_warning place row.now }
{
    if row.deadline <= row.jitter {
        Some(Warning::DeadlineWithinJitter { place })
    } else {
        None
    }
}

/// Whether an event timer sends a TPDO more often than its row says.
fn timer_warning(place: u64, row: &PdoRow, dict: &Dictionary) -> Option<Warning>
    requires { row.now.tpdo ≤ 512 }
    ensures { result ≡ timer_warning place row.now dict.now }
{
    let Some(millis) = natural_at(dict, 0x17FF + row.tpdo, 5) else {
        return None;
    };
    if millis != 0 && millis * 1000 < u64::from(row.period) {
        Some(Warning::EventTimer { place, millis })
    } else {
        None
    }
}

/// Whether an inhibit time lets a TPDO wait longer than its row says.
fn inhibit_warning(place: u64, row: &PdoRow, dict: &Dictionary) -> Option<Warning>
    requires { row.now.tpdo ≤ 512 }
    ensures { result ≡ inhibit_warning place row.now dict.now }
{
    let Some(units) = natural_at(dict, 0x17FF + row.tpdo, 3) else {
        return None;
    };
    if row.period != 0 && u64::from(row.period) < units * 100 {
        Some(Warning::InhibitTime { place, units })
    } else {
        None
    }
}

/// Adds what is found of a row and its sender.
fn push_sender(
    found: &mut Vec<Warning>,
    place: u64,
    row: &PdoRow,
    dict: &Dictionary,
) -> Result<(), AllocError>
    requires { row.now.tpdo ≤ 512 }
    ensures { OnOk result (found.new.items ≡ found.old.items ++ of_sender place row.now dict.now) }
{
    push_some(found, timer_warning(place, row, dict))?;
    push_some(found, inhibit_warning(place, row, dict))
}

/// Adds what is found of a row.
pub(crate) fn push_row(
    found: &mut Vec<Warning>,
    place: u64,
    row: &PdoRow,
    dict: Option<&Dictionary>,
) -> Result<(), AllocError>
    requires { row.now.tpdo ≤ 512 }
    ensures { OnOk result (found.new.items ≡ found.old.items ++ of_row place row.now (option_copied dict.entry)) }
{
    push_some(found, deadline_warning(place, row))?;
    match dict {
        Some(dict) => push_sender(found, place, row, dict),
        None => Ok(()),
    }
}
