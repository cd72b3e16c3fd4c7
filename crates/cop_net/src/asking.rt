//! The settings that a table of settings asks of a device.

ghost use Rattle.std.specs.Prelude.{◌≡◌, OnOk, IfOk};
ghost use Rattle.cop_dict.specs.Dict.{initial};
ghost use Rattle.cop_table.specs.Reading.{Gives};
ghost use Rattle.cop_net.specs.Faults.{refusal};
ghost use Rattle.cop_net.specs.Asking.{Asked, with_row, settings_asked};

use crate::faults::{PlanFault, Refusal, Rule, Table};
use cop_dict::Dictionary;
use cop_rows::{DeviceRow, SettingRow};
use cop_setup::{SettingList, ask};
use std::alloc::Global;

/// Adds the setting of a row, which is written to the dictionary.
fn add_row(
    settings: &mut SettingList,
    dictionary: &mut Dictionary,
    node: u8,
    row: &SettingRow,
) -> Result<(), PlanFault>
    ensures value { Gives (λ _. record { dictionary = dictionary.new; settings = settings.new }) refusal result (with_row node (record { dictionary = dictionary.old; settings = settings.old }) row.now) }
    ensures initial { initial dictionary.new ≡ initial dictionary.old }
{
    match ask(dictionary, node, row.index, row.sub, row.amount) {
        Ok(Some(setting)) => Ok(settings.push(setting)?),
        Ok(None) => Ok(()),
        Err(fault) => Err(PlanFault::Refused(Refusal {
            table: Table::Settings,
            rule: Rule::Asked(row.index, row.sub, fault),
            place: row.place,
        })),
    }
}

/// The settings of the rows, which are written to the dictionary.
fn add_rows(
    alloc: Global,
    dictionary: &mut Dictionary,
    node: u8,
    rows: &[SettingRow],
) -> Result<SettingList, PlanFault>
    ensures value { Gives (λ s. s) refusal result (settings_asked node dictionary.old rows.now) }
    ensures initial { initial dictionary.new ≡ initial dictionary.old }
{
    let mut settings = SettingList::new(alloc);
    for row in rows {
        add_row(&mut settings, dictionary, node, row)?;
    }
    Ok(settings)
}

/// The settings that are asked of a device, each of which it takes in its turn. Its dictionary has its initial values before and after.
pub fn settings_asked(
    alloc: Global,
    dictionary: &mut Dictionary,
    row: &DeviceRow,
) -> Result<SettingList, PlanFault>
    requires { initial dictionary.old ≡ dictionary.old }
    ensures value { Gives (λ s. s) refusal result (settings_asked row.now.node dictionary.old row.now.settings) }
    ensures kept { OnOk result (dictionary.new ≡ dictionary.old) }
{
    let rows = row.settings.as_slice();
    if rows.is_empty() {
        return Ok(SettingList::new(alloc));
    }
    let settings = add_rows(alloc, dictionary, row.node, rows)?;
    dictionary.reset_all();
    Ok(settings)
}
