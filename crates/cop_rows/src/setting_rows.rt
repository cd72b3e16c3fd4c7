//! The values that a table of settings asks of a device.

ghost use Rattle.std.specs.Prelude.{◌≡◌};
ghost use Rattle.cop_table.specs.Reading.{Gives};
ghost use Rattle.cop_rows.specs.Refusals.{broken};
ghost use Rattle.cop_rows.specs.SettingRows.{object_of, IsSettingRow, with_row};

use crate::refusals::{RecordFault, Rule};
use cop_eds::Amount;
use std::alloc::Global;
use std::collections::BTreeSet;
use std::marker::Model;

/// A value that is asked for the object at an index and a sub. `place` is its record, from 1 on.
#[derive(Clone, Copy, PartialEq, Eq, Debug)]
pub struct SettingRow {
    pub place: u64,
    pub index: u16,
    pub sub: u8,
    /// The value as it is written; the object's type says what it is.
    pub amount: Amount,
}

/// The values that are asked of a device, each of another object, in the order of their records. Contracts see the list.
#[derive(Drop)]
pub struct SettingRows {
    rows: Vec<SettingRow>,
    // The objects of the rows.
    objects: BTreeSet<u32>,
}

impl Model for SettingRows {
    ghost use Rattle.std.specs.Prelude.{List};
    ghost use Rattle.cop_rows.specs.declared.setting_rows.SettingRow.{SettingRow};
    ghost use Rattle.cop_rows.specs.SettingRows.{AreSettingRows, KnowsObjects};

    ghost Value = { List SettingRow };

    ghost view = { λ s. s.rows.items };

    ghost invariant = { λ s. AreSettingRows s.rows.items × KnowsObjects s.objects s.rows.items };
}

/// The number of an object: its index, and behind it its sub.
fn object_of(row: &SettingRow) -> u32
    ensures { result ≡ object_of row.now }
{
    u32::from(row.index) * 256 + u32::from(row.sub)
}

impl SettingRows {
    ghost use Rattle.std.specs.Prelude.{[]};
    ghost use Rattle.cop_rows.specs.SettingRows.{AreSettingRows};

    /// No value is asked.
    pub(crate) fn new(alloc: Global) -> SettingRows
        ensures none { result ≡ [] }
        ensures apart { AreSettingRows result }
    {
        SettingRows {
            rows: Vec::new(alloc),
            objects: BTreeSet::new(alloc),
        }
    }

    /// The rows in the order of their records.
    pub fn as_slice(&self) -> &[SettingRow]
        ensures rows { result.now ≡ self.now }
        ensures apart { AreSettingRows self.now }
    {
        &self.rows
    }

    /// Puts a row at the end, if its object has none.
    pub(crate) fn push(&mut self, row: SettingRow) -> Result<(), RecordFault>
        requires { IsSettingRow row }
        ensures value { Gives (λ _. self.new) broken result (with_row self.old row) }
        ensures apart { AreSettingRows self.new }
    {
        let object = object_of(&row);
        if self.objects.contains(&object) {
            return Err(RecordFault::Broken(Rule::RowRepeated));
        }
        // With room for the row nothing fails after its object is noted.
        self.rows.reserve(1)?;
        self.objects.insert(object)?;
        self.rows.push(row)?;
        Ok(())
    }
}
