//! The rows of PDOs while their table is read.

ghost use Rattle.std.specs.Prelude.{◌≡◌, ◌≤◌, ◌+◌, ◌*◌, false, List, length, get_or, [], IfOk};
ghost use Rattle.cop_table.specs.Reading.{Gives};
ghost use Rattle.cop_rows.specs.Pdos.{IsPdoRow};
ghost use Rattle.cop_rows.specs.PdoReading.{pushed};
ghost use Rattle.cop_rows.specs.Refusals.{broken};
ghost use Rattle.cop_rows.specs.Named.{flag_of, KnowsNamed};
ghost use Rattle.cop_rows.specs.declared.pdo_table.PdoRow.{PdoRow};

use crate::pdo_table::{PdoRow, PdoTable};
use crate::refusals::{RecordFault, Rule};
use std::alloc::{AllocError, Global};
use std::marker::Model;

/// The rows of distinct PDOs, in the order given. Contracts see the list.
#[derive(Drop)]
pub(crate) struct PdoRows {
    rows: Vec<PdoRow>,
    // Whether a row names the PDO of each number, up to the greatest node of the rows.
    flags: Vec<bool>,
}

impl Model for PdoRows {
    ghost use Rattle.std.specs.Prelude.{List};
    ghost use Rattle.cop_rows.specs.declared.pdo_table.PdoRow.{PdoRow};
    ghost use Rattle.cop_rows.specs.Pdos.{IsPdoTable};
    ghost use Rattle.cop_rows.specs.Named.{KnowsNamed};

    ghost Value = { List PdoRow };

    ghost view = { λ p. p.rows.items };

    ghost invariant = { λ p. IsPdoTable p.rows.items × KnowsNamed p.flags.items p.rows.items };
}

/// How many PDOs a node has at most.
const PDOS: usize = 512;

/// The place of a PDO's flag.
fn flag_of(node: u8, tpdo: u16) -> usize
    requires node { node ≤ 127 }
    requires least { 1 ≤ tpdo }
    requires most { tpdo ≤ 512 }
    ensures { result ≡ flag_of node tpdo }
{
    usize::from(node) * PDOS + (usize::from(tpdo) - 1)
}

/// Whether the flag at a place is made and set.
fn is_set(flags: &[bool], place: usize) -> bool
    ensures { result ≡ get_or flags.now place false }
{
    flags.get(place).copied().unwrap_or(false)
}

/// Makes flags for the PDOs of a node and of those below it.
fn make_room(flags: &mut Vec<bool>, node: u8) -> Result<(), AllocError>
    ensures same { (rows : List PdoRow) → KnowsNamed flags.old.items rows → KnowsNamed flags.new.items rows }
    ensures room { IfOk result (λ _. 512 * node + 512 ≤ length flags.new.items) }
{
    let length = usize::from(node) * PDOS + PDOS;
    if flags.len() < length {
        flags.resize(length, false)?;
    }
    Ok(())
}

impl PdoRows {
    /// How many rows a table holds at most.
    const MOST: usize = 512;

    /// No row.
    pub(crate) fn new(alloc: Global) -> PdoRows
        ensures { result ≡ [] }
    {
        PdoRows {
            rows: Vec::new(alloc),
            flags: Vec::new(alloc),
        }
    }

    /// Puts a row at the end.
    pub(crate) fn push(&mut self, row: PdoRow) -> Result<(), RecordFault>
        requires { IsPdoRow row }
        ensures { Gives (λ _. self.new) broken result (pushed self.old row) }
    {
        let flag = flag_of(row.node, row.tpdo);
        if is_set(&self.flags, flag) {
            return Err(RecordFault::Broken(Rule::PdoRepeated));
        }
        if self.rows.len() == PdoRows::MOST {
            return Err(RecordFault::Broken(Rule::Full));
        }
        if make_room(&mut self.flags, row.node).is_err() {
            return Err(RecordFault::Memory);
        }
        match self.rows.push(row) {
            Ok(()) => {
                self.flags[flag] = true;
                Ok(())
            }
            Err(_) => Err(RecordFault::Memory),
        }
    }

    /// The table of these rows.
    pub(crate) fn into_table(self) -> PdoTable
        ensures { result ≡ self }
    {
        PdoTable { rows: self.rows }
    }
}
