//! The tables of a network.

ghost use Rattle.std.specs.Prelude.{◌≡◌};
ghost use Rattle.cop_table.specs.Reading.{Gives};
ghost use Rattle.cop_rows.specs.NodeReading.{nodes_of};
ghost use Rattle.cop_rows.specs.PdoReading.{pdos_of};
ghost use Rattle.cop_rows.specs.SettingReading.{with_settings};
ghost use Rattle.cop_net.specs.declared.faults.Table.TheVariants.{Nodes, Pdos, Settings};
ghost use Rattle.cop_net.specs.declared.faults.Rule.TheVariants as rules;
ghost use Rattle.cop_net.specs.declared.faults.PlanFault.TheVariants.{Refused};
ghost use Rattle.cop_net.specs.Faults.{refusal};
ghost use Rattle.cop_net.specs.Tables.{in_table};

use crate::faults::{PlanFault, Refusal, Rule, Table};
use cop_rows::{NodeTable, PdoTable, RowFault};
use std::alloc::Global;

/// The refusal of a record of a table.
fn refused(table: Table, refusal: cop_rows::Refusal) -> PlanFault
    ensures { result ≡ Refused (record { table = table; rule = rules.Record refusal.rule; place = refusal.place }) }
{
    PlanFault::Refused(Refusal {
        table,
        rule: Rule::Record(refusal.rule),
        place: refusal.place,
    })
}

/// The table of nodes: its first record that breaks a rule counts, and of its rules the one of least number; then the first
/// row whose node has no device row; then that there is no device row.
pub fn read_nodes(alloc: Global, bytes: &[u8]) -> Result<NodeTable, PlanFault>
    ensures { Gives (λ table. table) refusal result (in_table Nodes (nodes_of bytes.now)) }
{
    match cop_rows::read_nodes(alloc, bytes) {
        Ok(table) => Ok(table),
        Err(RowFault::Refused(refusal)) => Err(refused(Table::Nodes, refusal)),
        Err(RowFault::Memory) => Err(PlanFault::Memory),
    }
}

/// The table of PDOs: its first record that breaks a rule counts, and of its rules the one of least number.
pub fn read_pdos(alloc: Global, bytes: &[u8]) -> Result<PdoTable, PlanFault>
    ensures { Gives (λ table. table) refusal result (in_table Pdos (pdos_of bytes.now)) }
{
    match cop_rows::read_pdos(alloc, bytes) {
        Ok(table) => Ok(table),
        Err(RowFault::Refused(refusal)) => Err(refused(Table::Pdos, refusal)),
        Err(RowFault::Memory) => Err(PlanFault::Memory),
    }
}

/// The table of nodes with the values that a table of settings asks of its devices: its first record that breaks a rule counts, and of
/// its rules the one of least number.
pub fn read_settings(alloc: Global, nodes: NodeTable, bytes: &[u8]) -> Result<NodeTable, PlanFault>
    ensures { Gives (λ table. table) refusal result (in_table Settings (with_settings nodes bytes.now)) }
{
    match cop_rows::read_settings(alloc, nodes, bytes) {
        Ok(table) => Ok(table),
        Err(RowFault::Refused(refusal)) => Err(refused(Table::Settings, refusal)),
        Err(RowFault::Memory) => Err(PlanFault::Memory),
    }
}
