//! The table of PDOs.

ghost use Rattle.std.specs.Prelude.{◌≡◌};

use std::alloc::AllocError;
use std::marker::Model;

/// An RPDO of a node that takes a PDO.
#[derive(Clone, Copy, PartialEq, Eq, Debug)]
pub struct Consumer {
    pub node: u8,
    pub rpdo: u16,
}

/// The consumers of a PDO, in the order given. Contracts see the list.
#[derive(Drop)]
pub struct Consumers {
    pub(crate) items: Vec<Consumer>,
}

impl Model for Consumers {
    ghost use Rattle.std.specs.Prelude.{List};
    ghost use Rattle.cop_rows.specs.declared.pdo_table.Consumer.{Consumer};

    ghost Value = { List Consumer };

    ghost view = { λ c. c.items.items };
}

impl Consumers {
    /// The consumers in the order given.
    pub fn as_slice(&self) -> &[Consumer]
        ensures { result.now ≡ self.now }
    {
        &self.items
    }
}

/// The row of a PDO: its times are in microseconds. One that is sent by SYNC has period 0, and its jitter is the latency
/// after SYNC's transfer.
#[derive(Clone, Drop)]
pub struct PdoRow {
    pub node: u8,
    pub tpdo: u16,
    pub period: u32,
    pub jitter: u32,
    pub deadline: u32,
    pub consumers: Consumers,
}

/// The table of PDOs. Contracts see its rows: that of record k, from 1 on, is row k - 1.
#[derive(Drop)]
pub struct PdoTable {
    pub(crate) rows: Vec<PdoRow>,
}

impl Model for PdoTable {
    ghost use Rattle.std.specs.Prelude.{List};
    ghost use Rattle.cop_rows.specs.declared.pdo_table.PdoRow.{PdoRow};
    ghost use Rattle.cop_rows.specs.Pdos.{IsPdoTable};

    ghost Value = { List PdoRow };

    ghost view = { λ t. t.rows.items };

    ghost invariant = { λ t. IsPdoTable t.rows.items };
}

impl PdoTable {
    ghost use Rattle.cop_rows.specs.Pdos.{IsPdoTable};

    /// The rows in the order of the records.
    pub fn rows(&self) -> &[PdoRow]
        ensures rows { result.now ≡ self.now }
        ensures table { IsPdoTable self.now }
    {
        &self.rows
    }
}

impl Clone for Consumers {
    ghost is_clone = { λ consumers copy. copy ≡ consumers };

    fn clone(&self) -> Result<Consumers, AllocError> {
        Ok(Consumers {
            items: self.items.clone()?,
        })
    }
}
