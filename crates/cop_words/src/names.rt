//! How PDOs, times and devices are called.

use crate::hazards::Text;
use cop_dict::Direction;
use cop_net::{DevicePdo, PdoRow};
use std::{fmt, str};

/// The TPDO of a row.
pub(crate) fn tpdo_of(row: &PdoRow) -> DevicePdo {
    DevicePdo {
        direction: Direction::Transmit,
        node: row.node,
        number: row.tpdo,
    }
}

/// A PDO as it is called: TPDO 1 of node 5.
#[derive(Clone, Copy)]
pub(crate) struct PdoName(pub DevicePdo);

impl fmt::Display for PdoName {
    fn fmt<W: fmt::Write>(&self, f: &mut fmt::Formatter<W>) -> fmt::Result {
        let (node, number) = (self.0.node, self.0.number);
        let kind = match self.0.direction {
            Direction::Receive => "RPDO",
            Direction::Transmit => "TPDO",
        };
        write!(f, "{kind} {number} of node {node}")
    }
}

/// Ticks of 250 ns in microseconds.
#[derive(Clone, Copy)]
pub(crate) struct Micros(pub u64);

impl fmt::Display for Micros {
    fn fmt<W: fmt::Write>(&self, f: &mut fmt::Formatter<W>) -> fmt::Result {
        let (whole, rest) = (self.0 / 4, self.0 % 4);
        let part = match rest {
            0 => "",
            1 => ".25",
            2 => ".5",
            _ => ".75",
        };
        write!(f, "{whole}{part}")
    }
}

/// The devices that have a text: Valve, or Valve and 2 more.
#[derive(Clone, Copy)]
pub(crate) struct Devices<'t, 's, 'n>(pub Text<'t, 's, 'n>);

impl fmt::Display for Devices<'_, '_, '_> {
    fn fmt<W: fmt::Write>(&self, f: &mut fmt::Formatter<W>) -> fmt::Result {
        let name = str::from_utf8(self.0.row.name.as_bytes()).unwrap_or("the device");
        match self.0.others {
            0 => f.write_str(name),
            others => write!(f, "{name} and {others} more"),
        }
    }
}
