//! In which file and line a rule is broken.

use crate::explaining::{eds_of_record, file_of, network_of};
use crate::texts::Inputs;
use cop_net::{Refusal, Rule, Table};
use cop_orders::Order;
use cop_words::record_at;
use std::alloc::{AllocError, Global};

/// Where a rule is broken: in which file, and in which of its lines, as far as these are known.
#[derive(Drop)]
pub struct Spot {
    pub file: Option<String>,
    pub line: Option<u64>,
}

impl Spot {
    /// Neither is known.
    pub fn nowhere() -> Spot {
        Spot {
            file: None,
            line: None,
        }
    }
}

/// The spot of a record of a file.
fn record_spot(alloc: Global, name: &str, text: &[u8], record: u64) -> Result<Spot, AllocError> {
    Ok(Spot {
        file: Some(String::from_str(alloc, name)?),
        line: record_at(text, record).map(|place| place.line),
    })
}

/// The spot of a line of a file; line 0 is none.
fn line_spot(alloc: Global, name: &str, line: u64) -> Result<Spot, AllocError> {
    Ok(Spot {
        file: Some(String::from_str(alloc, name)?),
        line: if line > 0 { Some(line) } else { None },
    })
}

/// Where a network breaks its rule: in the line of an EDS file, or in a record of a table.
pub fn spot_in_network(
    alloc: Global,
    order: Order<'_>,
    inputs: &Inputs,
    refusal: &Refusal,
) -> Result<Spot, AllocError> {
    let Some(files) = network_of(order) else {
        return Ok(Spot::nowhere());
    };
    if let Rule::Eds(Some(broken)) = refusal.rule {
        if let Some(eds) = eds_of_record(alloc, files, inputs, refusal.place)? {
            return Ok(Spot {
                file: Some(eds.path),
                line: Some(broken.line as u64),
            });
        }
    }
    match refusal.table {
        Table::Nodes => record_spot(alloc, files.nodes, &inputs.network.nodes, refusal.place),
        Table::Pdos => record_spot(alloc, files.pdos, &inputs.network.pdos, refusal.place),
        Table::Settings => match files.setup {
            Some(name) => record_spot(alloc, name, &inputs.network.settings, refusal.place),
            None => Ok(Spot::nowhere()),
        },
    }
}

/// Where another input breaks a rule: in a record of a file, or in a line of a log or of an EDS file.
pub fn spot_of_refusal(
    alloc: Global,
    order: Order<'_>,
    inputs: &Inputs,
    number: u8,
    place: u64,
) -> Result<Spot, AllocError> {
    match order {
        Order::Tidy(order) => line_spot(alloc, order.input, place),
        Order::Watch { log, .. } if number >= 90 => line_spot(alloc, log.log, place),
        Order::AsIs(files) => record_spot(alloc, files.pdos, &inputs.network.pdos, place),
        order => match file_of(order, number) {
            Some(name) => record_spot(alloc, name, &inputs.other, place),
            None => Ok(Spot::nowhere()),
        },
    }
}
