//! The picture of a network with many devices, as inline SVG: a matrix of senders and receivers.

use crate::bars::ResponseBar;
use crate::devices::device_of;
use crate::pdos::bar_of;
use crate::units::{Count, Cut, Share};
use cop_figures::PdoTimes;
use cop_net::Network;
use std::alloc::{AllocError, Global};

/// From so many devices on the links of a picture would hide one another.
pub(crate) const MANY: usize = 40;

/// Where the cells begin, and how high a row is. The picture is 1,200 wide.
const LEFT: u64 = 180;

const TOP: u64 = 60;

const ROW: u64 = 16;

/// All PDOs that one device sends to another: how many there are, and the one with the least share of its deadline left.
#[derive(Clone, Copy)]
struct Cell {
    sender: u8,
    receiver: u8,
    count: usize,
    tightest: ResponseBar,
}

/// What a response uses of its deadline, in millionths.
fn used(bar: ResponseBar) -> u64 {
    bar.response.saturating_mul(1000000) / bar.deadline.max(1)
}

/// Counts a PDO in the cell of a sender and a receiver.
fn add_pdo(
    cells: &mut Vec<Cell>,
    sender: u8,
    receiver: u8,
    bar: ResponseBar,
) -> Result<(), AllocError> {
    for cell in cells.iter_mut() {
        if cell.sender == sender && cell.receiver == receiver {
            cell.count = cell.count.saturating_add(1);
            if used(cell.tightest) < used(bar) {
                cell.tightest = bar;
            }
            return Ok(());
        }
    }
    cells.push(Cell {
        sender,
        receiver,
        count: 1,
        tightest: bar,
    })?;
    Ok(())
}

/// The cells of a matrix that are not empty.
fn cells_of(
    alloc: Global,
    network: &Network<'_>,
    pdos: &[PdoTimes],
) -> Result<Vec<Cell>, AllocError> {
    let mut cells = Vec::new(alloc);
    for times in pdos {
        if let Some(row) = network.rows().get(times.pdo) {
            for consumer in row.consumers.as_slice() {
                add_pdo(&mut cells, row.node, consumer.node, bar_of(times))?;
            }
        }
    }
    Ok(cells)
}

/// The nodes that send, in the order of the devices.
fn senders_of(alloc: Global, network: &Network<'_>, cells: &[Cell]) -> Result<Vec<u8>, AllocError> {
    let mut nodes = Vec::new(alloc);
    for row in network.devices() {
        if cells.iter().any(|cell| cell.sender == row.node) {
            nodes.push(row.node)?;
        }
    }
    Ok(nodes)
}

/// The nodes that receive, in the order of the devices.
fn receivers_of(
    alloc: Global,
    network: &Network<'_>,
    cells: &[Cell],
) -> Result<Vec<u8>, AllocError> {
    let mut nodes = Vec::new(alloc);
    for row in network.devices() {
        if cells.iter().any(|cell| cell.receiver == row.node) {
            nodes.push(row.node)?;
        }
    }
    Ok(nodes)
}

/// Where a row or a column begins that has so many before it.
fn place(begin: u64, step: u64, before: usize) -> u64 {
    begin.saturating_add(step.saturating_mul(before as u64))
}

/// How wide a column is, if all of them have their places.
fn width_of(columns: usize) -> u64 {
    let width = 1020u64.checked_div(columns as u64).unwrap_or(0);
    width.min(24)
}

/// Adds the head of a column: the number of a receiver.
fn push_column(
    page: &mut String,
    network: &Network<'_>,
    node: u8,
    x: u64,
    bottom: u64,
) -> Result<(), AllocError> {
    let (device, top) = (device_of(network, node), TOP.saturating_sub(6));
    write!(
        page,
        "<a href=\"#node-{node}\"><text x=\"{x}\" y=\"{top}\" transform=\"rotate(-90 {x} {top})\"><title>{device}</title>{node}</text></a>\
<line x1=\"{x}\" x2=\"{x}\" y1=\"{TOP}\" y2=\"{bottom}\"/>\n"
    )
}

/// Adds the head of a row: a sender.
fn push_row(
    page: &mut String,
    network: &Network<'_>,
    node: u8,
    y: u64,
    right: u64,
) -> Result<(), AllocError> {
    let (name, line) = (Cut(device_of(network, node).name), y.saturating_add(8));
    let (end, text) = (LEFT.saturating_sub(8), y.saturating_add(12));
    write!(
        page,
        "<a href=\"#node-{node}\"><text x=\"{end}\" y=\"{text}\" text-anchor=\"end\">{node} {name}</text></a>\
<line x1=\"{LEFT}\" x2=\"{right}\" y1=\"{line}\" y2=\"{line}\"/>\n"
    )
}

/// Adds a cell at a place.
fn push_cell(
    page: &mut String,
    network: &Network<'_>,
    cell: Cell,
    x: u64,
    y: u64,
    width: u64,
) -> Result<(), AllocError> {
    let bar = cell.tightest;
    let (class, size) = (bar.margin().class(), width.saturating_sub(2));
    let (from, to) = (
        device_of(network, cell.sender),
        device_of(network, cell.receiver),
    );
    let pdos = Count {
        number: cell.count,
        thing: "PDO",
    };
    let share = Share {
        part: bar.deadline.saturating_sub(bar.response),
        whole: bar.deadline,
    };
    write!(
        page,
        "<rect class=\"{class}\" x=\"{x}\" y=\"{y}\" width=\"{size}\" height=\"14\">\
<title>{from} to {to}: {pdos}, {share} left at the tightest</title></rect>\n"
    )
}

/// Adds the cells of a row.
fn push_cells(
    page: &mut String,
    network: &Network<'_>,
    cells: &[Cell],
    receivers: &[u8],
    sender: u8,
    y: u64,
) -> Result<(), AllocError> {
    let width = width_of(receivers.len());
    for (column, receiver) in receivers.iter().enumerate() {
        for cell in cells {
            if cell.sender == sender && cell.receiver == *receiver {
                let x = place(LEFT.saturating_add(1), width, column);
                push_cell(page, network, *cell, x, y.saturating_add(1), width)?;
            }
        }
    }
    Ok(())
}

/// Adds the matrix of a network.
pub(crate) fn push_matrix(
    page: &mut String,
    alloc: Global,
    network: &Network<'_>,
    pdos: &[PdoTimes],
) -> Result<(), AllocError> {
    let cells = cells_of(alloc, network, pdos)?;
    let senders = senders_of(alloc, network, &cells)?;
    let receivers = receivers_of(alloc, network, &cells)?;
    let width = width_of(receivers.len());
    let (right, bottom) = (
        place(LEFT, width, receivers.len()),
        place(TOP, ROW, senders.len()),
    );
    let height = bottom.saturating_add(10);
    write!(
        page,
        "<p>A row for each device that sends, a column for each node that takes. Of the PDOs in a cell the colour is that of the tightest.</p>\n\
<svg class=\"net matrix\" viewBox=\"0 0 1200 {height}\" role=\"group\" aria-label=\"senders and receivers\">\n"
    )?;
    for (column, node) in receivers.iter().enumerate() {
        let middle = place(LEFT.saturating_add(width / 2), width, column);
        push_column(page, network, *node, middle, bottom)?;
    }
    for (line, node) in senders.iter().enumerate() {
        let y = place(TOP, ROW, line);
        push_row(page, network, *node, y, right)?;
        push_cells(page, network, &cells, &receivers, *node, y)?;
    }
    page.push_str("</svg>\n")
}
