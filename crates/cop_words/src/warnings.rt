//! What is said of warnings.

use crate::mappings::communication;
use crate::names::{PdoName, tpdo_of};
use cop_dict::Direction;
use cop_net::{DevicePdo, FrameKind, Network, PdoRow};
use cop_warn::Warning;
use std::alloc::{AllocError, Global};

/// The row of a record.
pub(crate) fn row_at<'b>(network: &'b Network<'_>, place: u64) -> Option<&'b PdoRow> {
    let before = usize::try_from(place.checked_sub(1)?).ok()?;
    network.rows().get(before)
}

fn deadline_words(alloc: Global, row: &PdoRow) -> Result<String, AllocError> {
    let (name, jitter, deadline) = (PdoName(tpdo_of(row)), row.jitter, row.deadline);
    format!(in alloc;
        "{name}: its deadline of {deadline} us is not above its jitter of {jitter} us, so it is late at every rate: give it a longer deadline, or a shorter jitter where the device keeps it\n"
    )
}

fn timer_words(alloc: Global, row: &PdoRow, millis: u64) -> Result<String, AllocError> {
    let (pdo, period) = (tpdo_of(row), row.period);
    let (name, index) = (PdoName(pdo), communication(pdo));
    format!(in alloc;
        "{name}: its event timer ({index:04X}h sub 5) is {millis} ms and its row's period {period} us, so it is sent more often than planned: set the timer to 0 or to the period, or the row to the timer\n"
    )
}

fn inhibit_words(alloc: Global, row: &PdoRow, units: u64) -> Result<String, AllocError> {
    let (pdo, period) = (tpdo_of(row), row.period);
    let (name, index) = (PdoName(pdo), communication(pdo));
    let micros = units.saturating_mul(100);
    format!(in alloc;
        "{name}: its inhibit time ({index:04X}h sub 3) is {micros} us and its row's period {period} us, so it may wait longer than planned: set the inhibit time to the period at most\n"
    )
}

/// What is said of an RPDO, of this node and number, that uses at once what comes by SYNC.
fn at_once_words(
    alloc: Global,
    row: &PdoRow,
    receiver: (u8, u16),
    kind: u64,
) -> Result<String, AllocError> {
    let (node, number) = receiver;
    let rpdo = DevicePdo {
        direction: Direction::Receive,
        node,
        number,
    };
    let (name, index) = (PdoName(tpdo_of(row)), communication(rpdo));
    let receiver_name = PdoName(rpdo);
    format!(in alloc;
        "{name} is sent by SYNC, and {receiver_name} uses it at once ({index:04X}h sub 2 is {kind}): give that RPDO a type of 0 to 240 if the node is to act with SYNC\n"
    )
}

/// The row of frames of a kind that devices lack.
fn row_word(kind: FrameKind) -> &'static str {
    match kind {
        FrameKind::Nmt => "nmt",
        FrameKind::Sync => "sync",
        FrameKind::Emcy => "emcy",
        FrameKind::SdoRequest => "sdo_request",
        FrameKind::SdoResponse => "sdo_response",
        FrameKind::Heartbeat => "heartbeat",
        FrameKind::Errors => "errors",
    }
}

/// What the EDS file of a device says that lacks a row of a kind.
fn described(kind: FrameKind) -> &'static str {
    match kind {
        FrameKind::Emcy =>
            "it sends EMCY frames (1014h), and these are not counted: add the row, with the least time between two as its period",
        FrameKind::SdoRequest => {
            "it has an SDO server (1200h sub 1): add the row if SDO is used while the machine runs"
        }
        FrameKind::SdoResponse => {
            "it has an SDO server (1200h sub 2): add the row if SDO is used while the machine runs"
        }
        FrameKind::Heartbeat => {
            "it begins with a heartbeat (1017h), which the plan switches off: add the row to keep it"
        }
        FrameKind::Nmt | FrameKind::Sync | FrameKind::Errors => "it sends them",
    }
}

/// The node whose frames of a kind a warning says to have no row.
fn without_row(warning: Warning, wanted: FrameKind) -> Option<u8> {
    match warning {
        Warning::NoRow { node, kind } if kind == wanted => Some(node),
        _ => None,
    }
}

/// What is said of frames of a node that have no row.
fn missing_words(alloc: Global, node: u8, kind: FrameKind) -> Result<String, AllocError> {
    let (row, said) = (row_word(kind), described(kind));
    format!(in alloc; "no row {row} of node {node}: by its EDS file {said}\n")
}

/// Adds the nodes whose frames of a kind have no row, in one line.
fn push_missing(
    words: &mut Vec<u8>,
    alloc: Global,
    warnings: &[Warning],
    kind: FrameKind,
) -> Result<(), AllocError> {
    let before = words.len();
    let row = row_word(kind);
    for warning in warnings {
        if let Some(node) = without_row(*warning, kind) {
            let said = if words.len() == before {
                format!(in alloc; "warning: no row {row} of node {node}")?
            } else {
                format!(in alloc; ", {node}")?
            };
            words.extend_from_slice(said.as_bytes())?;
        }
    }
    if words.len() != before {
        let said = described(kind);
        let line = format!(in alloc; ": by its EDS file {said}\n")?;
        words.extend_from_slice(line.as_bytes())?;
    }
    Ok(())
}

fn identifier_words(
    alloc: Global,
    node: u8,
    address: (u16, u8),
    cob_id: u64,
) -> Result<String, AllocError> {
    let (index, sub) = address;
    format!(in alloc;
        "node {node}: {index:04X}h sub {sub} is {cob_id:08X}h by its EDS file, another identifier than the one that the plan counts on, and perhaps that of a PDO: set it back in the device\n"
    )
}

/// What is said of a warning on a row.
fn row_words(alloc: Global, row: &PdoRow, warning: Warning) -> Result<String, AllocError> {
    match warning {
        Warning::DeadlineWithinJitter { .. } => deadline_words(alloc, row),
        Warning::EventTimer { millis, .. } => timer_words(alloc, row, millis),
        Warning::InhibitTime { units, .. } => inhibit_words(alloc, row, units),
        Warning::UsedAtOnce {
            node,
            rpdo,
            kind,
            ..
        } => at_once_words(alloc, row, (node, rpdo), kind),
        _ => Ok(String::new(alloc)),
    }
}

/// What is said of a warning on a device.
fn device_words(alloc: Global, warning: Warning) -> Result<String, AllocError> {
    match warning {
        Warning::OtherIdentifier {
            node,
            index,
            sub,
            cob_id,
        } => identifier_words(alloc, node, (index, sub), cob_id),
        Warning::MakesSync { node } => format!(in alloc;
            "node {node} makes SYNC itself by its EDS file (bit 30 of 1005h): it alone may, with the period of the row sync\n"
        ),
        Warning::TakesNothing { node, index, sub } => format!(in alloc;
            "node {node}: {index:04X}h sub {sub} takes no value by its EDS file: its LowLimit is above its HighLimit. Correct them, or leave them out\n"
        ),
        Warning::BothMakeSync { first, second } => format!(in alloc;
            "nodes {first} and {second} both make SYNC by their EDS files (bit 30 of 1005h): clear the bit in all devices but one\n"
        ),
        Warning::MakesTime { node } => format!(in alloc;
            "node {node} sends TIME (100h) by its EDS file (bit 30 of 1012h): these frames go before all PDOs, and no row counts them: clear the bit in the device\n"
        ),
        Warning::SyncPeriod { node, micros } => format!(in alloc;
            "node {node}: 1006h is {micros} us by its EDS file, and the period of the row sync is another: set one to the other\n"
        ),
        _ => Ok(String::new(alloc)),
    }
}

/// The record of a row that a warning is about.
pub(crate) fn place_of(warning: Warning) -> Option<u64> {
    match warning {
        Warning::DeadlineWithinJitter { place } => Some(place),
        Warning::EventTimer { place, .. } => Some(place),
        Warning::InhibitTime { place, .. } => Some(place),
        Warning::UsedAtOnce { place, .. } => Some(place),
        _ => None,
    }
}

/// What is said of a warning.
fn words_of(alloc: Global, network: &Network<'_>, warning: Warning) -> Result<String, AllocError> {
    let Some(place) = place_of(warning) else {
        return device_words(alloc, warning);
    };
    match row_at(network, place) {
        Some(row) => row_words(alloc, row, warning),
        None => Ok(String::new(alloc)),
    }
}

/// What is said of a warning, of each node for itself.
pub(crate) fn sentence_of(
    alloc: Global,
    network: &Network<'_>,
    warning: Warning,
) -> Result<String, AllocError> {
    match warning {
        Warning::NoRow { node, kind } => missing_words(alloc, node, kind),
        _ => words_of(alloc, network, warning),
    }
}

/// Adds what is said of a warning, if it is not on a row that is missing.
fn push_warning(
    words: &mut Vec<u8>,
    alloc: Global,
    network: &Network<'_>,
    warning: Warning,
) -> Result<(), AllocError> {
    let said = words_of(alloc, network, warning)?;
    if !said.is_empty() {
        words.extend_from_slice(b"warning: ")?;
        words.extend_from_slice(said.as_bytes())?;
    }
    Ok(())
}

/// What is said of the warnings of a network: a line each, and one for all nodes that lack a row of one kind.
pub(crate) fn warning_words(
    alloc: Global,
    network: &Network<'_>,
    warnings: &[Warning],
) -> Result<Vec<u8>, AllocError> {
    let mut words = Vec::new(alloc);
    for warning in warnings {
        push_warning(&mut words, alloc, network, *warning)?;
    }
    push_missing(&mut words, alloc, warnings, FrameKind::Emcy)?;
    push_missing(&mut words, alloc, warnings, FrameKind::SdoRequest)?;
    push_missing(&mut words, alloc, warnings, FrameKind::SdoResponse)?;
    push_missing(&mut words, alloc, warnings, FrameKind::Heartbeat)?;
    Ok(words)
}
