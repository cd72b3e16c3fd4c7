//! What is said of a TPDO whose row and SYNC's do not go with its transmission type.

use crate::words::Source;
use cop_net::{FrameKind, FrameRow, SyncFault, read_nodes, read_pdos};
use std::alloc::{AllocError, Global};

/// The row of SYNC, where it is sent.
fn sync_row(alloc: Global, nodes: &[u8]) -> Option<FrameRow> {
    let table = read_nodes(alloc, nodes).ok()?;
    for row in table.frames() {
        if row.kind == FrameKind::Sync && row.period != 0 {
            return Some(*row);
        }
    }
    None
}

/// The TPDO and the jitter of a record of the table of PDOs.
#[derive(Clone, Copy)]
pub(crate) struct SenderRow {
    pub node: u8,
    pub tpdo: u16,
    pub jitter: u32,
}

/// The sender of the PDO of a record.
pub(crate) fn sender(alloc: Global, pdos: &[u8], record: u64) -> Option<SenderRow> {
    let table = read_pdos(alloc, pdos).ok()?;
    let place = usize::try_from(record.checked_sub(1)?).ok()?;
    let row = table.rows().get(place)?;
    Some(SenderRow {
        node: row.node,
        tpdo: row.tpdo,
        jitter: row.jitter,
    })
}

/// What is said of so many times SYNC's period.
fn rare_words(alloc: Global, nodes: Source<'_>, every: u8) -> Result<String, AllocError> {
    let Some(sync) = sync_row(alloc, nodes.text) else {
        return Ok(String::new(alloc));
    };
    let (period, all) = (sync.period, u64::from(every) * u64::from(sync.period));
    format!(in alloc;
        "{every} times SYNC's period of {period} is {all} microseconds, and wanted are 60000000 at most: a lower type, or a shorter period of sync\n"
    )
}

/// What is said of SYNC's jitter and a latency after it.
fn late_words(
    alloc: Global,
    nodes: Source<'_>,
    pdos: Source<'_>,
    record: u64,
) -> Result<String, AllocError> {
    let Some(sync) = sync_row(alloc, nodes.text) else {
        return Ok(String::new(alloc));
    };
    let Some(sender) = sender(alloc, pdos.text, record) else {
        return Ok(String::new(alloc));
    };
    let (first, latency) = (sync.jitter, sender.jitter);
    let both = u64::from(first) + u64::from(latency);
    format!(in alloc;
        "SYNC's jitter of {first} and the latency of {latency} are {both} microseconds, and wanted are 40000000 at most\n"
    )
}

/// Which of the conditions is broken, with its numbers.
pub(crate) fn pace_words(
    alloc: Global,
    nodes: Source<'_>,
    pdos: Source<'_>,
    record: u64,
    fault: SyncFault,
) -> Result<String, AllocError> {
    match fault {
        SyncFault::NoPeriod => String::from_str(
            alloc,
            "it is sent by events, and wanted is its period, 100 to 60000000 microseconds\n",
        ),
        SyncFault::OwnPeriod => String::from_str(
            alloc,
            "it is sent by SYNC, and wanted are period 0 and its latency after SYNC in the column jitter\n",
        ),
        SyncFault::NoSync => {
            let name = nodes.name;
            format!(in alloc;
                "it is sent by SYNC, and wanted is a row of SYNC with a period in {name}, such as sync,0,,,10000,0\n"
            )
        }
        SyncFault::TooRare(every) => rare_words(alloc, nodes, every),
        SyncFault::TooLate => late_words(alloc, nodes, pdos, record),
    }
}
