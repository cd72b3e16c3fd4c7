//! The streams of a network whose table of nodes has a row of disturbed transfers.

use crate::networks::{USUAL, VALVE_PDO, nodes_of, streams_of};
use cop_rta::Stream;
use std::test::Fail;

/// The valve with NMT and SYNC, before a row of disturbed transfers.
const ON_THE_BUS: &str =
    "sync,0,,,10000,0\ndevice,5,Valve,unit.eds,0,0\nemcy,5,,,100000,0\nnmt,0,,,100000,0\n";

/// A row of disturbed transfers, and the identifiers, bytes, periods and jitters of the streams.
const DISTURBED: &[(&str, &[(u16, u8, u64, u64)])] = &[
    (
        "errors,0,,,250000,100\n",
        &[
            (0x181, 8, 40_000, 0),
            (0x001, 2, 400_000, 0),
            (0x080, 0, 40_000, 0),
            (0x085, 8, 400_000, 0),
            (0x000, 9, 1_000_000, 400),
        ],
    ),
    (
        "errors,0,,,0,100\n",
        &[
            (0x181, 8, 40_000, 0),
            (0x000, 2, 400_000, 0),
            (0x080, 0, 40_000, 0),
            (0x085, 8, 400_000, 0),
        ],
    ),
];

/// Whether a stream has these numbers, and a deadline if it is the PDO's.
fn has_numbers(stream: &Stream, wanted: Option<&(u16, u8, u64, u64)>) -> bool {
    match wanted {
        Some((id, bytes, period, jitter)) => {
            (stream.id == *id && stream.bytes == *bytes)
                && (stream.period == *period && stream.jitter == *jitter)
                && stream.deadline.is_some() == (*id == 0x181)
        }
        None => false,
    }
}

#[test]
fn disturbed_transfers_are_the_last_stream(rt: HostRuntime) -> Result<(), Fail> {
    for case in DISTURBED {
        let (row, wanted) = *case;
        let rows = format!(in rt.alloc(); "{ON_THE_BUS}{row}")?;
        let nodes = nodes_of(rt.alloc(), &rows)?;
        let streams = streams_of(rt.alloc(), &nodes, VALVE_PDO, USUAL)?;
        assert!(rt; streams.len() == wanted.len(), "{row}");
        let mut wanted = wanted.iter();
        for stream in streams.iter() {
            assert!(rt; has_numbers(stream, wanted.next()), "{row}");
        }
    }
    Ok(())
}
