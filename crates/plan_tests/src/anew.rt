//! Tests of how far numbers go with identifiers chosen anew.

use cop_frame::Rate;
use cop_plan::can_assign;
use cop_room::{RowRoom, room_anew};
use cop_rta::read_streams;
use std::alloc::Global;
use std::test::Fail;

/// A table whose first streams are the PDOs, and how far the numbers of one go at 1000 kbit/s.
struct Row {
    table: &'static [u8],
    pdos: usize,
    row: usize,
    room: RowRoom,
}

/// PDOs of 2, 8 and 4 bytes, and NMT.
const THREE: &[u8] =
    b"id,bytes,period,jitter,deadline\n0x181,2,10000,0,500\n0x182,8,10000,0,500\n0x183,4,5000,100,900\n0x0,2,100000,0,\n";

/// The limits are those of a search over all orders of the identifiers from 181h on.
const ROWS: &[Row] = &[
    Row {
        table: b"id,bytes,period,jitter,deadline\n0x181,8,10000,0,400\n0x182,8,10000,0,700\n",
        pdos: 2,
        row: 1,
        room: RowRoom {
            period: Some(137),
            jitter: 430,
            deadline: 270,
            bytes: 8,
        },
    },
    Row {
        table: THREE,
        pdos: 3,
        row: 2,
        room: RowRoom {
            period: Some(100),
            jitter: 595,
            deadline: 405,
            bytes: 8,
        },
    },
    Row {
        table: THREE,
        pdos: 3,
        row: 0,
        room: RowRoom {
            period: Some(100),
            jitter: 215,
            deadline: 285,
            bytes: 8,
        },
    },
];

fn is_told(alloc: Global, row: &Row) -> Result<bool, Fail> {
    let set = read_streams(alloc, row.table)?;
    if !can_assign(&set, row.pdos) || row.row >= row.pdos {
        return Ok(false);
    }
    let room = room_anew(alloc, &set, row.pdos, Rate::Kbit1000, row.row)?;
    Ok(room == row.room)
}

#[test]
fn numbers_go_as_far_as_some_order_lets_them(rt: HostRuntime) -> Result<(), Fail> {
    for row in ROWS {
        assert!(rt; is_told(rt.alloc(), row)?);
    }
    Ok(())
}
