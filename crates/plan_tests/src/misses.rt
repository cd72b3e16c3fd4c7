//! Tests of what a rate misses a plan by.

use cop_frame::Rate;
use cop_plan::can_assign;
use cop_room::{Stretch, nearest_miss};
use cop_rta::read_streams;
use std::alloc::Global;
use std::test::Fail;

/// A table whose first streams are the PDOs, and what it misses a plan at 1000 kbit/s by.
struct Row {
    table: &'static [u8],
    pdos: usize,
    stretch: Option<Stretch>,
    spare: &'static [usize],
}

const ROWS: &[Row] = &[
    // Both transfers take 270 us, and 200 us in 1345 thousandths are 269 us.
    Row {
        table: b"id,bytes,period,jitter,deadline\n0x181,8,10000,0,400\n0x182,8,10000,0,200\n",
        pdos: 2,
        stretch: Some(Stretch {
            thousandths: 1346,
            tightest: Some(1),
        }),
        spare: &[],
    },
    // NMT takes 75 us, EMCY 135 us: the PDO ends after 345 us, without NMT after 270 us, and without EMCY after 210 us.
    Row {
        table: b"id,bytes,period,jitter,deadline\n0x181,8,10000,0,250\n0x0,2,100000,0,\n0x81,8,100000,0,\n",
        pdos: 1,
        stretch: Some(Stretch {
            thousandths: 1377,
            tightest: Some(0),
        }),
        spare: &[2],
    },
    // It has no time to send all.
    Row {
        table: b"id,bytes,period,jitter,deadline\n0x181,8,100,0,100\n",
        pdos: 1,
        stretch: None,
        spare: &[],
    },
    // It passes as it is.
    Row {
        table: b"id,bytes,period,jitter,deadline\n0x181,8,10000,0,5000\n0x0,2,100000,0,\n",
        pdos: 1,
        stretch: Some(Stretch {
            thousandths: 1001,
            tightest: Some(0),
        }),
        spare: &[1],
    },
];

fn is_told(alloc: Global, row: &Row) -> Result<bool, Fail> {
    let set = read_streams(alloc, row.table)?;
    if !can_assign(&set, row.pdos) {
        return Ok(false);
    }
    let miss = nearest_miss(alloc, &set, row.pdos, Rate::Kbit1000)?;
    Ok(miss.stretch == row.stretch && miss.spare.as_slice() == row.spare)
}

#[test]
fn longer_deadlines_and_spare_frames_are_told(rt: HostRuntime) -> Result<(), Fail> {
    for row in ROWS {
        assert!(rt; is_told(rt.alloc(), row)?);
    }
    Ok(())
}
